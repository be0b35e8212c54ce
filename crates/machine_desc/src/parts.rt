// What a machine is made of.
ghost use Rattle.std.specs.Prelude.{◌<◌, ◌≤◌, All};

use crate::trees::Edge;
use spin_base::{Chip, Seq, Spot};

/// The parts of a machine: its grid of `width` by `height` chips, 1 to 64 each, closed to a torus where `wrap`, the bytes
/// of shared memory of each chip, and which chips, cores and links of the grid are dead. Dead parts may be listed more
/// than once; a listed link is dead from both ends; listed cores above 17 and links that lead nowhere change nothing.
#[derive(Drop)]
pub struct MachineParts {
    pub width: u8,
    pub height: u8,
    pub wrap: bool,
    pub sdram: u32,
    pub dead_chips: Seq<Chip>,
    pub dead_cores: Seq<Spot>,
    pub dead_links: Seq<Edge>,
    pub ghost width_fits: { (1 ≤ width) × (width ≤ 64) },
    pub ghost height_fits: { (1 ≤ height) × (height ≤ 64) },
    pub ghost chips_inside: { All (λ c. (c.x < width) × (c.y < height)) dead_chips },
    pub ghost cores_inside: { All (λ s. (s.chip.x < width) × (s.chip.y < height)) dead_cores },
    pub ghost links_inside: { All (λ e. (e.chip.x < width) × (e.chip.y < height)) dead_links },
}
