// The router and the bank of a chip, and what they stand between.
ghost use Rattle.std.specs.Prelude.{◌≡◌, ◌<◌, length};

use spin_base::{Chip, Shared};
use tcam_find::Tcam;

/// The queue behind an output: its place, and the place among all actors of who takes from it.
#[derive(Clone, Copy)]
pub struct Behind {
    pub place: u32,
    pub taker: u32,
}

/// A live chip's router: the chip and its index, its table, and for each output, by its bit number, the queue behind it, where there is
/// one. It has no plan and no net.
#[derive(Clone, Copy)]
pub struct RouterNode<'a> {
    pub chip: Chip,
    pub index: u32,
    pub table: &'a Tcam,
    pub behind: &'a [Option<Behind>],
    ghost within: { index < 4096 },
    ghost outputs: { length behind.now ≡ 24 },
}

/// The vertices of a live chip: on its cores, and devices on its links. The queue of vertex `v` has the place `cores + v`, and the
/// injection queue that of the chip's local port.
#[derive(Drop)]
pub struct CoreBank {
    pub index: u32,
    pub cores: u32,
    pub vertices: Vec<u32>,
    ghost within: { index < 4096 },
}

impl Shared for CoreBank {}
