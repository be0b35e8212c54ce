// A tree that grows, and how far it is searched.
ghost use Rattle.std.specs.Prelude.{◌≤◌, All};
ghost use Rattle.machine_desc.specs.Live.{IsInside};

use crate::marks::Marks;
use machine_desc::Edge;
use spin_base::Chip;

// A tree that grows: its root, its edges so far, and for each chip whether the tree has it.
#[derive(Drop)]
pub struct GrowingTree<'m> {
    pub root: Chip,
    pub edges: Vec<Edge>,
    pub on: Marks<'m>,
    ghost root_inside: { IsInside on.machine.now root },
    ghost edges_inside: { All (λ e. IsInside on.machine.now e.chip) edges.items },
}

// How many chips a window has to each side of its centre.
#[derive(Clone, Copy)]
pub struct Radius {
    pub chips: u8,
    ghost narrow: { chips ≤ 20 },
}
