// Routing trees, as lists of links.
use spin_base::{Chip, Dir, Seq, Shared};

/// A link, by the chip that it leaves and its number there.
#[derive(Clone, Copy, PartialEq, Eq)]
pub struct Edge {
    pub chip: Chip,
    pub dir: Dir,
}

/// A tree of links: the chip where a packet sets out, and the links by which it goes on. Those that this project makes are in
/// order of x, then y, then the link's number.
#[derive(Drop)]
pub struct Tree {
    pub root: Chip,
    pub edges: Seq<Edge>,
}

impl Shared for Tree {}
