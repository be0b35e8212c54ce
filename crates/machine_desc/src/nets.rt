// A net, planned.
use crate::Tree;
use spin_base::{Block, Seq, Shared, Spot};

/// What a net needs on the machine: its keys, the core that sends, the cores and devices that receive, and the tree between.
/// Where compiling made it, its targets are different, and in order of x, then y, then core.
#[derive(Drop)]
pub struct NetPlan {
    pub block: Block,
    pub source: Spot,
    pub targets: Seq<Spot>,
    pub tree: Tree,
}

impl Shared for NetPlan {}
