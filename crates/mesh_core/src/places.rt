// Where a copy is, and what a step answers.
use spin_base::{Chip, Out, Port};

/// Whether an event was enabled: the mesh moved, or nothing changed.
#[derive(Clone, Copy, PartialEq, Eq)]
pub enum Did {
    Moved,
    Idle,
}

/// A place where a copy waits.
#[derive(Clone, Copy, PartialEq, Eq)]
pub enum Place {
    /// The input queue of a chip's port.
    InQueue(Chip, Port),
    /// The hand of a chip's router, for one output.
    Hand(Chip, Out),
    /// The queue of a core, by its chip and number.
    CoreQueue(Chip, u8),
}

/// Where a target's copy of a packet is.
#[derive(Clone, Copy, PartialEq, Eq)]
pub enum Where {
    Unsent,
    At(Place),
    /// The place in the list of deliveries.
    Delivered(usize),
    /// The place in the list of dump records.
    Dumped(usize),
}
