// What a worker holds: ends of queues, what vertices did not send yet, and logs with room for what its turns may log.
ghost use Rattle.std.specs.Prelude.{◌≤◌};

use crate::ends::End;
use crate::logs::Log;
use link_queue::Link;
use spin_base::{Delivery, DumpRec, Fifo, McCopy, Shared};

/// What a worker holds of each queue, at the queue's place; of each vertex the copies that it did not send, where the vertex is on one
/// of the worker's chips; and the deliveries and dump records of its turns.
#[derive(Drop)]
pub struct Holdings {
    pub ends: Vec<End>,
    pub unsent: Vec<Fifo<McCopy>>,
    pub dumps: Log<DumpRec>,
    pub deliveries: Log<Delivery>,
}

impl Shared for Holdings {}

/// What turns are given under: all links between workers, how many copies a queue holds at most, and how often a router offers a copy.
#[derive(Clone, Copy)]
pub struct Around<'a> {
    pub links: &'a [Link],
    pub capacity: u32,
    pub patience: u32,
    ghost some: { 1 ≤ capacity },
    ghost patient: { 1 ≤ patience },
}

/// What came of a turn.
#[derive(Clone, Copy, PartialEq, Eq)]
pub enum Turn {
    /// A copy was moved.
    Moved,
    /// Nothing was there to move.
    Nothing,
    /// There may be something to move, and no room for it.
    Waits,
}
