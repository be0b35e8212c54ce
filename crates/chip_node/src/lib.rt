//! What a chip does in a round: its router, and the bank of its cores and devices, each with its own ends of queues.
//!
//! A worker holds a queue's both ends, one of them, or none. A queue whose both ends it holds is a lane of its own. Of any other it
//! holds an end of a link, whose other end another worker holds. A router takes a copy at one of its ports, looks up its outputs,
//! and serves each of them: it offers the copy, with one hop more, as often as its patience allows, and drops it with a record where
//! the queue refused it each time. A bank offers the unsent copies of its vertices to the chip's injection queue, and takes what came
//! for them. No turn takes memory: where there is no room for what a turn may need, it takes nothing. Routers and routes are those
//! of the SpiNNaker datasheet; patience, turns and records are this project's own.
#![tactic(auto)]

mod banks;
mod ends;
mod flags;
mod holdings;
mod lanes;
mod logs;
mod nodes;
mod rings;
mod routers;
mod routing;

pub use ends::{End, InEnd, OutEnd, Served};
pub use flags::Flags;
pub use holdings::{Around, Holdings, Turn};
pub use lanes::Lane;
pub use logs::Log;
pub use nodes::{Behind, CoreBank, RouterNode};
