//! Keys of nets: each net has a block of keys of its own, whose size is a power of two.
//!
//! `keys` gives the nets their blocks. A net may have a block that the job fixes, as for a device that knows its keys; these
//! are taken first, those of later nets too. Each other net, in the order of the list, gets the least free range of keys that
//! begins at a multiple of its size. The rules are this project's own; blocks are those of the SpiNNaker datasheet.
#![tactic(auto)]

mod alloc;
mod fixed;
mod free;
mod laws;

pub use alloc::{KeyErr, keys};
pub use laws::right_blocks_are_determined;
