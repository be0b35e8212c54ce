//! A block of keys less other blocks, as blocks.
//!
//! In a router's table the first row that has a key decides. So a row decides for the keys of its block that no earlier row has.
//! `cut` gives these as blocks of which no two meet: the block is cut by each earlier block in turn, bit by bit. Where the first
//! cares for a bit and the second does not, the half with the other value is apart from it, and the half with its value is cut
//! further. How a block is cut is this project's own; blocks are those of the SpiNNaker datasheet.
#![tactic(auto)]

mod cutting;
mod halves;

pub use cutting::cut;
pub use halves::meets;
