//! Ternary blocks, and the table types whose rows have them.
//!
//! A block is a key and a mask of 32 bits: the set of keys whose bits under the mask are the key (SpiNNaker
//! datasheet). `matches`, `intersects` and `generality` ask of blocks, `merge_of` and `block_of` make them. A row
//! of a table has a block, a route, and the original blocks that it stands for, its aliases; what makes a table
//! sound, and which original blocks it serves, is stated beside the types, for the layers above, and `is_sound` tells
//! of a table that comes with no proof.
#![tactic(auto)]

mod blocks;
mod soundness;
mod tables;

pub use blocks::{block_of, generality, intersects, matches, merge_of, merge_two};
pub use soundness::{is_sound, lies_in, misses};
pub use tables::{Alias, Row, Table};
