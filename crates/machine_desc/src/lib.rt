//! The machine as the layers above see it: a grid of chips with its dead parts, the far end of each link, which chips,
//! links and cores are live, and on which spots a vertex can stand; and routing trees, which lead a packet over live links
//! from one chip to all chips that want it.
//!
//! Public calls: `Machine::new`, `Machine::copy`, the queries, each of constant time, and the law that each link leads
//! there and back. `Tree` and `Edge` are the trees' types, `PerChip` a table over a machine's chips. Links and their
//! numbers are those of the SpiNNaker datasheet; lists of dead parts and devices on links are this project's own.
//!
//! Nets with their keys, spots and trees, the outputs that lead to spots, and what it means that routers' tables are right
//! for nets.
//!
//! Which outputs a tree wants at a chip, and at which port packets arrive there, follow the tree (Navaridas and
//! others, 2015, for trees of links; SpiNNaker datasheet for outputs and ports).
#![tactic(auto)]

mod grids;
mod machines;
mod nets;
mod outputs;
mod parts;
mod per_chip;
mod steps;
mod trees;

pub use machines::Machine;
pub use nets::NetPlan;
pub use outputs::out_of;
pub use parts::MachineParts;
pub use per_chip::PerChip;
pub use trees::{Edge, Tree};
