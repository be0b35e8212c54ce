//! Trees round dead links: what is left of a routing tree when links of the machine are dead, joined again to its
//! targets by the shortest detours over live links.
//!
//! Detours and their ties are this project's own.
#![tactic(auto)]

mod detours;
mod edges;
mod grounds;
mod prunes;
mod repairs;
mod roads;
mod searches;
mod sets;
mod tables;
mod trims;

pub use detours::tree_reach;
pub use grounds::{BrokenTree, Chips, Ground, RootedEdges};
pub use repairs::{RepairErr, repair};
pub use roads::Roads;
pub use searches::seed_table;
