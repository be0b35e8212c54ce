//! What each net needs on the machine, once vertices have cores and nets have blocks: its target cores, and its tree.
//!
//! Trees are those of neighbour-exploring routing (Navaridas and others, 2015), grown to the target chips in the order of
//! their distance from the source, with detours round dead links. The order of targets and the detours are this project's
//! own.
#![tactic(auto)]

mod boards;
mod laws;
mod nets;
mod orders;
mod targets;

pub use boards::TargetVertices;
pub use laws::{plans_are_determined, targets_are_determined};
pub use nets::{NetErr, PlacedGraph, PlacedNet, net_plan, net_plans};
pub use targets::{NetEnds, target_chips, targets_of};
