//! Placement: on which chip and core each vertex stands, and where its memory begins.
//!
//! `place` goes through the vertices in the order of the list. Each stands on the first chip with room, in the order of
//! Hilbert's curve, or on the chip that it names; a device stands at its link. `curve` gives that curve. `FreeCores` places graphs
//! one after another, each on the cores that those before it left. The rules are this project's own.
#![tactic(auto)]

mod boards;
mod curves;
mod free_cores;
mod laws;
mod placing;
mod rooms;

pub use curves::curve;
pub use free_cores::FreeCores;
pub use laws::placements_are_determined;
pub use placing::{PlaceErr, Placement, place};
