//! Rounds on threads: the router and the bank of cores of each live chip take turns, in workers that share nothing but the links between
//! them, the routers' tables and a gate.
//!
//! The actors, a router and then a bank for each live chip, are split in runs of equal length, one for each worker. A queue whose sender
//! and receiver stand in one run is a lane of that worker's share; any other is a link. A mesh is split into shares once, and stays so
//! from round to round. All memory of a round is taken before its first turn. Routers, ports and links are those of the SpiNNaker
//! datasheet; workers, turns and rounds are this project's own.
#![tactic(auto)]

mod crossing;
mod floors;
mod footing;
mod gathering;
mod homes;
mod layout;
mod paces;
mod queues;
mod raised;
mod rooms;
mod shares;
mod splitting;
mod standing;

pub use layout::Layout;
pub use paces::{Pace, Round};
pub use raised::RaisedMesh;
