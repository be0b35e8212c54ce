//! The machine core: routers, queues and vertices of every chip as lists, and the five events that move copies.
//!
//! Routers, ports, tables and default routes are those of the SpiNNaker datasheet. The step, the queues' capacity and
//! the ledger of copies are this project's own.
#![tactic(auto)]

mod hands;
pub mod laws;
mod meshes;
mod parts;
mod places;
mod queues;
mod setups;
mod steps;
mod tables;
mod whereabouts;

pub use hands::Hand;
pub use meshes::Mesh;
pub use parts::MeshParts;
pub use places::{Did, Place, Where};
pub use queues::Queue;
pub use setups::MeshSetup;
