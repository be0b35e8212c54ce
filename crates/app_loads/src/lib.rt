//! Applications that share one machine: each is loaded and unloaded by its number, alone.
//!
//! `Apps` has a mesh with a vertex on each usable core of a machine, and regions of keys, of each chip's shared memory and of each
//! chip's table entries. An application gets ranges of them when it is loaded, and leaves them, with all that is its own, when it
//! is unloaded. Its rows are plain, so that none takes a key that another leaves to default routing. Regions, numbers and refusals
//! are this project's own; routers and tables those of the SpiNNaker datasheet.
#![tactic(auto)]

mod answers;
mod apps;
mod arrivals;
mod claims;
mod deliveries;
mod drains;
mod group;
mod groups;
mod known;
pub mod laws;
mod leaving;
mod loaded;
mod loads;
mod meshes;
mod opening;
mod places;
mod plans;
mod regions;
mod rows;
mod sends;
mod steps;
mod unloads;

pub use answers::{Ended, LoadErr, LoadRefusal, UnloadErr};
pub use apps::Apps;
pub use deliveries::Deliveries;
pub use loaded::{Claim, LoadedApp, Range};
pub use places::Region;
pub use plans::{AppNet, AppPlan};
