//! The lookup memory of a router: 1,024 entries, of which the first that matches a packet's key gives its route.
//!
//! `Tcam` is seen as the list of its entries. `Tcam::empty`, `clear` and `entry` are operations on that list, and
//! `find` is the lookup of the SpiNNaker datasheet on it, eight entries at a time. Rows are put into a `RoomyTcam`, a memory that got
//! `Room` for them: `Room::new` is the one call that may be refused memory.
#![tactic(auto)]

mod groups;
mod held;
mod known;
mod lanes;
mod memory;
mod roomy;

pub use memory::Tcam;
pub use roomy::{Room, RoomyTcam};
