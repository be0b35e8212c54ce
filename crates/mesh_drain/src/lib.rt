//! Opens the mesh of a job, and brings packets to their targets on one thread, on every machine.
//!
//! `open_mesh` puts each packet unsent to its net's source, in the order of the list. `drain` moves what waits, until
//! nothing waits, and then brings packet after packet to its targets: its source sends it, and it goes on from router to router
//! until all its copies are delivered, before the next packet is sent. So no queue is ever full then, and no copy is dropped. That
//! it goes packet by packet is this project's own; routers and queues are those of the mesh.
#![tactic(auto)]

mod draining;
mod opening;
mod settling;
mod waiting;

pub use draining::{drain, drain_from, send_first};
pub use opening::open_mesh;
