//! Compiles a graph for a machine: where its vertices stand, which keys its nets have, their trees, and the chips' tables.
//!
//! `compile` joins the stages, each of which is a crate of its own: placement, keys, targets, trees with their detours, plain
//! tables, and final tables, which workers cover and strip side by side. It says which vertex, net or chip is the first that
//! cannot be served, and promises that the tables, loaded, are right for the nets. `image_of` is the image of the tables, and
//! `memories_of` what a loader fills from its bytes: right tables for the nets, too.
#![tactic(auto)]

mod chip_tables;
mod compiling;
mod images;
mod requests;
mod short_tables;
mod workers;

pub use compiling::{CompileErr, Plan, compile};
pub use images::{image_of, images_fill_their_tables, memories_of};
pub use requests::CompileRequest;
