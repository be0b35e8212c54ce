//! Reads what is to be checked: a job, a tree for each of its nets, and the bytes of an image, in one JSON object.
//!
//! The format is this project's own.
//!
//! Reads a list of steps with applications on one machine: loads, unloads and runs.
//!
//! The format is this project's own.
#![tactic(auto)]

mod entries;
mod requests;
mod steps;

pub use requests::{Request, request_of};
pub use steps::{AppJob, Step, steps_of};
