//! Answers steps with applications on one machine: loads, unloads and runs, in one line each.
//!
//! `answer` takes the machine of the first load, places the vertices of each load on the cores that are free, routes its nets as
//! compiling does, and has `app_loads` do the rest. Lines, and the order in which they come, are this project's own.
#![tactic(auto)]

mod answers;
mod hosts;
mod laws;
mod lines;
mod plans;

pub use answers::{Answered, answer};
pub use hosts::{LoadAnswer, UnloadAnswer};
pub use laws::steps_have_one_text;
