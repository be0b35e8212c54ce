//! The words of the command line: which command they are, or none.
//!
//! The words are this project's own.
#![tactic(auto)]

mod commands;
mod numbers;

pub use commands::{Command, JobWord, command_of};
