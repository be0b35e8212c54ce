//! What each word that reads a job, or generates one, makes of it.
//!
//! `made_of_job` compiles a job, and then runs it, traces its events, or writes the image or the list of its tables: it gives
//! the parts of the outcome and the whole text, or why the job has no plan. Where the job comes from, and where its text goes,
//! is no matter here.
//!
//! The words and what they make are this project's own.
#![tactic(auto)]

mod makes;
mod outcomes;
mod planned_jobs;
mod plans;
mod runs;
mod words;

pub use outcomes::{Made, Parts};
pub use plans::made_of_job;
