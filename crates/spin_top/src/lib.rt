//! The whole chain: words and bytes in, a text out.
//!
//! `spin` reads a job, compiles it, runs it on the mesh, traces its events, or writes the image or the list of its tables; it
//! makes the job of a number, and runs it; it reads a request, and checks the tables in it; or it reads steps with applications,
//! and does them. Where there is nothing to give, it
//! writes one line that says why. Each stage is a function from values to values, in a crate of its own: words to a command,
//! bytes to a job or a request, a job to a plan, a plan to a mesh after packets or events, these to a report, and a report to its
//! text; a request to its answer, and steps to theirs. The clauses of `spin` say what holds of all of them together.
//!
//! The words, the limits and the refusals are this project's own.
#![tactic(auto)]

mod answers;
mod inputs;
mod outcomes;
mod tops;

pub use outcomes::Outcome;
pub use run_report::Refusal;
pub use spin_jobs::Parts;
pub use spin_words::{Command, JobWord, command_of};
pub use tops::spin;
