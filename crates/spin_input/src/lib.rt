//! The bytes of a source, and the job, the request or the steps that they are.
//!
//! A source is read to its end, its bytes to a JSON value, and that to an input of the kind that is asked for; or there is the
//! one refusal that they have. How long an input may be is this project's own.
#![tactic(auto)]

mod kinds;
mod reading;
mod texts;

pub use kinds::Input;
pub use reading::{job_of_text, read_input, read_job, read_request, read_steps};
