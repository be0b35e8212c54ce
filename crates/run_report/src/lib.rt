//! The report of a run, and the text of a plan that is not run.
//!
//! `report_of` gathers what a plan says and what a mesh holds after a run, for every machine, each list in its order, and
//! `text_of` writes it by lines. `plan_text` writes the lines of a plan that is not run, and `summary_text` the four
//! lines of a generated job. A plan is given by its parts: a `PlannedGraph`, which is the
//! graph with the spots and nets that it has on the machine, and the image of its tables. The report and its text are this project's own;
//! placement, keys, tables and routes are those of the SpiNNaker datasheet.
//!
//! Why a call of the program gives no text of its own: each refusal with its status and its line.
//!
//! Statuses and lines are this project's own.
#![tactic(auto)]

mod causes;
mod digits;
mod fronts;
pub mod laws;
mod lines;
mod lists;
mod named;
mod orders;
mod planned;
mod plans;
mod reports;
mod summaries;
mod texts;
mod unsents;
mod waits;

pub use causes::Refusal;
pub use lines::{OUT_OF_MEMORY, line_of};
pub use named::NamedDeliveries;
pub use planned::PlannedGraph;
pub use plans::plan_text;
pub use reports::{Report, report_of};
pub use summaries::summary_text;
pub use texts::{put, put_chip_and_count, put_table, text_of};
