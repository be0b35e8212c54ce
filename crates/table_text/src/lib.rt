//! Shorter tables as text.
//!
//! The text has for each table the lines of the report, and before those of a table that could not be cut a line that says so. The
//! format is this project's own.
#![tactic(auto)]

mod writing;

pub use writing::{ShortTable, tables_text};
