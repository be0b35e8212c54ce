//! Application graphs, as a job describes them: named vertices, nets that join them, and how the job is to run.
//!
//! The types alone, and which graphs are valid. Reading them from a job's text, placing vertices and giving keys to nets
//! are crates of their own. The limits are this project's own.
#![tactic(auto)]

mod graphs;

pub use graphs::{Graph, Net, RunPart, Vertex};
