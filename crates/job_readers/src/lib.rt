//! Reads a job out of a JSON value: its version, its machine, its graph, and how it is to run.
//!
//! `version_of`, `machine_of`, `graph_of` and `run_of` read one part each of the job that stands at a path. Called in this
//! order, as `job_of` does, they give the job, or the first of its faults in the order of reading, with its path. Which
//! versions are read is the caller's to say, and which members a graph has follows from its job's version. `specs/` lists
//! all faults of a part in that order, and what the part is. `each_item` is the loop over a list whose items are of one kind,
//! which an `ItemReader` reads. The format is this project's own.
#![tactic(auto)]

mod blocks;
mod devices;
mod entries;
mod events;
mod fixed_blocks;
mod graph_parts;
mod items;
mod jobs;
mod machine_parts;
mod members;
mod named_vertices;
mod names;
mod run_parts;
mod valid_graphs;
mod versions;

pub use events::items_in;
pub use graph_parts::graph_of;
pub use items::{ItemReader, each_item};
pub use jobs::{GREATEST_VERSION, Job, job_of};
pub use machine_parts::{Links, machine_of};
pub use run_parts::run_of;
pub use versions::version_of;
