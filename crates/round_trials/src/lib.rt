//! The program's own call, tried from bytes to bytes: what the word `run` writes of two chips whose workers a gate holds in an order,
//! which phases a run enters, and what is left where a read or a write fails.
//!
//! The mesh of a job, tried there, too: what one round makes of it, and where a copy is.
#![tactic(auto)]

#[cfg(test)]
mod calls;
#[cfg(test)]
mod gates;
#[cfg(test)]
mod meshes;
