//! Tables of any tool in, shorter ones out.
//!
//! `minimise` reads tables, shortens each, and writes them; or it writes one line that says why not. What a shorter table is, the
//! text and the refusals are this project's own.
#![tactic(auto)]

mod inputs;
mod outcomes;
mod shorter;
mod tops;

pub use outcomes::Outcome;
pub use tops::minimise;
