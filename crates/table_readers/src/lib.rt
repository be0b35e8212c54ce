//! Tables of any tool as JSON.
//!
//! An object has the member `tables`, a list of tables, and may have the member `target`, to how many rows each is to be shortened.
//! A table is an object of `x` and `y`, its chip, and `rows`: lists of a key, a mask and a route, all whole numbers,
//! and of a fourth where it is told by which link the row's packets come in. The format is this project's own.
#![tactic(auto)]

mod asking;

pub use asking::{Asked, GivenTable, asked_of};
