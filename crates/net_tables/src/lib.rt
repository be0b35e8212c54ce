//! Plain tables: for each chip one row for each net whose tree has the chip, before any two rows are joined.
//!
//! Which outputs a tree wants, and at which port packets come in, are those of `machine_desc`; the order of rows is this
//! project's own.
#![tactic(auto)]

mod gather;
mod laws;
pub mod marks;
mod plain;
mod rows;
mod turning;

pub use gather::original_blocks;
pub use laws::{plain_tables_are_determined, tables_of_original_blocks_are_plain};
pub use plain::plain_tables;
pub use rows::{in_row_order, plain_table};
pub use turning::{goes_straight, turning_blocks};
