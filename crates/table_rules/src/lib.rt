//! Shorter tables: the rows of a router's table, of any tool, in any order, which may overlap.
//!
//! The first row that has a key decides. So each row decides for the keys of its block that no earlier row has, and these are cut
//! into blocks, its aliases (`block_cuts`). With them the rows are a sound table, which is covered (`cover_merge`): rows of one
//! route are joined, and each key of each alias keeps its route. Then rows go whose packets go on by default as the row would send
//! them (`default_routes`). Or the aliases are joined by pairs, one route after another, so that none meets one of a later route; the
//! shorter table is taken. With a row of all keys behind them, none of them gets a key that no given row has. How a table is made of
//! rows, and when it is given back as it is, is this project's own; tables are those of the SpiNNaker datasheet.
#![tactic(auto)]

mod choosing;
mod freeing;
mod joining;
mod making;
mod pieces;
mod putting;
mod routes;
mod rows;
mod shortening;
mod walling;

pub use rows::RoutedBlock;
pub use shortening::shorten_rows;
pub use walling::shorten_within;
