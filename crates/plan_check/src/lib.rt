//! Checks tables that other tools made: whether every key of every net is routed as the net's tree says.
//!
//! `good` tells whether a tree that was handed in is a routing tree. `check` judges the tables of an image, net by net and
//! chip by chip, by the first row that meets the net's keys: its yes means right tables, its no names net, chip and key.
//! Entries, lookup and default routes are those of the SpiNNaker datasheet; the order of the verdict is this project's own.
#![tactic(auto)]

mod flaws;
mod laws;
mod places;
mod trees;
mod verdicts;

pub use laws::made_images_are_right;
pub use places::GridImage;
pub use trees::good;
pub use verdicts::{Verdict, check};
