//! The geometry of a machine's grid, and routing trees that grow over it.
//!
//! Chips stand on a triangular mesh, closed to a torus or not. `displacement` says how far one chip is from another
//! along x and y, `distance` how many links that takes, and `ldf` is the walk that goes the longest dimension first.
//! `ner` is the tree of a net: each target is joined to a chip of the tree that is near it (neighbour-exploring routing,
//! Navaridas and others, 2015). Links are those of the SpiNNaker datasheet; radius and ties are this project's own.
#![tactic(auto)]

mod cuts;
mod displacements;
mod growths;
mod laws;
mod marks;
mod partial_trees;
mod searches;
mod walks;

pub use displacements::{ChipPair, Disp, displacement, distance};
pub use growths::{Ends, Grown, Join, ner};
pub use laws::grown_trees_are_determined;
pub use walks::ldf;
