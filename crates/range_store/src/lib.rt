//! A region of places, some free and some taken: chip memory, keys, or places of a table.
//!
//! A region of size `n` is the set of the free places below `n`. Its holes are the longest runs of free places, in
//! order. `Ranges` is seen as its size, the list of its holes, and `spare`, for how many more holes there is room.
//! Ranges are taken first fit, by `take`, or the same from a place on, by `take_from`, or at a place, by `take_at`, and
//! come back by `give`.
//! The rules are this project's own.
#![tactic(auto)]

mod begins;
mod cuts;
mod gives;
mod holes;
mod ranges;

pub use holes::Hole;
pub use ranges::Ranges;
