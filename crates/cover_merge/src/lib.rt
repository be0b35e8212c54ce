//! Covering: rows of one route are merged until a table is short enough, and no key changes its route.
//!
//! Of the rows of each route those are found that can be merged (`refine`), the largest such set is merged (`apply`),
//! and so on until the table has at most so many rows as are wanted, or no two rows can be merged (`cover`). The
//! merges, their insertion places and the refinement are those of ordered covering (Mundy, Heathcote, Garside, HPSR
//! 2016); the ties, and the pairs that are tried where no set is left, are this project's own.
//!
//! Whether a merge of rows is legal.
//!
//! Rows of one route may be merged into one row, whose block holds the keys of theirs. The merge goes behind all rows
//! of lesser or equal generality, so a key of one of its aliases could now be found first in a row that stood behind
//! the merged one (the up-check tells), and a key of an alias of a row further down could now be found first in the
//! merge (the down-check tells). Where neither can happen the table after the merge is sound: each key of each alias
//! is routed as before. Ordered covering is that of Mundy, Heathcote, Garside (HPSR 2016).
#![tactic(auto)]

mod applying;
mod carrying;
mod checking;
mod choosing;
mod covering;
mod gaps;
mod keeping;
mod knowing;
mod laws;
mod links;
mod meeting;
mod merging;
mod places;
mod refining;
mod rivaled;
mod rivals;
mod spans;
mod times;

pub use applying::apply;
pub use checking::{
    down_check, insert_place, merged_block, passes_down, passes_up, place_for, up_check,
};
pub use covering::{Covered, Merge, cover};
pub use laws::coverings_are_determined;
pub use places::RowPlaces;
pub use refining::refine;
pub use tern_word::misses;
