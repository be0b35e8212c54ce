//! Default routes: rows are left out whose packets go on by default as the row would send them.
//!
//! A packet that matches no entry goes on by the link opposite the one by which it came (SpiNNaker datasheet). So a
//! row whose route is one link, and all whose packets come by the opposite link, need not be loaded, where no later
//! row that is loaded would take its packets.
#![tactic(auto)]

mod laws;
mod shortening;
mod stripping;

pub use laws::final_tables_are_determined;
pub use shortening::shorten;
pub use stripping::{Final, RowsAt, RowsToStrip, strip};
