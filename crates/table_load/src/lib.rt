//! Tables as bytes that a loader takes.
//!
//! `Image` has the rows of each chip that has any, `encode` writes its one spelling, and `load` puts the rows into the
//! lookup memories of the chips. The format is this project's
//! own; rows are those of the SpiNNaker datasheet.
#![tactic(auto)]

mod faults;
mod fields;
mod laws;
mod loads;
mod reads;
mod tables;
mod writes;

pub use faults::ImageErr;
pub use laws::{a_fault_is_where_no_image_is_spelled, an_image_has_one_spelling};
pub use loads::load;
pub use reads::decode;
pub use spin_base::ChipTable;
pub use tables::Image;
pub use writes::encode;
