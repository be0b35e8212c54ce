// The tables of a grid.
use spin_base::{ChipTable, Seq, Shared};

/// The tables of a grid's chips, in the order of the chips. A chip without rows is not listed.
#[derive(Drop)]
pub struct Image {
    /// Chips in a row, 1 to 64.
    pub width: u8,
    /// Chips in a column, 1 to 64.
    pub height: u8,
    /// Whether the grid is a torus.
    pub wrap: bool,
    pub chips: Seq<ChipTable>,
}

impl Shared for Image {}
