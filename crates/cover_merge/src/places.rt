// Places of rows.
ghost use Rattle.std.specs.Prelude.{◌<◌, All, length};

use tern_word::Row;

/// Rows, and places of one or more of them.
#[derive(Clone, Copy)]
pub struct RowPlaces<'a, 'b> {
    pub rows: &'a [Row],
    pub places: &'b [u32],
    pub ghost inside: { All (λ s. s < length rows.now) places.now },
    pub ghost some: { 0 < length places.now },
}
