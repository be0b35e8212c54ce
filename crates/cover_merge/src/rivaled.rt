// Rows of a sound table, and such rows with their rivals.
ghost use Rattle.std.specs.Prelude.{◌≡◌, ◌<◌, ◌^◌, ◌∷◌, [], All, length};
ghost use Rattle.tern_word.specs.SoundTable.{HoldsItsAliases, IsOrdered, IsSound};
ghost use Rattle.cover_merge.specs.Merge.{IsMergeSet, IsOneRoute};
ghost use Rattle.cover_merge.specs.Rivals.{AreAlikeBehind, IsRivaled};

use crate::rivals::Rivals;
use tern_word::Row;

/// Rows in order of generality.
#[derive(Clone, Copy)]
pub(crate) struct OrderedRows<'a> {
    pub(crate) rows: &'a [Row],
    pub ghost ordered: { IsOrdered rows.now },
}

/// A row that holds its aliases.
#[derive(Clone, Copy)]
pub(crate) struct HoldingRow<'a> {
    pub(crate) row: &'a Row,
    pub ghost holds: { HoldsItsAliases row.now },
}

/// The rows of a sound table, fewer than 2^32.
#[derive(Clone, Copy)]
pub(crate) struct SoundRows<'a> {
    pub(crate) rows: &'a [Row],
    pub ghost few: { length rows.now < 2 ^ 32 },
    pub ghost sound: { IsSound rows.now },
}

/// Row `s` of a sound table, the rows of which have these numbers.
#[derive(Clone, Copy)]
pub(crate) struct NumberedRow<'a, 'b> {
    pub(crate) rows: &'a [Row],
    pub(crate) serials: &'b [usize],
    pub(crate) s: usize,
    pub ghost sound: { IsSound rows.now },
    pub ghost one_each: { length serials.now ≡ length rows.now },
    pub ghost inside: { s < length rows.now },
}

/// Numbers of rows, and places of such rows.
#[derive(Clone, Copy)]
pub(crate) struct NumberedPlaces<'a, 'b> {
    pub(crate) serials: &'a [usize],
    pub(crate) places: &'b [u32],
    pub ghost inside: { All (λ s. s < length serials.now) places.now },
}

/// The rows of a sound table, fewer than 2^32, with the rivals of each.
#[derive(Clone, Copy)]
pub(crate) struct RivaledRows<'a> {
    pub(crate) rows: &'a [Row],
    pub(crate) rivals: &'a Rivals,
    pub ghost few: { length rows.now < 2 ^ 32 },
    pub ghost sound: { IsSound rows.now },
    pub ghost one_each: { length rivals.now.serials.items ≡ length rows.now },
    pub ghost below: { All (λ k. k < length rivals.now.of.items) rivals.now.serials.items },
    pub ghost rivaled: { ∥ IsRivaled rows.now rivals.now ∥₁ },
}

/// Row `r` of a table.
#[derive(Clone, Copy)]
pub(crate) struct RivaledRow<'a> {
    pub(crate) table: RivaledRows<'a>,
    pub(crate) r: usize,
    pub ghost inside: { r < length table.rows.now },
}

/// Places of rows of one route.
#[derive(Clone, Copy)]
pub(crate) struct RoutePlaces<'a, 'b> {
    pub(crate) table: RivaledRows<'a>,
    pub(crate) places: &'b [u32],
    pub ghost one_route: { IsOneRoute table.rows.now places.now },
}

/// Row `s` of a table, and places of rows, of which those behind it have its route.
#[derive(Clone, Copy)]
pub(crate) struct AlikeBehind<'a, 'b> {
    pub(crate) table: RivaledRows<'a>,
    pub(crate) places: &'b [u32],
    pub(crate) s: u32,
    pub ghost are: { AreAlikeBehind table.rows.now places.now s },
}

/// Two rows of one route.
#[derive(Clone, Copy)]
pub(crate) struct RowPair<'a> {
    pub(crate) table: RivaledRows<'a>,
    pub(crate) i: u32,
    pub(crate) j: u32,
    pub ghost set: { IsMergeSet table.rows.now (i ∷ j ∷ []) },
}
