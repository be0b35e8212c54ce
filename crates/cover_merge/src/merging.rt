// A legal merge of rows of a sound table.
ghost use Rattle.std.specs.Prelude.{◌≡◌, ◌<◌, ◌≤◌, ◌^◌, length};
ghost use Rattle.tern_word.specs.SoundTable.{IsSound};
ghost use Rattle.cover_merge.specs.Merge.{IsLegalMerge, insert_place};

use crate::gaps::Gaps;
use spin_base::Block;
use tern_word::Row;

/// A legal merge of rows of a sound table: their places and that before which it goes, and the merge of their blocks.
#[derive(Clone, Copy)]
pub(crate) struct LegalMerge<'a, 'b> {
    pub(crate) rows: &'a [Row],
    pub(crate) gaps: Gaps<'b>,
    pub(crate) block: Block,
    pub ghost few: { length rows.now < 2 ^ 32 },
    pub ghost sound: { IsSound rows.now },
    pub ghost legal: { IsLegalMerge rows.now gaps.places.now block },
    pub ghost place_is: { gaps.place ≡ insert_place rows.now gaps.places.now },
    pub ghost within: { gaps.place ≤ length rows.now },
}

/// A row of the table before the merge, by its place.
#[derive(Clone, Copy)]
pub(crate) struct RowBefore<'a, 'b> {
    pub(crate) merge: LegalMerge<'a, 'b>,
    pub(crate) s: usize,
    pub ghost inside: { s < length merge.rows.now },
}
