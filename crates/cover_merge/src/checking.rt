// The insertion place of a merge, and the two checks.
ghost use Rattle.std.specs.Prelude.{◌≡◌, ◌<◌, ◌≤◌, ◌↔◌, false, IsTrue, length};
ghost use Rattle.tern_word.specs.SoundTable.{IsSound, Misses};
ghost use Rattle.cover_merge.specs.Merge.{IsLegal, has_row, merged_block, place_for, insert_place, PassesUp, PassesUpCheck, PassesDown, PassesDownCheck};

use crate::places::RowPlaces;
use spin_base::Block;
use tern_word::{Row, generality, merge_two, misses};

/// The number of rows of lesser or equal generality than that of the merge of the rows at the places: the merge
/// goes before the row at that place.
pub fn insert_place(set: RowPlaces) -> usize
    ensures { result ≡ insert_place set.entry.rows.now set.entry.places.now }
{
    place_for(set.rows, generality(merged_block(set)))
}

/// Whether for each place `s` of the set no row outside the set between `s` and the insertion place meets an alias
/// of row `s`. A merge that is legal on a sound table passes.
pub fn up_check(set: RowPlaces) -> bool
    ensures passes { IsTrue result ↔ PassesUpCheck set.entry.rows.now set.entry.places.now }
    ensures legal { IsSound set.entry.rows.now → IsLegal set.entry.rows.now set.entry.places.now → IsTrue result }
{
    let rows = set.rows;
    let places = set.places;
    let place = insert_place(set);
    for s in places {
        if !passes_up(rows, places, *s, place) {
            return false;
        }
    }
    true
}

/// Whether the merged block meets no alias of a row at or after the insertion place. On a sound table a merge that
/// passes the up-check is legal exactly where it passes this one too: the table after it is sound.
pub fn down_check(set: RowPlaces) -> bool
    ensures passes { IsTrue result ↔ PassesDownCheck set.entry.rows.now set.entry.places.now }
    ensures legal { IsSound set.entry.rows.now → PassesUpCheck set.entry.rows.now set.entry.places.now
        → (IsTrue result ↔ IsLegal set.entry.rows.now set.entry.places.now) }
{
    passes_down(set.rows, merged_block(set), insert_place(set))
}

/// The merge of the blocks of the rows at the places.
pub fn merged_block(set: RowPlaces) -> Block
    ensures { result ≡ merged_block set.entry.rows.now set.entry.places.now }
{
    let rows = set.rows;
    let places = set.places;
    let mut merged = rows[places[0] as usize].block;
    for k in 1..places.len() {
        merged = merge_two(merged, rows[places[k] as usize].block);
    }
    merged
}

/// The number of rows whose generality is at most `g`.
pub fn place_for(rows: &[Row], g: u32) -> usize
    ensures value { result ≡ place_for rows.now g }
    ensures bound { result ≤ length rows.now }
{
    rows.iter().filter(|row| generality(row.block) <= g).count()
}

/// Whether no row outside the set between the places `s` and `p` meets an alias of row `s`.
pub fn passes_up(rows: &[Row], places: &[u32], s: u32, p: usize) -> bool
    requires within { s < length rows.now }
    requires place { p ≤ length rows.now }
    ensures { IsTrue result ↔ PassesUp rows.now places.now s p }
{
    for r in s as usize + 1..p {
        if !is_clear(&rows[r], &rows[s as usize], places, r) {
            return false;
        }
    }
    true
}

// Whether the later row, at place `r`, is of the set or its block meets no alias of the other.
fn is_clear(later: &Row, row: &Row, places: &[u32], r: usize) -> bool
    ensures { IsTrue result ↔ (has_row places.now r ≡ false → Misses later.now.block row.now) }
{
    misses(later.block, row) || has_row(places, r)
}

// Whether the place is one of these.
fn has_row(places: &[u32], place: usize) -> bool
    ensures { result ≡ has_row places.now place }
{
    places.iter().any(|s| *s as usize == place)
}

/// Whether the block meets no alias of a row at or after place `p`.
pub fn passes_down(rows: &[Row], block: Block, p: usize) -> bool
    ensures { IsTrue result ↔ PassesDown rows.now block p }
{
    for r in p..rows.len() {
        if !misses(block, &rows[r]) {
            return false;
        }
    }
    true
}
