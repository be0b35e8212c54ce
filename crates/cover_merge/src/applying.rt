// The table after a merge.
ghost use Rattle.std.specs.Prelude.{◌≡◌, ◌≤◌, ◌++◌, ◌∷◌, [], IfOk, OnOk, OnErr, length, slice_index, insert, not, take, drop, ◌-◌};
ghost use Rattle.tern_word.specs.SoundTable.{IsOrdered};
ghost use Rattle.cover_merge.specs.Merge.{IsMergeSet, after, has_row, kept, merged_row, picked, rows_at, aliases_at};

use crate::gaps::Gaps;
use crate::merged_block;
use crate::places::RowPlaces;
use crate::rivaled::OrderedRows;
use crate::rivals::place_in;
use spin_base::{Memory, Seq};
use std::alloc::Global;
use std::mem;
use tern_word::{Alias, Row, Table, generality};

/// Merges the rows at the places: they go out, and the merge stands before the row that was at its insertion place.
/// After a refusal the table is as before.
pub fn apply(alloc: Global, table: &mut Table, places: &Seq<u32>) -> Result<(), Memory>
    requires ordered { IsOrdered table.old.rows }
    requires set { IsMergeSet table.old.rows places.now }
    ensures ok { OnOk result (table.new.rows ≡ after table.old.rows places.now) }
    ensures err { OnErr result (table.new.rows ≡ table.old.rows) }
{
    let members = places.as_slice();
    let set = RowPlaces {
        rows: table.rows.as_slice(),
        places: members,
    };
    let merged = merged_row(alloc, set)?;
    let ordered = OrderedRows {
        rows: table.rows.as_slice(),
    };
    let place = place_in(ordered, generality(merged.block));
    let mut rows = mem::replace(&mut table.rows, Seq::new(alloc)).into_vec();
    let gaps = Gaps {
        places: members,
        place,
    };
    put_in(&mut rows, merged, gaps);
    table.rows = Seq::from_vec(rows);
    Ok(())
}

// The merge of the rows at the places.
#[tactic(auto, using(crate::proofs::ApplyLemmas::row_made))]
fn merged_row(alloc: Global, set: RowPlaces) -> Result<Row, Memory>
    ensures { IfOk result (λ row. row ≡ merged_row set.entry.rows.now set.entry.places.now) }
{
    let rows = set.rows;
    let places = set.places;
    let aliases = all_aliases(alloc, set)?;
    Ok(Row {
        block: merged_block(set),
        route: rows[places[0] as usize].route,
        aliases,
    })
}

// The aliases of the rows at the places, in the order of the places.
#[tactic(auto, using(crate::proofs::ApplyLemmas::aliases_more))]
fn all_aliases(alloc: Global, set: RowPlaces) -> Result<Seq<Alias>, Memory>
    ensures { IfOk result (λ aliases. aliases ≡ aliases_at set.entry.rows.now set.entry.places.now) }
{
    let rows = set.rows;
    let places = set.places;
    let mut aliases = Vec::new(alloc);
    for s in places {
        aliases.extend_from_slice(rows[*s as usize].aliases.as_slice())?;
    }
    Ok(Seq::from_vec(aliases))
}

// Puts the merge in at its place, behind all rows of the set, and takes those out. Each row moves once.
fn put_in(rows: &mut Vec<Row>, merged: Row, gaps: Gaps)
    requires { gaps.place ≤ length rows.old.items }
    ensures { rows.new.items ≡ kept gaps.entry.places.now 0 (insert rows.old.items gaps.entry.place merged) }
{
    let places = gaps.places;
    let place = gaps.place;
    for i in 0..places.len() {
        let from = places[i] as usize + 1;
        let to = next_place(gaps, i + 1);
        move_down(rows, from, to, i + 1);
    }
    rows[place - places.len()] = merged;
    let len = rows.len();
    let gap = places.len() - 1;
    move_down(rows, place, len, gap);
    rows.truncate(len - gap);
}

// Moves the rows from place `from` up to `to` down by so many places. What stood in their way stands behind them.
fn move_down(rows: &mut Vec<Row>, from: usize, to: usize, by: usize)
    requires by { by ≤ from }
    requires order { from ≤ to }
    requires inside { to ≤ length rows.old.items }
    ensures one_each { length rows.new.items ≡ length rows.old.items }
    ensures front { take (to - by) rows.new.items
        ≡ take (from - by) rows.old.items ++ take (to - from) (drop from rows.old.items) }
    ensures rest { drop to rows.new.items ≡ drop to rows.old.items }
{
    rows[from - by..to].rotate_left(by);
}

/// Puts the item in at its place, and takes out those at the places before it. Each item moves once.
pub(crate) fn replace_all<T: Copy>(items: &mut Vec<T>, gaps: Gaps, item: T)
    requires { gaps.place ≤ length items.old.items }
    ensures { items.new.items ≡ picked (λ k. not (has_row gaps.entry.places.now k)) 0 (insert items.old.items gaps.entry.place item) }
{
    let places = gaps.places;
    let place = gaps.place;
    for i in 0..places.len() {
        let from = places[i] as usize + 1;
        let to = next_place(gaps, i + 1);
        items.copy_within(from..to, from - 1 - i);
    }
    items[place - places.len()] = item;
    let len = items.len();
    let gap = places.len() - 1;
    items.copy_within(place..len, place - gap);
    items.truncate(len - gap);
}

// The place of this number, or that behind all.
fn next_place(gaps: Gaps, i: usize) -> usize
    ensures { i ≤ length gaps.entry.places.now
        → result ≡ slice_index (gaps.entry.places.now ++ gaps.entry.place ∷ []) i }
{
    if i < gaps.places.len() {
        gaps.places[i] as usize
    } else {
        gaps.place
    }
}
