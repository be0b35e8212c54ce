// Rivals of rows: whether a row can be merged, without a look at the rows behind it.
ghost use Rattle.std.specs.Prelude.{◌≡◌, ◌<◌, ◌≤◌, ◌^◌, ◌↔◌, ◌∷◌, [], ℕ, All, IfOk, IsTrue, OnOk, length, slice_index};
ghost use Rattle.tern_word.specs.SoundTable.{Misses};
ghost use Rattle.tern_word.specs.Ternary.{generality};
ghost use Rattle.cover_merge.specs.Merge.{place_for, IsLegal, PassesUp};
ghost use Rattle.cover_merge.specs.Rivals.{AreJoined, AreRivalsAt, IsRivalAdded, IsOriginal, IsRivalOf, IsRivaled, is_at_one};

use crate::meeting::{LastMet, passes_behind};
use crate::merged_block;
use crate::places::RowPlaces;
use crate::rivaled::{
    AlikeBehind, HoldingRow, NumberedPlaces, NumberedRow, OrderedRows, RowPair, SoundRows,
};
use crate::spans::spans_of_all;
use spin_base::{Block, Memory, Seq};
use std::alloc::Global;
use tern_word::{Row, generality, intersects, misses};

/// A rival of a row, which is a row behind it that meets an alias of it: its number, its generality, and the bits of its
/// route.
#[derive(Clone, Copy)]
pub(crate) struct Rival {
    pub(crate) serial: usize,
    pub(crate) general: u32,
    pub(crate) bits: u32,
}

/// The number of each row of a table, which stays with it; and of each number the row's rivals, in order of generality, and its
/// spans. Those of rows that were merged away say nothing.
#[derive(Drop)]
pub(crate) struct Rivals {
    pub(crate) serials: Vec<usize>,
    pub(crate) of: Vec<Seq<Rival>>,
    pub(crate) spans: Vec<Seq<Block>>,
}

/// The rivals of all rows, which are numbered in their order.
pub(crate) fn rivals_of(alloc: Global, table: SoundRows) -> Result<Rivals, Memory>
    ensures { IfOk result (IsRivaled table.entry.rows.now) }
{
    let rows = table.rows;
    let joined = joined_of(alloc, rows)?;
    let serials = counted(alloc, rows.len())?;
    let numbers = serials.as_slice();
    let mut of = Vec::with_capacity(alloc, rows.len())?;
    for s in 0..rows.len() {
        let row = NumberedRow {
            rows,
            serials: numbers,
            s,
        };
        of.push(rivals_among(alloc, row, &joined)?)?;
    }
    let spans = spans_of_all(alloc, rows)?;
    Ok(Rivals { serials, of, spans })
}

// The numbers below n, in order.
fn counted(alloc: Global, n: usize) -> Result<Vec<usize>, Memory>
    ensures long { IfOk result (λ v. length v.items ≡ n) }
    ensures each { IfOk result (λ v. (k : ℕ) → k < n → slice_index v.items k ≡ k) }
{
    let mut numbers = Vec::with_capacity(alloc, n)?;
    for k in 0..n {
        numbers.push(k)?;
    }
    Ok(numbers)
}

// The places of rows that are not original, ascending.
fn joined_of(alloc: Global, rows: &[Row]) -> Result<Vec<usize>, Memory>
    ensures { IfOk result (λ v. AreJoined rows.now (length rows.now) v.items) }
{
    let mut joined = Vec::new(alloc);
    for s in 0..rows.len() {
        if !is_original(&rows[s]) {
            joined.push(s)?;
        }
    }
    Ok(joined)
}

// Whether the row's first alias is its block: then the row is original.
fn is_original(row: &Row) -> bool
    ensures { IsTrue result → IsOriginal row.now }
{
    match row.aliases.as_slice().first() {
        Some(alias) => alias.block == row.block,
        None => false,
    }
}

// The rivals of the row: only joined rows can be such.
fn rivals_among(alloc: Global, row: NumberedRow, joined: &[usize]) -> Result<Seq<Rival>, Memory>
    requires { AreJoined row.rows.now (length row.rows.now) joined.now }
    ensures { IfOk result (AreRivalsAt row.entry.rows.now row.entry.serials.now row.entry.s) }
{
    let mut list = Seq::new(alloc);
    for k in 0..joined.len() {
        add_rival(&mut list, row, joined[k])?;
    }
    Ok(list)
}

// Puts row `r` behind the rivals of the row, where it is one.
fn add_rival(list: &mut Seq<Rival>, row: NumberedRow, r: usize) -> Result<(), Memory>
    requires { r < length row.rows.now }
    ensures { OnOk result (IsRivalAdded row.entry.rows.now row.entry.serials.now row.entry.s r list.old
        list.new) }
{
    let rows = row.rows;
    let serials = row.serials;
    let s = row.s;
    if r <= s {
        return Ok(());
    }
    if is_missed(rows[r].block, HoldingRow { row: &rows[s] }) {
        return Ok(());
    }
    list.push(rival_of(&rows[r], serials[r]))?;
    Ok(())
}

// A row as a rival of another.
fn rival_of(row: &Row, serial: usize) -> Rival
    ensures serial { result.serial ≡ serial }
    ensures general { result.general ≡ generality row.now.block }
    ensures bits { result.bits ≡ row.now.route.bits }
{
    Rival {
        serial,
        general: generality(row.block),
        bits: row.route.bits,
    }
}

/// The rivals of the row, found among all rows behind it.
pub(crate) fn rivals_behind(alloc: Global, row: NumberedRow) -> Result<Seq<Rival>, Memory>
    ensures { IfOk result (AreRivalsAt row.entry.rows.now row.entry.serials.now row.entry.s) }
{
    let mut list = Seq::new(alloc);
    for r in row.s + 1..row.rows.len() {
        add_rival(&mut list, row, r)?;
    }
    Ok(list)
}

/// Whether the block meets no alias of the row: none lies outside the row's block.
pub(crate) fn is_missed(block: Block, holding: HoldingRow) -> bool
    ensures { IsTrue result ↔ Misses block holding.entry.row.now }
{
    let row = holding.row;
    if !intersects(block, row.block) {
        return true;
    }
    misses(block, row)
}

/// Whether no row behind the row, of generality at most `general` and not at one of the places, meets an alias of it.
pub(crate) fn passes(row: AlikeBehind, general: u32) -> bool
    ensures { IsTrue result ↔ PassesUp row.entry.table.rows.now row.entry.places.now row.entry.s
        (place_for row.entry.table.rows.now general) }
{
    let rows = row.table.rows;
    let rivals = row.table.rivals;
    let places = row.places;
    let s = row.s;
    let bits = rows[s as usize].route.bits;
    let serial = rivals.serials[s as usize];
    let list = rivals.of[serial].as_slice();
    for k in 0..list.len() {
        let rival = list[k];
        if rival.general > general {
            return true;
        }
        let numbered = NumberedPlaces {
            serials: &rivals.serials,
            places,
        };
        if rival.bits != bits || !is_at_one(numbered, rival.serial) {
            return false;
        }
    }
    true
}

/// Whether the row of this number stands at one of the places.
pub(crate) fn is_at_one(numbered: NumberedPlaces, serial: usize) -> bool
    ensures { result ≡ is_at_one numbered.entry.serials.now numbered.entry.places.now serial }
{
    let serials = numbered.serials;
    let places = numbered.places;
    places.iter().any(|s| serials[*s as usize] == serial)
}

/// The number of rows whose generality is at most `general`: the place behind them.
pub(crate) fn place_in(table: OrderedRows, general: u32) -> usize
    ensures value { result ≡ place_for table.entry.rows.now general }
    ensures bound { result ≤ length table.entry.rows.now }
{
    let rows = table.rows;
    rows.partition_point(|row| generality(row.block) <= general)
}

/// Whether the merge of two rows of one route is legal.
pub(crate) fn is_legal_pair(pair: RowPair, last: &mut LastMet) -> bool
    ensures { IsTrue result ↔ IsLegal pair.entry.table.rows.now (pair.entry.i ∷ pair.entry.j ∷ []) }
{
    let table = pair.table;
    let rows = table.rows;
    let places: &[u32] = &[pair.i, pair.j];
    let merged = merged_block(RowPlaces { rows, places });
    let general = generality(merged);
    let first = AlikeBehind {
        table,
        places,
        s: pair.i,
    };
    if !passes(first, general) {
        return false;
    }
    let second = AlikeBehind {
        table,
        places,
        s: pair.j,
    };
    if !passes(second, general) {
        return false;
    }
    passes_behind(table, merged, general, last)
}
