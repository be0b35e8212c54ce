// The down-check: the first alias behind that a block meets. A pair often meets one that a pair before it met. So the places of
// such aliases are remembered, and looked at first.
ghost use Rattle.std.specs.Prelude.{◌≡◌, ◌↔◌, ◌<◌, All, IsTrue, MatchOption, length, slice_index_or};
ghost use Rattle.tern_word.specs.SoundTable.{Misses};
ghost use Rattle.tern_word.specs.Ternary.{Intersects, generality};
ghost use Rattle.tern_word.specs.declared.tables.Row.{Row as ARow};
ghost use Rattle.cover_merge.specs.Merge.{PassesDown, place_for};
ghost use Rattle.cover_merge.specs.Refinement.{IsFirstMet, IsFirstMetFrom};

use crate::rivaled::{OrderedRows, RivaledRow, RivaledRows};
use crate::rivals::place_in;
use crate::spans::{SpannedAliases, first_met};
use spin_base::Block;
use tern_word::{Alias, Row, generality, intersects};

// How many places are remembered.
const REMEMBERED: usize = 16;

/// Where an alias may stand: the place of its row, and its own among the row's aliases.
#[derive(Clone, Copy)]
struct AliasPlace {
    row: usize,
    alias: usize,
}

/// An alias that a block meets: where it stands, and its block.
#[derive(Clone, Copy)]
pub(crate) struct Met {
    place: AliasPlace,
    pub(crate) block: Block,
}

/// Places of aliases that pairs met, that of the last first. They may be any: each is looked at before it counts.
#[derive(Clone, Copy)]
pub(crate) struct LastMet {
    places: [AliasPlace; REMEMBERED],
    ghost long: { length places ≡ 16 },
}

/// What is remembered before any pair. It is a hint, and no promise rests on it.
pub(crate) fn none_met() -> LastMet {
    let nowhere = AliasPlace {
        row: usize::MAX,
        alias: 0,
    };
    LastMet {
        places: [nowhere; REMEMBERED],
    }
}

/// Whether the block meets no alias of a row that is more general than `general`.
pub(crate) fn passes_behind(
    table: RivaledRows,
    block: Block,
    general: u32,
    last: &mut LastMet,
) -> bool
    ensures { IsTrue result ↔ PassesDown table.entry.rows.now block (place_for table.entry.rows.now general) }
{
    if meets_again(table, block, general, last) {
        return false;
    }
    let rows = table.rows;
    match first_met_from(table, block, place_in(OrderedRows { rows }, general)) {
        Some(met) => {
            remember(last, met.place);
            false
        }
        None => true,
    }
}

// Whether the block meets an alias at one of the places, of a row that is more general. Then that place changes with the first.
fn meets_again(table: RivaledRows, block: Block, general: u32, last: &mut LastMet) -> bool
    ensures { IsTrue result → PassesDown table.entry.rows.now block (place_for table.entry.rows.now general) → ⊥ }
{
    for k in 0..REMEMBERED {
        let place = last.places[k];
        if meets_at(table, block, general, place) {
            last.places[k] = last.places[0];
            last.places[0] = place;
            return true;
        }
    }
    false
}

// Puts the place before the others, and forgets the last. It is a hint, and no promise rests on it.
fn remember(last: &mut LastMet, place: AliasPlace) {
    let mut next = place;
    for k in 0..REMEMBERED {
        let here = last.places[k];
        last.places[k] = next;
        next = here;
    }
}

// Whether an alias stands at the place that the block meets, of a row that is more general.
fn meets_at(table: RivaledRows, block: Block, general: u32, place: AliasPlace) -> bool
    ensures { IsTrue result → PassesDown table.entry.rows.now block (place_for table.entry.rows.now general) → ⊥ }
{
    let rows = table.rows;
    let r = place.row;
    if r >= rows.len() {
        return false;
    }
    let row = &rows[r];
    if !meets_alias(row.aliases.as_slice(), block, place.alias) {
        return false;
    }
    is_above(row, general)
}

// Whether the row is more general.
fn is_above(row: &Row, general: u32) -> bool
    ensures { IsTrue result → general < generality row.now.block }
{
    generality(row.block) > general
}

// Whether the block meets the alias of this number, where there is one.
fn meets_alias(aliases: &[Alias], block: Block, k: usize) -> bool
    ensures { IsTrue result → All (λ a. ¬ (Intersects block a.block)) aliases.now → ⊥ }
{
    if k >= aliases.len() {
        return false;
    }
    intersects(block, aliases[k].block)
}

/// The first alias that the block meets, of the first row from place `p` on that has one.
pub(crate) fn first_met_from(table: RivaledRows, block: Block, p: usize) -> Option<Met>
    ensures { MatchOption result (PassesDown table.entry.rows.now block p) (λ met.
        IsFirstMetFrom table.entry.rows.now block p met.block) }
{
    for r in p..table.rows.len() {
        if let Some(met) = first_met_in(RivaledRow { table, r }, block) {
            return Some(met);
        }
    }
    None
}

// The first alias of the row that the block meets: none lies outside the row's block.
fn first_met_in(given: RivaledRow, block: Block) -> Option<Met>
    ensures { MatchOption result ((d : ARow) → Misses block (slice_index_or given.entry.table.rows.now given.entry.r d)) (λ met.
        (d : ARow) → IsFirstMet block (slice_index_or given.entry.table.rows.now given.entry.r d).aliases met.block) }
{
    let rows = given.table.rows;
    let rivals = given.table.rivals;
    let r = given.r;
    let row = &rows[r];
    if !intersects(block, row.block) {
        return None;
    }
    let serial = rivals.serials[r];
    let spans = rivals.spans[serial].as_slice();
    let aliases = row.aliases.as_slice();
    let spanned = SpannedAliases { aliases, spans };
    match first_met(spanned, block) {
        Some(alias) => Some(Met {
            place: AliasPlace { row: r, alias },
            block: aliases[alias].block,
        }),
        None => None,
    }
}
