// The refined set of places of one route.
ghost use Rattle.std.specs.Prelude.{◌≡◌, true, ◌<◌, ◌≤◌, ◌^◌, ◌↔◌, ◌⊎◌, [], IsTrue, IfOk, MatchOption, MatchBool, All, length, filter, not, ◌==◌, ◌+◌, ℕ, List, take, ◌++◌, slice_index, slice_index_or, if◌then◌else◌};
ghost use Rattle.std.specs.Int.{bit_at};
ghost use Rattle.spin_base.specs.declared.blocks.Block.{Block as ABlock};
ghost use Rattle.tern_word.specs.Ternary.{all_keys};
ghost use Rattle.tern_word.specs.SoundTable.{IsSound};
ghost use Rattle.cover_merge.specs.Merge.{has_row, IsOneRoute, IsMergeSet, IsLegal, merged_block, insert_place, place_for, PassesUp, PassesDown, PassesDownCheck};
ghost use Rattle.cover_merge.specs.Kept.{IsSifted, RefinesWithin};
ghost use Rattle.cover_merge.specs.Refinement.{AreMerges, can_choose, keeps, parts, kept_by, kept_count, IsBestBit, IsUpChecked, IsNarrowed, IsDownStep, Refines};

use crate::keeping::Kept;
use crate::meeting::first_met_from;
use crate::merged_block;
use crate::places::RowPlaces;
use crate::rivaled::{AlikeBehind, OrderedRows, RivaledRows, RoutePlaces, SoundRows};
use crate::rivals::{passes, place_in, rivals_of};
use spin_base::{Block, Memory, Seq};
use std::alloc::Global;
use tern_word::{Row, Table, generality, merge_two};

/// The places of the set that can be merged. With fewer than two places there are none. Where the up-check fails, the
/// greatest place for which it fails is taken out; where the down-check fails, the first alias that the merge would
/// meet is kept clear by the bit that keeps most places, the highest on a tie; and so on until the merge is legal.
#[tactic(auto, using(crate::proofs::KeptLemmas::forgets))]
pub fn refine(alloc: Global, table: &Table, places: Seq<u32>) -> Result<Seq<u32>, Memory>
    requires few { length table.now.rows < 2 ^ 32 }
    requires sound { IsSound table.now.rows }
    requires set { IsOneRoute table.now.rows places }
    ensures refined { IfOk result (λ answer. Refines table.now.rows places answer) }
    ensures legal { IfOk result (λ answer. (answer ≡ [])
        ⊎ ((IsMergeSet table.now.rows answer) × (IsLegal table.now.rows answer))) }
{
    let rows = table.rows.as_slice();
    let sound = SoundRows { rows };
    let rivals = rivals_of(alloc, sound)?;
    let rivaled = RivaledRows {
        rows,
        rivals: &rivals,
    };
    let Refined { set, kept: _ } = refine_within(alloc, rivaled, places)?;
    Ok(set)
}

// What is left of places of rows, with the merges of the rows up to each of the first, so many.
#[derive(Clone, Copy)]
struct LeftPlaces<'a, 'b, 'c> {
    rows: &'a [Row],
    places: &'b [u32],
    merges: &'c [Block],
    first: usize,
    ghost inside: { All (λ s. s < length rows.now) places.now },
    ghost some: { 0 < length places.now },
    ghost known: { (k : ℕ) (d : ABlock) → k < first → k < length merges.now
        → slice_index_or merges.now k d ≡ merged_block rows.now (take (k + 1) places.now) },
    ghost many: { first ≤ length merges.now },
}

/// A refined set, and what is kept of its route.
#[derive(Drop)]
pub(crate) struct Refined {
    pub(crate) set: Seq<u32>,
    pub(crate) kept: Kept,
}

// The generality of the last block that was down-checked, where none was: more than that of any block.
const UNCHECKED: u32 = 33;

/// The same, by what the rivals of rows tell.
#[tactic(auto, using(crate::proofs::KeepLemmas::turn_legal, crate::proofs::KeptLemmasSteps::gone_empty, crate::proofs::KeptLemmasSteps::gone_start, crate::proofs::KeptLemmasSteps::gone_up))]
pub(crate) fn refine_within(
    alloc: Global,
    table: RivaledRows,
    places: Seq<u32>,
) -> Result<Refined, Memory>
    requires { IsOneRoute table.rows.now places }
    ensures refined { IfOk result (λ r. RefinesWithin table.entry.rows.now r.kept.outer r.kept.low places
        r.set) }
    ensures size { IfOk result (λ r. length r.set ≡ r.kept.size) }
    ensures legal { IfOk result (λ r. (r.set ≡ [])
        ⊎ ((IsMergeSet table.entry.rows.now r.set) × (IsLegal table.entry.rows.now r.set))) }
{
    let mut set = places.into_vec();
    let mut outer = all_keys();
    let mut low = UNCHECKED;
    'refining: while set.len() >= 2 {
        if let Some(merged) = sifted(alloc, table, &mut set)? {
            outer = outermost(outer, low, merged);
            low = generality(merged);
            if narrow(table, &mut set, merged) {
                return Ok(with_bounds(set, outer, low));
            }
        }
    }
    set.clear();
    Ok(with_bounds(set, outer, low))
}

// The block in which each key lies.
fn all_keys() -> Block
    ensures { result ≡ all_keys }
{
    Block { key: 0, mask: 0 }
}

// The first block that was down-checked: this one, where none was before.
fn outermost(outer: Block, low: u32, merged: Block) -> Block
    ensures { ((32 < low) × (result ≡ merged)) ⊎ ((low ≤ 32) × (result ≡ outer)) }
{
    if low > 32 { merged } else { outer }
}

// The refined set, with what is kept of it.
fn with_bounds(set: Vec<u32>, outer: Block, low: u32) -> Refined
    ensures set { result.set ≡ set.items }
    ensures size { length result.set ≡ result.kept.size }
    ensures outer { result.kept.outer ≡ outer }
    ensures low { result.kept.low ≡ low }
{
    let size = set.len();
    Refined {
        set: Seq::from_vec(set),
        kept: Kept { size, outer, low },
    }
}

// Takes out the places for which the up-check fails. The merge where two are left. Mostly none is taken out, so that is asked
// first.
fn sifted(alloc: Global, table: RivaledRows, set: &mut Vec<u32>) -> Result<Option<Block>, Memory>
    requires { IsMergeSet table.rows.now set.old.items }
    ensures fewer { length set.new.items ≤ length set.old.items }
    ensures sifted { IfOk result (IsSifted table.entry.rows.now set.old.items set.new.items) }
{
    let members = RowPlaces {
        rows: table.rows,
        places: set,
    };
    let merged = merged_block(members);
    let route = RoutePlaces { table, places: set };
    if all_pass(route, generality(merged)) {
        return Ok(Some(merged));
    }
    sift(alloc, table, set)
}

// Whether no place fails the up-check with a merge of this generality.
fn all_pass(route: RoutePlaces, general: u32) -> bool
    ensures { IsTrue result → (s : ℕ) → has_row route.entry.places.now s ≡ true
        → PassesUp route.entry.table.rows.now route.entry.places.now s (place_for route.entry.table.rows.now general) }
{
    for k in 0..route.places.len() {
        if !passes_at(route, k, general) {
            return false;
        }
    }
    true
}

// Whether the place of this number does not fail the up-check with a merge of this generality.
#[tactic(auto, using(crate::proofs::SiftLemmas::alike_behind))]
fn passes_at(route: RoutePlaces, k: usize, general: u32) -> bool
    requires { k < length route.places.now }
    ensures { IsTrue result ↔ PassesUp route.entry.table.rows.now route.entry.places.now
        (slice_index route.entry.places.now k) (place_for route.entry.table.rows.now general) }
{
    let set = route.places;
    let row = AlikeBehind {
        table: route.table,
        places: &set[k + 1..],
        s: set[k],
    };
    passes(row, general)
}

// Takes out the places for which the up-check fails, the greatest first, each time with the merge of those that are
// left. The merge where two are left. On the way the places from `i` on pass.
fn sift(alloc: Global, table: RivaledRows, set: &mut Vec<u32>) -> Result<Option<Block>, Memory>
    requires { IsMergeSet table.rows.now set.old.items }
    ensures fewer { length set.new.items ≤ length set.old.items }
    ensures sifted { IfOk result (IsSifted table.entry.rows.now set.old.items set.new.items) }
{
    let rows = table.rows;
    let members = RowPlaces { rows, places: set };
    let merges = merges_of(alloc, members)?;
    let mut merged = merges[set.len() - 1];
    let mut i = set.len();
    while i > 0 && set.len() >= 2 {
        i -= 1;
        let route = RoutePlaces { table, places: set };
        if !passes_at(route, i, generality(merged)) {
            set.remove(i);
            let left = LeftPlaces {
                rows,
                places: set,
                merges: &merges,
                first: i,
            };
            merged = merge_from(left);
        }
    }
    if set.len() < 2 {
        Ok(None)
    } else {
        Ok(Some(merged))
    }
}

// For each place of the set the merge of the rows up to it.
fn merges_of(alloc: Global, members: RowPlaces) -> Result<Vec<Block>, Memory>
    ensures { IfOk result (λ v. AreMerges members.entry.rows.now members.entry.places.now v.items) }
{
    let rows = members.rows;
    let set = members.places;
    let mut merges = Vec::with_capacity(alloc, set.len())?;
    merges.push(rows[set[0] as usize].block)?;
    for k in 1..set.len() {
        let merged = merge_two(merges[k - 1], rows[set[k] as usize].block);
        merges.push(merged)?;
    }
    Ok(merges)
}

// The merge of the rows at the places that are left.
fn merge_from(left: LeftPlaces) -> Block
    ensures { result ≡ merged_block left.entry.rows.now left.entry.places.now }
{
    let rows = left.rows;
    let places = left.places;
    let merges = left.merges;
    let first = left.first;
    if first == 0 {
        return merged_block(RowPlaces { rows, places });
    }
    let mut merged = merges[first - 1];
    for k in first..places.len() {
        merged = merge_two(merged, rows[places[k] as usize].block);
    }
    merged
}

// Narrows the set where the down-check fails. Whether it was true, and the set stays as it was.
fn narrow(table: RivaledRows, set: &mut Vec<u32>, merged: Block) -> bool
    requires { IsUpChecked table.rows.now set.old.items merged }
    ensures { MatchBool result ((PassesDownCheck table.entry.rows.now set.old.items)
        × (set.new.items ≡ set.old.items)) ((IsDownStep table.entry.rows.now set.old.items set.new.items)
        × (length set.new.items < length set.old.items)) }
{
    let rows = table.rows;
    let place = place_in(OrderedRows { rows }, generality(merged));
    match first_met_from(table, merged, place) {
        Some(met) => {
            choose(rows, set, merged, met.block);
            false
        }
        None => true,
    }
}

// Keeps the places that the best bit keeps, and none where no bit keeps one.
fn choose(rows: &[Row], set: &mut Vec<u32>, merged: Block, met: Block)
    ensures { IsNarrowed rows.now set.old.items merged met set.new.items }
{
    match best_bit(rows, set, merged, met) {
        Some(bit) => keep(rows, set, met, bit),
        None => set.clear(),
    }
}

// Keeps the places that the bit keeps.
fn keep(rows: &[Row], set: &mut Vec<u32>, met: Block, bit: u32)
    ensures { set.new.items ≡ kept_by rows.now met bit set.old.items }
{
    set.retain(|s| keeps(rows, met, bit, *s));
}

// The bit that keeps most places, of equal ones the highest, where one keeps any.
fn best_bit(rows: &[Row], places: &[u32], merged: Block, met: Block) -> Option<u32>
    ensures { MatchOption result ((j : ℕ) → j < 32
        → kept_count rows.now places.now merged met j ≡ 0) (λ i. (i < 32)
        × (IsBestBit rows.now places.now merged met i)) }
{
    let free = open_bits(merged, met);
    let mut counts = [0; 32];
    for s in places {
        count_bits(&mut counts, keeping_bits(rows, free, met, *s));
    }
    greatest(&counts)
}

// The bits that can be chosen: the merge does not care for them, and the met alias does.
#[tactic(auto, using(crate::proofs::BitCounts::open_bit))]
fn open_bits(merged: Block, met: Block) -> u32
    ensures { (j : ℕ) → j < 32 → bit_at result j ≡ if can_choose merged met j then 1 else 0 }
{
    met.mask & !merged.mask
}

// Those of the bits that keep the place; no place outside the table is kept.
#[tactic(auto, using(crate::proofs::BitCounts::keeping_inside))]
fn keeping_bits(rows: &[Row], free: u32, met: Block, s: u32) -> u32
    ensures { (j : ℕ) → j < 32 → bit_at result j ≡ if keeps rows.now met j s then bit_at free j else 0 }
{
    if s as usize >= rows.len() {
        return 0;
    }
    let block = rows[s as usize].block;
    free & block.mask & (block.key ^ met.key)
}

// One more for each bit of the word.
fn count_bits(counts: &mut [usize; 32], bits: u32)
    requires { (j : ℕ) → j < 32 → slice_index counts.old j + 1 < 2 ^ 64 }
    ensures { (j : ℕ) → j < 32 → slice_index counts.new j ≡ slice_index counts.old j + bit_at bits j }
{
    let mut left = bits;
    while left != 0 {
        let i = left.trailing_zeros();
        left &= !(1 << i);
        counts[i as usize] += 1;
    }
}

// The place of the greatest, of equal ones the last, where one is above 0.
fn greatest(counts: &[usize; 32]) -> Option<u32>
    ensures { MatchOption result ((j : ℕ) → j < 32 → slice_index counts.now j ≡ 0) (λ i. (i < 32)
        × (0 < slice_index counts.now i)
        × ((j : ℕ) → j < 32 → slice_index counts.now j ≤ slice_index counts.now i)
        × ((j : ℕ) → j < 32 → i < j → slice_index counts.now j < slice_index counts.now i)) }
{
    let mut best = 0;
    let mut most = 0;
    let mut bit = 32;
    while bit > 0 {
        bit -= 1;
        let count = counts[bit as usize];
        if count > most {
            best = bit;
            most = count;
        }
    }
    if most == 0 { None } else { Some(best) }
}

// Whether the bit keeps the place; no place outside the table is kept.
fn keeps(rows: &[Row], met: Block, bit: u32, s: u32) -> bool
    ensures { result ≡ keeps rows.now met bit s }
{
    (s as usize) < rows.len() && parts(rows[s as usize].block, met, bit)
}

// Whether the block cares for the bit, and has there the other value than the met alias.
#[tactic(auto, using(crate::proofs::RefineLemmas::parts_high, crate::proofs::RefineLemmas::parts_off, crate::proofs::RefineLemmas::parts_on))]
fn parts(block: Block, met: Block, bit: u32) -> bool
    ensures { result ≡ parts block met bit }
{
    if bit >= 32 {
        return false;
    }
    if (block.mask >> bit) & 1 == 0 {
        return false;
    }
    (block.key >> bit) & 1 != (met.key >> bit) & 1
}
