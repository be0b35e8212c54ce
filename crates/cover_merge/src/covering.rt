// Covering a table.
ghost use Rattle.std.specs.Prelude.{◌≡◌, ◌<◌, ◌≤◌, ◌^◌, ◌⊎◌, IfOk, OnOk, MatchOption, length, slice_index};
ghost use Rattle.tern_word.specs.SoundTable.{IsSound, served};
ghost use Rattle.std.specs.List.Sorted.{IsPermutation};
ghost use Rattle.cover_merge.specs.Merge.{IsLegal, IsMergeSet, after};
ghost use Rattle.cover_merge.specs.Known.{AreStillKept, IsApart, IsKnownAt};
ghost use Rattle.cover_merge.specs.Covering.{Covers, HasNoChosen, HasNoLegalPair, HasRoutesOf, IsChosen};
ghost use Rattle.cover_merge.specs.Merges.{sets_of};

use crate::carrying::{carry_times, merge_rows, met_places, touch};
use crate::choosing::chosen;
use crate::gaps::Gaps;
use crate::keeping::{Kept, forget_near};
use crate::knowing::{Known, known_of};
use crate::links::carry_numbers;
use crate::merged_block;
use crate::merging::LegalMerge;
use crate::places::RowPlaces;
use crate::rivaled::{OrderedRows, SoundRows};
use crate::rivals::place_in;
use spin_base::{Memory, Seq, Shared};
use std::alloc::Global;
use tern_word::{Table, generality};

/// A merge that was made: the places of the rows in the table before it.
#[derive(Drop)]
pub struct Merge {
    pub places: Seq<u32>,
}

/// A covered table, and the merges that led to it, in order.
#[derive(Drop)]
pub struct Covered {
    pub table: Table,
    pub merges: Seq<Merge>,
}

impl Shared for Covered {}

/// Merges rows while the table has more than `target`: the largest refined set of the rows of a route, of equal ones
/// that of the least route; where none has two places, the first legal pair; where no pair is legal, covering ends.
/// Each key of each alias keeps its route (Mundy, Heathcote, Garside, HPSR 2016).
#[tactic(auto, using(crate::proofs::CoverLemmas::chosen_shorter))]
pub fn cover(alloc: Global, mut table: Table, target: u32) -> Result<Covered, Memory>
    requires few { length table.rows < 2 ^ 32 }
    requires sound { IsSound table.rows }
    ensures covered { IfOk result (λ c. Covers target table.rows (sets_of c.merges) c.table.rows) }
    ensures sound { IfOk result (λ c. IsSound c.table.rows) }
    ensures serves { IfOk result (λ c. IsPermutation (served table.rows) (served c.table.rows)) }
    ensures few { IfOk result (λ c. length c.table.rows ≤ length table.rows) }
    ensures routes { IfOk result (λ c. HasRoutesOf table.rows c.table.rows) }
    ensures ended { IfOk result (λ c. (length c.table.rows ≤ target)
        ⊎ (HasNoLegalPair c.table.rows)) }
{
    let rows = table.rows.as_slice();
    let sound = SoundRows { rows };
    let mut known = known_of(alloc, sound)?;
    let mut merges = Seq::new(alloc);
    'merging: while table.rows.len() > target as usize {
        let now = merges.len();
        match merge_next(alloc, &mut table, &mut known, now)? {
            Some(places) => merges.push(Merge { places })?,
            None => return Ok(Covered { table, merges }),
        }
    }
    Ok(Covered { table, merges })
}

// Makes the next merge, where there is one, and says which places it took.
fn merge_next(
    alloc: Global,
    table: &mut Table,
    known: &mut Known,
    now: usize,
) -> Result<Option<Seq<u32>>, Memory>
    requires { IsKnownAt now table.old.rows known.old }
    ensures found { IfOk result (λ made. MatchOption made (HasNoChosen table.old.rows)
        (IsChosen table.old.rows)) }
    ensures table { IfOk result (λ made. MatchOption made (table.new.rows
        ≡ table.old.rows) (λ places. table.new.rows ≡ after table.old.rows places)) }
    ensures known { OnOk result (IsKnownAt now table.new.rows known.new) }
{
    match chosen(alloc, table.rows.as_slice(), known, now)? {
        Some(places) => {
            merge_at(alloc, table, known, &places, now)?;
            Ok(Some(places))
        }
        None => Ok(None),
    }
}

// Merges the rows at the places, and carries over what is known to the table after it, the rivals of rows last.
fn merge_at(
    alloc: Global,
    table: &mut Table,
    known: &mut Known,
    places: &Seq<u32>,
    now: usize,
) -> Result<(), Memory>
    requires known { IsKnownAt now table.old.rows known.old }
    requires merge { (IsMergeSet table.old.rows places.now) × (IsLegal table.old.rows places.now) }
    ensures table { OnOk result (table.new.rows ≡ after table.old.rows places.now) }
    ensures known { OnOk result (IsKnownAt now table.new.rows known.new) }
{
    let rows = table.rows.as_slice();
    let members = places.as_slice();
    let set = RowPlaces {
        rows,
        places: members,
    };
    let block = merged_block(set);
    let place = place_in(OrderedRows { rows }, generality(block));
    let gaps = Gaps {
        places: members,
        place,
    };
    let merge = LegalMerge { rows, gaps, block };
    let met = met_places(alloc, merge)?;
    touch(merge, known, &met, now);
    let numbers = known.numbers.as_slice();
    forget(merge, numbers, &mut known.kept);
    carry_numbers(merge, &mut known.numbers);
    carry_times(merge, &mut known.times, now);
    merge_rows(alloc, table, &mut known.rivals, places, &met)
}

// Forgets what is kept of the route of the rows that are merged, and of routes for which a block was down-checked that the
// merge may meet.
fn forget(merge: LegalMerge, numbers: &[u32], kept: &mut Vec<Option<Kept>>)
    requires one_each { length numbers.now ≡ length merge.rows.now }
    requires inside { slice_index numbers.now (slice_index merge.gaps.places.now 0) < length kept.old.items }
    ensures { AreStillKept (λ c it. (c ≡ slice_index numbers.now (slice_index merge.entry.gaps.places.now 0)
        → ⊥) × (IsApart merge.entry.block it)) kept.old.items kept.new.items }
{
    let places = merge.gaps.places;
    let own = numbers[places[0] as usize] as usize;
    kept[own] = None;
    forget_near(kept, merge.block);
}
