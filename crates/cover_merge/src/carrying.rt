// What is known from one merge to the next.
ghost use Rattle.std.specs.Prelude.{◌≡◌, ◌<◌, ◌≤◌, [], ℕ, List, AllPairs, IfOk, OnOk, MatchBool, ⊤, length, slice_index, slice_index_or};
ghost use Rattle.tern_word.specs.declared.tables.Row.{Row as ARow};
ghost use Rattle.tern_word.specs.Ternary.{generality};
ghost use Rattle.cover_merge.specs.Merge.{after, merged_block};
ghost use Rattle.cover_merge.specs.Known.{AreStillKept, HasSameRoutes, IsKnownAt, MissesAllOf};
ghost use Rattle.cover_merge.specs.Links.{place_of_route};
ghost use Rattle.cover_merge.specs.Rivals.{AreMet, AreRivalsAfter, CanMerge, HasLists, IsPutIn, IsRivaled, rivals_left};
ghost use Rattle.cover_merge.specs.Tried.{AreNoLater, AreTouched, AreTriedUpTo, IsTouchedAt, LosesNone};

use crate::applying::{apply, replace_all};
use crate::gaps::Gaps;
use crate::knowing::Known;
use crate::merged_block;
use crate::merging::{LegalMerge, RowBefore};
use crate::places::RowPlaces;
use crate::rivaled::{HoldingRow, NumberedPlaces, NumberedRow, OrderedRows};
use crate::rivals::{Rival, Rivals, is_at_one, is_missed, place_in, rivals_behind};
use crate::spans::spans_of;
use crate::times::{Times, changed};
use spin_base::{Memory, Seq};
use std::alloc::Global;
use std::mem;
use tern_word::{Row, Table, generality};

/// The places of the rows of which the merge meets an alias: it meets none of a row from its place on.
pub(crate) fn met_places(alloc: Global, merge: LegalMerge) -> Result<Vec<u32>, Memory>
    ensures { IfOk result (λ met. AreMet merge.entry.block merge.entry.rows.now met.items) }
{
    let rows = merge.rows;
    let mut met = Vec::new(alloc);
    for s in 0..merge.gaps.place {
        if !is_missed(merge.block, HoldingRow { row: &rows[s] }) {
            met.push(s as u32)?;
        }
    }
    Ok(met)
}

/// Carries over when rows were tried and changed to the table after the merge. The merged row changed now.
pub(crate) fn carry_times(merge: LegalMerge, times: &mut Vec<Times>, now: usize)
    requires { length times.old.items ≡ length merge.rows.now }
    ensures one_each { length times.new.items ≡ length (after merge.entry.rows.now merge.entry.gaps.places.now) }
    ensures marks { AreTriedUpTo now merge.entry.rows.now times.old.items
        → AreTouched merge.entry.gaps.places.now now merge.entry.rows.now times.old.items
        → AreTriedUpTo now (after merge.entry.rows.now merge.entry.gaps.places.now) times.new.items }
    ensures latest { (routes latest : List ℕ) → AreNoLater routes latest merge.entry.rows.now times.old.items
        → ((d : ARow) → slice_index latest (place_of_route routes
        (slice_index_or merge.entry.rows.now (slice_index merge.entry.gaps.places.now 0) d).route.bits) ≡ now)
        → AreNoLater routes latest (after merge.entry.rows.now merge.entry.gaps.places.now) times.new.items }
{
    replace_all(times, merge.gaps, changed(now));
}

/// Forgets what is kept of routes with a row of which the merge meets an alias. Says that rows changed now which lose a row
/// behind them by it, and so may become legal pairs; and that a row of the merge's route did.
pub(crate) fn touch(merge: LegalMerge, known: &mut Known, met: &[u32], now: usize)
    requires known { IsKnownAt now merge.rows.now known.old }
    requires met { AreMet merge.block merge.rows.now met.now }
    ensures known { IsKnownAt now merge.entry.rows.now known.new }
    ensures touched { AreTouched merge.entry.gaps.places.now now merge.entry.rows.now known.new.times.items }
    ensures own { (d : ARow) → slice_index known.new.latest.items (place_of_route known.new.routes.items
        (slice_index_or merge.entry.rows.now (slice_index merge.entry.gaps.places.now 0) d).route.bits) ≡ now }
    ensures rivals { known.new.rivals ≡ known.old.rivals }
    ensures same { HasSameRoutes known.old known.new }
    ensures left { AreStillKept (λ c it. MissesAllOf merge.entry.block merge.entry.rows.now known.old.numbers.items
        (length merge.entry.rows.now) c) known.old.kept.items known.new.kept.items }
{
    let places = merge.gaps.places;
    let own = known.numbers[places[0] as usize];
    known.latest[own as usize] = now;
    for k in 0..met.len() {
        let row = RowBefore {
            merge,
            s: met[k] as usize,
        };
        touch_at(row, known, now);
    }
}

// The same of a row, an alias of which the merge meets: it changed now where it loses a row behind it.
fn touch_at(row: RowBefore, known: &mut Known, now: usize)
    requires { IsKnownAt now row.merge.rows.now known.old }
    ensures known { IsKnownAt now row.entry.merge.rows.now known.new }
    ensures touched { IsTouchedAt row.entry.merge.gaps.places.now now row.entry.merge.rows.now row.entry.s
        known.old.times.items known.new.times.items }
    ensures times { (c : ℕ) → slice_index known.old.latest.items c ≡ now
        → slice_index known.new.latest.items c ≡ now }
    ensures rivals { known.new.rivals ≡ known.old.rivals }
    ensures same { HasSameRoutes known.old known.new }
    ensures left { AreStillKept (λ c it. c ≡ slice_index known.old.numbers.items row.entry.s
        → ⊥) known.old.kept.items known.new.kept.items }
{
    let s = row.s;
    let number = known.numbers[s] as usize;
    known.kept[number] = None;
    if !loses(row, &known.rivals) {
        return;
    }
    known.latest[number] = now;
    known.times[s] = changed(now);
}

// Whether a row that is merged is a rival of the row.
fn loses(row: RowBefore, rivals: &Rivals) -> bool
    requires { IsRivaled row.merge.rows.now rivals.now }
    ensures { MatchBool result ⊤ (LosesNone row.entry.merge.rows.now row.entry.merge.gaps.places.now row.entry.s) }
{
    let places = row.merge.gaps.places;
    let serial = rivals.serials[row.s];
    let list = rivals.of[serial].as_slice();
    let numbered = NumberedPlaces {
        serials: &rivals.serials,
        places,
    };
    for k in 0..list.len() {
        if is_at_one(numbered, list[k].serial) {
            return true;
        }
    }
    false
}

/// Merges the rows at the places, and carries the rivals of all rows over to the table after it. The merge meets an alias of
/// each row at one of the places of `met`, and of no other.
pub(crate) fn merge_rows(
    alloc: Global,
    table: &mut Table,
    rivals: &mut Rivals,
    places: &Seq<u32>,
    met: &[u32],
) -> Result<(), Memory>
    requires { CanMerge table.old.rows rivals.old places.now met.now }
    ensures table { OnOk result (table.new.rows ≡ after table.old.rows places.now) }
    ensures rivaled { OnOk result (IsRivaled table.new.rows rivals.new) }
{
    let members = places.as_slice();
    let set = RowPlaces {
        rows: table.rows.as_slice(),
        places: members,
    };
    let merged = merged_rival(rivals, set);
    renew_all(alloc, table.rows.as_slice(), rivals, members, met, merged)?;
    let ordered = OrderedRows {
        rows: table.rows.as_slice(),
    };
    let place = place_in(ordered, merged.general);
    apply(alloc, table, places)?;
    let gaps = Gaps {
        places: members,
        place,
    };
    replace_all(&mut rivals.serials, gaps, merged.serial);
    let at = place - members.len();
    let rows = table.rows.as_slice();
    let row = NumberedRow {
        rows,
        serials: &rivals.serials,
        s: at,
    };
    let list = rivals_behind(alloc, row)?;
    rivals.of.push(list)?;
    let spans = spans_of(alloc, rows[at].aliases.as_slice())?;
    rivals.spans.push(spans)?;
    Ok(())
}

// The merge of the rows at the places, as a rival. Its number is a new one.
fn merged_rival(rivals: &Rivals, set: RowPlaces) -> Rival
    ensures serial { result.serial ≡ length rivals.now.of.items }
    ensures general { result.general ≡ generality (merged_block set.entry.rows.now set.entry.places.now) }
    ensures bits { (d : ARow) → result.bits
        ≡ (slice_index_or set.entry.rows.now (slice_index set.entry.places.now 0) d).route.bits }
{
    let rows = set.rows;
    let places = set.places;
    Rival {
        serial: rivals.of.len(),
        general: generality(merged_block(set)),
        bits: rows[places[0] as usize].route.bits,
    }
}

// Renews the rivals of rows of which the merge meets an alias: those that are merged go, and the merged row comes.
fn renew_all(
    alloc: Global,
    rows: &[Row],
    rivals: &mut Rivals,
    places: &[u32],
    met: &[u32],
    merged: Rival,
) -> Result<(), Memory>
    requires { CanMerge rows.now rivals.old places.now met.now }
    ensures serials { OnOk result (rivals.new.serials.items ≡ rivals.old.serials.items) }
    ensures one_each { OnOk result (length rivals.new.of.items ≡ length rivals.old.of.items) }
    ensures spans { OnOk result (rivals.new.spans.items ≡ rivals.old.spans.items) }
    ensures after { OnOk result ((s : ℕ) → s < length rows.now
        → AreRivalsAfter rows.now rivals.old.serials.items places.now (merged_block rows.now places.now) merged s
        (slice_index_or rivals.new.of.items (slice_index rivals.old.serials.items s) [])) }
{
    for k in 0..met.len() {
        renew(alloc, rivals, places, merged, met[k] as usize)?;
    }
    Ok(())
}

// Renews the rivals of row `s`.
fn renew(
    alloc: Global,
    rivals: &mut Rivals,
    places: &[u32],
    merged: Rival,
    s: usize,
) -> Result<(), Memory>
    requires { HasLists rivals.old places.now s }
    ensures serials { rivals.new.serials.items ≡ rivals.old.serials.items }
    ensures one_each { length rivals.new.of.items ≡ length rivals.old.of.items }
    ensures spans { rivals.new.spans.items ≡ rivals.old.spans.items }
    ensures own { OnOk result (AllPairs (λ v w. v.general ≤ w.general)
        (slice_index_or rivals.old.of.items (slice_index rivals.old.serials.items s) [])
        → IsPutIn merged (rivals_left rivals.old.serials.items places.now
        (slice_index_or rivals.old.of.items (slice_index rivals.old.serials.items s) []))
        (slice_index_or rivals.new.of.items (slice_index rivals.old.serials.items s) [])) }
    ensures others { (k : ℕ) → (k ≡ slice_index rivals.old.serials.items s → ⊥)
        → slice_index_or rivals.new.of.items k [] ≡ slice_index_or rivals.old.of.items k [] }
{
    let serial = rivals.serials[s];
    let mut list = mem::replace(&mut rivals.of[serial], Seq::new(alloc)).into_vec();
    let numbered = NumberedPlaces {
        serials: &rivals.serials,
        places,
    };
    list.retain(|v| !is_at_one(numbered, v.serial));
    let done = put_rival(&mut list, merged);
    rivals.of[serial] = Seq::from_vec(list);
    done
}

// Puts a rival into its place in the order of generality, behind those that are at most as general.
fn put_rival(list: &mut Vec<Rival>, rival: Rival) -> Result<(), Memory>
    ensures { OnOk result (AllPairs (λ v w. v.general ≤ w.general) list.old.items
        → IsPutIn rival list.old.items list.new.items) }
{
    let mut at = 0;
    while at < list.len() && list[at].general <= rival.general {
        at += 1;
    }
    list.insert(at, rival)?;
    Ok(())
}
