// Which rows are merged next.
ghost use Rattle.std.specs.Prelude.{◌≡◌, ◌<◌, ℕ, suc, [], ◌∷◌, IfOk, OnOk, IsTrue, MatchBool, MatchOption, None, Some, ⊤, ◌⊎◌, length, slice_index, slice_index_or};
ghost use Rattle.cover_merge.specs.Tried.{AreNewerOf, AreTried, IsNextSince};
ghost use Rattle.cover_merge.specs.declared.keeping.Kept.{Kept as AKept};
ghost use Rattle.tern_word.specs.declared.tables.Row.{Row as ARow};
ghost use Rattle.cover_merge.specs.Links.{AreLinks, IsFirstOfRoute};
ghost use Rattle.cover_merge.specs.Kept.{RefinesWithin};
ghost use Rattle.cover_merge.specs.Known.{AreSetsKept, IsKnownAt, IsLinked, AreChanges};
ghost use Rattle.cover_merge.specs.Covering.{places_of, IsFirstPartner, IsLargest, HasNoLargest, IsLegalPair, HasNoLegalPair, IsFirstLegalPair, IsChosen, HasNoChosen};

use crate::keeping::{Kept, most_of};
use crate::knowing::Known;
use crate::links::{ChangesBehind, LinkedRows, Links, links_of};
use crate::meeting::{LastMet, none_met};
use crate::refining::{Refined, refine_within};
use crate::rivaled::{RivaledRows, RowPair};
use crate::rivals::is_legal_pair;
use crate::times::{Times, marked};
use spin_base::{Memory, Seq};
use std::alloc::Global;
use tern_word::Row;

/// The set of places that is merged next, where there is one: the largest refined set, of equal ones that of the least
/// route, and where none has two places the first legal pair.
pub(crate) fn chosen(
    alloc: Global,
    rows: &[Row],
    known: &mut Known,
    now: usize,
) -> Result<Option<Seq<u32>>, Memory>
    requires { IsKnownAt now rows.now known.old }
    ensures found { IfOk result (λ found. MatchOption found (HasNoChosen rows.now) (λ set.
        IsChosen rows.now set)) }
    ensures known { OnOk result (IsKnownAt now rows.now known.new) }
{
    let links = links_of(alloc, rows, &known.numbers, &known.routes)?;
    let fresh = keep_all(alloc, rows, known, &links)?;
    match largest(alloc, rows, known, &links, fresh)? {
        Some(set) => Ok(Some(set)),
        None => first_pair(alloc, rows, known, &links, now),
    }
}

// A set to which the rows of the route of this number were refined, or none.
#[derive(Drop)]
struct Fresh {
    number: usize,
    set: Seq<u32>,
}

// Refines the rows of each route of which nothing is kept, and keeps how many places are left. The largest of these sets, so
// that it need not be refined once more.
fn keep_all(alloc: Global, rows: &[Row], known: &mut Known, links: &Links) -> Result<Fresh, Memory>
    requires { IsLinked rows.now known.old links.now }
    ensures kept { IfOk result (AreSetsKept rows.now known.new links.now) }
    ensures times { OnOk result (known.new.times.items ≡ known.old.times.items) }
{
    let mut fresh = Fresh {
        number: 0,
        set: Seq::new(alloc),
    };
    for c in 0..known.routes.len() {
        if is_known(known.kept[c]) {
            continue;
        }
        let Refined { set, kept } = refined_of(alloc, rows, known, links, c)?;
        known.kept[c] = Some(kept);
        renew_fresh(&mut fresh, c, set);
    }
    Ok(fresh)
}

// Whether something is kept of a route.
fn is_known(kept: Option<Kept>) -> bool
    ensures { MatchBool result ((it : AKept) × (kept ≡ Some it)) ⊤ }
{
    match kept {
        Some(_it) => true,
        None => false,
    }
}

// Has the set of the route of this number in place of the other, where it is larger.
fn renew_fresh(fresh: &mut Fresh, c: usize, set: Seq<u32>)
    ensures { (fresh.new ≡ fresh.old) ⊎ ((fresh.new.number ≡ c) × (fresh.new.set ≡ set)) }
{
    if set.len() > fresh.set.len() {
        fresh.number = c;
        fresh.set = set;
    }
}

// The set to which the rows of the route of this number are refined, and what is kept of it.
fn refined_of<'x>(
    alloc: Global,
    rows: &'x [Row],
    known: &'x Known,
    links: &'x Links,
    c: usize,
) -> Result<Refined, Memory>
    requires linked { IsLinked rows.now known.now links.now }
    requires inside { c < length known.now.routes.items }
    ensures refined { IfOk result (λ r. RefinesWithin rows.now r.kept.outer r.kept.low
        (places_of (slice_index known.now.routes.items c) 0 rows.now) r.set) }
    ensures size { IfOk result (λ r. length r.set ≡ r.kept.size) }
{
    let table = RivaledRows {
        rows,
        rivals: &known.rivals,
    };
    let linked = LinkedRows { table, links };
    let places = places_from(alloc, linked, links.heads[c])?;
    refine_within(alloc, table, places)
}

// The largest refined set, where one has two places: that of the route of which most places are kept.
fn largest(
    alloc: Global,
    rows: &[Row],
    known: &Known,
    links: &Links,
    fresh: Fresh,
) -> Result<Option<Seq<u32>>, Memory>
    requires { AreSetsKept rows.now known.now links.now fresh }
    ensures { IfOk result (λ found. MatchOption found (HasNoLargest rows.now) (λ set.
        IsLargest rows.now set)) }
{
    let most = most_of(&known.routes, &known.kept);
    if most.size < 2 {
        return Ok(None);
    }
    if fresh.number == most.number && fresh.set.len() == most.size {
        return Ok(Some(fresh.set));
    }
    let Refined { set, kept: _ } = refined_of(alloc, rows, known, links, most.number)?;
    Ok(Some(set))
}

// The places of all rows of a route whose first is that at the place.
fn places_from(alloc: Global, linked: LinkedRows, first: u32) -> Result<Seq<u32>, Memory>
    ensures { IfOk result (λ places. (bits : ℕ) → IsFirstOfRoute linked.entry.table.rows.now bits first
        → places ≡ places_of bits 0 linked.entry.table.rows.now) }
{
    let rows = linked.table.rows;
    let links = linked.links;
    let mut places = Vec::new(alloc);
    let mut place = first as usize;
    while place < rows.len() {
        places.push(place as u32)?;
        place = links.next[place] as usize;
    }
    Ok(Seq::from_vec(places))
}

// For each row the next one of its route that changed later, for the routes that are ready.
#[derive(Drop)]
struct Changes {
    newer: Vec<u32>,
    ready: Vec<bool>,
}

// The first legal pair. A row that is no legal pair with a later one is marked, and is not tried again until a row of its
// route changes: till then it is settled.
fn first_pair<'x>(
    alloc: Global,
    rows: &'x [Row],
    known: &mut Known,
    links: &'x Links,
    now: usize,
) -> Result<Option<Seq<u32>>, Memory>
    requires known { IsKnownAt now rows.now known.old }
    requires links { AreLinks known.old.routes.items rows.now links.now.next.items
        links.now.heads.items }
    ensures found { IfOk result (λ found. MatchOption found (HasNoLegalPair rows.now) (λ set.
        IsFirstLegalPair rows.now set)) }
    ensures known { OnOk result (IsKnownAt now rows.now known.new) }
{
    let mut changes = Changes {
        newer: vec![in alloc; 0u32; rows.len()]?,
        ready: vec![in alloc; false; known.routes.len()]?,
    };
    let mut last = none_met();
    for i in 0..rows.len() {
        let number = known.numbers[i] as usize;
        if known.latest[number] < known.times[i].tried {
            continue;
        }
        make_ready(alloc, rows, known, links, &mut changes, i)?;
        let table = RivaledRows {
            rows,
            rivals: &known.rivals,
        };
        let linked = LinkedRows { table, links };
        let behind = ChangesBehind {
            linked,
            times: &known.times,
            newer: &changes.newer,
            k: i as u32,
        };
        if let Some(j) = partner(behind, &mut last) {
            return Ok(Some(two_places(alloc, i as u32, j)?));
        }
        known.times[i] = marked(known.times[i], now);
    }
    Ok(None)
}

// Makes the changes of the route of row `i` ready, where they are not yet.
fn make_ready<'x>(
    alloc: Global,
    rows: &'x [Row],
    known: &'x Known,
    links: &'x Links,
    changes: &mut Changes,
    i: usize,
) -> Result<(), Memory>
    requires changes { AreChanges rows.now known.now links.now changes.old }
    requires inside { i < length rows.now }
    ensures changes { OnOk result (AreChanges rows.now known.now links.now changes.new) }
    ensures own { OnOk result ((d : ARow) → AreNewerOf (slice_index_or rows.now i d).route.bits 0
        rows.now known.now.times.items changes.new.newer.items) }
{
    let c = known.numbers[i] as usize;
    if !changes.ready[c] {
        let table = RivaledRows {
            rows,
            rivals: &known.rivals,
        };
        let linked = LinkedRows { table, links };
        find_newer(
            alloc,
            linked,
            &known.times,
            &mut changes.newer,
            links.heads[c],
        )?;
        changes.ready[c] = true;
    }
    Ok(())
}

// Finds for each row of the route whose first row is that at the place the next of it that changed later.
fn find_newer<'x>(
    alloc: Global,
    linked: LinkedRows<'x>,
    times: &'x [Times],
    newer: &mut Vec<u32>,
    first: u32,
) -> Result<(), Memory>
    requires one_each { (length times.now ≡ length linked.table.rows.now) × (length newer.old.items ≡ length linked.table.rows.now) }
    requires first { (bits : ℕ) × IsFirstOfRoute linked.table.rows.now bits first }
    ensures one_each { OnOk result (length newer.new.items ≡ length linked.entry.table.rows.now) }
    ensures own { OnOk result ((bits : ℕ) → IsFirstOfRoute linked.entry.table.rows.now bits first
        → AreNewerOf bits 0 linked.entry.table.rows.now times.now newer.new.items) }
    ensures others { OnOk result ((bits k : ℕ) (d : ARow) → IsFirstOfRoute linked.entry.table.rows.now bits first
        → k < length linked.entry.table.rows.now
        → ((slice_index_or linked.entry.table.rows.now k d).route.bits ≡ bits → ⊥)
        → slice_index newer.new.items k ≡ slice_index newer.old.items k) }
{
    let rows = linked.table.rows;
    let list = places_from(alloc, linked, first)?;
    let places = list.as_slice();
    let mut k = places.len();
    while k > 0 {
        k -= 1;
        let place = places[k];
        let behind = ChangesBehind {
            linked,
            times,
            newer,
            k: place,
        };
        let next = changed_after(behind, times[place as usize].changed);
        newer[place as usize] = next;
    }
    Ok(())
}

// The next row of the route of the row that changed after the time.
fn changed_after(behind: ChangesBehind, time: usize) -> u32
    ensures { IsNextSince behind.entry.linked.table.rows.now behind.entry.times.now behind.entry.k (suc time) result }
{
    let rows = behind.linked.table.rows;
    let times = behind.times;
    let newer = behind.newer;
    let links = behind.linked.links;
    let mut place = links.next[behind.k as usize];
    while (place as usize) < rows.len() {
        let changed = times[place as usize].changed;
        if changed > time {
            return place;
        }
        place = newer[place as usize];
    }
    place
}

// The next row of the route of the row that changed at the time or later: only such a row need be tried with one that was
// tried then.
fn next_to_try(behind: ChangesBehind, time: usize) -> u32
    ensures { IsNextSince behind.entry.linked.table.rows.now behind.entry.times.now behind.entry.k time result }
{
    let links = behind.linked.links;
    let next = links.next[behind.k as usize];
    if time == 0 {
        return next;
    }
    changed_after(behind, time - 1)
}

// The list of two places.
fn two_places(alloc: Global, i: u32, j: u32) -> Result<Seq<u32>, Memory>
    ensures { IfOk result (λ set. set ≡ i ∷ j ∷ []) }
{
    let mut set = Seq::new(alloc);
    set.push(i)?;
    set.push(j)?;
    Ok(set)
}

// The first row behind the row that can be merged with it: only those of its route can that changed since it was tried.
fn partner(behind: ChangesBehind, last: &mut LastMet) -> Option<u32>
    requires { AreTried behind.linked.table.rows.now behind.times.now }
    ensures { MatchOption result ((b : ℕ) → IsLegalPair behind.entry.linked.table.rows.now behind.entry.k b
        → ⊥) (λ j. IsFirstPartner behind.entry.linked.table.rows.now behind.entry.k j) }
{
    let linked = behind.linked;
    let table = linked.table;
    let times = behind.times;
    let newer = behind.newer;
    let i = behind.k;
    let rows = table.rows;
    let tried = times[i as usize].tried;
    let mut j = next_to_try(behind, tried);
    while (j as usize) < rows.len() {
        let pair = RowPair { table, i, j };
        if is_legal_pair(pair, last) {
            return Some(j);
        }
        let further = ChangesBehind {
            linked,
            times,
            newer,
            k: j,
        };
        j = next_to_try(further, tried);
    }
    None
}
