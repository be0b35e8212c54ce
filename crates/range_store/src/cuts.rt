// Which hole serves a range, and what the range leaves of it.
ghost use Rattle.std.specs.Prelude.{◌≡◌, ℕ, ◌+◌, ◌%◌, ◌<◌, ◌≤◌, ◌++◌, ◌∷◌, true, false, IfSome, IfNone, OnOk, OnErr, Some, slice_get, take, drop};
ghost use Rattle.std.specs.Prelude.{vec_len, vec_capacity};
ghost use Rattle.range_store.specs.Regions.{IsFirstFitFrom, HasNoFitFrom, has_range, rest_of, is_hole_range, hole_end};
ghost use Rattle.range_store.specs.Fits.{FitsAt, IsLeastIn, NoneIn};
ghost use Rattle.range_store.specs.declared.holes.Hole.{Hole};

use crate::begins::{Holes, begin_before};
use crate::holes::Hole;
use spin_base::Memory;

/// What is asked for: so many places, from a multiple of a number on that is not before a place.
#[derive(Clone, Copy)]
pub(crate) struct Claim {
    pub from: u64,
    pub size: u64,
    pub align: u64,
    ghost some: { 0 < size },
    ghost step: { 0 < align },
}

/// The first hole that has a range as claimed, and the least place in it from which one lies there. The search begins at the
/// hole in which the claim's place may lie: those before it end before that place.
pub(crate) fn first_fit(holes: Holes, claim: Claim) -> Option<(usize, u64)>
    ensures first { IfSome result (λ r. IsFirstFitFrom holes.entry.list.now claim.from claim.size
        claim.align r.1) }
    ensures at { IfSome result (λ r. FitsAt holes.entry.list.now r.0 r.1 claim.size) }
    ensures none { IfNone result (HasNoFitFrom holes.entry.list.now claim.from claim.size claim.align) }
{
    let list = holes.list;
    let first = begin_before(holes, claim.from).saturating_sub(1);
    for at in first..list.len() {
        if let Some(place) = fit_in(&list[at], claim) {
            return Some((at, place));
        }
    }
    None
}

/// The least place from which a range as claimed lies in the hole.
fn fit_in(hole: &Hole, claim: Claim) -> Option<u64>
    requires { hole_end hole.now ≤ 4294967296 }
    ensures least { IfSome result (λ place. IsLeastIn hole.now claim.from claim.size claim.align place) }
    ensures none { IfNone result (NoneIn hole.now claim.from claim.size claim.align) }
{
    let low = hole.place.max(claim.from);
    let place = low.checked_next_multiple_of(claim.align)?;
    let left = hole.len.saturating_sub(place - hole.place);
    if claim.size <= left {
        Some(place)
    } else {
        None
    }
}

/// The hole in which a range lies: it can only be the last that begins at the range's place or before it.
pub(crate) fn hole_with(holes: Holes, place: u64, size: u64) -> Option<usize>
    ensures at { IfSome result (λ at. FitsAt holes.entry.list.now at place size) }
    ensures none { IfNone result (is_hole_range holes.entry.list.now place size ≡ false) }
{
    let list = holes.list;
    let count = begin_before(holes, place.saturating_add(1));
    if count == 0 {
        return None;
    }
    let at = count - 1;
    let hole = list[at];
    if place.saturating_add(size) <= hole.place + hole.len {
        Some(at)
    } else {
        None
    }
}

/// Takes a range out of the hole in which it lies.
pub(crate) fn cut_out(holes: &mut Vec<Hole>, at: usize, place: u64, size: u64) -> Result<(), Memory>
    requires { FitsAt holes.old.items at place size }
    ensures ok { OnOk result ((h : Hole) → slice_get holes.old.items at ≡ Some h → holes.new.items
        ≡ take at holes.old.items ++ (rest_of place size h ++ drop (at + 1) holes.old.items)) }
    ensures err { OnErr result (holes.new.items ≡ holes.old.items) }
    ensures len { vec_len holes.new ≤ vec_len holes.old + 1 }
    ensures capacity { vec_capacity holes.old ≤ vec_capacity holes.new }
{
    let hole = holes[at];
    let after = place + size;
    let left = Hole {
        place: hole.place,
        len: place - hole.place,
    };
    let right = Hole {
        place: after,
        len: hole.place + hole.len - after,
    };
    match (left.len, right.len) {
        (0, 0) => {
            holes.remove(at);
        }
        (_, 0) => holes[at] = left,
        (0, _) => holes[at] = right,
        _ => {
            holes.insert(at, left)?;
            holes[at + 1] = right;
        }
    }
    Ok(())
}
