// A range put back among the holes.
ghost use Rattle.std.specs.Prelude.{◌≡◌, ◌≢◌, ℕ, ◌+◌, ◌-◌, ◌<◌, ◌≤◌, Some, IfSome, IfNone, slice_get};
ghost use Rattle.std.specs.Prelude.{vec_len, vec_capacity};
ghost use Rattle.range_store.specs.Regions.{AreRuns, NoneIsFree, hole_end};
ghost use Rattle.range_store.specs.Fits.{AreNeighbours, IsPutBack};
ghost use Rattle.range_store.specs.declared.holes.Hole.{Hole};

use crate::begins::{Holes, begin_before};
use crate::holes::Hole;

/// A range that comes back.
#[derive(Clone, Copy)]
pub(crate) struct Span {
    pub place: u64,
    pub size: u64,
    ghost some: { 0 < size },
    ghost within: { place + size ≤ 4294967296 },
}

/// Puts a range back, and merges it with the holes that end where it begins and begin where it ends.
pub(crate) fn put_back(holes: &mut Vec<Hole>, span: Span)
    requires { AreRuns 0 4294967296 holes.old.items }
    ensures put { vec_len holes.old < vec_capacity holes.old
        → NoneIsFree holes.old.items span.place span.size → (n : ℕ) → AreRuns 0 n holes.old.items
        → span.place + span.size ≤ n
        → IsPutBack span.place span.size n holes.old.items holes.new.items }
    ensures len { vec_len holes.new ≤ vec_len holes.old + 1 }
    ensures capacity { vec_capacity holes.old ≤ vec_capacity holes.new }
{
    let Span { place, size } = span;
    let list = Holes {
        list: holes.as_slice(),
    };
    let (at, left, right) = neighbours(list, place, place + size);
    match (left, right) {
        (Some(left), Some(right)) => {
            holes.remove(at);
            holes[at - 1] = Hole {
                place: left.place,
                len: left.len + size + right.len,
            };
        }
        (Some(left), None) => {
            holes[at - 1] = Hole {
                place: left.place,
                len: left.len + size,
            };
        }
        (None, Some(right)) => {
            holes[at] = Hole {
                place,
                len: size + right.len,
            };
        }
        (None, None) => {
            // Where there is room it can't fail.
            let _ = holes.insert(at, Hole { place, len: size });
        }
    }
}

/// How many holes begin before a range, and the holes that end where it begins and begin where it ends.
fn neighbours(holes: Holes, place: u64, end: u64) -> (usize, Option<Hole>, Option<Hole>)
    ensures { AreNeighbours holes.entry.list.now place end result.0 result.1 result.2 }
{
    let at = begin_before(holes, place);
    (
        at,
        hole_that_ends(holes.list, at, place),
        hole_that_begins(holes.list, at, end),
    )
}

/// The hole before one of the list, if it ends at a place.
fn hole_that_ends(holes: &[Hole], at: usize, place: u64) -> Option<Hole>
    ensures some { IfSome result (λ h. (0 < at) × (slice_get holes.now (at - 1) ≡ Some h)
        × (hole_end h ≡ place)) }
    ensures none { IfNone result ((h : Hole) → 0 < at → slice_get holes.now (at - 1) ≡ Some h
        → hole_end h ≢ place) }
{
    let hole = holes.get(at.checked_sub(1)?)?;
    if place.checked_sub(hole.place) == Some(hole.len) {
        Some(*hole)
    } else {
        None
    }
}

/// The hole at that place of the list, if it begins at a place.
fn hole_that_begins(holes: &[Hole], at: usize, place: u64) -> Option<Hole>
    ensures some { IfSome result (λ h. (slice_get holes.now at ≡ Some h) × (h.place ≡ place)) }
    ensures none { IfNone result ((h : Hole) → slice_get holes.now at ≡ Some h → h.place ≢ place) }
{
    let hole = holes.get(at)?;
    if hole.place == place {
        Some(*hole)
    } else {
        None
    }
}
