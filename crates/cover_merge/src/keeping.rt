// What is kept of each route from one merge to the next: how many places its refined set has. The set itself is not kept,
// so no place changes.
ghost use Rattle.std.specs.Prelude.{◌≡◌, ◌+◌, ◌<◌, ◌≤◌, ◌⊎◌, ℕ, List, Option, None, Some, MatchBool, ⊤, length, slice_index, slice_index_or};
ghost use Rattle.tern_word.specs.Ternary.{generality};
ghost use Rattle.cover_merge.specs.Known.{AreStillKept, IsApart, IsMostBefore};
ghost use Rattle.cover_merge.specs.declared.keeping.Kept.{Kept as AKept};

use spin_base::Block;
use tern_word::{generality, intersects};

/// What is kept of a route: how many places its refined set has, the first block that was down-checked for it, and the
/// generality of the last. All others lie in the first. Where none was down-checked, the generality is 33.
#[derive(Clone, Copy)]
pub(crate) struct Kept {
    pub(crate) size: usize,
    pub(crate) outer: Block,
    pub(crate) low: u32,
}

/// The route of which most places are kept, of equal ones the least: its number, its bits, and how many.
#[derive(Clone, Copy)]
pub(crate) struct Most {
    pub(crate) number: usize,
    pub(crate) bits: u32,
    pub(crate) size: usize,
}

/// The route of which most places are kept.
pub(crate) fn most_of(routes: &[u32], kept: &[Option<Kept>]) -> Most
    requires { length kept.now ≡ length routes.now }
    ensures { IsMostBefore routes.now kept.now (length routes.now) result }
{
    let mut most = Most {
        number: 0,
        bits: 0,
        size: 0,
    };
    for c in 0..routes.len() {
        most = greater(c, routes[c], kept[c], most);
    }
    most
}

// The greater one of that of the routes so far and the next, which has this number and these bits, and of which this is kept.
fn greater(c: usize, bits: u32, kept: Option<Kept>, most: Most) -> Most
    ensures { (routes : List ℕ) (all : List (Option AKept)) → IsMostBefore routes all c most → c < length routes
        → slice_index routes c ≡ bits → slice_index_or all c None ≡ kept → IsMostBefore routes all (c + 1) result }
{
    let Some(it) = kept else {
        return most;
    };
    if beats(it.size, bits, most.size, most.bits) {
        return Most {
            number: c,
            bits,
            size: it.size,
        };
    }
    most
}

// Whether n places of one route are more than m of another, or as many and of the lesser route.
fn beats(n: usize, bits: u32, m: usize, other: u32) -> bool
    ensures { MatchBool result ((m < n) ⊎ ((n ≡ m) × (bits < other))) ((n < m)
        ⊎ ((n ≡ m) × (other ≤ bits))) }
{
    m < n || (n == m && bits < other)
}

/// Forgets what is kept of routes for which a block was down-checked that a merge of this block may meet.
pub(crate) fn forget_near(kept: &mut Vec<Option<Kept>>, merged: Block)
    ensures { AreStillKept (λ c it. IsApart merged it) kept.old.items kept.new.items }
{
    for c in 0..kept.len() {
        if is_apart(kept[c], merged) {
            continue;
        }
        kept[c] = None;
    }
}

// Whether the block is apart from all that was down-checked.
fn is_apart(kept: Option<Kept>, merged: Block) -> bool
    ensures { MatchBool result ((it : AKept) → kept ≡ Some it → IsApart merged it) ⊤ }
{
    let Some(it) = kept else {
        return true;
    };
    if generality(merged) <= it.low {
        return true;
    }
    if intersects(merged, it.outer) {
        return false;
    }
    true
}
