// Where a place stands among the holes.
ghost use Rattle.std.specs.Prelude.{◌≡◌, ℕ, ◌<◌, ◌≤◌, Some, length, slice_get};
ghost use Rattle.std.proofs.Props.{props};
ghost use Rattle.range_store.specs.Regions.{AreRuns, AreRuns-prop};
ghost use Rattle.range_store.specs.declared.holes.Hole.{Hole};

use crate::holes::Hole;

/// The holes of a region, in order.
#[derive(Clone, Copy)]
pub(crate) struct Holes<'a> {
    pub list: &'a [Hole],
    pub ghost runs: { AreRuns 0 4294967296 list.now } by { Prim.hlevel (props, AreRuns-prop) },
}

/// How many holes begin before a place: it is searched by halving.
pub(crate) fn begin_before(holes: Holes, place: u64) -> usize
    ensures within { result ≤ length holes.entry.list.now }
    ensures before { (k : ℕ) (h : Hole) → k < result → slice_get holes.entry.list.now k ≡ Some h
        → h.place < place }
    ensures after { (k : ℕ) (h : Hole) → result ≤ k → slice_get holes.entry.list.now k ≡ Some h
        → place ≤ h.place }
{
    holes.list.partition_point(|hole| hole.place < place)
}
