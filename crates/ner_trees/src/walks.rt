// Walks that go the longest dimension first.
ghost use Rattle.std.specs.Prelude.{◌≡◌, ◌+◌, ◌-◌, ◌<◌, ◌≤◌, ◌∷◌, [], ◌++◌, IfOk, length, unsigned_abs, replicate, neg_ℤ, ◌-ℤ◌, pos};
ghost use Rattle.ner_trees.specs.Geometry.{length_of, forth, back};
ghost use Rattle.ner_trees.specs.LongestFirst.{median, link_run_of, runs_of, longest_first, ldf_of, sum_of};

use crate::displacements::{Disp, back, forth};
use spin_base::{Dir, Memory, Seq};
use std::alloc::Global;

// So many steps by one link.
#[derive(Clone, Copy)]
struct Run {
    dir: Dir,
    count: u32,
}

// So many steps by a link less so many by the opposite link: steps by the one that is left.
fn along(dir: Dir, there: u32, back: u32) -> Run
    ensures { result ≡ link_run_of dir (pos there -ℤ pos back) }
{
    if there < back {
        Run {
            dir: dir.opposite(),
            count: back - there,
        }
    } else {
        Run {
            dir,
            count: there - back,
        }
    }
}

// The runs with longer ones first, and of equal ones the one that stands before.
fn longest_first(x: Run, y: Run, z: Run) -> [Run; 3]
    ensures { result ≡ longest_first (x ∷ y ∷ z ∷ []) }
{
    let (first, second) = if z.count <= y.count { (y, z) } else { (z, y) };
    if first.count <= x.count {
        [x, first, second]
    } else if second.count <= x.count {
        [first, x, second]
    } else {
        [first, second, x]
    }
}

// The displacement's runs along the three dimensions, one of them of no steps.
fn runs(d: Disp) -> [Run; 3]
    ensures { result ≡ longest_first (runs_of d) }
{
    let (east, west) = (forth(d.a), back(d.a));
    let (north, south) = (forth(d.b), back(d.b));
    let (north_east, south_west) = (east.min(north), west.min(south));
    longest_first(
        along(Dir::East, east + south_west, west + north_east),
        along(Dir::North, north + south_west, south + north_east),
        along(Dir::SouthWest, south_west, north_east),
    )
}

// Adds the steps of a run to a walk.
fn add_run(walk: &mut Vec<Dir>, run: Run) -> Result<(), Memory>
    ensures { IfOk result (λ _. walk.new.items ≡ walk.old.items ++ replicate run.count run.dir) }
{
    for _ in 0..run.count {
        walk.push(run.dir)?;
    }
    Ok(())
}

/// The steps of a displacement, the longest dimension first: (a, b, 0) less its median gives steps by East, North and
/// South-West, or by their opposites where negative; runs of more steps come first, and of equal ones x, then y, then z.
pub fn ldf(alloc: Global, d: Disp) -> Result<Seq<Dir>, Memory>
    ensures steps { IfOk result (λ s. s ≡ ldf_of d) }
    ensures as_many_as_the_length { IfOk result (λ s. length s ≡ length_of d) }
    ensures adds_up { IfOk result (λ s. sum_of s ≡ d) }
{
    let mut walk = Vec::with_capacity(alloc, d.length() as usize)?;
    walk_anew(&mut walk, d)?;
    Ok(Seq::from_vec(walk))
}

// Puts the steps of a displacement, in this order, in place of those of a walk.
pub(crate) fn walk_anew(walk: &mut Vec<Dir>, d: Disp) -> Result<(), Memory>
    ensures { IfOk result (λ _. walk.new.items ≡ ldf_of d) }
{
    walk.clear();
    for next in runs(d) {
        add_run(walk, next)?;
    }
    Ok(())
}
