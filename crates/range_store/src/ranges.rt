// The region.
ghost use Rattle.std.specs.Prelude.{◌≡◌, ℕ, ◌+◌, ◌^◌, ◌<◌, ◌≤◌, ◌&&◌, ◌||◌, not, true, false, IfOk, IfSome, IfNone, OnOk, OnErr, length};
ghost use Rattle.range_store.specs.Views.{CanGive};
ghost use Rattle.range_store.specs.Regions.{AreRuns, IsAsked, IsFirstFit, HasNoFit, IsFirstFitFrom, HasNoFitFrom, holes_without, hole_of, is_free, is_hole_range, in_range};

use crate::begins::Holes;
use crate::cuts::{Claim, cut_out, first_fit, hole_with};
use crate::gives::{Span, put_back};
use crate::holes::Hole;
use spin_base::Memory;
use std::alloc::Global;
use std::marker::Model;

/// A region of places below a size of at most 2^32, seen as its size, its holes in order, and `spare`, for how many
/// more holes there is room.
#[derive(Drop)]
pub struct Ranges {
    size: u64,
    holes: Vec<Hole>,
}

impl Model for Ranges {
    ghost use Rattle.std.specs.Prelude.{◌-◌, ◌≤◌, ◌^◌};
    ghost use Rattle.std.specs.Vec.{vec_len, vec_capacity};
    ghost use Rattle.range_store.specs.Regions.{AreRuns};
    ghost use Rattle.range_store.specs.Views.{Region};

    ghost Value = { Region };

    ghost view = { λ r. record {
      size = r.size;
      holes = r.holes.items;
      spare = vec_capacity r.holes - vec_len r.holes;
    } };

    ghost invariant = { λ r. (r.size ≤ 2 ^ 32) × AreRuns 0 r.size r.holes.items };
}

impl Ranges {
    /// A region whose places below `n` are all free: one hole (0, n), and none where `n` is 0.
    pub fn new(alloc: Global, n: u64) -> Result<Ranges, Memory>
        requires { n ≤ 4294967296 }
        ensures { IfOk result (λ r. (r.size ≡ n) × (r.holes ≡ hole_of 0 n)) }
    {
        let mut holes = Vec::new(alloc);
        if n > 0 {
            holes.push(Hole { place: 0, len: n })?;
        }
        Ok(Ranges { size: n, holes })
    }

    /// The size: no place at or above it is free.
    pub fn size(&self) -> u64
        ensures size { result ≡ self.now.size }
        ensures small { result ≤ 4294967296 }
        ensures runs { AreRuns 0 self.now.size self.now.holes }
    {
        self.size
    }

    /// The holes, in order.
    pub fn holes(&self) -> &[Hole]
        ensures holes { result.now ≡ self.now.holes }
        ensures runs { AreRuns 0 self.now.size self.now.holes }
    {
        self.holes.as_slice()
    }

    /// Takes the range of `size` places from the least multiple of `align` that fits in the first hole that has one,
    /// and answers its place. `None` exactly where no hole has one: then nothing changes. Nor does it after a refusal.
    pub fn take(&mut self, size: u64, align: u64) -> Result<Option<u64>, Memory>
        requires { IsAsked size align }
        ensures found { IfOk result (λ o. IfSome o
            (λ place. IsFirstFit self.old.holes size align place)) }
        ensures taken { IfOk result (λ o. IfSome o
            (λ place. self.new.holes ≡ holes_without place size self.old.holes)) }
        ensures none { IfOk result (λ o. IfNone o
            (HasNoFit self.old.holes size align × (self.new ≡ self.old))) }
        ensures refused { OnErr result (self.new.holes ≡ self.old.holes) }
        ensures free { IfOk result (λ o. IfSome o (λ place. (k : ℕ) → is_free self.new.holes k
            ≡ (is_free self.old.holes k && not (in_range place size k)))) }
        ensures size { self.new.size ≡ self.old.size }
        ensures spare { self.old.spare ≤ self.new.spare + 1 }
        ensures runs { AreRuns 0 self.new.size self.new.holes }
    {
        self.take_from(0, size, align)
    }

    /// The same among the places from `from` on: takes the range from the least multiple of `align` that is not below
    /// `from` and fits in a hole. The holes that end below `from` are not looked at.
    pub fn take_from(&mut self, from: u64, size: u64, align: u64) -> Result<Option<u64>, Memory>
        requires { IsAsked size align }
        ensures found { IfOk result (λ o. IfSome o
            (λ place. IsFirstFitFrom self.old.holes from size align place)) }
        ensures taken { IfOk result (λ o. IfSome o
            (λ place. self.new.holes ≡ holes_without place size self.old.holes)) }
        ensures none { IfOk result (λ o. IfNone o
            (HasNoFitFrom self.old.holes from size align × (self.new ≡ self.old))) }
        ensures refused { OnErr result (self.new.holes ≡ self.old.holes) }
        ensures free { IfOk result (λ o. IfSome o (λ place. (k : ℕ) → is_free self.new.holes k
            ≡ (is_free self.old.holes k && not (in_range place size k)))) }
        ensures size { self.new.size ≡ self.old.size }
        ensures spare { self.old.spare ≤ self.new.spare + 1 }
        ensures runs { AreRuns 0 self.new.size self.new.holes }
    {
        let claim = Claim { from, size, align };
        let holes = Holes {
            list: self.holes.as_slice(),
        };
        let Some((at, place)) = first_fit(holes, claim) else {
            return Ok(None);
        };
        cut_out(&mut self.holes, at, place, size)?;
        Ok(Some(place))
    }

    /// Takes the range of `size` places from `place` on. True exactly where it lies in one hole: else nothing
    /// changes. Nor does it after a refusal.
    pub fn take_at(&mut self, place: u64, size: u64) -> Result<bool, Memory>
        requires { 0 < size }
        ensures found { IfOk result (λ b. b ≡ is_hole_range self.old.holes place size) }
        ensures taken { IfOk result (λ b. b ≡ true → self.new.holes
            ≡ holes_without place size self.old.holes) }
        ensures none { IfOk result (λ b. b ≡ false → self.new ≡ self.old) }
        ensures refused { OnErr result (self.new.holes ≡ self.old.holes) }
        ensures free { IfOk result (λ b. b ≡ true → (k : ℕ) → is_free self.new.holes k
            ≡ (is_free self.old.holes k && not (in_range place size k))) }
        ensures size { self.new.size ≡ self.old.size }
        ensures spare { self.old.spare ≤ self.new.spare + 1 }
        ensures runs { AreRuns 0 self.new.size self.new.holes }
    {
        let holes = Holes {
            list: self.holes.as_slice(),
        };
        let Some(at) = hole_with(holes, place, size) else {
            return Ok(false);
        };
        cut_out(&mut self.holes, at, place, size)?;
        Ok(true)
    }

    /// Makes room: afterwards `spare` is at least `k`. The region stays as it was.
    pub fn reserve(&mut self, k: u32) -> Result<(), Memory>
        ensures room { OnOk result (k ≤ self.new.spare) }
        ensures spare { self.old.spare ≤ self.new.spare }
        ensures same { (self.new.holes ≡ self.old.holes) × (self.new.size ≡ self.old.size) }
        ensures runs { AreRuns 0 self.new.size self.new.holes }
    {
        self.holes.reserve(k as usize)?;
        Ok(())
    }

    /// Gives a range back: its places become free, and it is merged with the holes beside it. It takes no memory.
    pub fn give(&mut self, place: u64, size: u64)
        requires { CanGive self.old place size }
        ensures free { (k : ℕ) → is_free self.new.holes k
            ≡ (is_free self.old.holes k || in_range place size k) }
        ensures size { self.new.size ≡ self.old.size }
        ensures spare { self.old.spare ≤ self.new.spare + 1 }
        ensures runs { AreRuns 0 self.new.size self.new.holes }
    {
        let span = Span { place, size };
        put_back(&mut self.holes, span);
    }
}
