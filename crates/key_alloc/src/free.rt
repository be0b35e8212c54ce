// The keys that are free while blocks are taken.
ghost use Rattle.std.specs.Prelude.{◌≡◌, ℕ, ◌^◌, ◌<◌, ◌≤◌, ◌++◌, ◌∷◌, [], List, IfOk, IfSome, IfNone, OnOk};
ghost use Rattle.std.specs.List.Sorted.{IsPermutation};
ghost use Rattle.spin_base.specs.declared.blocks.Block.{Block};
ghost use Rattle.key_alloc.specs.KeyBlocks.{IsOpenPlace, size_of};
ghost use Rattle.key_alloc.specs.FreeKeys.{AreKeysFreeBeside, AreFreeBesideSome, IsLeastOpenPlace, AreDownwards, HaveRanges, end_of_run};

use range_store::Ranges;
use spin_base::{Block, Memory};
use std::alloc::Global;

// As many keys as there are.
const ALL_KEYS: u64 = 4_294_967_296;

// As many sizes as there are: the powers of two from 1 up to all keys.
const SIZES: usize = 33;

/// The free keys below a frontier, as a region, and the fixed blocks from the frontier on, the least at the back. Keys
/// from the frontier on are looked at only where those below it do not serve. No key comes back, so what did not serve a
/// size never will: for each size there is a place before which no range is left, and the search begins there.
#[derive(Drop)]
pub struct FreeKeys {
    below: Ranges,
    frontier: u64,
    ahead: Vec<Block>,
    starts: [Start; SIZES],
}

/// Before `place` no range of so many keys is left.
#[derive(Clone, Copy)]
pub struct Start {
    pub keys: u64,
    pub place: u64,
}

/// How many keys a range is to have: one at least, and no more than there are.
#[derive(Clone, Copy)]
pub struct Size {
    pub keys: u64,
    ghost some: { 0 < keys },
    ghost few: { keys ≤ 4294967296 },
}

/// Blocks from the greatest down, each of which has its range of keys.
#[derive(Drop)]
pub struct SortedBlocks {
    pub blocks: Vec<Block>,
    ghost downwards: { AreDownwards blocks.items },
    ghost ranges: { HaveRanges blocks.items },
}

impl FreeKeys {
    /// All keys but those of fixed blocks.
    pub fn beside(alloc: Global, fixed: SortedBlocks) -> Result<FreeKeys, Memory>
        ensures free { IfOk result (λ free. (taken : List Block)
            → IsPermutation taken fixed.blocks.items → AreKeysFreeBeside taken free) }
    {
        // A region of which nothing is free yet.
        let mut below = Ranges::new(alloc, ALL_KEYS)?;
        below.take_at(0, ALL_KEYS)?;
        Ok(FreeKeys {
            below,
            frontier: 0,
            ahead: fixed.blocks,
            starts: [Start { keys: 0, place: 0 }; SIZES],
        })
    }

    /// Takes the least free range of so many keys that begins at a multiple of their number.
    pub fn take(&mut self, size: Size) -> Result<Option<u64>, Memory>
        requires { AreFreeBesideSome self.old }
        ensures small { IfOk result (λ o. IfSome o (λ place. place < 2 ^ 32)) }
        ensures least { IfOk result (λ o. IfSome o (λ place. (taken : List Block)
            → AreKeysFreeBeside taken self.old → IsLeastOpenPlace taken size.keys place)) }
        ensures free { IfOk result (λ o. IfSome o (λ place. (taken : List Block)
            → AreKeysFreeBeside taken self.old → (b : Block) → b.key ≡ place → size_of b ≡ size.keys
            → AreKeysFreeBeside (taken ++ b ∷ []) self.new)) }
        ensures none { IfOk result (λ o. IfNone o ((taken : List Block)
            → AreKeysFreeBeside taken self.old → (place : ℕ) → IsOpenPlace taken size.keys place
            → ⊥)) }
    {
        loop {
            let start = self.start_of(size);
            if let Some(place) = self.below.take_from(start, size.keys, size.keys)? {
                self.start_at(size, place);
                return Ok(Some(place));
            }
            if self.frontier == ALL_KEYS {
                return Ok(None);
            }
            self.start_at(size, self.frontier);
            self.go_on(size)?;
        }
    }

    // A place before which no range of so many keys is left.
    fn start_of(&self, size: Size) -> u64
        ensures before { (taken : List Block) → AreKeysFreeBeside taken self.now → (place : ℕ)
            → IsOpenPlace taken size.keys place → result ≤ place }
    {
        let start = self.starts[slot_of(size)];
        if start.keys == size.keys {
            start.place
        } else {
            0
        }
    }

    // From now on the search for so many keys begins at such a place.
    fn start_at(&mut self, size: Size, place: u64)
        ensures free { (taken : List Block) → AreKeysFreeBeside taken self.old
            → ((other : ℕ) → IsOpenPlace taken size.keys other → place ≤ other)
            → AreKeysFreeBeside taken self.new }
        ensures frontier { self.new.frontier ≡ self.old.frontier }
    {
        self.starts[slot_of(size)] = Start {
            keys: size.keys,
            place,
        };
    }

    // Moves the frontier behind the next run of free keys that has such a range, or behind all keys.
    fn go_on(&mut self, size: Size) -> Result<(), Memory>
        requires { AreFreeBesideSome self.old }
        ensures free { OnOk result ((taken : List Block) → AreKeysFreeBeside taken self.old
            → AreKeysFreeBeside taken self.new) }
        ensures further { OnOk result (self.old.frontier < 4294967296
            → self.old.frontier < self.new.frontier) }
    {
        while self.frontier < ALL_KEYS {
            let begin = self.frontier;
            let free = self.advance()?;
            if free && begin.next_multiple_of(size.keys) + size.keys <= self.frontier {
                return Ok(());
            }
        }
        Ok(())
    }

    // Moves the frontier behind the run of free keys or the fixed block that begins at it. True for free keys.
    fn advance(&mut self) -> Result<bool, Memory>
        requires { AreFreeBesideSome self.old }
        ensures free { OnOk result ((taken : List Block) → AreKeysFreeBeside taken self.old
            → AreKeysFreeBeside taken self.new) }
        ensures further { OnOk result (self.old.frontier < 4294967296
            → self.old.frontier < self.new.frontier) }
    {
        let end = self.end_of_run();
        if self.frontier < end {
            self.below.reserve(1)?;
            self.below.give(self.frontier, end - self.frontier);
            self.frontier = end;
            return Ok(true);
        }
        if let Some(block) = self.ahead.pop() {
            self.frontier += ALL_KEYS - u64::from(block.mask);
        }
        Ok(false)
    }

    // The next fixed block's first key, or the end of all keys.
    fn end_of_run(&self) -> u64
        ensures end { result ≡ end_of_run self.now.ahead.items }
    {
        match self.ahead.last() {
            Some(block) => u64::from(block.key),
            None => ALL_KEYS,
        }
    }
}

// Where the place for a size is kept: each power of two has a slot of its own.
fn slot_of(size: Size) -> usize
    ensures { result < 33 }
{
    size.keys.trailing_zeros().min(32) as usize
}
