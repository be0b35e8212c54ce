// What is known of groups of entries without a look at them.
ghost use Rattle.std.specs.Prelude.{◌≡◌, ℕ, ◌+◌, ◌<◌, ◌≤◌, ◌==◌, false, bit_and, IfSome, List, Some, length, slice_get, slice_index, slice_set};
ghost use Rattle.tcam_find.specs.declared.groups.Group.{Group};
ghost use Rattle.tcam_find.specs.Memory.{HaveInCommon, NoneMatches, TellOfGroups, entries_in};

use crate::groups::{BLOCKS, GROUPS};
use crate::lanes::{LANES, first_match};
use spin_base::{Entry, Memory};
use std::alloc::Global;

/// Of each group behind the first the bits that its entries have in common, and their values; and the same of each block of eight groups. A key that has
/// other values misses the group, or the block. (The rows have eight words more than there are groups or blocks, so that eight can be read
/// at each place.)
#[derive(Drop)]
pub(crate) struct Known {
    common: [u32; GROUPS + LANES],
    values: [u32; GROUPS + LANES],
    block_common: [u32; BLOCKS + LANES],
    block_values: [u32; BLOCKS + LANES],
    ghost blocks: { TellOfGroups common values block_common block_values },
}

impl Known {
    ghost use Rattle.std.specs.Prelude.{◌≡◌, ℕ, ◌<◌, ◌≤◌, false};
    ghost use Rattle.spin_base.specs.Lookup.{matches};
    ghost use Rattle.tcam_find.specs.Memory.{Misses};

    /// No entry was set.
    pub(crate) fn nothing() -> Known {
        Known {
            common: [0; GROUPS + LANES],
            values: [u32::MAX; GROUPS + LANES],
            block_common: [0; BLOCKS + LANES],
            block_values: [u32::MAX; BLOCKS + LANES],
        }
    }

    /// An entry is set in a group. What it stands in place of still counts.
    pub(crate) fn put(&mut self, group: usize, e: Entry)
        requires { group < 128 }
        ensures entry { (key : ℕ) → Misses self.new.common self.new.values group key
            → matches e key ≡ false }
        ensures others { (i key : ℕ) → Misses self.new.common self.new.values i key
            → Misses self.old.common self.old.values i key }
    {
        let (value, common) = in_common(self.values[group], self.common[group], e.key, e.mask);
        let block = group / LANES;
        let (block_value, block_common) = in_common(
            self.block_values[block],
            self.block_common[block],
            value,
            common,
        );
        self.values[group] = value;
        self.common[group] = common;
        self.block_values[block] = block_value;
        self.block_common[block] = block_common;
    }

    /// The first group from `from` on that the key doesn't miss, or one behind the `used` first.
    #[inline(always)]
    pub(crate) fn next_group(&self, from: usize, used: usize, key: u32) -> usize
        requires { used ≤ 128 }
        ensures ahead { from ≤ result }
        ensures others { (i : ℕ) → from ≤ i → i < result
            → Misses self.now.common self.now.values i key }
    {
        let mut at = from;
        while at < used {
            let ahead = first_match(&self.values, &self.common, at, key);
            if ahead < LANES {
                return at + ahead;
            }
            at = self.next_block(at + LANES, used, key);
        }
        at
    }

    // The first group from `from` on whose block the key doesn't miss, or one behind the `used` first.
    #[inline(always)]
    fn next_block(&self, from: usize, used: usize, key: u32) -> usize
        ensures ahead { from ≤ result }
        ensures others { (i : ℕ) → from ≤ i → i < result
            → Misses self.now.common self.now.values i key }
    {
        if from >= used {
            return from;
        }
        let block = self.block_from(from / LANES, key).min(BLOCKS);
        from.max(LANES * block)
    }

    // The first block from `from` on that the key doesn't miss, and one behind all where it misses each.
    fn block_from(&self, from: usize, key: u32) -> usize
        ensures { (i : ℕ) → from ≤ i → i < result
            → Misses self.now.block_common self.now.block_values i key }
    {
        for eight in 0..BLOCKS.saturating_sub(from).div_ceil(LANES) {
            let at = from + LANES * eight;
            let ahead = first_match(&self.block_values, &self.block_common, at, key);
            if ahead < LANES {
                return at + ahead;
            }
        }
        BLOCKS
    }
}

// What is known where so many places may be used: nothing need be where they are one group's.
pub(crate) fn known_for(alloc: Global, rows: usize) -> Result<Option<Box<Known>>, Memory> {
    if rows <= LANES {
        return Ok(None);
    }
    Ok(Some(Box::new(alloc, Known::nothing())?))
}

// What is known of so many groups: as before, or what another one knows if that needn't be of any group.
pub(crate) fn known_of(
    known: Option<Box<Known>>,
    other: Option<Box<Known>>,
    groups: usize,
) -> Option<Box<Known>>
    ensures { (gs : List Group) → length gs ≡ groups → IfSome known (λ k. HaveInCommon gs k.value.common k.value.values)
        → IfSome result (λ k. HaveInCommon gs k.value.common k.value.values) }
{
    match known {
        Some(known) => Some(known),
        None if groups < 2 => other,
        None => None,
    }
}

// An entry is put into a group.
pub(crate) fn put_known(known: &mut Option<Box<Known>>, group: usize, e: Entry)
    requires { group < 128 }
    ensures { (gs : List Group) (lane : ℕ) (g h : Group) → slice_get gs group ≡ Some g
        → entries_in h ≡ slice_set (entries_in g) lane e
        → IfSome known.old (λ k. HaveInCommon gs k.value.common k.value.values)
        → IfSome known.new (λ k. HaveInCommon (slice_set gs group h) k.value.common k.value.values) }
{
    if let Some(known) = known {
        known.put(group, e);
    }
}

/// The first group from `from` on, behind the first, that the key doesn't miss, or one behind the `used` first.
#[inline(always)]
pub(crate) fn next_group(known: &Option<Box<Known>>, from: usize, used: usize, key: u32) -> usize
    requires { used ≤ 128 }
    ensures ahead { from ≤ result }
    ensures others { (gs : List Group) → IfSome known.now (λ k. HaveInCommon gs k.value.common k.value.values)
        → (i : ℕ) (g : Group) → 1 ≤ i → from ≤ i → i < result → slice_get gs i ≡ Some g
        → NoneMatches key (entries_in g) }
{
    match known {
        Some(known) => known.next_group(from, used, key),
        None => from,
    }
}

/// The values of the bits that two have in common, and these bits: one has the values `value` of the bits `common`, the other `more` of
/// `mask`. One that no key has doesn't count.
#[inline(always)]
pub(crate) fn in_common(value: u32, common: u32, more: u32, mask: u32) -> (u32, u32)
    ensures of_one { (key : ℕ) → (bit_and key result.1 == result.0) ≡ false
        → (bit_and key common == value) ≡ false }
    ensures of_other { (key : ℕ) → (bit_and key result.1 == result.0) ≡ false
        → (bit_and key mask == more) ≡ false }
{
    if value & common != value {
        (more, mask)
    } else if more & mask == more {
        let both = common & mask & !(value ^ more);
        (value & both, both)
    } else {
        (value, common)
    }
}
