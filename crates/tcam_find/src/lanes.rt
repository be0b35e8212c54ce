// Eight entries compared at once.
ghost use Rattle.std.specs.Prelude.{◌≡◌, ℕ, ◌+◌, ◌<◌, ◌≤◌, ◌==◌, true, false, length, bit_and, slice_index};
ghost use Rattle.tcam_find.specs.Lanes.{first_set};

use std::simd::prelude::*;

/// How many entries are compared at once.
pub(crate) const LANES: usize = 8;

/// How many of the eight entries from `at` on come before the first that matches the key: 8 where none does.
#[inline(always)]
pub(crate) fn first_match(keys: &[u32], masks: &[u32], at: usize, key: u32) -> usize
    requires in_keys { at + 8 ≤ length keys.now }
    requires in_masks { at + 8 ≤ length masks.now }
    ensures within { result ≤ 8 }
    ensures before { (k : ℕ) → k < result
        → (bit_and key (slice_index masks.now (at + k)) == slice_index keys.now (at + k)) ≡ false }
    ensures found { result < 8
        → (bit_and key (slice_index masks.now (at + result)) == slice_index keys.now (at + result))
        ≡ true }
{
    let wanted = u32x8::from_slice(&keys[at..at + LANES]);
    let kept = u32x8::splat(key) & u32x8::from_slice(&masks[at..at + LANES]);
    first_set(kept.simd_eq(wanted).to_bitmask())
}

// The place of the lowest bit that is set, and 8 where none is.
#[inline(always)]
fn first_set(mask: u64) -> usize
    ensures { result ≡ first_set mask }
{
    if mask == 0 {
        LANES
    } else {
        mask.trailing_zeros() as usize
    }
}
