// Blocks of keys that are fixed for nets.
ghost use Rattle.std.specs.Prelude.{◌≡◌, IfSome, is_some};
ghost use Rattle.app_graph.specs.ValidGraph.{IsFixedFor};
ghost use Rattle.job_readers.specs.Blocks.{may_be_fixed, block_at};

use spin_base::Block;

/// The greatest number of 32 bits.
const MOST: u64 = 4294967295;

/// How many keys of 32 bits there are.
const ALL_KEYS: u64 = 4294967296;

// The block of a key and a mask, where it may be fixed for so many keys.
#[tactic(auto, unfolding(crate::specs::Blocks::block_at))]
pub(crate) fn block_for(key: u64, mask: u64, keys: u64) -> Option<Block>
    ensures tested { is_some result ≡ may_be_fixed keys (key, mask) }
    ensures value { IfSome result (λ b. b ≡ block_at key mask) }
    ensures fixed { IfSome result (IsFixedFor keys) }
{
    if key > MOST {
        return None;
    }
    if mask > MOST {
        return None;
    }
    let size = ALL_KEYS - mask;
    if !size.is_power_of_two() {
        return None;
    }
    if key & mask != key {
        return None;
    }
    if keys > size {
        return None;
    }
    Some(Block {
        key: key as u32,
        mask: mask as u32,
    })
}
