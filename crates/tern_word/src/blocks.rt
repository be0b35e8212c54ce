// Ternary blocks: which keys they have, which meet, and their merges.
ghost use Rattle.std.specs.Prelude.{◌≡◌, ◌<◌, ◌≤◌, ◌+◌, ◌^◌, ◌%◌, ◌↔◌, ℕ, IsTrue, length};
ghost use Rattle.std.specs.Int.{IsPowerOfTwo};
ghost use Rattle.tern_word.specs.Ternary.{Matches, Intersects, IsMergeOf, generality, merge_of, merge_two};

use spin_base::Block;

/// Whether the 32-bit key lies in the block: its bits under the mask are the block's key (SpiNNaker datasheet).
pub fn matches(b: Block, key: u32) -> bool
    ensures { IsTrue result ↔ Matches b key }
{
    key & b.mask == b.key
}

/// Whether some 32-bit key lies in both blocks: they agree on the bits for which both care.
pub fn intersects(a: Block, b: Block) -> bool
    ensures { IsTrue result ↔ Intersects a b }
{
    (a.key ^ b.key) & a.mask & b.mask == 0
}

/// The number of bits for which the block does not care, 0 to 32: the 0 bits of its mask
/// (Mundy, Heathcote, Garside, HPSR 2016).
pub fn generality(b: Block) -> u32
    ensures value { result ≡ generality b }
    ensures bound { result ≤ 32 }
{
    b.mask.count_zeros()
}

/// The merge of two blocks: it cares for the bits for which both care and on which they agree.
pub fn merge_two(a: Block, b: Block) -> Block
    ensures { result ≡ merge_two a b }
{
    let mask = a.mask & b.mask & !(a.key ^ b.key);
    Block {
        key: a.key & mask,
        mask,
    }
}

/// The merge of the blocks: a bit of its mask is 1 where all of them care for it and agree on it, and its key has
/// the agreed bits (Mundy, Heathcote, Garside, HPSR 2016).
pub fn merge_of(blocks: &[Block]) -> Block
    requires { 0 < length blocks.now }
    ensures wants { IsMergeOf blocks.now result }
    ensures value { result ≡ merge_of blocks.now }
{
    let mut merged = blocks[0];
    for b in &blocks[1..] {
        merged = merge_two(merged, *b);
    }
    merged
}

/// The block of the keys `place` to `place + size - 1`.
pub fn block_of(place: u32, size: u64) -> Block
    requires power { IsPowerOfTwo size }
    requires fits { size ≤ 2 ^ 32 }
    requires aligned { place % size ≡ 0 }
    ensures keys { (k : ℕ) → k < 2 ^ 32
        → ((Matches result k) ↔ ((place ≤ k) × (k < place + size))) }
    ensures key { result.key ≡ place }
    ensures mask { result.mask + size ≡ 2 ^ 32 }
{
    Block {
        key: place,
        mask: (4_294_967_296 - size) as u32,
    }
}
