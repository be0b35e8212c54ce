// The halves of a block at a bit, and a block less another.
ghost use Rattle.std.specs.Prelude.{◌≡◌, ◌++◌, OnOk};
ghost use Rattle.block_cuts.specs.Cuts.{apart_of, halves, is_cut_at, less_of, meets, narrow, other_half, own_half, part_to_cut};

use spin_base::{Block, Memory};

/// Whether some key lies in both blocks.
pub fn meets(a: Block, b: Block) -> bool
    ensures { result ≡ meets a b }
{
    (a.key ^ b.key) & a.mask & b.mask == 0
}

// The keys of the block `p` that have this value under the bit, where `e` cares for it.
#[tactic(auto, unfolding(crate::specs::Cuts::narrow))]
fn narrow(p: Block, e: Block, bit: u32, value: u32) -> Block
    ensures { result ≡ narrow p e bit value }
{
    let mask = p.mask | (e.mask & bit);
    Block {
        key: (p.key | value) & mask,
        mask,
    }
}

// The half of `p` that has the bit of `e`.
fn own_half(p: Block, e: Block, bit: u32) -> Block
    ensures { result ≡ own_half p e bit }
{
    narrow(p, e, bit, e.key & bit)
}

// The half of `p` that has the other value of the bit.
fn other_half(p: Block, e: Block, bit: u32) -> Block
    ensures { result ≡ other_half p e bit }
{
    narrow(p, e, bit, (e.mask ^ e.key) & bit)
}

// Whether `p` is to be cut at the bit: `e` cares for it, and `p` does not.
fn is_cut_at(p: Block, e: Block, bit: u32) -> bool
    ensures { result ≡ is_cut_at p e bit }
{
    p.mask & bit == 0 && e.mask & bit != 0
}

// Puts the half of `p` that has no key of `e`, where it is cut at the bit.
fn put_half(out: &mut Vec<Block>, p: Block, e: Block, bit: u32) -> Result<(), Memory>
    ensures { OnOk result (out.new.items ≡ out.old.items ++ halves p e bit) }
{
    if is_cut_at(p, e, bit) {
        out.push(other_half(p, e, bit))?;
    }
    Ok(())
}

// What is left to be cut of `p` after the bit.
fn part_to_cut(p: Block, e: Block, bit: u32) -> Block
    ensures { result ≡ part_to_cut p e bit }
{
    if is_cut_at(p, e, bit) {
        own_half(p, e, bit)
    } else {
        p
    }
}

// Puts the keys of `p` that are not of `e`, from the highest bit to the lowest.
fn put_less(out: &mut Vec<Block>, p: Block, e: Block) -> Result<(), Memory>
    ensures { OnOk result (out.new.items ≡ out.old.items ++ less_of p e) }
{
    let mut rest = p;
    for n in 0..32u32 {
        let bit = 1 << (31 - n);
        put_half(out, rest, e, bit)?;
        rest = part_to_cut(rest, e, bit);
    }
    Ok(())
}

// Puts the keys of `p` that are not of `e`: `p` itself, where the two do not meet.
pub(crate) fn put_apart(out: &mut Vec<Block>, p: Block, e: Block) -> Result<(), Memory>
    ensures { OnOk result (out.new.items ≡ out.old.items ++ apart_of e p) }
{
    if meets(p, e) {
        return put_less(out, p, e);
    }
    out.push(p)?;
    Ok(())
}
