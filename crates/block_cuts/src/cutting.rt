// A block less other blocks.
ghost use Rattle.std.specs.Prelude.{◌≡◌, ◌≤◌, IfOk, IfSome, flat_map, length};
ghost use Rattle.block_cuts.specs.Cuts.{apart_of, cut, cut_by};
ghost use Rattle.block_cuts.specs.Pieces.{ArePieces};

use crate::halves::{meets, put_apart};
use spin_base::{Block, Memory, Seq};
use std::alloc::Global;

/// The keys of a block that none of the other blocks has, as blocks of which no two meet. The block is cut by each of the others
/// in turn. There is nothing exactly where it is in more than `room` pieces before it is cut by one of them, or at the end.
pub fn cut(
    alloc: Global,
    block: Block,
    others: &[Block],
    room: usize,
) -> Result<Option<Seq<Block>>, Memory>
    ensures cut { IfOk result (λ pieces. pieces ≡ cut room block others.now) }
    ensures pieces { IfOk result (λ pieces. IfSome pieces (ArePieces block others.now)) }
    ensures few { IfOk result (λ pieces. IfSome pieces (λ ps. length ps ≤ room)) }
{
    let cut = cut_list(alloc, block, others, room)?;
    Ok(cut)
}

// The pieces, if there are few.
fn cut_list(
    alloc: Global,
    block: Block,
    others: &[Block],
    room: usize,
) -> Result<Option<Seq<Block>>, Memory>
    ensures { IfOk result (λ pieces. pieces ≡ cut room block others.now) }
{
    let mut pieces = Vec::new(alloc);
    pieces.push(block)?;
    for other in others {
        if pieces.len() > room {
            return Ok(None);
        }
        pieces = cut_by(alloc, block, pieces, *other)?;
    }
    if pieces.len() > room {
        return Ok(None);
    }
    Ok(Some(Seq::from_vec(pieces)))
}

// The pieces of a block after it is cut by one more.
fn cut_by(
    alloc: Global,
    block: Block,
    pieces: Vec<Block>,
    other: Block,
) -> Result<Vec<Block>, Memory>
    ensures { IfOk result (λ new. new.items ≡ cut_by block other pieces.items) }
{
    if meets(block, other) {
        return cut_each(alloc, pieces.as_slice(), other);
    }
    Ok(pieces)
}

// What is left of each piece.
fn cut_each(alloc: Global, pieces: &[Block], other: Block) -> Result<Vec<Block>, Memory>
    ensures { IfOk result (λ new. new.items ≡ flat_map (apart_of other) pieces.now) }
{
    let mut left = Vec::new(alloc);
    for piece in pieces {
        put_apart(&mut left, *piece, other)?;
    }
    Ok(left)
}
