// The pieces of a table joined by pairs, one route after another.
ghost use Rattle.std.specs.Prelude.{◌≡◌, ◌++◌, ◌≤◌, IfOk, OnOk, length, map, not, position};
ghost use Rattle.tern_word.specs.Ternary.{merge_two};
ghost use Rattle.table_rules.specs.Pairs.{AreJoinedRows, joined_blocks, meets_one, row_by, rows_by_routes, with_block};

use crate::pieces::{others, own_blocks, row_by};
use crate::routes::routes_of;
use crate::rows::RoutedBlock;
use block_cuts::meets;
use spin_base::{Block, Memory, Route, Seq};
use std::alloc::Global;
use tern_word::merge_two;

// The rows of the pieces of those routes that own pieces have.
pub(crate) fn joined_rows(
    alloc: Global,
    own: &[RoutedBlock],
    pieces: &[RoutedBlock],
) -> Result<Seq<RoutedBlock>, Memory>
    ensures { IfOk result (AreJoinedRows own.now pieces.now) }
{
    let routes = routes_of(alloc, own)?;
    rows_by_routes(alloc, routes.as_slice(), pieces)
}

// The rows of the routes, in order.
fn rows_by_routes(
    alloc: Global,
    routes: &[Route],
    pieces: &[RoutedBlock],
) -> Result<Seq<RoutedBlock>, Memory>
    ensures { IfOk result (λ rows. rows ≡ rows_by_routes routes.now pieces.now) }
{
    let mut left = Vec::new(alloc);
    left.extend_from_slice(pieces)?;
    let mut rows = Vec::new(alloc);
    for route in routes {
        let behind = others(alloc, *route, left.as_slice())?;
        let own = own_blocks(alloc, *route, left.as_slice())?;
        let joined = joined_blocks(alloc, behind.as_slice(), own.as_slice())?;
        put_rows(&mut rows, *route, joined.as_slice())?;
        left = behind;
    }
    Ok(Seq::from_vec(rows))
}

// Puts each block as a row.
fn put_rows(rows: &mut Vec<RoutedBlock>, route: Route, blocks: &[Block]) -> Result<(), Memory>
    ensures { OnOk result (rows.new.items ≡ rows.old.items ++ map (row_by route) blocks.now) }
{
    for block in blocks {
        rows.push(row_by(route, *block))?;
    }
    Ok(())
}

// The blocks of a route, joined where they meet no piece behind.
fn joined_blocks(
    alloc: Global,
    behind: &[RoutedBlock],
    blocks: &[Block],
) -> Result<Vec<Block>, Memory>
    ensures { IfOk result (λ joined. joined.items ≡ joined_blocks behind.now blocks.now) }
{
    let mut joined = Vec::new(alloc);
    for block in blocks {
        put_block(behind, &mut joined, *block)?;
    }
    Ok(joined)
}

// Has a block taken in by the first that may, or puts it behind all.
fn put_block(behind: &[RoutedBlock], joined: &mut Vec<Block>, block: Block) -> Result<(), Memory>
    ensures { OnOk result (joined.new.items ≡ with_block behind.now joined.old.items block) }
{
    match place_among(behind, joined, block) {
        Some(at) => joined[at] = merge_two(joined[at], block),
        None => joined.push(block)?,
    }
    Ok(())
}

// The place of the first of the blocks that may take in the block.
fn place_among(behind: &[RoutedBlock], joined: &[Block], block: Block) -> Option<usize>
    ensures { result ≡ position (λ b. not (meets_one behind.now (merge_two b block))) joined.now }
{
    joined
        .iter()
        .position(|b| !meets_one(behind, merge_two(*b, block)))
}

// Whether the block meets one of the pieces.
fn meets_one(pieces: &[RoutedBlock], block: Block) -> bool
    ensures { result ≡ meets_one pieces.now block }
{
    pieces.iter().any(|piece| meets(block, piece.block))
}
