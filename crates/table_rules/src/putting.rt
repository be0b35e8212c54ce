// Putting a row's pieces into a table.
ghost use Rattle.std.specs.Prelude.{◌≡◌, ◌≤◌, ◌+◌, IfOk, OnOk, length, map};
ghost use Rattle.table_rules.specs.Made.{IsRowAdded, alias_of, piece_row, whole_row, with_row, with_rows};

use crate::rows::RoutedBlock;
use cover_merge::{passes_down, place_for};
use spin_base::{Block, Memory, Port, Seq};
use std::alloc::Global;
use tern_word::{Alias, Row, generality};

// Puts the pieces of a row, for whose keys it decides, into the table: as the aliases of the row itself, where its block meets no
// alias of a more general row, and else each as a row of its own.
pub(crate) fn put(
    alloc: Global,
    rows: &mut Vec<Row>,
    given: RoutedBlock,
    pieces: &[Block],
) -> Result<(), Memory>
    ensures put { OnOk result (IsRowAdded rows.old.items given pieces.now rows.new.items) }
    ensures few { OnOk result (length rows.new.items ≤ length rows.old.items + length pieces.now) }
{
    if pieces.is_empty() {
        return Ok(());
    }
    let place = place_for(rows, generality(given.block));
    if passes_down(rows, given.block, place) {
        put_whole(alloc, rows, given, pieces)
    } else {
        put_pieces(alloc, rows, given, pieces)
    }
}

// Puts the row itself.
fn put_whole(
    alloc: Global,
    rows: &mut Vec<Row>,
    given: RoutedBlock,
    pieces: &[Block],
) -> Result<(), Memory>
    ensures { OnOk result (rows.new.items ≡ with_row rows.old.items (whole_row given pieces.now)) }
{
    let row = whole_row(alloc, given, pieces)?;
    put_row(rows, row)
}

// The row with the pieces as its aliases.
fn whole_row(alloc: Global, given: RoutedBlock, pieces: &[Block]) -> Result<Row, Memory>
    ensures { IfOk result (λ row. row ≡ whole_row given pieces.now) }
{
    let aliases = aliases_of(alloc, given.port, pieces)?;
    Ok(Row {
        block: given.block,
        route: given.route,
        aliases: Seq::from_vec(aliases),
    })
}

// The pieces as aliases of packets that come in by the port.
fn aliases_of(alloc: Global, port: Port, pieces: &[Block]) -> Result<Vec<Alias>, Memory>
    ensures { IfOk result (λ aliases. aliases.items ≡ map (alias_of port) pieces.now) }
{
    let aliases = pieces.iter().map(|piece| alias_of(port, *piece));
    Ok(aliases.collect(alloc)?)
}

// A piece as an alias of packets that come in by the port.
fn alias_of(port: Port, piece: Block) -> Alias
    ensures { result ≡ alias_of port piece }
{
    Alias { block: piece, port }
}

// Puts a row behind all rows that are at most as general.
fn put_row(rows: &mut Vec<Row>, row: Row) -> Result<(), Memory>
    ensures { OnOk result (rows.new.items ≡ with_row rows.old.items row) }
{
    let place = place_for(rows, generality(row.block));
    rows.insert(place, row)?;
    Ok(())
}

// Puts each piece as a row.
fn put_pieces(
    alloc: Global,
    rows: &mut Vec<Row>,
    given: RoutedBlock,
    pieces: &[Block],
) -> Result<(), Memory>
    ensures put { OnOk result
        (rows.new.items ≡ with_rows rows.old.items (map (piece_row given) pieces.now)) }
    ensures few { OnOk result (length rows.new.items ≤ length rows.old.items + length pieces.now) }
{
    for piece in pieces {
        let row = piece_row(alloc, given, *piece)?;
        put_row(rows, row)?;
    }
    Ok(())
}

// A piece as a row.
fn piece_row(alloc: Global, given: RoutedBlock, piece: Block) -> Result<Row, Memory>
    ensures { IfOk result (λ row. row ≡ piece_row given piece) }
{
    let mut aliases = Seq::new(alloc);
    aliases.push(alias_of(given.port, piece))?;
    Ok(Row {
        block: piece,
        route: given.route,
        aliases,
    })
}
