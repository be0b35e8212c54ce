// The pieces of a table, by their routes.
ghost use Rattle.std.specs.Prelude.{◌≡◌, ◌++◌, ◌∷◌, [], IfOk, OnOk, map};
ghost use Rattle.tern_word.specs.SoundTable.{Original, served_by};
ghost use Rattle.table_rules.specs.Pairs.{goes_by, others, own_blocks, pieces_of, row_by};

use crate::rows::RoutedBlock;
use spin_base::{Block, Memory, Port, Route};
use std::alloc::Global;
use tern_word::Row;

// The aliases of the rows, each with its row's route.
pub(crate) fn pieces_of(alloc: Global, rows: &[Row]) -> Result<Vec<RoutedBlock>, Memory>
    ensures { IfOk result (λ pieces. pieces.items ≡ pieces_of rows.now) }
{
    let mut pieces = Vec::new(alloc);
    for row in rows {
        put_aliases(&mut pieces, row)?;
    }
    Ok(pieces)
}

// Puts the aliases of a row.
fn put_aliases(pieces: &mut Vec<RoutedBlock>, row: &Row) -> Result<(), Memory>
    ensures { OnOk result (pieces.new.items
        ≡ pieces.old.items ++ map (λ (o : Original). row_by o.route o.block) (served_by row.now)) }
{
    for alias in row.aliases.as_slice() {
        pieces.push(row_by(row.route, alias.block))?;
    }
    Ok(())
}

// A block with its route, of whose packets nothing is told.
pub(crate) fn row_by(route: Route, block: Block) -> RoutedBlock
    ensures { result ≡ row_by route block }
{
    RoutedBlock {
        block,
        route,
        port: Port::Local,
    }
}

// Whether a piece has the route.
pub(crate) fn goes_by(route: Route, piece: &RoutedBlock) -> bool
    ensures { result ≡ goes_by route piece.now }
{
    piece.route.bits == route.bits
}

// The blocks of the pieces of a route.
pub(crate) fn own_blocks(
    alloc: Global,
    route: Route,
    pieces: &[RoutedBlock],
) -> Result<Vec<Block>, Memory>
    ensures { IfOk result (λ own. own.items ≡ own_blocks route pieces.now) }
{
    let own = pieces.iter().filter(|piece| goes_by(route, piece));
    Ok(own.map(|piece| piece.block).collect(alloc)?)
}

// The pieces of other routes.
pub(crate) fn others(
    alloc: Global,
    route: Route,
    pieces: &[RoutedBlock],
) -> Result<Vec<RoutedBlock>, Memory>
    ensures { IfOk result (λ rest. rest.items ≡ others route pieces.now) }
{
    let rest = pieces.iter().filter(|piece| !goes_by(route, piece));
    Ok(rest.copied().collect(alloc)?)
}
