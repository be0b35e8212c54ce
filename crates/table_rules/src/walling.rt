// Shorter rows that have no new keys.
ghost use Rattle.std.specs.Prelude.{◌≡◌, ◌==◌, ◌<◌, ◌≤◌, ◌^◌, [], IfOk, IfSome, MatchOption, length, position};
ghost use Rattle.std.proofs.Props.{props};
ghost use Rattle.table_rules.specs.Exact.{AreTooManyWithin, HasAllRoutes, IsFree, IsShortenedWithin, rows_before, wall_of, walled};
ghost use Rattle.table_rules.specs.Made.{HasTooManyPieces, IsTableMadeOf};
ghost use Rattle.table_rules.specs.Rows.{HasNoNewKeys, KeepsRoutes};

use crate::choosing::shorter_of;
use crate::freeing::free_route;
use crate::making::made_table;
use crate::pieces::{others, pieces_of};
use crate::routes::ROUTES;
use crate::rows::RoutedBlock;
use crate::shortening::{copy, rows_left};
use cover_merge::cover;
use default_routes::RowsToStrip;
use spin_base::{Block, Memory, Port, Route, Seq};
use std::alloc::Global;
use tern_word::{Row, Table};

/// As `shorten_rows`; and a key that no row of the given table has is one that no row of the new one has.
///
/// The table is covered with a wall behind its rows: a row of all keys, of a route that none of them has. It decides for the keys
/// that none of them has, so no merge has one of these, and no join of pieces. Its pieces count among the `room`, and it counts
/// among the rows that are compared with `target` while the table is covered. The new rows are those before it that default routing
/// does not replace, or those of the joined pieces.
pub fn shorten_within(
    alloc: Global,
    given: &[RoutedBlock],
    target: u32,
    room: u32,
) -> Result<Option<Seq<RoutedBlock>>, Memory>
    ensures rows { IfOk result (λ new. MatchOption new (AreTooManyWithin target room given.now)
        (IsShortenedWithin target room given.now)) }
    ensures routes { IfOk result (λ new. IfSome new (KeepsRoutes given.now)) }
    ensures keys { IfOk result (λ new. IfSome new (HasNoNewKeys given.now)) }
    ensures few { IfOk result (λ new. IfSome new (λ rows. length rows ≤ length given.now)) }
{
    if given.len() <= target as usize {
        let same = copy(alloc, given)?;
        return Ok(Some(same));
    }
    match free_route(alloc, given, ROUTES)? {
        Some(route) => {
            let given = WalledRows {
                rows: given,
                target,
                route,
            };
            within_wall(alloc, given, room)
        }
        None => {
            let same = copy(alloc, given)?;
            Ok(Some(same))
        }
    }
}

// Rows of which there are more than `target`, and the route of a wall behind them, which none of them has.
#[derive(Clone, Copy)]
struct WalledRows<'a> {
    rows: &'a [RoutedBlock],
    target: u32,
    route: Route,
    ghost long: { target < length rows.now },
    ghost free: { IsFree rows.now route.bits } by { Prim.hlevel props },
}

// The rows of the table that is covered with its wall.
fn within_wall(
    alloc: Global,
    given: WalledRows,
    room: u32,
) -> Result<Option<Seq<RoutedBlock>>, Memory>
    ensures rows { IfOk result (λ new. MatchOption new
        (AreTooManyWithin given.entry.target room given.entry.rows.now)
        (IsShortenedWithin given.entry.target room given.entry.rows.now)) }
    ensures routes { IfOk result (λ new. IfSome new (KeepsRoutes given.entry.rows.now)) }
    ensures keys { IfOk result (λ new. IfSome new (HasNoNewKeys given.entry.rows.now)) }
    ensures few { IfOk result
        (λ new. IfSome new (λ rows. length rows ≤ length given.entry.rows.now)) }
{
    let walled = walled(alloc, given.rows, given.route)?;
    match made_table(alloc, walled.as_slice(), room)? {
        Some(table) => {
            let rows = covered_within(alloc, given, table, room)?;
            Ok(Some(rows))
        }
        None => Ok(None),
    }
}

// The rows with a wall of this route behind them.
fn walled(alloc: Global, given: &[RoutedBlock], route: Route) -> Result<Vec<RoutedBlock>, Memory>
    ensures { IfOk result (λ rows. rows.items ≡ walled given.now route) }
{
    let mut rows = Vec::new(alloc);
    rows.extend_from_slice(given)?;
    rows.push(wall(route))?;
    Ok(rows)
}

// A row of all keys.
fn wall(route: Route) -> RoutedBlock
    ensures { result ≡ wall_of route }
{
    RoutedBlock {
        block: Block { key: 0, mask: 0 },
        route,
        port: Port::Local,
    }
}

// The rows of the covered table before its wall that default routing does not replace, or those of its joined pieces, where they are
// fewer, and else those given.
fn covered_within(
    alloc: Global,
    given: WalledRows,
    table: Table,
    room: u32,
) -> Result<Seq<RoutedBlock>, Memory>
    requires made { IsTableMadeOf room (walled given.rows.now given.route) table.rows }
    requires few { length table.rows < 2 ^ 32 }
    ensures rows { IfOk result (IsShortenedWithin given.entry.target room given.entry.rows.now) }
    ensures routes { IfOk result (KeepsRoutes given.entry.rows.now) }
    ensures keys { IfOk result (HasNoNewKeys given.entry.rows.now) }
    ensures few { IfOk result (λ rows. length rows ≤ length given.entry.rows.now) }
{
    let WalledRows {
        rows,
        target,
        route,
    } = given;
    let pieces = pieces_of(alloc, table.rows.as_slice())?;
    let all = pieces.as_slice();
    let rest = others(alloc, route, all)?;
    let own = rest.as_slice();
    let covered = cover(alloc, table, target)?;
    let covering = covered.table.rows.as_slice();
    let before = rows_before(covering, route.bits);
    let sound = RowsToStrip { rows: before };
    let left = rows_left(alloc, sound)?;
    let shorter = shorter_of(alloc, target, left, own, all)?;
    if shorter.len() < rows.len() {
        return Ok(shorter);
    }
    let same = copy(alloc, rows)?;
    Ok(same)
}

// The rows before the first whose route has these bits.
fn rows_before(rows: &[Row], bits: u32) -> &[Row]
    ensures { result.now ≡ rows_before bits rows.now }
{
    match place_of(rows, bits) {
        Some(place) => &rows[..place],
        None => rows,
    }
}

// The place of the first row whose route has these bits, if there is one.
fn place_of(rows: &[Row], bits: u32) -> Option<usize>
    ensures { result ≡ position (λ (row : Row). row.route.bits == bits) rows.now }
{
    rows.iter().position(|row| row.route.bits == bits)
}
