// Shorter rows.
ghost use Rattle.std.specs.Prelude.{◌≡◌, ◌<◌, ◌≤◌, ◌^◌, [], IfOk, IfSome, MatchOption, length, map};
ghost use Rattle.cover_merge.specs.Merge.{rows_at};
ghost use Rattle.table_rules.specs.Made.{HasTooManyPieces, IsTableMadeOf};
ghost use Rattle.table_rules.specs.Rows.{KeepsRoutes, routed};
ghost use Rattle.table_rules.specs.Shortened.{AreLeft, IsShortenedTo};

use crate::choosing::shorter_of;
use crate::making::made_table;
use crate::pieces::pieces_of;
use crate::rows::RoutedBlock;
use cover_merge::cover;
use default_routes::{RowsAt, RowsToStrip, strip};
use spin_base::{Memory, Port, Seq};
use std::alloc::Global;
use tern_word::{Row, Table};

/// The rows of a table with fewer rows, if there is one, that gives each key the route that the given one gives it.
///
/// Of a table of more than `target` rows a sound table is made, which is covered until it has at most `target` rows, or no two
/// can be joined; then the rows are left out that default routing replaces. Where more are left, and the rows are cut into at most
/// 2,048 pieces, these are joined by pairs too, one route after another, and the shorter of the two tables is taken. Where that is no
/// shorter than the given one, and where this has at most `target` rows, it is given back as it is. There is nothing exactly where a
/// longer table's rows are cut into more than `room` pieces. For each key that a row of the given table has, where the first that has
/// it decides, the first row of the new one that has it has the same route; or none has it, and packets of the row's port go straight
/// on by that route.
pub fn shorten_rows(
    alloc: Global,
    given: &[RoutedBlock],
    target: u32,
    room: u32,
) -> Result<Option<Seq<RoutedBlock>>, Memory>
    ensures rows { IfOk result
        (λ new. MatchOption new ((target < length given.now) × (HasTooManyPieces room [] given.now))
        (IsShortenedTo target room given.now)) }
    ensures routes { IfOk result (λ new. IfSome new (KeepsRoutes given.now)) }
    ensures few { IfOk result (λ new. IfSome new (λ rows. length rows ≤ length given.now)) }
{
    if given.len() <= target as usize {
        let same = copy(alloc, given)?;
        return Ok(Some(same));
    }
    match made_table(alloc, given, room)? {
        Some(table) => {
            let rows = covered_rows(alloc, given, table, target, room)?;
            Ok(Some(rows))
        }
        None => Ok(None),
    }
}

// The rows of the covered table that default routing does not replace, or those of its joined pieces, where they are fewer, and else
// those given.
fn covered_rows(
    alloc: Global,
    given: &[RoutedBlock],
    table: Table,
    target: u32,
    room: u32,
) -> Result<Seq<RoutedBlock>, Memory>
    requires long { target < length given.now }
    requires made { IsTableMadeOf room given.now table.rows }
    requires few { length table.rows < 2 ^ 32 }
    ensures rows { IfOk result (IsShortenedTo target room given.now) }
    ensures routes { IfOk result (KeepsRoutes given.now) }
    ensures few { IfOk result (λ rows. length rows ≤ length given.now) }
{
    let pieces = pieces_of(alloc, table.rows.as_slice())?;
    let all = pieces.as_slice();
    let covered = cover(alloc, table, target)?;
    let covering = covered.table.rows.as_slice();
    let sound = RowsToStrip { rows: covering };
    let left = rows_left(alloc, sound)?;
    let shorter = shorter_of(alloc, target, left, all, all)?;
    if shorter.len() < given.len() {
        return Ok(shorter);
    }
    let same = copy(alloc, given)?;
    Ok(same)
}

// The rows that default routing does not replace, without their aliases.
pub(crate) fn rows_left(alloc: Global, sound: RowsToStrip) -> Result<Seq<RoutedBlock>, Memory>
    ensures { IfOk result (AreLeft sound.entry.rows.now) }
{
    let kept = strip(alloc, sound)?;
    let at = RowsAt {
        rows: sound.rows,
        places: kept.as_slice(),
    };
    let left = rows_at(alloc, at)?;
    Ok(left)
}

// The rows at the places, without their aliases.
fn rows_at(alloc: Global, at: RowsAt) -> Result<Seq<RoutedBlock>, Memory>
    ensures { IfOk result
        (λ new. new ≡ map routed (rows_at at.entry.rows.now at.entry.places.now)) }
{
    let mut new = Seq::new(alloc);
    for place in at.places {
        new.push(routed(&at.rows[*place as usize]))?;
    }
    Ok(new)
}

// A row without its aliases, of whose packets nothing is told.
fn routed(row: &Row) -> RoutedBlock
    ensures { result ≡ routed row.now }
{
    RoutedBlock {
        block: row.block,
        route: row.route,
        port: Port::Local,
    }
}

// The same rows.
pub(crate) fn copy(alloc: Global, given: &[RoutedBlock]) -> Result<Seq<RoutedBlock>, Memory>
    ensures { IfOk result (λ same. same ≡ given.now) }
{
    let mut same = Vec::new(alloc);
    same.extend_from_slice(given)?;
    Ok(Seq::from_vec(same))
}
