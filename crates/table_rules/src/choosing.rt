// The shorter of two tables.
ghost use Rattle.std.specs.Prelude.{◌≤◌, IfOk, length};
ghost use Rattle.table_rules.specs.Shortened.{IsShorterOf};

use crate::joining::joined_rows;
use crate::rows::RoutedBlock;
use spin_base::{Memory, Seq};
use std::alloc::Global;

/// How many pieces are joined by pairs at most.
const MOST_JOINED: usize = 2048;

// The covered rows, or those of the joined pieces, where these are fewer. Own pieces are those that give rows.
pub(crate) fn shorter_of(
    alloc: Global,
    target: u32,
    covered: Seq<RoutedBlock>,
    own: &[RoutedBlock],
    pieces: &[RoutedBlock],
) -> Result<Seq<RoutedBlock>, Memory>
    ensures { IfOk result (IsShorterOf target own.now pieces.now covered) }
{
    if covered.len() <= target as usize {
        return Ok(covered);
    }
    if pieces.len() > MOST_JOINED {
        return Ok(covered);
    }
    let joined = joined_rows(alloc, own, pieces)?;
    if joined.len() < covered.len() {
        return Ok(joined);
    }
    Ok(covered)
}
