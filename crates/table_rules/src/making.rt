// The sound table of rows.
ghost use Rattle.std.specs.Prelude.{◌≡◌, ◌<◌, ◌≤◌, ◌^◌, [], IfOk, IfSome, MatchOption, length};
ghost use Rattle.table_rules.specs.Made.{HasTooManyPieces, IsTableMadeOf};

use crate::putting::put;
use crate::rows::RoutedBlock;
use block_cuts::cut;
use spin_base::{Memory, Seq};
use std::alloc::Global;
use tern_word::Table;

// The table that is made of the rows, each with the pieces for whose keys it decides as aliases. There is nothing exactly where
// they are cut into more than `room` pieces.
pub(crate) fn made_table(
    alloc: Global,
    given: &[RoutedBlock],
    room: u32,
) -> Result<Option<Table>, Memory>
    ensures made { IfOk result (λ made. MatchOption made (HasTooManyPieces room [] given.now)
        (λ table. IsTableMadeOf room given.now table.rows)) }
    ensures few { IfOk result (λ made. IfSome made (λ table. length table.rows ≤ room)) }
{
    let mut rows = Vec::new(alloc);
    let mut blocks = Vec::new(alloc);
    let mut left = room as usize;
    for row in given {
        let Some(pieces) = cut(alloc, row.block, blocks.as_slice(), left)? else {
            return Ok(None);
        };
        left -= pieces.len();
        put(alloc, &mut rows, *row, pieces.as_slice())?;
        blocks.push(row.block)?;
    }
    Ok(Some(Table {
        rows: Seq::from_vec(rows),
    }))
}
