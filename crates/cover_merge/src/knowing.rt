// What covering knows of a table from one merge to the next.
ghost use Rattle.std.specs.Prelude.{IfOk};
ghost use Rattle.cover_merge.specs.Known.{IsKnownAt};

use crate::keeping::Kept;
use crate::links::{numbers_of, routes_of};
use crate::rivaled::SoundRows;
use crate::rivals::{Rivals, rivals_of};
use crate::times::{Times, changed};
use spin_base::Memory;
use std::alloc::Global;

/// The rivals of each row, when it was tried and changed, and the number of its route; and for each route its bits, what is
/// kept of it, and when a row of it last changed.
#[derive(Drop)]
pub(crate) struct Known {
    pub(crate) rivals: Rivals,
    pub(crate) times: Vec<Times>,
    pub(crate) numbers: Vec<u32>,
    pub(crate) routes: Vec<u32>,
    pub(crate) kept: Vec<Option<Kept>>,
    pub(crate) latest: Vec<usize>,
}

/// What is known of a table before any merge.
pub(crate) fn known_of(alloc: Global, table: SoundRows) -> Result<Known, Memory>
    ensures { IfOk result (IsKnownAt 0 table.entry.rows.now) }
{
    let rows = table.rows;
    let rivals = rivals_of(alloc, table)?;
    let times = vec![in alloc; changed(0); rows.len()]?;
    let routes = routes_of(alloc, rows)?;
    let numbers = numbers_of(alloc, rows, &routes)?;
    let kept = vec![in alloc; None::<Kept>; routes.len()]?;
    let latest = vec![in alloc; 0usize; routes.len()]?;
    Ok(Known {
        rivals,
        times,
        numbers,
        routes,
        kept,
        latest,
    })
}
