// Covering and default routing, one after the other.
ghost use Rattle.std.specs.Prelude.{◌<◌, ◌≤◌, ◌^◌, ◌⊎◌, IfOk, All, length};
ghost use Rattle.tern_word.specs.SoundTable.{IsSound, served};
ghost use Rattle.cover_merge.specs.Covering.{Covers, HasNoLegalPair, HasRoutesOf};
ghost use Rattle.cover_merge.specs.Merges.{sets_of};
ghost use Rattle.std.specs.List.Sorted.{IsPermutation};
ghost use Rattle.default_routes.specs.FinalTable.{HaveRoutesOf, IsShortened, RoutesAlone};

use crate::stripping::{Final, RowsAt, RowsToStrip, final_at, strip};
use cover_merge::{Covered, cover};
use spin_base::{Memory, Seq};
use std::alloc::Global;
use tern_word::Table;

/// Merges rows while the table has more than `target`, and leaves out those that default routing replaces. What is loaded
/// routes each original block of the table given as that table does: alone, and followed by entries that match no key. It
/// has no more rows than the table given and no route that it has not; where it has more than `target`, no two rows of the
/// covered table can be merged. The covered table is not kept.
pub fn shorten(alloc: Global, table: Table, target: u32) -> Result<Final, Memory>
    requires few { length table.rows < 2 ^ 32 }
    requires sound { IsSound table.rows }
    ensures table { IfOk result (IsShortened target table.rows) }
    ensures routes { IfOk result (λ f. HaveRoutesOf table.rows f.entries) }
    ensures serves { IfOk result (λ f. All (RoutesAlone f.entries) (served table.rows)) }
{
    let covered = cover_long(alloc, table, target)?;
    let rows = covered.table.rows.as_slice();
    let kept = strip(alloc, RowsToStrip { rows })?;
    let at = RowsAt {
        rows,
        places: kept.as_slice(),
    };
    let done = final_at(alloc, at)?;
    Ok(done)
}

// The covered table. Of a table that has at most `target` rows nothing is worked out: it is covered as it stands.
fn cover_long(alloc: Global, table: Table, target: u32) -> Result<Covered, Memory>
    requires few { length table.rows < 2 ^ 32 }
    requires sound { IsSound table.rows }
    ensures covered { IfOk result (λ c. Covers target table.rows (sets_of c.merges) c.table.rows) }
    ensures sound { IfOk result (λ c. IsSound c.table.rows) }
    ensures serves { IfOk result (λ c. IsPermutation (served table.rows) (served c.table.rows)) }
    ensures few { IfOk result (λ c. length c.table.rows ≤ length table.rows) }
    ensures routes { IfOk result (λ c. HasRoutesOf table.rows c.table.rows) }
    ensures ended { IfOk result (λ c. (length c.table.rows ≤ target)
        ⊎ (HasNoLegalPair c.table.rows)) }
{
    if table.rows.len() > target as usize {
        return cover(alloc, table, target);
    }
    let merges = Seq::new(alloc);
    Ok(Covered { table, merges })
}
