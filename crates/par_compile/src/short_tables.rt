// Final tables of chips with few nets, without a row of the plain table.
ghost use Rattle.std.specs.Prelude.{◌≡◌, ◌++◌, ◌≤◌, IfOk, OnOk, length};
ghost use Rattle.par_compile.specs.Finals.{IsFinalFor};
ghost use Rattle.par_compile.specs.ShortTables.{kept_entries, kept_entry};

use crate::requests::Coverable;
use default_routes::Final;
use net_tables::marks::Mark;
use net_tables::{goes_straight, in_row_order};
use spin_base::{Entry, Memory, Seq};
use std::alloc::Global;

/// The final table of original blocks that are no more than the target, so that their plain table is not covered. It has the
/// entry of each block that does not go straight on, in the order of the rows. That is all that default routing asks, since no
/// key is in two of the blocks. So no row is made, and none has a list of aliases.
pub(crate) fn short_table(alloc: Global, blocks: Coverable, target: u32) -> Result<Final, Memory>
    ensures { length blocks.marks ≤ target → IfOk result (IsFinalFor target blocks.marks) }
{
    let Coverable { marks } = blocks;
    let sorted = in_row_order(marks)?;
    let entries = kept_entries(alloc, sorted.as_slice())?;
    Ok(Final { entries })
}

// The entries of those original blocks that default routing does not replace, in their order.
fn kept_entries(alloc: Global, marks: &[Mark]) -> Result<Seq<Entry>, Memory>
    ensures { IfOk result (λ entries. entries ≡ kept_entries marks.now) }
{
    let turning = marks
        .iter()
        .filter(|mark| !goes_straight(mark.port, mark.route))
        .count();
    let mut entries = Seq::from_vec(Vec::with_capacity(alloc, turning)?);
    for mark in marks {
        keep(*mark, &mut entries)?;
    }
    Ok(entries)
}

// Puts the entry of an original block at the back, unless default routing replaces it.
fn keep(mark: Mark, entries: &mut Seq<Entry>) -> Result<(), Memory>
    ensures { OnOk result (entries.new ≡ entries.old ++ kept_entry mark) }
{
    if goes_straight(mark.port, mark.route) {
        return Ok(());
    }
    entries.push(Entry {
        key: mark.block.key,
        mask: mark.block.mask,
        route: mark.route,
    })
}
