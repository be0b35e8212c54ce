// The plain tables of all chips.
ghost use Rattle.std.specs.Prelude.{◌≡◌, ◌*◌, ◌≤◌, ◌++◌, List, IfOk, length, map};
ghost use Rattle.machine_desc.specs.RightTables.{AreRight};
ghost use Rattle.spin_base.specs.declared.blocks.Entry.{Entry};
ghost use Rattle.tern_word.specs.declared.tables.Table.{Table};
ghost use Rattle.tern_word.specs.SoundTable.{IsSound};
ghost use Rattle.net_tables.specs.PlainTable.{IsPlainTable, ServesOriginals, AtEach, AreRoutedApart, entries};

use crate::gather::original_blocks;
use crate::rows::tables_of;
use machine_desc::{Machine, NetPlan};
use spin_base::{Memory, Seq};
use std::alloc::Global;
use tern_word::Table;

/// The plain table of each chip, by the chip's index: one row for each net whose tree has the chip, with the net's block,
/// the outputs that its tree wants there, and the block with the port at which its packets come in as the only alias.
/// Rows stand by their block's generality, then by its key. Their entries are right for the nets, alone and with any
/// entries after them.
pub fn plain_tables(
    alloc: Global,
    machine: &Machine,
    nets: &Seq<NetPlan>,
) -> Result<Seq<Table>, Memory>
    requires { AreRoutedApart machine.now nets.now }
    ensures long { IfOk result (λ ts. length ts ≡ machine.now.width * machine.now.height) }
    ensures plain { IfOk result (λ ts. AtEach machine.now ts (IsPlainTable machine.now nets.now)) }
    ensures few { IfOk result (λ ts. AtEach machine.now ts (λ c rows.
        length rows ≤ length nets.now)) }
    ensures sound { IfOk result (λ ts. AtEach machine.now ts (λ c rows. IsSound rows)) }
    ensures serves { IfOk result (λ ts. AtEach machine.now ts
        (ServesOriginals machine.now nets.now)) }
    ensures right { IfOk result (λ ts. AreRight machine.now (map entries ts) nets.now) }
    ensures followed { IfOk result (λ ts. (rest : Table → List Entry)
        → AreRight machine.now (map (λ (t : Table). entries t ++ rest t) ts) nets.now) }
{
    let blocks = original_blocks(alloc, machine, nets)?;
    let tables = tables_of(alloc, blocks.as_slice())?;
    Ok(tables)
}
