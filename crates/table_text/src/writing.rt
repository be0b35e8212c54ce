// The text of shorter tables.
ghost use Rattle.std.specs.Prelude.{◌≡◌, ◌++◌, OnOk, IfOk, flat_map};
ghost use Rattle.table_text.specs.Texts.{kept_lines, short_lines};

use run_report::{put, put_chip_and_count, put_table};
use spin_base::{ChipTable, Memory, Seq};
use std::alloc::Global;

/// The table of a chip after shortening, and whether it is as it was given since its rows would be cut into too many pieces.
#[derive(Drop)]
pub struct ShortTable {
    pub table: ChipTable,
    pub kept: bool,
}

/// The text of tables: for each `table X Y N` and N lines `KEY MASK ROUTE`, and before them `kept X Y N` where the table is as it
/// was given since its rows would be cut into too many pieces.
///
/// # Errors
///
/// `Memory` where memory runs out.
pub fn tables_text(alloc: Global, tables: &[ShortTable]) -> Result<Seq<u8>, Memory>
    ensures { IfOk result (λ text. text ≡ flat_map short_lines tables.now) }
{
    let mut text = Vec::new(alloc);
    put_shorts(&mut text, tables)?;
    Ok(Seq::from_vec(text))
}

fn put_shorts(text: &mut Vec<u8>, tables: &[ShortTable]) -> Result<(), Memory>
    ensures { OnOk result (text.new.items ≡ text.old.items ++ flat_map short_lines tables.now) }
{
    for table in tables {
        put_short(text, table)?;
    }
    Ok(())
}

fn put_short(text: &mut Vec<u8>, table: &ShortTable) -> Result<(), Memory>
    ensures { OnOk result (text.new.items ≡ text.old.items ++ short_lines table.now) }
{
    put_kept(text, table)?;
    put_table(text, &table.table)
}

fn put_kept(text: &mut Vec<u8>, table: &ShortTable) -> Result<(), Memory>
    ensures { OnOk result (text.new.items ≡ text.old.items ++ kept_lines table.now) }
{
    if !table.kept {
        return Ok(());
    }
    put(text, "kept ")?;
    put_chip_and_count(text, table.table.chip, table.table.entries.len() as u64)
}
