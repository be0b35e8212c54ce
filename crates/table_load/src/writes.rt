// The spelling of an image.
ghost use Rattle.std.specs.Prelude.{◌≡◌, ◌≤◌, ◌++◌, length, OnOk, IfOk};
ghost use Rattle.spin_base.specs.declared.sizes.TheConstants.{ROUTER_ENTRIES};
ghost use Rattle.table_load.specs.Images.{IsValid, Spells, head_bytes, table_bytes, row_bytes};

use crate::tables::Image;
use spin_base::{ChipTable, Entry, Memory, Seq};
use std::alloc::Global;

/// The bytes that spell a valid image.
pub fn encode(alloc: Global, image: &Image) -> Result<Seq<u8>, Memory>
    requires { IsValid image.now }
    ensures { IfOk result (λ bytes. Spells image.now bytes) }
{
    let mut bytes = Vec::new(alloc);
    put_head(&mut bytes, image)?;
    for table in image.chips.as_slice() {
        put_table(&mut bytes, table)?;
    }
    Ok(Seq::from_vec(bytes))
}

/// Writes what comes before the tables.
fn put_head(bytes: &mut Vec<u8>, image: &Image) -> Result<(), Memory>
    requires { length image.now.chips ≤ 4096 }
    ensures { OnOk result (bytes.new.items ≡ bytes.old.items ++ head_bytes image.now) }
{
    let count = image.chips.len() as u16;
    bytes.extend_from_slice(b"SPNT")?;
    bytes.extend_from_slice(&[1, image.width, image.height, u8::from(image.wrap)])?;
    bytes.extend_from_slice(&count.to_le_bytes())?;
    Ok(())
}

/// Writes one table.
fn put_table(bytes: &mut Vec<u8>, table: &ChipTable) -> Result<(), Memory>
    requires { length table.now.entries ≤ ROUTER_ENTRIES }
    ensures { OnOk result (bytes.new.items ≡ bytes.old.items ++ table_bytes table.now) }
{
    let count = table.entries.len() as u16;
    bytes.extend_from_slice(&[table.chip.x, table.chip.y])?;
    bytes.extend_from_slice(&count.to_le_bytes())?;
    for entry in table.entries.as_slice() {
        put_row(bytes, entry)?;
    }
    Ok(())
}

/// Writes one row.
fn put_row(bytes: &mut Vec<u8>, entry: &Entry) -> Result<(), Memory>
    ensures { OnOk result (bytes.new.items ≡ bytes.old.items ++ row_bytes entry.now) }
{
    bytes.extend_from_slice(&entry.key.to_le_bytes())?;
    bytes.extend_from_slice(&entry.mask.to_le_bytes())?;
    bytes.extend_from_slice(&entry.route.bits.to_le_bytes())?;
    Ok(())
}
