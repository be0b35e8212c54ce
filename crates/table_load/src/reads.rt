// The image that bytes spell.
ghost use Rattle.std.specs.Prelude.{◌≡◌, ℕ, Some, IfOk, MatchResult, IsErrOf};
ghost use Rattle.table_load.specs.declared.tables.Image.{Image};
ghost use Rattle.table_load.specs.Images.{Spells};
ghost use Rattle.table_load.specs.Reading.{GivesOrStops, read_row, read_rows, read_table, read_tables, read_image, fault_of};

use crate::faults::{ImageErr, Stop};
use crate::fields::{byte_in, chip_at, mask_at, route_at, short_in, word_at, word_in};
use crate::tables::Image;
use spin_base::{Chip, ChipTable, Entry, ROUTER_ENTRIES, Seq};
use std::alloc::Global;

/// The letters SPNT, as a number whose lowest byte comes first.
const LETTERS: u32 = 0x544e_5053;

/// The version of the format.
const VERSION: u8 = 1;

/// Chips in a row or in a column, at most.
const SIDE: u8 = 64;

/// The image that the bytes spell.
///
/// # Errors
///
/// `Fault` exactly where they spell none, with the place of the first byte of the first field that is not there whole
/// or is not allowed; bytes after the last row are such a field. `Memory`.
pub fn decode(alloc: Global, bytes: &[u8]) -> Result<Image, ImageErr>
    ensures read { IfOk result (λ v. Spells v bytes.now) }
    ensures only { (v : Image) → Spells v bytes.now
        → MatchResult result (λ w. w ≡ v) (λ e. e ≡ ImageErr.Memory) }
    ensures fault { (at : ℕ) → IsErrOf result (ImageErr.Fault at) → fault_of bytes.now ≡ Some at }
{
    match image_at(alloc, bytes) {
        Ok(image) => Ok(image),
        Err(Stop::Memory) => Err(ImageErr::Memory),
        Err(Stop::Left(left)) => Err(ImageErr::Fault {
            at: bytes.len().saturating_sub(left) as u64,
        }),
    }
}

/// An image, all of the bytes.
#[tactic(auto, unfolding(crate::specs::Reading::read_image))]
fn image_at(alloc: Global, bytes: &[u8]) -> Result<Image, Stop>
    ensures { GivesOrStops (λ v. v) result (read_image bytes.now) }
{
    let (_, rest) = word_in(bytes, LETTERS, LETTERS)?;
    let (_, rest) = byte_in(rest, VERSION, VERSION)?;
    let (width, rest) = byte_in(rest, 1, SIDE)?;
    let (height, rest) = byte_in(rest, 1, SIDE)?;
    let (wrap, rest) = byte_in(rest, 0, 1)?;
    let (count, rest) = short_in(rest, 0, u16::from(width) * u16::from(height))?;
    let (chips, rest) = tables_at(alloc, width, height, count, rest)?;
    if !rest.is_empty() {
        return Err(Stop::Left(rest.len()));
    }
    Ok(Image {
        width,
        height,
        wrap: wrap == 1,
        chips: Seq::from_vec(chips),
    })
}

/// So many tables, each of a chip after that of the one before it.
fn tables_at(
    alloc: Global,
    width: u8,
    height: u8,
    count: u16,
    bytes: &[u8],
) -> Result<(Vec<ChipTable>, &[u8]), Stop>
    ensures { GivesOrStops (λ x. (x.0.items, x.1.now)) result
        (read_tables width height count None bytes.now) }
{
    let mut tables = Vec::with_capacity(alloc, count as usize)?;
    let mut before = None;
    let mut rest = bytes;
    for _ in 0..count {
        let (table, after) = table_at(alloc, width, height, before, rest)?;
        before = Some(table.chip);
        tables.push(table)?;
        rest = after;
    }
    Ok((tables, rest))
}

/// A table.
#[tactic(auto, unfolding(crate::specs::Reading::read_table))]
fn table_at(
    alloc: Global,
    width: u8,
    height: u8,
    before: Option<Chip>,
    bytes: &[u8],
) -> Result<(ChipTable, &[u8]), Stop>
    ensures { GivesOrStops (λ x. (x.0, x.1.now)) result (read_table width height before bytes.now) }
{
    let (chip, rest) = chip_at(bytes, width, height, before)?;
    let (count, rest) = short_in(rest, 1, ROUTER_ENTRIES as u16)?;
    let (rows, rest) = rows_at(alloc, count, rest)?;
    let entries = Seq::from_vec(rows);
    Ok((ChipTable { chip, entries }, rest))
}

/// So many rows.
fn rows_at(alloc: Global, count: u16, bytes: &[u8]) -> Result<(Vec<Entry>, &[u8]), Stop>
    ensures { GivesOrStops (λ x. (x.0.items, x.1.now)) result (read_rows count bytes.now) }
{
    let mut rows = Vec::with_capacity(alloc, count as usize)?;
    let mut rest = bytes;
    for _ in 0..count {
        let (row, after) = row_at(rest)?;
        rows.push(row)?;
        rest = after;
    }
    Ok((rows, rest))
}

/// A row.
#[tactic(auto, unfolding(crate::specs::Reading::read_row))]
fn row_at(bytes: &[u8]) -> Result<(Entry, &[u8]), Stop>
    ensures { GivesOrStops (λ x. (x.0, x.1.now)) result (read_row bytes.now) }
{
    let (key, rest) = word_at(bytes)?;
    let (mask, rest) = mask_at(rest, key)?;
    let (route, rest) = route_at(rest)?;
    Ok((Entry { key, mask, route }, rest))
}
