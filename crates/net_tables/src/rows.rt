// The rows of original blocks, in order.
ghost use Rattle.std.specs.Prelude.{◌≡◌, length, map, true, IfOk, OnOk};
ghost use Rattle.std.specs.List.{AllZip, AllPairs};
ghost use Rattle.std.specs.List.Sorted.{IsPermutation};
ghost use Rattle.tern_word.specs.SoundTable.{IsSound};
ghost use Rattle.net_tables.specs.PlainTable.{row_of, IsRowNotAfter};
ghost use Rattle.net_tables.specs.Marks.{AreApart, original_of, row_of_mark, table_of_sorted, IsTableOf};

use crate::marks::Mark;
use spin_base::{Block, Memory, Seq};
use std::alloc::Global;
use tern_word::{Alias, Row, Table, generality};

// The table of each list.
pub(crate) fn tables_of(alloc: Global, lists: &[Seq<Mark>]) -> Result<Seq<Table>, Memory>
    ensures { IfOk result (λ tables. AllZip IsTableOf lists.now tables) }
{
    let mut tables = Seq::new(alloc);
    for list in lists {
        tables.push(plain_table(alloc, list.as_slice())?)?;
    }
    Ok(tables)
}

/// The plain table of original blocks: a row for each, with the block, its route, and the block with its port as the only
/// alias. Rows stand by their block's generality, then by its key. Where no key is in two of the blocks, the table is sound.
pub fn plain_table(alloc: Global, marks: &[Mark]) -> Result<Table, Memory>
    ensures table { IfOk result (IsTableOf marks.now) }
    ensures few { IfOk result (λ table. length table.rows ≡ length marks.now) }
    ensures sound { IfOk result (λ table. AreApart marks.now → IsSound table.rows) }
{
    let mut sorted = Vec::from_slice(alloc, marks)?;
    sort_marks(&mut sorted)?;
    let rows = rows_of(alloc, sorted.as_slice())?;
    Ok(Table { rows })
}

/// Original blocks in the order of the rows of their plain table: by generality, then by key.
#[tactic(auto, using(crate::proofs::Ordering::table_sorted))]
pub fn in_row_order(marks: Seq<Mark>) -> Result<Seq<Mark>, Memory>
    ensures same { IfOk result (IsPermutation marks) }
    ensures table { IfOk result (λ sorted. IsTableOf marks (table_of_sorted sorted)) }
{
    let mut marks = marks.into_vec();
    sort_marks(&mut marks)?;
    Ok(Seq::from_vec(marks))
}

// Sorts original blocks by generality, then by key.
fn sort_marks(marks: &mut Vec<Mark>) -> Result<(), Memory>
    ensures same { OnOk result (IsPermutation marks.old.items marks.new.items) }
    ensures in_order { OnOk result (AllPairs (λ a b. IsRowNotAfter (row_of_mark a)
        (row_of_mark b)) marks.new.items) }
{
    if !stand_in_order(marks) {
        marks.sort_by_key(|mark| (generality(mark.block), mark.block.key))?;
    }
    Ok(())
}

// Whether original blocks stand in that order already. It is seen where all care for the same bits.
fn stand_in_order(marks: &[Mark]) -> bool
    ensures { result ≡ true → AllPairs (λ a b. IsRowNotAfter (row_of_mark a)
        (row_of_mark b)) marks.now }
{
    match marks.first() {
        Some(first) => have_rising_keys(marks, first.block.mask),
        None => false,
    }
}

// Whether all original blocks care for these bits, and no key is less than the one before.
fn have_rising_keys(marks: &[Mark], mask: u32) -> bool
    ensures { result ≡ true → AllPairs (λ a b. IsRowNotAfter (row_of_mark a)
        (row_of_mark b)) marks.now }
{
    let mut least = 0;
    for mark in marks {
        let Block { key, mask: cares } = mark.block;
        if cares != mask || key < least {
            return false;
        }
        least = key;
    }
    true
}

// The rows of the original blocks, in their order.
fn rows_of(alloc: Global, marks: &[Mark]) -> Result<Seq<Row>, Memory>
    ensures { IfOk result (λ rows. rows ≡ map row_of_mark marks.now) }
{
    let mut rows = Seq::new(alloc);
    for mark in marks {
        rows.push(row_of(alloc, *mark)?)?;
    }
    Ok(rows)
}

// The row of one original block, its only alias.
fn row_of(alloc: Global, mark: Mark) -> Result<Row, Memory>
    ensures { IfOk result (λ row. row ≡ row_of (original_of mark)) }
{
    let mut aliases = Seq::new(alloc);
    aliases.push(Alias {
        block: mark.block,
        port: mark.port,
    })?;
    Ok(Row {
        block: mark.block,
        route: mark.route,
        aliases,
    })
}
