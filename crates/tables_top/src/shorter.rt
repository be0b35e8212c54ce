// Shorter tables, one for each given.
ghost use Rattle.std.specs.Prelude.{◌≡◌, ◌≤◌, true, IfOk, IfSome, MatchOption, length, map};
ghost use Rattle.table_rules.specs.Rows.{HasNoNewKeys, KeepsRoutes};
ghost use Rattle.tables_top.specs.Shorter.{AreShortRows, AreShorter, AreTooManyPieces, IsShorterTable, entry_at, is_long_table, has_long_table, short_at};

use spin_base::{Chip, ChipTable, Entry, Memory, ROUTER_ENTRIES, Seq};
use std::alloc::Global;
use table_readers::GivenTable;
use table_rules::{RoutedBlock, shorten_rows, shorten_within};
use table_text::ShortTable;

/// Into how many pieces the rows of a table may be cut.
const ROOM: u32 = 262144;

// The shorter tables, in order.
pub(crate) fn shorter_tables(
    alloc: Global,
    target: u32,
    exact: bool,
    tables: &[GivenTable],
) -> Result<Seq<ShortTable>, Memory>
    ensures { IfOk result (AreShorter target exact tables.now) }
{
    let mut shorter = Seq::new(alloc);
    for table in tables {
        let short = shorter_table(alloc, target, exact, table)?;
        shorter.push(short)?;
    }
    Ok(shorter)
}

// The shorter table of one, or that table, where its rows would be cut into too many pieces.
fn shorter_table(
    alloc: Global,
    target: u32,
    exact: bool,
    given: &GivenTable,
) -> Result<ShortTable, Memory>
    ensures { IfOk result (IsShorterTable target exact given.now) }
{
    match shorter_rows(alloc, target, exact, given.rows.as_slice())? {
        Some(rows) => short_table(alloc, given.chip, rows.as_slice(), false),
        None => short_table(alloc, given.chip, given.rows.as_slice(), true),
    }
}

// The rows of a shorter table, where they would be cut into few pieces.
fn shorter_rows(
    alloc: Global,
    target: u32,
    exact: bool,
    given: &[RoutedBlock],
) -> Result<Option<Seq<RoutedBlock>>, Memory>
    ensures rows { IfOk result (λ new. MatchOption new (AreTooManyPieces target exact given.now)
        (AreShortRows target exact given.now)) }
    ensures routes { IfOk result (λ new. IfSome new (KeepsRoutes given.now)) }
    ensures keys { IfOk result
        (λ new. IfSome new (λ rows. exact ≡ true → HasNoNewKeys given.now rows)) }
    ensures few { IfOk result (λ new. IfSome new (λ rows. length rows ≤ length given.now)) }
{
    if exact {
        shorten_within(alloc, given, target, ROOM)
    } else {
        shorten_rows(alloc, given, target, ROOM)
    }
}

// The table of a chip with these rows.
fn short_table(
    alloc: Global,
    chip: Chip,
    rows: &[RoutedBlock],
    kept: bool,
) -> Result<ShortTable, Memory>
    ensures { IfOk result (λ short. short ≡ short_at chip rows.now kept) }
{
    let entries = Seq::from_vec(entries_of(alloc, rows)?);
    let table = ChipTable { chip, entries };
    Ok(ShortTable { table, kept })
}

// The entries that rows are.
fn entries_of(alloc: Global, rows: &[RoutedBlock]) -> Result<Vec<Entry>, Memory>
    ensures { IfOk result (λ entries. entries.items ≡ map entry_at rows.now) }
{
    Ok(rows.iter().map(|row| entry_at(*row)).collect(alloc)?)
}

// The entry that a row is.
fn entry_at(row: RoutedBlock) -> Entry
    ensures { result ≡ entry_at row }
{
    Entry {
        key: row.block.key,
        mask: row.block.mask,
        route: row.route,
    }
}

// Whether the table has more entries than a router.
fn is_long_table(short: &ShortTable) -> bool
    ensures { result ≡ is_long_table short.now }
{
    short.table.entries.len() > ROUTER_ENTRIES
}

// Whether one of the tables has.
pub(crate) fn has_long_table(tables: &[ShortTable]) -> bool
    ensures { result ≡ has_long_table tables.now }
{
    tables.iter().any(|short| is_long_table(short))
}
