// Tables to be shortened.
ghost use Rattle.std.specs.Prelude.{◌≡◌, ◌<◌, ◌≤◌, ◌^◌, ◌==◌, true, All, IfOk, IfSome, bit_and, is_some, length, map};
ghost use Rattle.serde_json.specs.View.{view};
ghost use Rattle.job_text.specs.Reading.{GivesOrFaults};
ghost use Rattle.job_text.specs.Paths.{path_text};
ghost use Rattle.job_readers.specs.Blocks.{block_at};
ghost use Rattle.job_readers.specs.Entries.{link_of};
ghost use Rattle.job_readers.specs.Members.{list_member, list_member_faults};
ghost use Rattle.table_readers.specs.Asking.{HasFewRows, asked_faults, asked_value, chip_numbers, chip_numbers_faults, four_faults, four_value, numbers_faults, numbers_value, one_faults, one_value, rest_faults, rest_value, route_at, row_faults, row_value, rows_faults, rows_value, table_faults, table_value, tables_exact_faults, tables_exact_value, tables_faults, tables_value, tables_target_faults, tables_target_value, three_faults, three_value, two_faults, two_value};

use job_readers::{ItemReader, each_item, items_in};
use job_text::{Path, TextErr, count_to, flag, list, member, number_in, range, shape};
use serde_json::Value;
use spin_base::{Block, Chip, Dir, Port, Route, Seq};
use std::alloc::Global;
use table_rules::RoutedBlock;

/// The greatest number of 32 bits.
const MOST: u64 = 4294967295;

/// The greatest route.
const MOST_ROUTE: u64 = 16777215;

/// The greatest number of a link.
const MOST_LINK: u64 = 5;

/// The most tables, and the most rows of one.
const MOST_ITEMS: u64 = 65536;

/// Tables, to how many rows each is to be shortened, and whether it is to have no key that no row has.
#[derive(Drop)]
pub struct Asked {
    pub target: u32,
    pub exact: bool,
    pub tables: Seq<GivenTable>,
}

/// The rows of the table of a chip, in their order.
#[derive(Drop)]
pub struct GivenTable {
    pub chip: Chip,
    pub rows: Seq<RoutedBlock>,
}

// Reads a row: a list of a key, a mask and a route, and of the link by which its packets come in, if that is told.
#[derive(Clone, Copy)]
struct Rows;

impl ItemReader for Rows {
    ghost use Rattle.std.specs.Prelude.{⊤};
    ghost use Rattle.table_readers.specs.Asking.{row_faults, row_value};

    type Item = RoutedBlock;

    ghost faults = { λ _. row_faults };

    ghost value = { λ _. row_value };

    ghost Holds = { λ _ _. ⊤ };

    fn read(&self, alloc: Global, item: &Value, path: &Path<'_>) -> Result<RoutedBlock, TextErr> {
        row_in(alloc, item, path)
    }
}

// The row that an item is.
#[tactic(auto, unfolding(crate::specs::Asking::row_faults, crate::specs::Asking::row_value))]
fn row_in(alloc: Global, item: &Value, path: &Path<'_>) -> Result<RoutedBlock, TextErr>
    ensures { GivesOrFaults (λ r. r) result (row_faults (path_text path.now) (view item.now))
        (row_value (view item.now)) }
{
    row_of_items(alloc, items_in(item), path)
}

// The row that three items are.
#[tactic(auto, unfolding(crate::specs::Asking::three_faults, crate::specs::Asking::three_value))]
fn row_of_items(alloc: Global, items: &[Value], path: &Path<'_>) -> Result<RoutedBlock, TextErr>
    ensures { GivesOrFaults (λ r. r) result (three_faults (path_text path.now)
        (map view items.now)) (three_value (map view items.now)) }
{
    let [key, rest @ ..] = items else {
        return Err(shape(alloc, path));
    };
    row_of_two(alloc, key, rest, path)
}

// The row of a key, and of the mask and the route that two items are.
#[tactic(auto, unfolding(crate::specs::Asking::two_faults, crate::specs::Asking::two_value))]
fn row_of_two(
    alloc: Global,
    key: &Value,
    items: &[Value],
    path: &Path<'_>,
) -> Result<RoutedBlock, TextErr>
    ensures { GivesOrFaults (λ r. r) result (two_faults (path_text path.now) (view key.now)
        (map view items.now)) (two_value (view key.now) (map view items.now)) }
{
    let [mask, rest @ ..] = items else {
        return Err(shape(alloc, path));
    };
    row_of_one(alloc, key, mask, rest, path)
}

// The row of a key and a mask, and of the route and the link that items are.
#[tactic(auto, unfolding(crate::specs::Asking::one_faults, crate::specs::Asking::one_value))]
fn row_of_one(
    alloc: Global,
    key: &Value,
    mask: &Value,
    items: &[Value],
    path: &Path<'_>,
) -> Result<RoutedBlock, TextErr>
    ensures { GivesOrFaults (λ r. r) result
        (one_faults (path_text path.now) (view key.now) (view mask.now) (map view items.now))
        (one_value (view key.now) (view mask.now) (map view items.now)) }
{
    let [route, rest @ ..] = items else {
        return Err(shape(alloc, path));
    };
    row_of_rest(alloc, key, mask, route, rest, path)
}

// The row of a key, a mask and a route, and of the link that an item is, if there is one.
#[tactic(auto, unfolding(crate::specs::Asking::rest_faults, crate::specs::Asking::rest_value))]
fn row_of_rest(
    alloc: Global,
    key: &Value,
    mask: &Value,
    route: &Value,
    items: &[Value],
    path: &Path<'_>,
) -> Result<RoutedBlock, TextErr>
    ensures { GivesOrFaults (λ r. r) result
        (rest_faults (path_text path.now) (view key.now) (view mask.now) (view route.now) (map view items.now))
        (rest_value (view key.now) (view mask.now) (view route.now) (map view items.now)) }
{
    let [link, rest @ ..] = items else {
        return row_of_three(alloc, key, mask, route, path);
    };
    if rest.is_empty() {
        return row_of_four(alloc, key, mask, route, link, path);
    }
    Err(shape(alloc, path))
}

// The row that a key, a mask, a route and a link are.
#[tactic(auto, using(job_readers::proofs::Firsts::firsts))]
fn row_of_four(
    alloc: Global,
    key: &Value,
    mask: &Value,
    route: &Value,
    link: &Value,
    path: &Path<'_>,
) -> Result<RoutedBlock, TextErr>
    ensures { GivesOrFaults (λ r. r) result
        (four_faults (path_text path.now) (view key.now) (view mask.now) (view route.now) (view link.now))
        (four_value (view key.now) (view mask.now) (view route.now) (view link.now)) }
{
    let row = row_of_three(alloc, key, mask, route, path)?;
    let number = number_in(alloc, Some(link), path, 0, MOST_LINK, None)?;
    Ok(RoutedBlock {
        block: row.block,
        route: row.route,
        port: Port::Link(link_of(number)),
    })
}

// The link of a number from 0 to 5.
fn link_of(number: u64) -> Dir
    ensures { result ≡ link_of number }
{
    match number {
        0 => Dir::East,
        1 => Dir::NorthEast,
        2 => Dir::North,
        3 => Dir::West,
        4 => Dir::SouthWest,
        _ => Dir::South,
    }
}

// The row that a key, a mask and a route are.
#[tactic(auto, using(job_readers::proofs::Firsts::firsts))]
fn row_of_three(
    alloc: Global,
    key: &Value,
    mask: &Value,
    route: &Value,
    path: &Path<'_>,
) -> Result<RoutedBlock, TextErr>
    ensures { GivesOrFaults (λ r. r) result
        (numbers_faults (path_text path.now) (view key.now) (view mask.now) (view route.now))
        (numbers_value (view key.now) (view mask.now) (view route.now)) }
{
    let key = number_in(alloc, Some(key), path, 0, MOST, None)? as u32;
    let mask = number_in(alloc, Some(mask), path, 0, MOST, None)? as u32;
    let bits = number_in(alloc, Some(route), path, 0, MOST_ROUTE, None)? as u32;
    match block_of(key, mask) {
        Some(block) => {
            Ok(RoutedBlock {
                block,
                route: route_of(bits),
                port: Port::Local,
            })
        }
        None => Err(range(alloc, path)),
    }
}

// The block of a key and a mask, where the key has no bit outside the mask.
#[tactic(auto, unfolding(job_readers::specs::Blocks::block_at))]
fn block_of(key: u32, mask: u32) -> Option<Block>
    ensures tested { is_some result ≡ (bit_and key mask == key) }
    ensures value { IfSome result (λ b. b ≡ block_at key mask) }
{
    if key & mask != key {
        return None;
    }
    Some(Block { key, mask })
}

// The route of bits.
#[tactic(auto, unfolding(crate::specs::Asking::route_at))]
fn route_of(bits: u32) -> Route
    requires { bits < 2 ^ 24 }
    ensures { result ≡ route_at bits }
{
    Route { bits }
}

// Reads a table: an object with a chip and rows.
#[derive(Clone, Copy)]
struct Tables;

impl ItemReader for Tables {
    ghost use Rattle.table_readers.specs.Asking.{HasFewRows, table_faults, table_value};

    type Item = GivenTable;

    ghost faults = { λ _. table_faults };

    ghost value = { λ _. table_value };

    ghost Holds = { λ _. HasFewRows };

    fn read(&self, alloc: Global, item: &Value, path: &Path<'_>) -> Result<GivenTable, TextErr> {
        table_in(alloc, item, path)
    }
}

// The table that an item is.
#[tactic(auto, using(job_readers::proofs::Firsts::firsts), unfolding(crate::specs::Asking::table_faults, crate::specs::Asking::table_value))]
fn table_in(alloc: Global, item: &Value, path: &Path<'_>) -> Result<GivenTable, TextErr>
    ensures read { GivesOrFaults (λ t. t) result (table_faults (path_text path.now) (view item.now))
        (table_value (view item.now)) }
    ensures few { IfOk result HasFewRows }
{
    let chip = chip_in(alloc, item, path)?;
    let rows = rows_in(alloc, item, path)?;
    Ok(GivenTable { chip, rows })
}

// The chip of a table.
#[tactic(auto, using(job_readers::proofs::Firsts::firsts), unfolding(crate::specs::Asking::chip_numbers_faults, crate::specs::Asking::chip_numbers))]
fn chip_in(alloc: Global, item: &Value, path: &Path<'_>) -> Result<Chip, TextErr>
    ensures { GivesOrFaults (λ c. c) result
        (chip_numbers_faults (path_text path.now) (view item.now))
        (chip_numbers (view item.now)) }
{
    let x_path = Path::Member(path, "x");
    let x = number_in(alloc, member(item, "x"), &x_path, 0, 255, None)?;
    let y_path = Path::Member(path, "y");
    let y = number_in(alloc, member(item, "y"), &y_path, 0, 255, None)?;
    Ok(Chip {
        x: x as u8,
        y: y as u8,
    })
}

// The rows of a table.
#[tactic(auto, using(job_readers::proofs::Firsts::firsts), unfolding(crate::specs::Asking::rows_faults, crate::specs::Asking::rows_value))]
fn rows_in(alloc: Global, item: &Value, path: &Path<'_>) -> Result<Seq<RoutedBlock>, TextErr>
    ensures read { GivesOrFaults (λ rs. rs) result
        (rows_faults (path_text path.now) (view item.now))
        (rows_value (view item.now)) }
    ensures few { IfOk result (λ rs. length rs ≤ 65536) }
{
    let items = list_of(alloc, item, path, "rows")?;
    let path = Path::Member(path, "rows");
    each_item(alloc, items, &path, &Rows)
}

/// The tables that a value asks to be shortened.
///
/// # Errors
///
/// `Fault` with the first fault in the order of reading: that of `target`, that of `exact`, that of the list of tables, then those of
/// each table, its chip first; `Memory`.
#[tactic(auto, using(job_readers::proofs::Firsts::firsts), unfolding(crate::specs::Asking::asked_faults, crate::specs::Asking::asked_value))]
pub fn asked_of(alloc: Global, value: &Value) -> Result<Asked, TextErr>
    ensures read { GivesOrFaults (λ a. a) result (asked_faults (view value.now)) (asked_value
        (view value.now)) }
    ensures few { IfOk result (λ a. All HasFewRows a.tables) }
{
    let path = Path::Whole("in");
    let target = target_in(alloc, value, &path)?;
    let exact = exact_in(alloc, value, &path)?;
    let tables = tables_in(alloc, value, &path)?;
    Ok(Asked {
        target,
        exact,
        tables,
    })
}

// To how many rows tables are to be shortened.
#[tactic(auto, unfolding(crate::specs::Asking::tables_target_faults, crate::specs::Asking::tables_target_value))]
fn target_in(alloc: Global, value: &Value, path: &Path<'_>) -> Result<u32, TextErr>
    ensures { GivesOrFaults (λ n. n) result (tables_target_faults (path_text path.now) (view value.now))
        (tables_target_value (view value.now)) }
{
    let path = Path::Member(path, "target");
    let target = number_in(alloc, member(value, "target"), &path, 0, MOST, Some(0))?;
    Ok(target as u32)
}

// Whether tables are to have no new keys.
#[tactic(auto, unfolding(crate::specs::Asking::tables_exact_faults, crate::specs::Asking::tables_exact_value))]
fn exact_in(alloc: Global, value: &Value, path: &Path<'_>) -> Result<bool, TextErr>
    ensures { GivesOrFaults (λ b. b) result (tables_exact_faults (path_text path.now) (view value.now))
        (tables_exact_value (view value.now)) }
{
    let path = Path::Member(path, "exact");
    flag(alloc, member(value, "exact"), &path, false)
}

// The tables.
#[tactic(auto, using(job_readers::proofs::Firsts::firsts), unfolding(crate::specs::Asking::tables_faults, crate::specs::Asking::tables_value))]
fn tables_in(alloc: Global, value: &Value, path: &Path<'_>) -> Result<Seq<GivenTable>, TextErr>
    ensures read { GivesOrFaults (λ ts. ts) result
        (tables_faults (path_text path.now) (view value.now))
        (tables_value (view value.now)) }
    ensures few { IfOk result (All HasFewRows) }
{
    let items = list_of(alloc, value, path, "tables")?;
    let path = Path::Member(path, "tables");
    each_item(alloc, items, &path, &Tables)
}

// The list of at most so many items that a member is.
#[tactic(auto, unfolding(job_readers::specs::Members::list_member_faults, job_readers::specs::Members::list_member))]
fn list_of<'a>(
    alloc: Global,
    object: &'a Value,
    path: &Path<'_>,
    name: &str,
) -> Result<&'a [Value], TextErr>
    ensures read { GivesOrFaults (λ items. map view items.now) result
        (list_member_faults (path_text path.now) name.now true 65536 (view object.now))
        (list_member name.now (view object.now)) }
    ensures within { IfOk result (λ items. length items.now ≤ 65536) }
{
    let path = Path::Member(path, name);
    let items = list(alloc, member(object, name), &path, true)?;
    count_to(alloc, &path, MOST_ITEMS, items.len() as u64)?;
    Ok(items)
}
