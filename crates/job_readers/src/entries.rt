// Reads entries of lists: pairs and triples of whole numbers, and chips, cores and links inside a grid.
ghost use Rattle.std.specs.Prelude.{◌≡◌, ◌<◌, IfOk, Some, map};
ghost use Rattle.serde_json.specs.View.{view};
ghost use Rattle.job_text.specs.Reading.{GivesOrFaults};
ghost use Rattle.job_readers.specs.Entries.{two_of, pair_of, three_of, triple_of, link_of, chip_faults, chip_value, numbered_faults, core_faults, core_value, link_faults, link_value};
ghost use Rattle.job_text.specs.Paths.{path_text};

use crate::events::items_in;
use job_text::{Path, TextErr, range, shape};
use machine_desc::Edge;
use serde_json::Value;
use spin_base::{Chip, Dir, Spot};
use std::alloc::Global;

// A list of exactly two whole numbers.
#[tactic(auto, using(crate::proofs::ListedItems::listed))]
pub(crate) fn pair(item: &Value) -> Option<(u64, u64)>
    ensures { result ≡ pair_of (view item.now) }
{
    two(items_in(item))
}

fn two(items: &[Value]) -> Option<(u64, u64)>
    ensures { result ≡ two_of (map view items.now) }
{
    match items {
        [x, y] => {
            match (x.as_u64(), y.as_u64()) {
                (Some(x), Some(y)) => Some((x, y)),
                _ => None,
            }
        }
        _ => None,
    }
}

// A list of exactly three whole numbers.
#[tactic(auto, using(crate::proofs::ListedItems::listed))]
pub(crate) fn triple(item: &Value) -> Option<(u64, u64, u64)>
    ensures { result ≡ triple_of (view item.now) }
{
    three(items_in(item))
}

fn three(items: &[Value]) -> Option<(u64, u64, u64)>
    ensures { result ≡ three_of (map view items.now) }
{
    match items {
        [x, y, z] => {
            match (x.as_u64(), y.as_u64(), z.as_u64()) {
                (Some(x), Some(y), Some(z)) => Some((x, y, z)),
                _ => None,
            }
        }
        _ => None,
    }
}

// The link of a number from 0 to 5.
fn link(number: u8) -> Dir
    ensures { result ≡ link_of number }
{
    match number {
        0 => Dir::East,
        1 => Dir::NorthEast,
        2 => Dir::North,
        3 => Dir::West,
        4 => Dir::SouthWest,
        _ => Dir::South,
    }
}

// A chip of a grid.
#[tactic(auto, unfolding(crate::specs::Entries::chip_faults, crate::specs::Entries::chip_value))]
pub(crate) fn chip_in(
    alloc: Global,
    item: &Value,
    path: &Path<'_>,
    width: u8,
    height: u8,
) -> Result<Chip, TextErr>
    ensures read { GivesOrFaults (λ c. c) result
        (chip_faults width height (path_text path.now) (view item.now))
        (chip_value (view item.now)) }
    ensures inside { IfOk result (λ c. (c.x < width) × (c.y < height)) }
{
    let Some((x, y)) = pair(item) else {
        return Err(shape(alloc, path));
    };
    if x >= u64::from(width) {
        return Err(range(alloc, path));
    }
    if y >= u64::from(height) {
        return Err(range(alloc, path));
    }
    Ok(Chip {
        x: x as u8,
        y: y as u8,
    })
}

// A chip of a grid, and a number up to `most`.
#[tactic(auto, unfolding(crate::specs::Entries::numbered_faults))]
fn chip_and_number(
    alloc: Global,
    item: &Value,
    path: &Path<'_>,
    width: u8,
    height: u8,
    most: u8,
) -> Result<(Chip, u8), TextErr>
    ensures read { GivesOrFaults (λ t. Some (t.0.x, t.0.y, t.1)) result
        (numbered_faults width height most (path_text path.now) (view item.now))
        (triple_of (view item.now)) }
    ensures inside { IfOk result (λ t. (t.0.x < width) × (t.0.y < height)) }
{
    let Some((x, y, number)) = triple(item) else {
        return Err(shape(alloc, path));
    };
    if x >= u64::from(width) {
        return Err(range(alloc, path));
    }
    if y >= u64::from(height) {
        return Err(range(alloc, path));
    }
    if number > u64::from(most) {
        return Err(range(alloc, path));
    }
    let chip = Chip {
        x: x as u8,
        y: y as u8,
    };
    Ok((chip, number as u8))
}

// A core of a chip of a grid.
#[tactic(auto, unfolding(crate::specs::Entries::core_faults, crate::specs::Entries::core_value))]
pub(crate) fn core_in(
    alloc: Global,
    item: &Value,
    path: &Path<'_>,
    width: u8,
    height: u8,
) -> Result<Spot, TextErr>
    ensures read { GivesOrFaults (λ s. s) result
        (core_faults width height (path_text path.now) (view item.now))
        (core_value (view item.now)) }
    ensures inside { IfOk result (λ s. (s.chip.x < width) × (s.chip.y < height)) }
{
    let (chip, core) = chip_and_number(alloc, item, path, width, height, 17)?;
    Ok(Spot { chip, core })
}

// A link of a chip of a grid: its number is from 0 (East) anticlockwise.
#[tactic(auto, unfolding(crate::specs::Entries::link_faults, crate::specs::Entries::link_value))]
pub(crate) fn link_in(
    alloc: Global,
    item: &Value,
    path: &Path<'_>,
    width: u8,
    height: u8,
) -> Result<Edge, TextErr>
    ensures read { GivesOrFaults (λ e. e) result
        (link_faults width height (path_text path.now) (view item.now))
        (link_value (view item.now)) }
    ensures inside { IfOk result (λ e. (e.chip.x < width) × (e.chip.y < height)) }
{
    let (chip, number) = chip_and_number(alloc, item, path, width, height, 5)?;
    Ok(Edge {
        chip,
        dir: link(number),
    })
}
