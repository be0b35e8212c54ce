// The fields of an image, read from the left.
ghost use Rattle.std.specs.Prelude.{◌≡◌, ◌<◌, ◌&&◌, nat_lt};
ghost use Rattle.std.specs.Int.{w8, w16, w32};
ghost use Rattle.table_load.specs.Reading.{GivesOrStops, number, field, between, covers, comes_after, read_route, read_chip};

use crate::faults::Stop;
use spin_base::{Chip, Route};

/// A byte, and the bytes after it.
#[tactic(auto, unfolding(crate::specs::Reading::number))]
fn byte_at(bytes: &[u8]) -> Result<(u8, &[u8]), Stop>
    ensures { GivesOrStops (λ x. (x.0, x.1.now)) result (number w8 bytes.now) }
{
    if bytes.len() < 1 {
        return Err(Stop::Left(bytes.len()));
    }
    let (front, rest) = bytes.split_at(1);
    Ok((front[0], rest))
}

/// A number of two bytes, the lowest first.
#[tactic(auto, unfolding(crate::specs::Reading::number))]
fn short_at(bytes: &[u8]) -> Result<(u16, &[u8]), Stop>
    ensures { GivesOrStops (λ x. (x.0, x.1.now)) result (number w16 bytes.now) }
{
    if bytes.len() < 2 {
        return Err(Stop::Left(bytes.len()));
    }
    let (front, rest) = bytes.split_at(2);
    Ok((u16::from_le_bytes([front[0], front[1]]), rest))
}

/// A number of four bytes, the lowest first.
#[tactic(auto, unfolding(crate::specs::Reading::number))]
pub(crate) fn word_at(bytes: &[u8]) -> Result<(u32, &[u8]), Stop>
    ensures { GivesOrStops (λ x. (x.0, x.1.now)) result (number w32 bytes.now) }
{
    if bytes.len() < 4 {
        return Err(Stop::Left(bytes.len()));
    }
    let (front, rest) = bytes.split_at(4);
    let number = u32::from_le_bytes([front[0], front[1], front[2], front[3]]);
    Ok((number, rest))
}

/// Whether a number lies between two bounds, both of them allowed.
fn is_between(number: u32, least: u32, most: u32) -> bool
    ensures { result ≡ between least most number }
{
    least <= number && number <= most
}

/// A byte between two bounds.
#[tactic(auto, unfolding(crate::specs::Reading::field))]
pub(crate) fn byte_in(bytes: &[u8], least: u8, most: u8) -> Result<(u8, &[u8]), Stop>
    ensures { GivesOrStops (λ x. (x.0, x.1.now)) result (field w8 (between least most) bytes.now) }
{
    let (number, rest) = byte_at(bytes)?;
    if is_between(u32::from(number), u32::from(least), u32::from(most)) {
        Ok((number, rest))
    } else {
        Err(Stop::Left(bytes.len()))
    }
}

/// A number of two bytes between two bounds.
#[tactic(auto, unfolding(crate::specs::Reading::field))]
pub(crate) fn short_in(bytes: &[u8], least: u16, most: u16) -> Result<(u16, &[u8]), Stop>
    ensures { GivesOrStops (λ x. (x.0, x.1.now)) result (field w16 (between least most) bytes.now) }
{
    let (number, rest) = short_at(bytes)?;
    if is_between(u32::from(number), u32::from(least), u32::from(most)) {
        Ok((number, rest))
    } else {
        Err(Stop::Left(bytes.len()))
    }
}

/// A number of four bytes between two bounds.
#[tactic(auto, unfolding(crate::specs::Reading::field))]
pub(crate) fn word_in(bytes: &[u8], least: u32, most: u32) -> Result<(u32, &[u8]), Stop>
    ensures { GivesOrStops (λ x. (x.0, x.1.now)) result (field w32 (between least most) bytes.now) }
{
    let (number, rest) = word_at(bytes)?;
    if is_between(number, least, most) {
        Ok((number, rest))
    } else {
        Err(Stop::Left(bytes.len()))
    }
}

/// A mask that covers the key.
#[tactic(auto, unfolding(crate::specs::Reading::field))]
pub(crate) fn mask_at(bytes: &[u8], key: u32) -> Result<(u32, &[u8]), Stop>
    ensures { GivesOrStops (λ x. (x.0, x.1.now)) result (field w32 (covers key) bytes.now) }
{
    let (mask, rest) = word_at(bytes)?;
    if key & mask == key {
        Ok((mask, rest))
    } else {
        Err(Stop::Left(bytes.len()))
    }
}

/// A route with some output.
#[tactic(auto, unfolding(crate::specs::Reading::read_route))]
pub(crate) fn route_at(bytes: &[u8]) -> Result<(Route, &[u8]), Stop>
    ensures { GivesOrStops (λ x. (x.0, x.1.now)) result (read_route bytes.now) }
{
    let (bits, rest) = word_in(bytes, 1, 0xff_ffff)?;
    Ok((Route { bits }, rest))
}

/// The chip of the next table.
#[tactic(auto, unfolding(crate::specs::Reading::read_chip))]
pub(crate) fn chip_at(
    bytes: &[u8],
    width: u8,
    height: u8,
    before: Option<Chip>,
) -> Result<(Chip, &[u8]), Stop>
    ensures { GivesOrStops (λ x. (x.0, x.1.now)) result (read_chip width height before bytes.now) }
{
    let (x, rest) = x_at(bytes, width)?;
    let (y, rest) = y_at(rest, height, before, x)?;
    Ok((Chip { x, y }, rest))
}

/// The x of a chip.
#[tactic(auto, unfolding(crate::specs::Reading::field))]
fn x_at(bytes: &[u8], width: u8) -> Result<(u8, &[u8]), Stop>
    ensures { GivesOrStops (λ x. (x.0, x.1.now)) result (field w8 (λ n. nat_lt n width) bytes.now) }
{
    let (x, rest) = byte_at(bytes)?;
    if x < width {
        Ok((x, rest))
    } else {
        Err(Stop::Left(bytes.len()))
    }
}

/// The y of a chip of that x.
#[tactic(auto, unfolding(crate::specs::Reading::field))]
fn y_at(bytes: &[u8], height: u8, before: Option<Chip>, x: u8) -> Result<(u8, &[u8]), Stop>
    ensures { GivesOrStops (λ x. (x.0, x.1.now)) result
        (field w8 (λ n. nat_lt n height && comes_after before (record { x = x; y = n }))
        bytes.now) }
{
    let (y, rest) = byte_at(bytes)?;
    if is_next(before, Chip { x, y }, height) {
        Ok((y, rest))
    } else {
        Err(Stop::Left(bytes.len()))
    }
}

/// Whether a chip stands below the height and comes after the one before it.
fn is_next(before: Option<Chip>, chip: Chip, height: u8) -> bool
    ensures { result ≡ (nat_lt chip.y height && comes_after before chip) }
{
    chip.y < height && comes_after(before, chip)
}

/// Whether a chip comes after the one before it, by x and then y.
fn comes_after(before: Option<Chip>, chip: Chip) -> bool
    ensures { result ≡ comes_after before chip }
{
    match before {
        Some(last) => last.x < chip.x || last.x == chip.x && last.y < chip.y,
        None => true,
    }
}
