// Whether a table is sound: each row against each later row.
ghost use Rattle.std.specs.Prelude.{◌≡◌, ◌<◌, ◌↔◌, IsTrue, length};
ghost use Rattle.tern_word.specs.Ternary.{LiesIn};
ghost use Rattle.tern_word.specs.SoundTable.{HoldsItsAliases, IsSound, Misses};
ghost use Rattle.tern_word.specs.Placed.{MayStandBefore, StandsBeforeAll, IsWellPlaced};

use crate::blocks::{generality, intersects};
use crate::tables::{Row, Table};
use spin_base::Block;

/// Whether the table is sound: its rows are in order of generality, each alias lies inside its row's block, and no
/// earlier row's block meets an alias. It compares each row with each later one, so it is for small tables: those
/// that this project makes are proved to be sound.
pub fn is_sound(table: &Table) -> bool
    ensures { IsTrue result ↔ IsSound table.now.rows }
{
    all_well_placed(table.rows.as_slice())
}

// Whether each row is well placed.
fn all_well_placed(rows: &[Row]) -> bool
    ensures { IsTrue result ↔ IsSound rows.now }
{
    for at in 0..rows.len() {
        if !is_well_placed(rows, at) {
            return false;
        }
    }
    true
}

// Whether the row holds its aliases and may stand before all later rows.
fn is_well_placed(rows: &[Row], at: usize) -> bool
    requires { at < length rows.now }
    ensures { IsTrue result ↔ IsWellPlaced rows.now at }
{
    holds_its_aliases(&rows[at]) && stands_before_all(rows, at)
}

// Whether the row may stand before each later one.
fn stands_before_all(rows: &[Row], at: usize) -> bool
    requires { at < length rows.now }
    ensures { IsTrue result ↔ StandsBeforeAll rows.now at }
{
    for later in at + 1..rows.len() {
        if !may_stand_before(&rows[at], &rows[later]) {
            return false;
        }
    }
    true
}

// Whether a row is no more general than a later one, and meets no alias of it.
fn may_stand_before(first: &Row, later: &Row) -> bool
    ensures { IsTrue result ↔ MayStandBefore first.now later.now }
{
    if generality(later.block) < generality(first.block) {
        return false;
    }
    misses(first.block, later)
}

// Whether each alias lies inside the row's block.
fn holds_its_aliases(row: &Row) -> bool
    ensures { IsTrue result ↔ HoldsItsAliases row.now }
{
    row.aliases
        .as_slice()
        .iter()
        .all(|alias| lies_in(alias.block, row.block))
}

/// Whether the block meets no alias of the row.
pub fn misses(block: Block, row: &Row) -> bool
    ensures { IsTrue result ↔ Misses block row.now }
{
    row.aliases
        .as_slice()
        .iter()
        .all(|alias| !intersects(block, alias.block))
}

/// Whether each 32-bit key of the first block lies in the second: the first cares for all bits for which the second
/// does, and wants there what that wants.
pub fn lies_in(inner: Block, outer: Block) -> bool
    ensures { IsTrue result ↔ LiesIn inner outer }
{
    if inner.mask & outer.mask != outer.mask {
        return false;
    }
    inner.key & outer.mask == outer.key
}
