// A set refined by hand, on a table that is asked whether it is sound.
ghost use Rattle.std.specs.Prelude.{◌≡◌, ◌∷◌, [], IfOk, length};
ghost use Rattle.cover_merge.specs.Merge.{IsOneRoute};

use cover_merge::{RowPlaces, down_check, refine, up_check};
use spin_base::{Block, Memory, Port, Route, Seq};
use std::alloc::Global;
use tern_word::{Alias, Row, Table, block_of, is_sound};

// The row of the keys of `block`, which stands for those of `own`, as packets of the chip's own cores.
fn row(alloc: Global, block: Block, own: Block, route: Route) -> Result<Row, Memory>
    ensures { IfOk result (λ row. row.route ≡ route) }
{
    let alias = Alias {
        block: own,
        port: Port::Local,
    };
    let aliases = vec![in alloc; alias]?;
    Ok(Row {
        block,
        route,
        aliases: Seq::from_vec(aliases),
    })
}

// The row of a key, which stands for that key.
fn row_of(alloc: Global, key: u32, route: Route) -> Result<Row, Memory>
    ensures { IfOk result (λ row. row.route ≡ route) }
{
    row(alloc, block_of(key, 1), block_of(key, 1), route)
}

// The keys 0, 1, 6 and 15 go East. Of the other keys below 16 there is key 3, which goes North by a row of all 16.
fn table(alloc: Global) -> Result<Table, Memory>
    ensures few { IfOk result (λ t. length t.rows ≡ 5) }
    ensures one_route { IfOk result (λ t. IsOneRoute t.rows (0 ∷ 1 ∷ 2 ∷ 3 ∷ [])) }
{
    let east = Route { bits: 1 };
    let first = row_of(alloc, 0, east)?;
    let second = row_of(alloc, 1, east)?;
    let third = row_of(alloc, 6, east)?;
    let fourth = row_of(alloc, 15, east)?;
    let last = row(alloc, block_of(0, 16), block_of(3, 1), Route { bits: 4 })?;
    let rows = vec![in alloc; first, second, third, fourth, last]?;
    Ok(Table {
        rows: Seq::from_vec(rows),
    })
}

// The refined set of the places of the rows that go East; all of them where the table is not sound.
fn refined(alloc: Global) -> Result<Seq<u32>, Memory> {
    let table = table(alloc)?;
    let places = vec![in alloc; 0, 1, 2, 3]?;
    if !is_sound(&table) {
        return Ok(Seq::from_vec(places));
    }
    refine(alloc, &table, Seq::from_vec(places))
}

// Whether the merge of all rows that go East passes the up-check, and whether it passes the down-check.
fn checked(alloc: Global) -> Result<(bool, bool), Memory> {
    let table = table(alloc)?;
    let set = RowPlaces {
        rows: table.rows.as_slice(),
        places: &[0, 1, 2, 3],
    };
    Ok((up_check(set), down_check(set)))
}

// It would be as general as the row that goes North and stand behind it: that row takes each of its keys, and no row is left
// whose keys it could take.
#[test]
fn a_merge_behind_a_row_that_meets_it_fails_the_up_check_alone(rt: HostRuntime) {
    let is_right = match checked(rt.alloc()) {
        Ok((up, down)) => !up && down,
        Err(_) => false,
    };
    assert!(rt; is_right);
}

// The merge of all four would be as general as the row that goes North and stand behind it, where that row takes each of
// their keys: the up-check takes out the greatest place, 3. The merge of keys 0, 1 and 6 has the keys 0 to 7 and stands
// before that row, so the down-check meets key 3. Bit 0 would keep keys 0 and 6, bit 1 keeps 0 and 1, and bit 2 would keep
// 6 alone: of the two that keep two, bit 1 is the higher. The merge of keys 0 and 1 meets nothing.
#[test]
fn a_set_is_refined_by_the_up_check_then_by_the_highest_bit(rt: HostRuntime) {
    let is_right = match refined(rt.alloc()) {
        Ok(set) => set.as_slice() == [0, 1].as_slice(),
        Err(_) => false,
    };
    assert!(rt; is_right);
}
