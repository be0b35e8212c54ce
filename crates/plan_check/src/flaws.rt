// What is amiss with a block of keys in the rows of one chip.
ghost use Rattle.std.specs.Prelude.{◌≡◌, ◌≢◌, ◌↔◌, ◌≤◌, ◌<◌, ℕ, IsTrue, All, MatchOption, length};
ghost use Rattle.std.proofs.Props.{props};
ghost use Rattle.spin_base.specs.declared.blocks.Entry.{Entry};
ghost use Rattle.spin_base.specs.Lookup.{default_route};
ghost use Rattle.spin_base.specs.declared.sizes.TheConstants.{ROUTER_ENTRIES};
ghost use Rattle.table_load.specs.Images.{IsRow};
ghost use Rattle.plan_check.specs.Boards.{IsAmiss, IsFlawBy};
ghost use Rattle.plan_check.specs.Verdicts.{Meets, LiesInside, NoneMeets, IsFirstToMeet};

use spin_base::{Block, Dir, Entry, Port, Route};
use tern_word::{intersects, lies_in};

// What is amiss with a net at a chip.
#[derive(Clone, Copy, PartialEq, Eq)]
pub enum Flaw {
    // All its keys get one route, which is not the tree's.
    Wrong,
    // The first row that meets its keys stands at this place, and does not match all of them.
    Split { row: u32 },
}

// The rows of one chip's table.
#[derive(Clone, Copy)]
pub struct Rows<'a> {
    pub entries: &'a [Entry],
    pub ghost valid: { All IsRow entries.now } by { Prim.hlevel props },
    pub ghost few: { length entries.now ≤ ROUTER_ENTRIES },
}

// What is amiss with a block in rows where its packets come in at that port: `None` where all its keys get the wanted route.
pub(crate) fn flaw_in(rows: Rows, block: Block, port: Port, wanted: Route) -> Option<Flaw>
    ensures { IsAmiss block rows.entry.entries.now port wanted result }
{
    match first_to_meet(rows, block) {
        None => flaw_by(default_route(port), wanted),
        Some(place) => {
            let entries = rows.entries;
            let entry = entries[place as usize];
            let valid = ValidRow { row: entry };
            if !lies_inside(block, valid) {
                return Some(Flaw::Split { row: place });
            }
            flaw_by(entry.route, wanted)
        }
    }
}

// What is amiss where a route is got in place of the wanted one.
fn flaw_by(route: Route, wanted: Route) -> Option<Flaw>
    ensures { IsFlawBy route wanted result }
{
    if route.bits == wanted.bits {
        None
    } else {
        Some(Flaw::Wrong)
    }
}

// The place of the first row that meets the block.
fn first_to_meet(rows: Rows, block: Block) -> Option<u32>
    ensures { MatchOption result (NoneMeets block rows.entry.entries.now)
        (λ place. (e : Entry) × IsFirstToMeet block rows.entry.entries.now place e) }
{
    let entries = rows.entries;
    for place in 0..entries.len() {
        let valid = ValidRow {
            row: entries[place],
        };
        if meets(block, valid) {
            return Some(place as u32);
        }
    }
    None
}

// A row that a table may have.
#[derive(Clone, Copy)]
struct ValidRow {
    row: Entry,
    ghost valid: { IsRow row } by { Prim.hlevel props },
}

// Whether the row matches some key of the block.
fn meets(block: Block, valid: ValidRow) -> bool
    ensures { IsTrue result ↔ Meets block valid.row }
{
    intersects(block, keys_of(valid))
}

// Whether the row matches each key of the block.
fn lies_inside(block: Block, valid: ValidRow) -> bool
    ensures { IsTrue result ↔ LiesInside block valid.row }
{
    lies_in(block, keys_of(valid))
}

// The keys that the row matches.
fn keys_of(valid: ValidRow) -> Block
    ensures key { result.key ≡ valid.row.key }
    ensures mask { result.mask ≡ valid.row.mask }
{
    Block {
        key: valid.row.key,
        mask: valid.row.mask,
    }
}

// Where a packet goes on that no entry matches: by the link opposite its port's, and nowhere from the chip's own cores
// (SpiNNaker datasheet).
fn default_route(port: Port) -> Route
    ensures { result ≡ default_route port }
{
    match port {
        Port::Link(Dir::East) => Route { bits: 8 },
        Port::Link(Dir::NorthEast) => Route { bits: 16 },
        Port::Link(Dir::North) => Route { bits: 32 },
        Port::Link(Dir::West) => Route { bits: 1 },
        Port::Link(Dir::SouthWest) => Route { bits: 2 },
        Port::Link(Dir::South) => Route { bits: 4 },
        Port::Local => Route { bits: 0 },
    }
}
