// The verdict on the tables of an image.
ghost use Rattle.std.specs.Prelude.{◌≡◌, ◌*◌, ◌<◌, ◌^◌, ℕ, List, All, None, Some, length, slice_get, slice_index};
ghost use Rattle.spin_base.specs.declared.blocks.Entry.{Entry};
ghost use Rattle.spin_base.specs.declared.chips.Chip.{Chip};
ghost use Rattle.spin_base.specs.Outputs.{nothing};
ghost use Rattle.machine_desc.specs.Live.{chip_of};
ghost use Rattle.machine_desc.specs.declared.nets.NetPlan.{NetPlan};
ghost use Rattle.machine_desc.specs.RightTables.{AreRight};
ghost use Rattle.net_tables.specs.Marks.{IsRouted};
ghost use Rattle.table_load.specs.Memories.{IsLoaded};
ghost use Rattle.plan_check.specs.declared.verdicts.Verdict.TheVariants.{Right, Wrong};
ghost use Rattle.plan_check.specs.Boards.{AreBoardsOf, IsFirstFlaw, IsAmissAt, verdict_on};
ghost use Rattle.plan_check.specs.Verdicts.{IsVerdict, IsMisrouted};

use crate::flaws::{Flaw, Rows, flaw_in};
use crate::places::{GridImage, PlacedTables, rows_of, set_places};
use machine_desc::NetPlan;
use net_tables::marks::{RoutedPlan, set_links, set_ports, set_targets};
use spin_base::{Block, Chip, Entry, Port, Route, Seq};

// The most chips that a machine has.
const MOST_CHIPS: usize = 4096;

/// What a check says of the tables of an image.
#[derive(Clone, Copy, PartialEq, Eq)]
pub enum Verdict {
    /// Every key of every net gets the route of the net's tree, at each chip of the tree.
    Right,
    /// At this chip the keys of this net get another route: `key` is the first of them.
    Wrong { net: u32, chip: Chip, key: u32 },
    /// At this chip the first row that meets the keys of this net matches some of them and not all: the row at place `row`.
    /// Such tables may still be right; that is not decided.
    Split { net: u32, chip: Chip, row: u32 },
}

/// Judges the tables of an image: of the first net, and of its tree's first chip by index, at which the net's keys do not
/// all get the outputs that the tree wants there, it says what is amiss. `Right` means that the tables are right for the
/// nets, as they are loaded. The rows of a chip are gone over once for each net whose tree has the chip, at worst. It takes
/// no memory.
pub fn check(nets: &Seq<NetPlan>, grid: GridImage) -> Verdict
    requires few { length nets.now < 2 ^ 32 }
    requires routed { All (IsRouted grid.machine.now) nets.now }
    ensures verdict { IsVerdict grid.entry.machine.now nets.now grid.entry.image.now result }
    ensures right { result ≡ Right → (memories : List (List Entry))
        → IsLoaded grid.entry.image.now memories
        → AreRight grid.entry.machine.now memories nets.now }
    ensures wrong { (i : ℕ) (c : Chip) (key : ℕ) → result ≡ Wrong i c key
        → (memories : List (List Entry)) → IsLoaded grid.entry.image.now memories
        → (net : NetPlan) × (slice_get nets.now i ≡ Some net)
        × IsMisrouted grid.entry.machine.now memories net c key }
{
    let mut ports = port_board();
    let mut routes = route_board();
    let mut places = place_board();
    let count = grid.machine.chips();
    let ports: &mut [Option<Port>] = &mut ports[..count];
    let routes: &mut [Route] = &mut routes[..count];
    let places: &mut [u16] = &mut places[..count];
    set_places(grid, places);
    let tables = PlacedTables { grid, places };
    verdict_of(&tables, nets.as_slice(), ports, routes)
}

// A board without a port, for as many chips as a machine may have.
fn port_board() -> [Option<Port>; MOST_CHIPS]
    ensures { All (λ port. port ≡ None) result }
{
    [None; MOST_CHIPS]
}

// A board whose routes have no output.
fn route_board() -> [Route; MOST_CHIPS]
    ensures { All (λ route. route ≡ nothing) result }
{
    [Route::nothing(); MOST_CHIPS]
}

// A board of places, each the first.
fn place_board() -> [u16; MOST_CHIPS]
    ensures { All (λ place. place ≡ 0) result }
{
    [0; MOST_CHIPS]
}

// The verdict, by boards of which two are written anew for each net: by what ports its packets come in, and what its tree wants.
fn verdict_of<'x>(
    tables: &PlacedTables<'x>,
    nets: &'x [NetPlan],
    ports: &mut [Option<Port>],
    routes: &mut [Route],
) -> Verdict
    requires few { length nets.now < 2 ^ 32 }
    requires routed { All (IsRouted tables.now.grid.machine.now) nets.now }
    requires ports_long { length ports.old
        ≡ tables.now.grid.machine.now.width * tables.now.grid.machine.now.height }
    requires routes_long { length routes.old
        ≡ tables.now.grid.machine.now.width * tables.now.grid.machine.now.height }
    ensures { IsVerdict tables.now.grid.machine.now nets.now tables.now.grid.image.now result }
{
    let machine = tables.grid.machine;
    for at in 0..nets.len() {
        let net = &nets[at];
        let plan = RoutedPlan { machine, net };
        ports.fill(None);
        set_ports(plan, ports);
        routes.fill(Route::nothing());
        set_links(plan, routes);
        set_targets(plan, routes);
        if let Some((chip, flaw)) = first_flaw(tables, net, ports, routes) {
            return verdict_from(at as u32, chip, net.block.key, flaw);
        }
    }
    Verdict::Right
}

// What is said of a flaw.
fn verdict_from(net: u32, chip: Chip, key: u32, flaw: Flaw) -> Verdict
    ensures { result ≡ verdict_on net chip key flaw }
{
    match flaw {
        Flaw::Wrong => Verdict::Wrong { net, chip, key },
        Flaw::Split { row } => Verdict::Split { net, chip, row },
    }
}

// The chip of least index at which the net is not fine, and what is amiss there.
fn first_flaw(
    tables: &PlacedTables<'_>,
    net: &NetPlan,
    ports: &[Option<Port>],
    routes: &[Route],
) -> Option<(Chip, Flaw)>
    requires { AreBoardsOf tables.now.grid.machine.now net.now ports.now routes.now }
    ensures { IsFirstFlaw tables.now.grid.machine.now tables.now.grid.image.now net.now result }
{
    let machine = tables.grid.machine;
    for index in 0..machine.chips() {
        let rows = Rows {
            entries: rows_of(tables, index),
        };
        if let Some(flaw) = flaw_at(rows, net.block, ports[index], routes[index]) {
            return Some((machine.chip_at(index as u32), flaw));
        }
    }
    None
}

// What is amiss with a block at a chip where its packets come in at that port, if they do.
fn flaw_at(rows: Rows, block: Block, port: Option<Port>, wanted: Route) -> Option<Flaw>
    ensures { IsAmissAt block rows.entry.entries.now port wanted result }
{
    flaw_in(rows, block, port?, wanted)
}
