// The original blocks of all chips, gathered net by net.
ghost use Rattle.std.specs.Prelude.{◌≡◌, ◌*◌, ◌<◌, ◌≤◌, List, [], length, map, All, IfOk, OnOk, None, replicate, slice_index_or, slice_set};
ghost use Rattle.spin_base.specs.declared.chips.Chip.{Chip};
ghost use Rattle.spin_base.specs.Outputs.{nothing};
ghost use Rattle.machine_desc.specs.Live.{IsInside, index_of};
ghost use Rattle.net_tables.specs.PlainTable.{AreOriginals, AreRoutedApart};
ghost use Rattle.net_tables.specs.declared.marks.Mark.{Mark};
ghost use Rattle.net_tables.specs.Marks.{AreApart, AreBlank, AreBlocksOf, HavePlace, IsBlank, IsRouted, GainsMark, TellNet, with_mark, original_of};

use crate::marks::{Mark, RoutedPlan, no_ports, no_routes, set_links, set_ports, set_targets};
use machine_desc::{Machine, NetPlan};
use spin_base::{Block, Memory, Port, Route, Seq};
use std::alloc::Global;

/// The original blocks of each chip, by the chip's index, in the order of the nets: one for each net whose tree has the chip.
/// No key is in two blocks of a chip. It costs no more than the nets' trees and targets, and a place for each chip.
pub fn original_blocks<'x>(
    alloc: Global,
    machine: &'x Machine,
    nets: &'x Seq<NetPlan>,
) -> Result<Seq<Seq<Mark>>, Memory>
    requires { AreRoutedApart machine.now nets.now }
    ensures blocks { IfOk result (AreBlocksOf machine.now nets.now) }
    ensures long { IfOk result (λ lists. length lists ≡ machine.now.width * machine.now.height) }
    ensures few { IfOk result (All (λ (marks : List Mark). length marks ≤ length nets.now)) }
    ensures apart { IfOk result (All AreApart) }
{
    let plans = RoutedPlans {
        machine,
        nets: nets.as_slice(),
    };
    let lists = marks_of(alloc, plans)?;
    Ok(Seq::from_vec(lists))
}

// The plans of some nets on a machine, whose trees are routing trees.
#[derive(Clone, Copy)]
pub struct RoutedPlans<'a> {
    pub machine: &'a Machine,
    pub nets: &'a [NetPlan],
    pub ghost routed: { ∥ All (IsRouted machine.now) nets.now ∥₁ },
}

// The same for such nets. The two boards are made once: a net costs no more than its tree and targets.
pub(crate) fn marks_of(alloc: Global, plans: RoutedPlans) -> Result<Vec<Seq<Mark>>, Memory>
    ensures { IfOk result
        (λ v. AreBlocksOf plans.entry.machine.now plans.entry.nets.now v.items) }
{
    let mut ports = no_ports(alloc, plans.machine)?;
    let mut routes = no_routes(alloc, plans.machine)?;
    let mut lists = empty_lists(alloc, plans.machine.chips())?;
    add_nets(plans, &mut ports, &mut routes, &mut lists)?;
    Ok(lists)
}

// So many empty lists.
pub(crate) fn empty_lists(alloc: Global, count: usize) -> Result<Vec<Seq<Mark>>, Memory>
    ensures { IfOk result (λ v. v.items ≡ replicate count []) }
{
    let mut lists = Vec::new(alloc);
    for _ in 0..count {
        lists.push(Seq::new(alloc))?;
    }
    Ok(lists)
}

// Adds the nets' original blocks to the empty lists of the chips. The boards are clear between nets.
fn add_nets(
    plans: RoutedPlans,
    ports: &mut [Option<Port>],
    routes: &mut [Route],
    lists: &mut [Seq<Mark>],
) -> Result<(), Memory>
    requires blank { AreBlank plans.machine.now ports.old routes.old }
    requires empty { lists.old ≡ replicate (plans.machine.now.width * plans.machine.now.height) [] }
    ensures long { OnOk result (length lists.new
        ≡ plans.entry.machine.now.width * plans.entry.machine.now.height) }
    ensures gathered { OnOk result ((c : Chip) → IsInside plans.entry.machine.now c →
        AreOriginals plans.entry.machine.now c plans.entry.nets.now (map original_of
        (slice_index_or lists.new (index_of plans.entry.machine.now c) []))) }
{
    for net in plans.nets {
        let plan = RoutedPlan {
            machine: plans.machine,
            net,
        };
        add_net(plan, ports, routes, lists)?;
    }
    Ok(())
}

// Adds the net's original block at each chip of its tree. It leaves the boards clear.
fn add_net(
    plan: RoutedPlan,
    ports: &mut [Option<Port>],
    routes: &mut [Route],
    lists: &mut [Seq<Mark>],
) -> Result<(), Memory>
    requires blank { AreBlank plan.machine.now ports.old routes.old }
    requires long { length lists.old ≡ plan.machine.now.width * plan.machine.now.height }
    ensures no_port { OnOk result (IsBlank plan.entry.machine.now None ports.new) }
    ensures no_route { OnOk result (IsBlank plan.entry.machine.now nothing routes.new) }
    ensures long { OnOk result (length lists.new
        ≡ plan.entry.machine.now.width * plan.entry.machine.now.height) }
    ensures grown { OnOk result ((c : Chip) → IsInside plan.entry.machine.now c →
        GainsMark plan.entry.machine.now plan.entry.net.now c
        (slice_index_or lists.old (index_of plan.entry.machine.now c) [])
        (slice_index_or lists.new (index_of plan.entry.machine.now c) [])) }
{
    set_ports(plan, ports);
    set_links(plan, routes);
    set_targets(plan, routes);
    take_marks(plan, ports, routes, lists)
}

// Moves what the boards have at the chips of the net's tree to their lists.
fn take_marks(
    plan: RoutedPlan,
    ports: &mut [Option<Port>],
    routes: &mut [Route],
    lists: &mut [Seq<Mark>],
) -> Result<(), Memory>
    requires boards { TellNet plan.machine.now plan.net.now ports.old routes.old }
    requires long { length lists.old ≡ plan.machine.now.width * plan.machine.now.height }
    ensures no_port { OnOk result (IsBlank plan.entry.machine.now None ports.new) }
    ensures no_route { OnOk result (IsBlank plan.entry.machine.now nothing routes.new) }
    ensures long { OnOk result (length lists.new
        ≡ plan.entry.machine.now.width * plan.entry.machine.now.height) }
    ensures grown { OnOk result ((c : Chip) → IsInside plan.entry.machine.now c →
        GainsMark plan.entry.machine.now plan.entry.net.now c
        (slice_index_or lists.old (index_of plan.entry.machine.now c) [])
        (slice_index_or lists.new (index_of plan.entry.machine.now c) [])) }
{
    let block = plan.net.block;
    let root = plan.machine.index(plan.net.tree.root) as usize;
    take_mark(root, block, ports, routes, lists)?;
    for edge in plan.net.tree.edges.as_slice() {
        if let Some(chip) = plan.machine.far(edge.chip, edge.dir) {
            let place = plan.machine.index(chip) as usize;
            take_mark(place, block, ports, routes, lists)?;
        }
    }
    Ok(())
}

// Moves what the boards have at a place to the list there, as an original block, and leaves the place clear.
fn take_mark(
    place: usize,
    block: Block,
    ports: &mut [Option<Port>],
    routes: &mut [Route],
    lists: &mut [Seq<Mark>],
) -> Result<(), Memory>
    requires { HavePlace place ports.old routes.old lists.old }
    ensures port { ports.new ≡ slice_set ports.old place None }
    ensures route { routes.new ≡ slice_set routes.old place nothing }
    ensures mark { OnOk result (lists.new ≡ slice_set lists.old place
        (with_mark block (slice_index_or ports.old place None)
        (slice_index_or routes.old place nothing) (slice_index_or lists.old place []))) }
{
    let port = ports[place];
    let route = routes[place];
    ports[place] = None;
    routes[place] = Route::nothing();
    match port {
        None => Ok(()),
        Some(port) => lists[place].push(Mark { block, port, route }),
    }
}
