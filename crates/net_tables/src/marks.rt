//! What one net wants of each chip, on boards with a place for each chip, by the chip's index.
ghost use Rattle.std.specs.Prelude.{◌≡◌, ◌*◌, length, IfOk, [], None};
ghost use Rattle.spin_base.specs.Outputs.{nothing};
ghost use Rattle.net_tables.specs.Marks.{IsBlank, IsClearOff, IsRouted, TellsPorts, TellsRoutes};

use machine_desc::{Machine, NetPlan, out_of};
use spin_base::{Block, Memory, Out, Port, Route};
use std::alloc::Global;

/// An original block of a chip: the keys of a net, the port at which its packets come in, and their outputs.
#[derive(Clone, Copy)]
pub struct Mark {
    pub block: Block,
    pub port: Port,
    pub route: Route,
}

/// A net's plan on a machine: its tree is a routing tree for its targets, with the root in the grid.
#[derive(Clone, Copy)]
pub struct RoutedPlan<'a> {
    pub machine: &'a Machine,
    pub net: &'a NetPlan,
    pub ghost routed: { ∥ IsRouted machine.now net.now ∥₁ },
}

/// A board without a port.
pub fn no_ports(alloc: Global, machine: &Machine) -> Result<Vec<Option<Port>>, Memory>
    ensures { IfOk result (λ v. IsBlank machine.now None v.items) }
{
    Ok(vec![in alloc; None; machine.chips()]?)
}

/// A board without a route.
pub fn no_routes(alloc: Global, machine: &Machine) -> Result<Vec<Route>, Memory>
    ensures { IfOk result (λ v. IsBlank machine.now nothing v.items) }
{
    Ok(vec![in alloc; Route::nothing(); machine.chips()]?)
}

/// Writes the port at which packets come in at each chip of the net's tree.
pub fn set_ports(plan: RoutedPlan, ports: &mut [Option<Port>])
    requires { IsBlank plan.machine.now None ports.old }
    ensures long { length ports.new
        ≡ plan.entry.machine.now.width * plan.entry.machine.now.height }
    ensures told { TellsPorts plan.entry.machine.now plan.entry.net.now.tree.root
        plan.entry.net.now.tree.edges ports.new }
{
    ports[plan.machine.index(plan.net.tree.root) as usize] = Some(Port::Local);
    for edge in plan.net.tree.edges.as_slice() {
        if let Some(chip) = plan.machine.far(edge.chip, edge.dir) {
            ports[plan.machine.index(chip) as usize] = Some(Port::Link(edge.dir.opposite()));
        }
    }
}

/// Writes the links by which the net's tree goes on from each of its chips.
pub fn set_links(plan: RoutedPlan, routes: &mut [Route])
    requires { IsBlank plan.machine.now nothing routes.old }
    ensures long { length routes.new
        ≡ plan.entry.machine.now.width * plan.entry.machine.now.height }
    ensures told { TellsRoutes plan.entry.machine.now plan.entry.net.now.tree.edges [] routes.new }
    ensures clear_off { IsClearOff plan.entry.machine.now plan.entry.net.now routes.new }
{
    for edge in plan.net.tree.edges.as_slice() {
        let place = plan.machine.index(edge.chip) as usize;
        routes[place] = routes[place].with(Out::Link(edge.dir));
    }
}

/// Adds the outputs of the net's targets to the links.
pub fn set_targets(plan: RoutedPlan, routes: &mut [Route])
    requires { length routes.old ≡ plan.machine.now.width * plan.machine.now.height }
    ensures long { length routes.new
        ≡ plan.entry.machine.now.width * plan.entry.machine.now.height }
    ensures told { TellsRoutes plan.entry.machine.now plan.entry.net.now.tree.edges [] routes.old
        → TellsRoutes plan.entry.machine.now plan.entry.net.now.tree.edges
        plan.entry.net.now.targets routes.new }
    ensures clear_off { IsClearOff plan.entry.machine.now plan.entry.net.now routes.old
        → IsClearOff plan.entry.machine.now plan.entry.net.now routes.new }
{
    for target in plan.net.targets.as_slice() {
        let place = plan.machine.index(target.chip) as usize;
        routes[place] = routes[place].with(out_of(target.core));
    }
}
