// Packets, one by one, from their sources to their targets.
ghost use Rattle.std.specs.Prelude.{◌≡◌, ◌≢◌, ℕ, List, [], ◌∷◌, ◌++◌, ◌<◌, ◌≤◌, Some, length, slice_get, slice_set, IfOk, OnOk};
ghost use Rattle.spin_base.specs.declared.copies.McCopy.{McCopy as Copy};
ghost use Rattle.spin_base.specs.declared.routes.Out.{Out as Output};
ghost use Rattle.std.specs.Option.{option_to_list};
ghost use Rattle.spin_base.specs.declared.copies.Event.TheVariants.{Collect, Inject};
ghost use Rattle.machine_desc.specs.Live.{index_of};
ghost use Rattle.mesh_core.specs.Step.{after_event};
ghost use Rattle.mesh_core.specs.Expected.{IsAtRest, NothingWaits};
ghost use Rattle.mesh_drain.specs.Draining.{CanSendFirst, DropsAtNoVertex, MaySend, MeetsSomeLedger, IsReachedDropless, IsReachedOnward, HasBrought, IsMoved, DropsNoneWhereRoomy, SendAlone};
ghost use Rattle.mesh_drain.specs.UnderWay.{work, outs_in, next_place, MaySendFrom, WaitsAlone, IsServing};

use crate::settling::settle;
use crate::waiting::Router;
use mesh_core::laws::a_roomy_mesh_drops_nothing;
use mesh_core::{Mesh, Queue};
use spin_base::{Chip, Event, Memory, Out, Outs, Port};
use std::alloc::Global;

/// Empties what waits, and then brings all packets to their targets, one after the other, until no event is enabled. No copy is
/// dropped where nothing waited before, nor where each queue has a place for every packet of which a copy is unsent or waits, nor ever
/// at an output that leads to a vertex. Besides what it moves it takes memory for a list of where the packet under way waits; and time
/// as chips and vertices for each link of the longest way that a copy still had to go which waited before.
///
/// # Errors
///
/// `Memory` where memory runs out. Each copy is then where some events brought it.
pub fn drain(alloc: Global, mesh: &mut Mesh) -> Result<(), Memory>
    requires { MeetsSomeLedger mesh.old }
    ensures at_rest { OnOk result (IsAtRest mesh.new) }
    ensures moved { IsMoved mesh.old mesh.new }
    ensures roomy { DropsNoneWhereRoomy mesh.old mesh.new }
    ensures links { DropsAtNoVertex mesh.old mesh.new }
{
    a_roomy_mesh_drops_nothing();
    settle(mesh)?;
    send_each(alloc, mesh)
}

/// The same where no copy waits, and no vertex but these has packets unsent. Besides what it moves it takes time as these vertices.
///
/// # Errors
///
/// `Memory` where memory runs out. Each copy is then where some events brought it.
pub fn drain_from(alloc: Global, mesh: &mut Mesh, vertices: &[usize]) -> Result<(), Memory>
    requires kept { MeetsSomeLedger mesh.old }
    requires alone { SendAlone vertices.now mesh.old }
    ensures at_rest { OnOk result (IsAtRest mesh.new) }
    ensures moved { IsMoved mesh.old mesh.new }
{
    let mut waiting = Vec::new(alloc);
    for vertex in vertices {
        send_all(mesh, &mut waiting, *vertex as u32)?;
    }
    Ok(())
}

/// A vertex sends its first packet, which is brought to its targets, and so would be any other with its key. It moves what it moves.
///
/// # Errors
///
/// `Memory` where memory runs out. Each copy is then where some events brought it.
pub fn send_first(alloc: Global, mesh: &mut Mesh, vertex: u32) -> Result<(), Memory>
    requires { CanSendFirst mesh.old vertex }
    ensures reached { IsReachedDropless mesh.old mesh.new }
    ensures quiet { OnOk result (NothingWaits mesh.new) }
    ensures unsent { OnOk result ((copy : Copy) (rest : List Copy)
        → slice_get mesh.old.unsent vertex ≡ Some (copy ∷ rest) →
        mesh.new.unsent ≡ slice_set mesh.old.unsent vertex rest) }
    ensures brought { OnOk result ((copy : Copy) (rest : List Copy)
        → slice_get mesh.old.unsent vertex ≡ Some (copy ∷ rest) →
        HasBrought mesh.old mesh.new vertex copy.key) }
{
    let mut waiting = Vec::new(alloc);
    send_packet(mesh, &mut waiting, vertex)
}

// All vertices send all their packets, one after the other.
fn send_each(alloc: Global, mesh: &mut Mesh) -> Result<(), Memory>
    requires { MaySend mesh.old }
    ensures at_rest { OnOk result (IsAtRest mesh.new) }
    ensures reached { IsReachedDropless mesh.old mesh.new }
{
    let mut waiting = Vec::new(alloc);
    let count = mesh.spots().len();
    for vertex in 0..count {
        send_all(mesh, &mut waiting, vertex as u32)?;
    }
    Ok(())
}

/// A port at which the packet under way waits.
#[derive(Clone, Copy)]
pub struct Waiting {
    pub chip: Chip,
    pub port: Port,
}

// A vertex sends all its packets, and each is brought to its targets before the next.
fn send_all(mesh: &mut Mesh, waiting: &mut Vec<Waiting>, vertex: u32) -> Result<(), Memory>
    requires { MaySendFrom mesh.old waiting.old.items vertex }
    ensures reached { IsReachedDropless mesh.old mesh.new }
    ensures quiet { OnOk result (NothingWaits mesh.new) }
    ensures none { OnOk result (waiting.new.items ≡ []) }
    ensures unsent { OnOk result (mesh.new.unsent ≡ slice_set mesh.old.unsent vertex []) }
{
    'packets: while !mesh.unsent(vertex).is_empty() {
        send_packet(mesh, waiting, vertex)?;
    }
    Ok(())
}

// A vertex sends its first packet, and the packet is brought to its targets.
fn send_packet(mesh: &mut Mesh, waiting: &mut Vec<Waiting>, vertex: u32) -> Result<(), Memory>
    requires can { MaySendFrom mesh.old waiting.old.items vertex }
    requires some { slice_get mesh.old.unsent vertex ≢ Some [] }
    ensures reached { IsReachedDropless mesh.old mesh.new }
    ensures onward { OnOk result (IsReachedOnward (after_event mesh.old (Inject vertex)) mesh.new) }
    ensures quiet { OnOk result (NothingWaits mesh.new) }
    ensures none { OnOk result (waiting.new.items ≡ []) }
    ensures unsent { OnOk result ((copy : Copy) (rest : List Copy)
        → slice_get mesh.old.unsent vertex ≡ Some (copy ∷ rest) →
        mesh.new.unsent ≡ slice_set mesh.old.unsent vertex rest) }
{
    let chip = mesh.spots()[vertex as usize].chip;
    mesh.step(Event::Inject(vertex))?;
    let first = Waiting {
        chip,
        port: Port::Local,
    };
    waiting.push(first)?;
    while let Some(next) = waiting.pop() {
        go_on(mesh, waiting, next)?;
    }
    Ok(())
}

// A packet that waits at a port goes on from there to the next routers, or to the vertices of the chip.
fn go_on(mesh: &mut Mesh, waiting: &mut Vec<Waiting>, at: Waiting) -> Result<(), Memory>
    requires { WaitsAlone mesh.old (waiting.old.items ++ at ∷ []) }
    ensures reached { IsReachedOnward mesh.old mesh.new }
    ensures under_way { OnOk result (WaitsAlone mesh.new waiting.new.items) }
    ensures less { OnOk result (work mesh.new waiting.new.items ≤ work mesh.old waiting.old.items) }
{
    mesh.step(Event::Take(at.chip, at.port))?;
    let chip = at.chip;
    let outs = held_outs(Router { mesh, chip })?;
    for out in outs.as_slice() {
        serve(mesh, waiting, at.chip, *out)?;
    }
    Ok(())
}

// The outputs that a router still has to serve.
fn held_outs(router: Router) -> Result<Outs, Memory>
    ensures { IfOk result (λ outs. outs.items
        ≡ outs_in (slice_get router.entry.mesh.now.hands
        (index_of router.entry.mesh.now.setup.machine router.entry.chip))) }
{
    match router.mesh.hand(router.chip) {
        Some(hand) => Ok(hand.outs.clone()?),
        None => Ok(Outs::new()),
    }
}

// A router sends the packet by the first output of its hand: to the port at the far end of a live link, or to a vertex, which
// takes it.
fn serve(mesh: &mut Mesh, waiting: &mut Vec<Waiting>, chip: Chip, out: Out) -> Result<(), Memory>
    requires { (rest : List Output) × IsServing mesh.old waiting.old.items chip (out ∷ rest) }
    ensures reached { IsReachedOnward mesh.old mesh.new }
    ensures served { OnOk result ((rest : List Output) →
        IsServing mesh.old waiting.old.items chip (out ∷ rest)
        → IsServing mesh.new waiting.new.items chip rest
        × (work mesh.new waiting.new.items ≤ work mesh.old waiting.old.items)) }
{
    mesh.step(Event::Send(chip, out))?;
    match mesh.behind(chip, out) {
        Queue::Input(_) => wait_beyond(Router { mesh, chip }, waiting, out),
        Queue::Core(vertex) => collect(mesh, vertex as u32),
        Queue::Nowhere => Ok(()),
    }
}

// The vertex takes the packet.
pub(crate) fn collect(mesh: &mut Mesh, vertex: u32) -> Result<(), Memory>
    ensures taken { OnOk result (mesh.new ≡ after_event mesh.old (Collect vertex)) }
    ensures reached { IsReachedOnward mesh.old mesh.new }
{
    mesh.step(Event::Collect(vertex))?;
    Ok(())
}

// The packet waits at the far end of a link.
fn wait_beyond(router: Router, waiting: &mut Vec<Waiting>, out: Out) -> Result<(), Memory>
    ensures { OnOk result (waiting.new.items ≡ waiting.old.items
        ++ option_to_list (next_place router.entry.mesh.now.setup.machine router.entry.chip out)) }
{
    if let Some(next) = next_place(router, out) {
        waiting.push(next)?;
    }
    Ok(())
}

// Where the packet waits that left a chip by a live link.
fn next_place(router: Router, out: Out) -> Option<Waiting>
    ensures { result ≡ next_place router.entry.mesh.now.setup.machine router.entry.chip out }
{
    let Out::Link(link) = out else {
        return None;
    };
    let far = router.mesh.machine().far(router.chip, link)?;
    Some(Waiting {
        chip: far,
        port: Port::Link(link.opposite()),
    })
}
