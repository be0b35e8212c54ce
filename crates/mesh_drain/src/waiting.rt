// Where a copy waits.
ghost use Rattle.std.specs.Prelude.{◌≡◌, ℕ, ◌*◌, All, [], None, Some, IfSome, IfNone, true, false};
ghost use Rattle.spin_base.specs.declared.chips.Port.{Port as APort};
ghost use Rattle.machine_desc.specs.Live.{IsInside};
ghost use Rattle.mesh_core.specs.Expected.{NothingWaits};
ghost use Rattle.mesh_drain.specs.Waiting.{port_copies, HasCopies, HasNoHandOn, IsWaiting};

use mesh_core::Mesh;
use mesh_core::laws::every_mesh_is_one;
use spin_base::{Chip, Dir, Out, Port};

/// Where a copy waits: in the queue of a vertex's core, in a router's hand for an output, or at a port of a router whose hand is
/// free.
#[derive(Clone, Copy)]
pub enum Waits {
    InCore(u32),
    InHand(Chip, Out),
    AtPort(Chip, Port),
}

// A chip of a mesh's machine, live or not.
#[derive(Clone, Copy)]
pub struct Router<'a> {
    pub mesh: &'a Mesh,
    pub chip: Chip,
    pub ghost inside: { IsInside mesh.now.setup.machine chip },
}

// Where a copy waits, if one does.
pub(crate) fn waiting(mesh: &Mesh) -> Option<Waits>
    ensures some { IfSome result (IsWaiting mesh.now) }
    ensures none { IfNone result (NothingWaits mesh.now) }
{
    if let Some(vertex) = full_core(mesh) {
        return Some(Waits::InCore(vertex));
    }
    if let Some((chip, out)) = full_hand(mesh) {
        return Some(Waits::InHand(chip, out));
    }
    let (chip, port) = full_port(mesh)?;
    Some(Waits::AtPort(chip, port))
}

// Where a copy waits in the hand or at a port of the chip's router, if one does. None waits on a chip that isn't live.
pub(crate) fn waiting_on(mesh: &Mesh, chip: Chip) -> Option<Waits>
    ensures { IfSome result (IsWaiting mesh.now) }
{
    if !mesh.machine().live(chip) {
        return None;
    }
    let router = Router { mesh, chip };
    if let Some(out) = next_output(router) {
        return Some(Waits::InHand(chip, out));
    }
    let port = full_port_of(router)?;
    Some(Waits::AtPort(chip, port))
}

// A vertex for which a copy waits, if there is one.
fn full_core(mesh: &Mesh) -> Option<u32>
    ensures some { IfSome result (λ v. IsWaiting mesh.now (Waits.InCore v)) }
    ensures none { IfNone result (All (λ q. q ≡ []) mesh.now.cores) }
{
    every_mesh_is_one(mesh);
    let vertices = mesh.spots().len();
    for vertex in 0..vertices {
        if !mesh.core_queue(vertex as u32).is_empty() {
            return Some(vertex as u32);
        }
    }
    None
}

// A chip with a copy in its router's hand, and the first output by which it still has to leave, if there is one.
fn full_hand(mesh: &Mesh) -> Option<(Chip, Out)>
    ensures some { IfSome result (λ p. IsWaiting mesh.now (Waits.InHand p.0 p.1)) }
    ensures none { IfNone result (All (λ h. h ≡ None) mesh.now.hands) }
{
    every_mesh_is_one(mesh);
    let machine = mesh.machine();
    for index in 0..machine.chips() {
        let chip = machine.chip_at(index as u32);
        if let Some(out) = next_output(Router { mesh, chip }) {
            return Some((chip, out));
        }
    }
    None
}

// The first output by which the copy in a router's hand still has to leave, if there is one.
fn next_output(router: Router) -> Option<Out>
    ensures some { IfSome result (λ out. IsWaiting router.entry.mesh.now
        (Waits.InHand router.entry.chip out)) }
    ensures none { IfNone result (HasNoHandOn router.entry.mesh.now router.entry.chip) }
{
    every_mesh_is_one(router.mesh);
    router
        .mesh
        .hand(router.chip)?
        .outs
        .as_slice()
        .first()
        .copied()
}

// A chip and a port of it at which a copy waits, if there is one. Where all hands are free it can be moved.
fn full_port(mesh: &Mesh) -> Option<(Chip, Port)>
    ensures some { All (λ h. h ≡ None) mesh.now.hands
        → IfSome result (λ p. IsWaiting mesh.now (Waits.AtPort p.0 p.1)) }
    ensures none { IfNone result (All (λ q. q ≡ []) mesh.now.inputs) }
{
    every_mesh_is_one(mesh);
    let machine = mesh.machine();
    for index in 0..machine.chips() {
        let chip = machine.chip_at(index as u32);
        if let Some(port) = full_port_of(Router { mesh, chip }) {
            return Some((chip, port));
        }
    }
    None
}

// A port of the chip at which a copy waits, if there is one.
fn full_port_of(router: Router) -> Option<Port>
    ensures some { IfSome result (λ port. HasCopies (port_copies router.entry.mesh.now
        router.entry.chip port)) }
    ensures none { IfNone result ((port : APort)
        → port_copies router.entry.mesh.now router.entry.chip port ≡ Some []) }
{
    if waits_at(router, Port::Local) {
        return Some(Port::Local);
    }
    for number in 0..6 {
        let port = Port::Link(Dir::ALL[number]);
        if waits_at(router, port) {
            return Some(port);
        }
    }
    None
}

// Whether a copy waits at a port.
fn waits_at(router: Router, port: Port) -> bool
    ensures waits { result ≡ true
        → HasCopies (port_copies router.entry.mesh.now router.entry.chip port) }
    ensures clear { result ≡ false
        → port_copies router.entry.mesh.now router.entry.chip port ≡ Some [] }
{
    !router.mesh.queue(router.chip, port).is_empty()
}
