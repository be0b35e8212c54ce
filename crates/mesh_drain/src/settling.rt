// What waits in a mesh, moved until nothing waits.
ghost use Rattle.std.specs.Prelude.{◌≡◌, ◌<◌, true, OnOk, is_some, slice_set, []};
ghost use Rattle.mesh_core.specs.Expected.{NothingWaits};
ghost use Rattle.mesh_core.specs.State.{behind};
ghost use Rattle.mesh_core.specs.Step.{step_of};
ghost use Rattle.mesh_drain.specs.Draining.{AreCollected, DropsAtNoVertex, IsAfter, IsMoved, IsReachedDropless, IsSameBesidesCores, SendsNone, collected_from};
ghost use Rattle.mesh_drain.specs.UnderWay.{weight_in};
ghost use Rattle.mesh_drain.specs.Waiting.{IsWaiting};

use crate::draining::collect;
use crate::waiting::{Waits, waiting, waiting_on};
use mesh_core::laws::every_mesh_is_one;
use mesh_core::{Did, Mesh, Queue};
use spin_base::{Chip, Event, Memory, Out};

// Moves what waits, until nothing waits. First each vertex takes what waits for it; from then on it takes each copy at once that a
// router sends to it. So no copy is dropped at an output that leads to a vertex. Each sweep takes every copy that waited before it
// over one link or more, so there are no more sweeps than a branch has chips.
pub(crate) fn settle(mesh: &mut Mesh) -> Result<(), Memory>
    ensures quiet { OnOk result (NothingWaits mesh.new) }
    ensures moved { IsMoved mesh.old mesh.new }
    ensures links { DropsAtNoVertex mesh.old mesh.new }
{
    empty_cores(mesh)?;
    'sweeps: while let Some(at) = waiting(mesh) {
        every_mesh_is_one(mesh);
        move_on(mesh, at)?;
        sweep(mesh)?;
    }
    Ok(())
}

// Each vertex takes all that waits for it.
fn empty_cores(mesh: &mut Mesh) -> Result<(), Memory>
    ensures reached { IsReachedDropless mesh.old mesh.new }
    ensures others { IsSameBesidesCores mesh.old mesh.new }
    ensures collected { OnOk result (AreCollected mesh.new) }
{
    every_mesh_is_one(mesh);
    let vertices = mesh.spots().len();
    for vertex in 0..vertices {
        empty_core(mesh, vertex as u32)?;
    }
    Ok(())
}

// A vertex takes all that waits for it.
fn empty_core(mesh: &mut Mesh, vertex: u32) -> Result<(), Memory>
    ensures reached { IsReachedDropless mesh.old mesh.new }
    ensures others { IsSameBesidesCores mesh.old mesh.new }
    ensures emptied { OnOk result (mesh.new.cores ≡ slice_set mesh.old.cores vertex []) }
{
    every_mesh_is_one(mesh);
    'copies: while let Did::Moved = mesh.step(Event::Collect(vertex))? {}
    Ok(())
}

// Goes once over all chips: each chip's router moves on all that waits there.
fn sweep(mesh: &mut Mesh) -> Result<(), Memory>
    ensures after { IsAfter mesh.old mesh.new }
    ensures links { AreCollected mesh.old → DropsAtNoVertex mesh.old mesh.new }
    ensures collected { AreCollected mesh.old → OnOk result (AreCollected mesh.new) }
{
    let chips = mesh.machine().chips();
    for index in 0..chips {
        let chip = mesh.machine().chip_at(index as u32);
        empty_chip(mesh, chip)?;
    }
    Ok(())
}

// A chip's router moves on all that waits there.
fn empty_chip(mesh: &mut Mesh, chip: Chip) -> Result<(), Memory>
    ensures after { IsAfter mesh.old mesh.new }
    ensures links { AreCollected mesh.old → DropsAtNoVertex mesh.old mesh.new }
    ensures collected { AreCollected mesh.old → OnOk result (AreCollected mesh.new) }
{
    'events: while let Some(at) = waiting_on(mesh, chip) {
        move_on(mesh, at)?;
    }
    Ok(())
}

// Moves a copy that waits.
fn move_on(mesh: &mut Mesh, at: Waits) -> Result<(), Memory>
    ensures after { IsAfter mesh.old mesh.new }
    ensures lighter { IsWaiting mesh.old at
        → OnOk result (weight_in mesh.new < weight_in mesh.old) }
    ensures links { AreCollected mesh.old → DropsAtNoVertex mesh.old mesh.new }
    ensures collected { AreCollected mesh.old → OnOk result (AreCollected mesh.new) }
{
    every_mesh_is_one(mesh);
    match at {
        Waits::InCore(vertex) => take_event(mesh, Event::Collect(vertex)),
        Waits::InHand(chip, out) => serve(mesh, chip, out),
        Waits::AtPort(chip, port) => take_event(mesh, Event::Take(chip, port)),
    }
}

// Takes an event, which makes the mesh lighter where it is enabled.
fn take_event(mesh: &mut Mesh, e: Event) -> Result<(), Memory>
    ensures after { IsAfter mesh.old mesh.new }
    ensures lighter { is_some (step_of mesh.old e) ≡ true
        → OnOk result (weight_in mesh.new < weight_in mesh.old) }
    ensures links { SendsNone e → AreCollected mesh.old → DropsAtNoVertex mesh.old mesh.new }
    ensures collected { SendsNone e → AreCollected mesh.old → OnOk result (AreCollected mesh.new) }
{
    every_mesh_is_one(mesh);
    mesh.step(e)?;
    Ok(())
}

// The chip's router sends the copy in its hand by an output, or drops it there where the queue behind it is full: that is never a
// vertex's.
fn serve(mesh: &mut Mesh, chip: Chip, out: Out) -> Result<(), Memory>
    ensures after { IsAfter mesh.old mesh.new }
    ensures lighter { IsWaiting mesh.old (Waits.InHand chip out)
        → OnOk result (weight_in mesh.new < weight_in mesh.old) }
    ensures links { AreCollected mesh.old → DropsAtNoVertex mesh.old mesh.new }
    ensures collected { AreCollected mesh.old → OnOk result (AreCollected mesh.new) }
{
    every_mesh_is_one(mesh);
    match mesh.step(Event::Send(chip, out))? {
        Did::Moved => collect_behind(mesh, chip, out),
        Did::Idle => take_event(mesh, Event::Dump(chip, out)),
    }
}

// A vertex takes a copy at once that a router sent to it: so the queue of a core does not fill up.
fn collect_behind(mesh: &mut Mesh, chip: Chip, out: Out) -> Result<(), Memory>
    ensures reached { IsReachedDropless mesh.old mesh.new }
    ensures collected { OnOk result (mesh.new
        ≡ collected_from mesh.old (behind mesh.old.setup chip out)) }
{
    every_mesh_is_one(mesh);
    match mesh.behind(chip, out) {
        Queue::Core(vertex) => collect(mesh, vertex as u32),
        Queue::Input(_) | Queue::Nowhere => Ok(()),
    }
}
