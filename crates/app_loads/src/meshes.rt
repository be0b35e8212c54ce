// A mesh whose earlier deliveries are held apart.
ghost use Rattle.std.specs.Prelude.{◌≡◌, ◌≤◌, ◌++◌, [], IfOk, OnOk, OnErr, length, take};
ghost use Rattle.mesh_core.specs.State.{behind};
ghost use Rattle.mesh_core.specs.Serving.{queue_named};
ghost use Rattle.mesh_core.specs.Step.{after_event, answer};
ghost use Rattle.app_loads.specs.Grouping.{all_grouped};

use crate::deliveries::push_all;
use crate::groups::Groups;
use machine_desc::Machine;
use mesh_core::{Did, Mesh, Queue};
use spin_base::{Chip, Delivery, Event, Memory, Out, Seq};
use std::alloc::Global;
use std::marker::Model;

// A mesh, and the deliveries that came before those that the mesh has itself.
#[derive(Drop)]
pub struct KeptMesh {
    pub mesh: Mesh,
    pub earlier: Groups,
}

impl Model for KeptMesh {
    ghost use Rattle.mesh_core.specs.State.{State};

    ghost Value = { State };

    ghost use Rattle.app_loads.specs.Earlier.{with_earlier};
    ghost use Rattle.app_loads.specs.Grouping.{all_grouped};

    ghost view = { λ s. with_earlier (all_grouped s.earlier) s.mesh };
}

impl KeptMesh {
    // The mesh, of which no delivery is held apart.
    pub(crate) fn new(alloc: Global, mesh: Mesh) -> KeptMesh
        ensures { result ≡ mesh }
    {
        KeptMesh {
            mesh,
            earlier: Groups::new(alloc),
        }
    }

    // The machine.
    pub(crate) fn machine(&self) -> &Machine
        ensures { result.now ≡ self.now.setup.machine }
    {
        self.mesh.machine()
    }

    // The queue behind an output.
    pub(crate) fn behind(&self, chip: Chip, out: Out) -> Queue
        ensures { queue_named result ≡ behind self.now.setup chip out }
    {
        self.mesh.behind(chip, out)
    }

    // One event.
    #[tactic(auto, using(crate::proofs::Earlier::event_with, std::proofs::lemmas::Result::on_ok_weaker))]
    pub(crate) fn step(&mut self, e: Event) -> Result<Did, Memory>
        ensures answer { IfOk result (λ did. did ≡ answer self.old e) }
        ensures moves { OnOk result (self.new ≡ after_event self.old e) }
        ensures err { OnErr result (self.new ≡ self.old) }
    {
        self.mesh.step(e)
    }
}

// The mesh has its deliveries itself again. After a refusal, too, they are the same as before.
pub(crate) fn restore(alloc: Global, mesh: &mut Mesh, earlier: &mut Groups) -> Result<(), Memory>
    ensures all { all_grouped earlier.new ++ mesh.new.delivered
        ≡ all_grouped earlier.old ++ mesh.old.delivered }
    ensures mesh { mesh.new ≡ record mesh.old { delivered = mesh.new.delivered } }
    ensures none { OnOk result (earlier.new ≡ []) }
{
    let mut list = Seq::new(alloc);
    earlier.push_to(&mut list)?;
    push_all(&mut list, mesh.delivered())?;
    mesh.swap_delivered(list);
    *earlier = Groups::new(alloc);
    Ok(())
}

// Holds the deliveries of the mesh apart. After a refusal, too, they are the same as before.
pub(crate) fn keep(alloc: Global, mesh: &mut Mesh, earlier: &mut Groups) -> Result<(), Memory>
    ensures all { all_grouped earlier.new ++ mesh.new.delivered
        ≡ all_grouped earlier.old ++ mesh.old.delivered }
    ensures mesh { mesh.new ≡ record mesh.old { delivered = mesh.new.delivered } }
    ensures none { OnOk result (mesh.new.delivered ≡ []) }
{
    let list = mesh.swap_delivered(Seq::new(alloc));
    let kept = keep_each(alloc, earlier, list.as_slice());
    if kept == list.len() {
        return Ok(());
    }
    // Those that are not kept stay with the mesh.
    let mut items = list.into_vec();
    let left = items.len() - kept;
    items.copy_within(kept.., 0);
    items.truncate(left);
    mesh.swap_delivered(Seq::from_vec(items));
    Err(Memory)
}

// Puts deliveries at the back, as many as memory allows, and answers how many.
fn keep_each(alloc: Global, earlier: &mut Groups, list: &[Delivery]) -> usize
    ensures within { result ≤ length list.now }
    ensures kept { all_grouped earlier.new ≡ all_grouped earlier.old ++ take result list.now }
{
    for (at, delivery) in list.iter().enumerate() {
        if earlier.push(alloc, *delivery).is_err() {
            return at;
        }
    }
    list.len()
}
