// The copies that wait in a mesh.
ghost use Rattle.std.specs.Prelude.{◌≡◌, ◌++◌, OnOk, IfOk, Some};
ghost use Rattle.std.proofs.Props.{props};
ghost use Rattle.std.specs.Option.{option_copied};
ghost use Rattle.std.specs.List.{flat_map};
ghost use Rattle.spin_base.specs.Links.{port_number};
ghost use Rattle.machine_desc.specs.Live.{IsInside, grid_chips};
ghost use Rattle.spin_base.specs.Gathered.{gathered};
ghost use Rattle.run_report.specs.Orders.{IsSortedStably};
ghost use Rattle.run_report.specs.Keys.{wait_numbers};
ghost use Rattle.run_report.specs.RunReport.{waits_of, wait_key, waits_at, queue_waits, held_waits, chip_waits, core_waits};

use crate::planned::NumberedMesh;
use mesh_core::{Hand, Mesh, Place};
use spin_base::{Chip, McCopy, Memory, Port, Seq};
use std::alloc::Global;

// The waiting copies of a mesh, by packet and place.
pub(crate) fn waiting_of(alloc: Global, numbered: NumberedMesh) -> Result<Seq<(u32, Place)>, Memory>
    ensures { IfOk result
        (λ waiting. IsSortedStably wait_key (waits_of numbered.entry.mesh.now) waiting) }
{
    let mut waiting = Vec::new(alloc);
    put_chips(&mut waiting, numbered.mesh)?;
    put_cores(&mut waiting, numbered)?;
    sort_waits(&mut waiting)?;
    Ok(Seq::from_vec(waiting))
}

// Puts what waits on the chips at the end, chip by chip in the order of their indices.
fn put_chips(waiting: &mut Vec<(u32, Place)>, mesh: &Mesh) -> Result<(), Memory>
    ensures { OnOk result (waiting.new.items
        ≡ waiting.old.items ++ flat_map (chip_waits mesh.now) (grid_chips mesh.now.setup.machine)) }
{
    let machine = mesh.machine();
    for index in 0..machine.chips() as u32 {
        let here = MeshChip {
            mesh,
            chip: machine.chip_at(index),
        };
        put_chip(waiting, here)?;
    }
    Ok(())
}

// A chip of a mesh.
#[derive(Clone, Copy)]
struct MeshChip<'a> {
    mesh: &'a Mesh,
    chip: Chip,
    ghost inside: { IsInside mesh.now.setup.machine chip } by { Prim.hlevel props },
}

// Puts what waits on one chip at the end.
fn put_chip(waiting: &mut Vec<(u32, Place)>, here: MeshChip) -> Result<(), Memory>
    ensures { OnOk result (waiting.new.items
        ≡ waiting.old.items ++ chip_waits here.entry.mesh.now here.entry.chip) }
{
    put_queues(waiting, here, &Port::ALL)?;
    put_hand(waiting, here.chip, here.mesh.hand(here.chip))
}

// Puts the copies of a chip's input queues at the end, port by port.
#[tactic(auto, using(crate::proofs::Gathering::put_all, crate::proofs::Gathering::put_at))]
fn put_queues(waiting: &mut Vec<(u32, Place)>, here: MeshChip, ports: &[Port]) -> Result<(), Memory>
    ensures { OnOk result (waiting.new.items ≡ waiting.old.items
        ++ flat_map (queue_waits here.entry.mesh.now here.entry.chip) ports.now) }
{
    for port in ports {
        put_queue(waiting, here, *port)?;
    }
    Ok(())
}

// Puts the copies of one input queue at the end.
fn put_queue(waiting: &mut Vec<(u32, Place)>, here: MeshChip, port: Port) -> Result<(), Memory>
    ensures { OnOk result (waiting.new.items ≡ waiting.old.items
        ++ queue_waits here.entry.mesh.now here.entry.chip port) }
{
    let MeshChip { mesh, chip } = here;
    put_copies(waiting, Place::InQueue(chip, port), mesh.queue(chip, port))
}

// Puts what a router holds at the end: one item for each output.
fn put_hand(waiting: &mut Vec<(u32, Place)>, chip: Chip, hand: Option<&Hand>) -> Result<(), Memory>
    ensures { OnOk result (waiting.new.items
        ≡ waiting.old.items ++ held_waits chip (Some (option_copied hand.entry))) }
{
    if let Some(hand) = hand {
        put_outs(waiting, chip, hand)?;
    }
    Ok(())
}

fn put_outs(waiting: &mut Vec<(u32, Place)>, chip: Chip, hand: &Hand) -> Result<(), Memory>
    ensures { OnOk result (waiting.new.items
        ≡ waiting.old.items ++ held_waits chip (Some (Some hand.now))) }
{
    for out in hand.outs.as_slice() {
        waiting.push((hand.copy.packet, Place::Hand(chip, *out)))?;
    }
    Ok(())
}

// Puts the copies of a list, which all wait at one place, at the end.
#[tactic(auto, using(crate::proofs::Gathering::pushed_all, crate::proofs::Gathering::pushed_at))]
fn put_copies(
    waiting: &mut Vec<(u32, Place)>,
    place: Place,
    copies: &[McCopy],
) -> Result<(), Memory>
    ensures { OnOk result (waiting.new.items ≡ waiting.old.items ++ waits_at place copies.now) }
{
    for copy in copies {
        waiting.push((copy.packet, place))?;
    }
    Ok(())
}

// Puts the copies in the queues of the vertices at the end.
fn put_cores(waiting: &mut Vec<(u32, Place)>, numbered: NumberedMesh) -> Result<(), Memory>
    ensures { OnOk result (waiting.new.items ≡ waiting.old.items
        ++ gathered (core_waits numbered.entry.mesh.now) 0
        numbered.entry.mesh.now.setup.spots) }
{
    let mesh = numbered.mesh;
    for (vertex, spot) in mesh.spots().iter().enumerate() {
        put_copies(
            waiting,
            Place::CoreQueue(spot.chip, spot.core),
            mesh.core_queue(vertex as u32),
        )?;
    }
    Ok(())
}

// Sorts the copies by packet and place.
fn sort_waits(waiting: &mut Vec<(u32, Place)>) -> Result<(), Memory>
    ensures { OnOk result (IsSortedStably wait_key waiting.old.items waiting.new.items) }
{
    waiting.sort_by_key(|wait| numbers_of(wait))?;
    Ok(())
}

// The numbers by which waiting copies are ordered: packet, x, y, kind, and port, output or core.
fn numbers_of(wait: &(u32, Place)) -> (u32, u8, u8, u8, u16)
    ensures { result ≡ wait_numbers wait.now }
{
    match wait.1 {
        Place::InQueue(chip, port) => (wait.0, chip.x, chip.y, 0, u16::from(port.number())),
        Place::Hand(chip, out) => (wait.0, chip.x, chip.y, 1, out.number()),
        Place::CoreQueue(chip, core) => (wait.0, chip.x, chip.y, 2, u16::from(core)),
    }
}
