// What actors stand on, made once for a run: who is behind each output, and which vertices are on each chip.
ghost use Rattle.std.specs.Prelude.{◌≡◌, ℕ, ◌+◌, ◌*◌, ◌<◌, ◌≤◌, ◌++◌, IfOk, OnOk, length};
ghost use Rattle.spin_base.specs.declared.routes.Out.{Out as AnOut};
ghost use Rattle.spin_base.specs.Outputs.{IsOutput, out_number};
ghost use Rattle.machine_desc.specs.Live.{chip_of, is_live_chip};
ghost use Rattle.machine_desc.specs.NetsOn.{vertex_at};
ghost use Rattle.mesh_core.specs.State.{Setup};
ghost use Rattle.mesh_run.specs.Floors.{AddsBehind, IsFloorOf, IsFloorSoFar, grid_size, live_if, place_of_slot, vertices_by};
ghost use Rattle.mesh_run.specs.Played.{place_behind, IsLiveIndex};

use chip_node::{Behind, CoreBank};
use mesh_core::laws::every_setup_has_sites;
use mesh_core::{MeshSetup, Queue};
use spin_base::{Chip, Dir, Memory, Out, Port, Shared, Spot};
use std::alloc::Global;

/// How many outputs a chip has, and how many vertices at most: one on each core, and one device on each link.
pub(crate) const OUT_COUNT: usize = 24;

/// For each chip index: whether the chip is live, the queue behind each of its outputs, and the bank of its vertices.
#[derive(Drop)]
pub(crate) struct Floor {
    pub chips: Vec<Option<Chip>>,
    pub behind: Vec<Option<Behind>>,
    pub banks: Vec<CoreBank>,
}

impl Shared for Floor {}

impl Floor {
    /// The floor of a mesh.
    #[tactic(auto, using(crate::proofs::FloorLaws::floor_none, crate::proofs::FloorLaws::floor_all))]
    pub fn of(alloc: Global, setup: &MeshSetup) -> Result<Floor, Memory>
        ensures { length setup.now.tables ≡ grid_size setup.now → IfOk result (IsFloorOf setup.now) }
    {
        let count = setup.machine().chips();
        let mut floor = Floor {
            chips: Vec::new(alloc),
            behind: Vec::new(alloc),
            banks: Vec::new(alloc),
        };
        floor.chips.reserve_exact(count)?;
        floor.behind.reserve_exact(OUT_COUNT * count)?;
        floor.banks.reserve_exact(count)?;
        for index in 0..count {
            floor.add(alloc, setup, index as u32)?;
        }
        Ok(floor)
    }

    // One chip more.
    fn add(&mut self, alloc: Global, setup: &MeshSetup, index: u32) -> Result<(), Memory>
        requires { index < grid_size setup.now }
        ensures { OnOk result (IsFloorSoFar setup.now index self.old
            → IsFloorSoFar setup.now (index + 1) self.new) }
    {
        every_setup_has_sites(setup);
        let chip = setup.machine().chip_at(index);
        let cores = Port::COUNT * setup.machine().chips() as u32;
        let vertices = vertices_on(alloc, setup, chip)?;
        push_behind(&mut self.behind, setup, chip)?;
        self.chips.push(live_chip(setup, chip))?;
        self.banks.push(CoreBank {
            index,
            cores,
            vertices,
        })?;
        Ok(())
    }

    /// The place of the queue behind an output of the chip of an index, by the output's bit number, where both are there.
    #[tactic(auto, using(crate::proofs::FloorLaws::behind_inside, crate::proofs::FloorLaws::read_behind))]
    pub fn place_behind(&self, index: usize, number: usize) -> Option<u32>
        ensures { (u : Setup) (out : AnOut) → IsFloorOf u self.now → IsLiveIndex u index → IsOutput out
            → out_number out ≡ number → result ≡ place_behind u (chip_of u.machine index) out }
    {
        let place = index.saturating_mul(OUT_COUNT).saturating_add(number);
        match self.behind.get(place) {
            Some(slot) => place_of(*slot),
            None => None,
        }
    }
}

// The place of a queue that is there.
fn place_of(slot: Option<Behind>) -> Option<u32>
    ensures { result ≡ place_of_slot slot }
{
    match slot {
        Some(behind) => Some(behind.place),
        None => None,
    }
}

// The chip, where it is live.
fn live_chip(setup: &MeshSetup, chip: Chip) -> Option<Chip>
    ensures { result ≡ live_if (is_live_chip setup.now.machine chip) chip }
{
    if setup.machine().live(chip) {
        Some(chip)
    } else {
        None
    }
}

// The vertices on a chip, core by core.
fn vertices_on(alloc: Global, setup: &MeshSetup, chip: Chip) -> Result<Vec<u32>, Memory>
    ensures { IfOk result (λ vertices. vertices.items ≡ vertices_by setup.now.spots chip) }
{
    let vertices = (0..OUT_COUNT as u8).filter_map(|core| number_at(setup, Spot { chip, core }));
    Ok(vertices.collect(alloc)?)
}

// The number of the vertex on a spot.
fn number_at(setup: &MeshSetup, spot: Spot) -> Option<u32>
    ensures { result ≡ vertex_at setup.now.spots spot }
{
    few_vertices(setup);
    match setup.vertex_at(spot) {
        Some(vertex) => Some(vertex as u32),
        None => None,
    }
}

// No two vertices are on one site, so there are few, and there are few chips.
fn few_vertices(setup: &MeshSetup)
    ensures vertices { length setup.now.spots ≤ 98304 }
    ensures chips { grid_size setup.now ≤ 4096 }
{
    every_setup_has_sites(setup);
    let _ = setup.machine().chips();
}

// The queues behind all outputs of a chip, at the end of a list.
#[tactic(auto, using(crate::proofs::FloorLaws::behind_none, crate::proofs::FloorLaws::behind_more))]
fn push_behind(list: &mut Vec<Option<Behind>>, setup: &MeshSetup, chip: Chip) -> Result<(), Memory>
    ensures { OnOk result (AddsBehind setup.now chip 24 list.old.items list.new.items) }
{
    for number in 0..OUT_COUNT as u8 {
        list.push(behind_of(setup, chip, out_at(number)))?;
    }
    Ok(())
}

// The output of a bit number.
fn out_at(number: u8) -> Out
    ensures output { number < 24 → IsOutput result }
    ensures number { out_number result ≡ number }
{
    match Dir::from_number(number) {
        Some(link) => Out::Link(link),
        None => Out::Core(number - 6),
    }
}

// The queue behind an output, with who takes from it.
#[tactic(auto, using(mesh_core::proofs::VertexTableLaws::site_inside))]
fn behind_of(setup: &MeshSetup, chip: Chip, out: Out) -> Option<Behind>
    ensures { place_of_slot result ≡ place_behind setup.now chip out }
{
    few_vertices(setup);
    every_setup_has_sites(setup);
    match setup.behind(chip, out) {
        Queue::Nowhere => None,
        Queue::Input(place) => Some(Behind {
            place: place as u32,
            taker: 2 * (place as u32 / Port::COUNT),
        }),
        Queue::Core(vertex) => {
            let home = setup.machine().index(setup.spots()[vertex].chip);
            Some(Behind {
                place: Port::COUNT * setup.machine().chips() as u32 + vertex as u32,
                taker: 2 * home + 1,
            })
        }
    }
}
