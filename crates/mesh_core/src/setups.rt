// What a mesh never changes.
ghost use Rattle.std.specs.Prelude.{◌≡◌, ◌≢◌, ◌*◌, ◌<◌, ◌≤◌, All, AllPairs, IfOk, length};
ghost use Rattle.machine_desc.specs.Live.{IsInside as IsInsideGrid, IsSite as IsSiteOf};
ghost use Rattle.mesh_core.specs.State.{queue_at as place_of_queue};

use crate::queues::Queue;
use crate::tables::{spot_place, vertex_table};
use machine_desc::Machine;
use spin_base::{CORES, Chip, Dir, Memory, Out, Port, Seq, Shared, Spot};
use std::alloc::Global;
use std::marker::Model;
use tcam_find::Tcam;

/// What a mesh never changes: its machine, the spots of its vertices, the tables of its routers, by chip index, and how
/// many copies a queue holds at most. Each query takes constant time and no memory.
#[derive(Drop)]
pub struct MeshSetup {
    machine: Machine,
    spots: Seq<Spot>,
    tables: Seq<Tcam>,
    capacity: u32,
    // The vertex on each spot, at the spot's place.
    vertices: Vec<Option<u32>>,
}

impl Shared for MeshSetup {}

impl Model for MeshSetup {
    ghost use Rattle.mesh_core.specs.State.{Setup};

    ghost Value = { Setup };

    ghost use Rattle.mesh_core.specs.Tabled.{setup_seen, IsSetupTabled};

    ghost view = { setup_seen };

    ghost invariant = { IsSetupTabled };
}

impl MeshSetup {
    ghost use Rattle.spin_base.specs.declared.routes.Out.TheVariants.{Link};
    ghost use Rattle.machine_desc.specs.Live.{IsSite};
    ghost use Rattle.machine_desc.specs.NetsOn.{vertex_at};
    ghost use Rattle.mesh_core.specs.State.{behind, core_queue_of};
    ghost use Rattle.mesh_core.specs.Serving.{queue_named, IsPlace};

    /// The setup of vertices on these spots of a machine, with one table for each chip index, and queues of at most
    /// `capacity` copies.
    pub fn new(
        alloc: Global,
        machine: Machine,
        spots: Seq<Spot>,
        tables: Seq<Tcam>,
        capacity: u32,
    ) -> Result<MeshSetup, Memory>
        requires different { AllPairs (λ a b. a ≢ b) spots }
        requires sites { All (IsSite machine) spots }
        requires room { 1 ≤ capacity }
        ensures { IfOk result (λ u. u
            ≡ record { machine = machine; spots = spots; tables = tables; capacity = capacity }) }
    {
        let vertices = vertex_table(alloc, &machine, spots.as_slice())?;
        Ok(MeshSetup {
            machine,
            spots,
            tables,
            capacity,
            vertices,
        })
    }

    /// The machine.
    pub fn machine(&self) -> &Machine
        ensures { result.now ≡ self.now.machine }
    {
        &self.machine
    }

    /// The spot of each vertex.
    pub fn spots(&self) -> &[Spot]
        ensures { result.now ≡ self.now.spots }
    {
        self.spots.as_slice()
    }

    /// The router's table of each chip index.
    pub fn tables(&self) -> &[Tcam]
        ensures { result.now ≡ self.now.tables }
    {
        self.tables.as_slice()
    }

    /// How many copies a queue holds at most.
    pub fn capacity(&self) -> u32
        ensures { result ≡ self.now.capacity }
    {
        self.capacity
    }

    /// Takes other tables, and hands back those that it had.
    pub fn swap_tables(&mut self, tables: Seq<Tcam>) -> Seq<Tcam>
        ensures tables { result ≡ self.old.tables }
        ensures setup { self.new ≡ record self.old { tables = tables } }
    {
        std::mem::replace(&mut self.tables, tables)
    }

    /// The vertex on a spot, if there is one: on a core of 0 to 17 of a chip, or on its link at 18 and the link's number.
    #[tactic(auto, using(crate::proofs::Named::told_vertices))]
    pub fn vertex_at(&self, spot: Spot) -> Option<usize>
        ensures { result ≡ vertex_at self.now.spots spot }
    {
        let place = spot_place(&self.machine, spot)?;
        match self.vertices[place] {
            Some(vertex) => Some(vertex as usize),
            None => None,
        }
    }

    /// The queue behind an output. There is none behind an output of a chip that isn't live.
    pub fn behind(&self, c: Chip, out: Out) -> Queue
        ensures queue { queue_named result ≡ behind self.now c out }
        ensures place { IsPlace (7 * (self.now.machine.width * self.now.machine.height))
            (length self.now.spots) result }
    {
        match out {
            Out::Link(link) => self.behind_link(c, link),
            Out::Core(core) => {
                if core < CORES {
                    self.queue_on(Spot { chip: c, core })
                } else {
                    Queue::Nowhere
                }
            }
        }
    }

    // The queue behind a link: at its far end where it is live, else that of the device on it.
    fn behind_link(&self, c: Chip, link: Dir) -> Queue
        ensures queue { queue_named result ≡ behind self.now c (Link link) }
        ensures place { IsPlace (7 * (self.now.machine.width * self.now.machine.height))
            (length self.now.spots) result }
    {
        if !self.machine.link_live(c, link) {
            return self.queue_on(Spot {
                chip: c,
                core: CORES + link.number(),
            });
        }
        match self.machine.far(c, link) {
            None => Queue::Nowhere,
            Some(e) => Queue::Input(queue_place(&self.machine, e, Port::Link(link.opposite()))),
        }
    }

    // The queue of the vertex on a spot.
    fn queue_on(&self, spot: Spot) -> Queue
        ensures queue { queue_named result ≡ core_queue_of (vertex_at self.now.spots spot) }
        ensures place { IsPlace (7 * (self.now.machine.width * self.now.machine.height))
            (length self.now.spots) result }
    {
        match self.vertex_at(spot) {
            None => Queue::Nowhere,
            Some(vertex) => Queue::Core(vertex),
        }
    }
}

/// The vertices of every setup are on different sites, and its queues have room for at least one copy.
pub fn every_setup_has_sites(setup: &MeshSetup)
    ensures different { AllPairs (λ a b. a ≢ b) setup.now.spots }
    ensures sites { All (IsSiteOf setup.now.machine) setup.now.spots }
    ensures room { 1 ≤ setup.now.capacity }
{
    let _ = &setup.machine; // Opens the setup.
}

// The place of an input queue in the list of them.
pub(crate) fn queue_place(machine: &Machine, c: Chip, port: Port) -> usize
    requires { IsInsideGrid machine.now c }
    ensures place { result ≡ place_of_queue machine.now c port }
    ensures below { result < 7 * (machine.now.width * machine.now.height) }
{
    (Port::COUNT * machine.index(c)) as usize + usize::from(port.number())
}
