// The mesh: its lists, and what can be asked of them.
ghost use Rattle.std.specs.Prelude.{◌≡◌, ◌≢◌, ◌+◌, ◌*◌, ◌<◌, ◌≤◌, ◌++◌, [], ◌∷◌, Some, None, All, AllPairs, length, slice_get, slice_set, slice_index_or, replicate, IfOk, OnOk, OnErr};
ghost use Rattle.std.specs.Option.{option_copied};

use crate::hands::Hand;
use crate::parts::{EmptyLists, MeshParts};
use crate::queues::drop_front;
use crate::setups::{MeshSetup, every_setup_has_sites, queue_place};
use machine_desc::Machine;
use spin_base::{Chip, Delivery, DumpRec, Fifo, McCopy, Memory, Port, Seq, Spot};
use std::alloc::Global;
use std::marker::Model;

/// Routers, queues and vertices of every chip of a machine.
///
/// Every vertex has its unsent copies and the queue of its core or device. Every chip has seven input queues, one for
/// each link and one for its own cores, a router with at most one copy in hand, and a table. Deliveries and dump records
/// are kept in order. Each query takes constant time and no memory.
#[derive(Drop)]
pub struct Mesh {
    pub(crate) setup: MeshSetup,
    pub(crate) unsent: Vec<Fifo<McCopy>>,
    // The input queue of port number k of chip index i, at place 7 * i + k.
    pub(crate) inputs: Vec<Fifo<McCopy>>,
    pub(crate) hands: Vec<Option<Hand>>,
    pub(crate) cores: Vec<Fifo<McCopy>>,
    pub(crate) delivered: Seq<Delivery>,
    pub(crate) dumped: Fifo<DumpRec>,
}

impl Model for Mesh {
    ghost use Rattle.mesh_core.specs.State.{State};

    ghost Value = { State };

    ghost use Rattle.mesh_core.specs.Whole.{state_of, IsWholeMesh};

    ghost view = { state_of };

    ghost invariant = { IsWholeMesh };
}

impl Mesh {
    ghost use Rattle.machine_desc.specs.Live.{index_of, IsInside, IsSite};
    ghost use Rattle.mesh_core.specs.State.{queue_at, IsMesh};
    ghost use Rattle.mesh_core.specs.Opened.{empty_mesh};
    ghost use Rattle.mesh_core.specs.Step.{push_at};
    ghost use Rattle.mesh_core.specs.Queues.{drop_front};

    /// A mesh without a copy.
    #[tactic(auto, using(crate::proofs::Named::made_meshes))]
    pub fn new(alloc: Global, setup: MeshSetup) -> Result<Mesh, Memory>
        requires { length setup.tables ≡ setup.machine.width * setup.machine.height }
        ensures { IfOk result (λ mesh. mesh ≡ empty_mesh setup) }
    {
        every_setup_has_sites(&setup);
        let lists = EmptyLists::new(alloc, &setup)?;
        Ok(Mesh {
            setup,
            unsent: lists.unsent,
            inputs: lists.inputs,
            hands: lists.hands,
            cores: lists.cores,
            delivered: Seq::new(alloc),
            dumped: Fifo::new(alloc),
        })
    }

    /// The mesh in its parts. It takes no memory and constant time.
    pub fn take_apart(self) -> MeshParts
        ensures parts { result ≡ self }
        ensures mesh { IsMesh self }
    {
        let Mesh {
            setup,
            unsent,
            inputs,
            hands,
            cores,
            delivered,
            dumped,
        } = self;
        MeshParts {
            setup,
            unsent,
            inputs,
            hands,
            cores,
            delivered,
            dumped,
        }
    }

    /// The mesh of these parts. It takes no memory and constant time.
    pub fn put_together(parts: MeshParts) -> Mesh
        requires { IsMesh parts }
        ensures { result ≡ parts }
    {
        let MeshParts {
            setup,
            unsent,
            inputs,
            hands,
            cores,
            delivered,
            dumped,
        } = parts;
        Mesh {
            setup,
            unsent,
            inputs,
            hands,
            cores,
            delivered,
            dumped,
        }
    }

    /// The machine.
    pub fn machine(&self) -> &Machine
        ensures { result.now ≡ self.now.setup.machine }
    {
        self.setup.machine()
    }

    /// The spot of each vertex.
    pub fn spots(&self) -> &[Spot]
        ensures { result.now ≡ self.now.setup.spots }
    {
        self.setup.spots()
    }

    /// Puts a copy that has passed no router at the end of those that vertex `vertex` has not sent yet, if there is such a
    /// vertex. After a refusal the mesh is as before.
    pub fn add(&mut self, vertex: u32, copy: McCopy) -> Result<(), Memory>
        requires { copy.hop ≡ 0 }
        ensures ok { OnOk result (self.new
            ≡ record self.old {
              unsent = push_at self.old.unsent vertex copy
                  (slice_get self.old.unsent vertex);
            }) }
        ensures err { OnErr result (self.new ≡ self.old) }
    {
        let place = vertex as usize;
        if place < self.unsent.len() {
            self.unsent[place].push(copy)
        } else {
            Ok(())
        }
    }

    /// Takes away the first copy that vertex `vertex` has not sent yet, if there is one. It takes constant time and no memory.
    pub fn drop_unsent(&mut self, vertex: u32)
        ensures { self.new
            ≡ record self.old {
              unsent = drop_front self.old.unsent vertex (slice_get self.old.unsent vertex);
            } }
    {
        drop_front(&mut self.unsent, vertex as usize);
    }

    /// Takes another list of deliveries, and hands back the one that it had. It takes constant time and no memory.
    pub fn swap_delivered(&mut self, delivered: Seq<Delivery>) -> Seq<Delivery>
        ensures delivered { result ≡ self.old.delivered }
        ensures mesh { self.new ≡ record self.old { delivered = delivered } }
    {
        std::mem::replace(&mut self.delivered, delivered)
    }

    /// The copies that vertex `v` has not sent yet, in order.
    pub fn unsent(&self, v: u32) -> &[McCopy]
        requires { v < length self.now.setup.spots }
        ensures { slice_get self.now.unsent v ≡ Some result.now }
    {
        self.unsent[v as usize].as_slice()
    }

    /// The queue of vertex `v`'s core, front first.
    pub fn core_queue(&self, v: u32) -> &[McCopy]
        requires { v < length self.now.setup.spots }
        ensures { slice_get self.now.cores v ≡ Some result.now }
    {
        self.cores[v as usize].as_slice()
    }

    /// The input queue of a port, front first.
    pub fn queue(&self, c: Chip, port: Port) -> &[McCopy]
        requires { IsInside self.now.setup.machine c }
        ensures { slice_get self.now.inputs (queue_at self.now.setup.machine c port)
            ≡ Some result.now }
    {
        self.inputs[queue_place(self.setup.machine(), c, port)].as_slice()
    }

    /// What the chip's router holds, and `None` exactly where it holds nothing.
    pub fn hand(&self, c: Chip) -> Option<&Hand>
        requires { IsInside self.now.setup.machine c }
        ensures { slice_get self.now.hands (index_of self.now.setup.machine c)
            ≡ Some (option_copied result) }
    {
        self.hands[self.setup.machine().index(c) as usize].as_ref()
    }

    /// All deliveries so far, in order.
    pub fn delivered(&self) -> &[Delivery]
        ensures { result.now ≡ self.now.delivered }
    {
        self.delivered.as_slice()
    }

    /// All dump records so far, in order.
    pub fn dumped(&self) -> &[DumpRec]
        ensures { result.now ≡ self.now.dumped }
    {
        self.dumped.as_slice()
    }
}
