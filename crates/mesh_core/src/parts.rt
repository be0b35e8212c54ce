// A mesh in its parts.
ghost use Rattle.std.specs.Prelude.{◌≡◌, ◌*◌, [], None, length, replicate, IfOk};
ghost use Rattle.machine_desc.specs.Description.{HasSize};

use crate::hands::{Hand, empty_hands};
use crate::queues::empty_queues;
use crate::setups::MeshSetup;
use spin_base::{Delivery, DumpRec, Fifo, McCopy, Memory, Port, Seq};
use std::alloc::Global;
use std::marker::Model;

/// A mesh in its parts: what it never changes, and lists. `unsent` and `cores` have an item for each vertex, `hands` one
/// for each chip index, and the input queue of port number k of chip index i is item 7 * i + k of `inputs`.
#[derive(Drop)]
pub struct MeshParts {
    pub setup: MeshSetup,
    pub unsent: Vec<Fifo<McCopy>>,
    pub inputs: Vec<Fifo<McCopy>>,
    pub hands: Vec<Option<Hand>>,
    pub cores: Vec<Fifo<McCopy>>,
    pub delivered: Seq<Delivery>,
    pub dumped: Fifo<DumpRec>,
}

impl Model for MeshParts {
    ghost use Rattle.mesh_core.specs.State.{State};

    ghost Value = { State };

    ghost use Rattle.mesh_core.specs.InParts.{state_in};

    ghost view = { state_in };
}

// The lists of a mesh without a copy.
#[derive(Drop)]
pub(crate) struct EmptyLists {
    pub(crate) unsent: Vec<Fifo<McCopy>>,
    pub(crate) inputs: Vec<Fifo<McCopy>>,
    pub(crate) hands: Vec<Option<Hand>>,
    pub(crate) cores: Vec<Fifo<McCopy>>,
}

impl EmptyLists {
    // They are made apart from the mesh, so that only they are to be let go where memory runs out.
    pub(crate) fn new(alloc: Global, setup: &MeshSetup) -> Result<EmptyLists, Memory>
        ensures size { HasSize setup.now.machine }
        ensures unsent { IfOk result (λ lists. lists.unsent.items
            ≡ replicate (length setup.now.spots) []) }
        ensures inputs { IfOk result (λ lists. lists.inputs.items
            ≡ replicate (7 * (setup.now.machine.width * setup.now.machine.height)) []) }
        ensures hands { IfOk result (λ lists. lists.hands.items
            ≡ replicate (setup.now.machine.width * setup.now.machine.height) None) }
        ensures cores { IfOk result (λ lists. lists.cores.items
            ≡ replicate (length setup.now.spots) []) }
    {
        let chips = setup.machine().chips();
        let vertices = setup.spots().len();
        let unsent = empty_queues(alloc, vertices)?;
        let inputs = empty_queues(alloc, Port::COUNT as usize * chips)?;
        let hands = empty_hands(alloc, chips)?;
        let cores = empty_queues(alloc, vertices)?;
        Ok(EmptyLists {
            unsent,
            inputs,
            hands,
            cores,
        })
    }
}
