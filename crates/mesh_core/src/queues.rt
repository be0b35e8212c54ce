// Queues of copies by their place in a list of queues.
ghost use Rattle.std.specs.Prelude.{◌≡◌, [], ◌∷◌, slice_get, slice_set, replicate, OnOk, OnErr, IfOk};
ghost use Rattle.mesh_core.specs.Step.{has_room, push_at};
ghost use Rattle.mesh_core.specs.Queues.{front_of, drop_front};
ghost use Rattle.mesh_core.specs.Serving.{queue_named, inputs_after, cores_after};

use spin_base::{Fifo, McCopy, Memory};
use std::alloc::Global;

/// The queue behind an output, by its place among the input queues or by the vertex of its core.
#[derive(Clone, Copy)]
pub enum Queue {
    Input(usize),
    Core(usize),
    // A link that isn't live, or a core without a vertex.
    Nowhere,
}

// So many empty queues.
pub(crate) fn empty_queues(alloc: Global, count: usize) -> Result<Vec<Fifo<McCopy>>, Memory>
    ensures { IfOk result (λ v. v.items ≡ replicate count []) }
{
    let mut queues = Vec::with_capacity(alloc, count)?;
    for _ in 0..count {
        queues.push(Fifo::new(alloc))?;
    }
    Ok(queues)
}

// Whether there is such a queue, and it holds less than the capacity.
pub(crate) fn has_room(queues: &[Fifo<McCopy>], place: usize, capacity: u32) -> bool
    ensures { result ≡ has_room capacity (slice_get queues.now place) }
{
    match queues.get(place) {
        Some(queue) => queue.len() < capacity as usize,
        None => false,
    }
}

// The copy at the queue's front.
pub(crate) fn front(queues: &[Fifo<McCopy>], place: usize) -> Option<McCopy>
    ensures { result ≡ front_of (slice_get queues.now place) }
{
    queues.get(place)?.as_slice().first().copied()
}

// Puts a copy at the queue's back, if there is such a queue.
pub(crate) fn push_at(queues: &mut [Fifo<McCopy>], place: usize, copy: McCopy) -> Result<(), Memory>
    ensures ok { OnOk result (queues.new
        ≡ push_at queues.old place copy (slice_get queues.old place)) }
    ensures err { OnErr result (queues.new ≡ queues.old) }
{
    if place < queues.len() {
        queues[place].push(copy)
    } else {
        Ok(())
    }
}

// Takes the front copy off the queue, if there is one.
#[tactic(auto, using(crate::proofs::Named::popped_fronts))]
pub(crate) fn drop_front(queues: &mut [Fifo<McCopy>], place: usize)
    ensures { queues.new ≡ drop_front queues.old place (slice_get queues.old place) }
{
    if place < queues.len() {
        let _ = queues[place].pop();
    }
}

// Puts a copy at the back of the queue behind an output.
pub(crate) fn push_behind(
    inputs: &mut [Fifo<McCopy>],
    cores: &mut [Fifo<McCopy>],
    queue: Queue,
    copy: McCopy,
) -> Result<(), Memory>
    ensures inputs { OnOk result (inputs.new ≡ inputs_after inputs.old (queue_named queue) copy) }
    ensures cores { OnOk result (cores.new ≡ cores_after cores.old (queue_named queue) copy) }
    ensures inputs_stay { OnErr result (inputs.new ≡ inputs.old) }
    ensures cores_stay { OnErr result (cores.new ≡ cores.old) }
{
    match queue {
        Queue::Input(place) => push_at(inputs, place, copy),
        Queue::Core(vertex) => push_at(cores, vertex, copy),
        Queue::Nowhere => Ok(()),
    }
}
