// A copy put at the back of the queue behind an output.
ghost use Rattle.std.specs.Prelude.{◌≡◌, OnErr, OnOk, length};
ghost use Rattle.mesh_core.specs.State.{IsMesh, behind};
ghost use Rattle.mesh_core.specs.Step.{has_room_behind, push_behind};
ghost use Rattle.mesh_core.specs.Serving.{queue_named, IsPlace};

use mesh_core::{MeshParts, Queue};
use spin_base::{Chip, McCopy, Memory, Out};

// The queue behind an output.
pub(crate) fn queue_behind(parts: &MeshParts, chip: Chip, out: Out) -> Queue
    requires { IsMesh parts.now }
    ensures queue { queue_named result ≡ behind parts.now.setup chip out }
    ensures place { IsPlace (length parts.now.inputs) (length parts.now.cores) result }
{
    parts.setup.behind(chip, out)
}

// Whether a queue has room.
pub(crate) fn has_room(parts: &MeshParts, queue: Queue) -> bool
    requires { IsPlace (length parts.now.inputs) (length parts.now.cores) queue }
    ensures { result ≡ has_room_behind parts.now (queue_named queue) }
{
    let capacity = parts.setup.capacity() as usize;
    match queue {
        Queue::Input(place) => parts.inputs[place].len() < capacity,
        Queue::Core(vertex) => parts.cores[vertex].len() < capacity,
        Queue::Nowhere => false,
    }
}

// Puts a copy at the back of a queue.
pub(crate) fn push_behind(parts: &mut MeshParts, queue: Queue, copy: McCopy) -> Result<(), Memory>
    requires { IsPlace (length parts.old.inputs) (length parts.old.cores) queue }
    ensures ok { OnOk result (parts.new ≡ push_behind parts.old (queue_named queue) copy) }
    ensures err { OnErr result (parts.new ≡ parts.old) }
{
    match queue {
        Queue::Input(place) => parts.inputs[place].push(copy),
        Queue::Core(vertex) => parts.cores[vertex].push(copy),
        Queue::Nowhere => Ok(()),
    }
}
