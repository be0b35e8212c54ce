// The placement of all vertices.
ghost use Rattle.std.specs.Prelude.{◌≡◌, ◌≢◌, ℕ, ◌^◌, ◌<◌, ◌≤◌, All, AllPairs, IfOk, IfErr};
ghost use Rattle.std.specs.List.{AllZip};
ghost use Rattle.machine_desc.specs.Live.{IsUsable, IsSite};
ghost use Rattle.app_graph.specs.declared.graphs.Vertex.{Vertex};
ghost use Rattle.app_graph.specs.ValidGraph.{IsValidGraph};
ghost use Rattle.place_fit.specs.Placement.{IsPlacement};
ghost use Rattle.place_fit.specs.Cause.{IsPlacementCause};

use crate::boards::Board;
use app_graph::Graph;
use machine_desc::Machine;
use spin_base::{Memory, Seq, Shared, Spot};
use std::alloc::Global;

/// Where each vertex stands, and at which byte of its chip's shared memory its own begins, in the order of the vertices.
#[derive(Drop)]
pub struct Placement {
    pub spots: Seq<Spot>,
    pub memory: Seq<u64>,
}

impl Shared for Placement {}

/// Why vertices are not placed.
#[derive(Clone, Copy, PartialEq, Eq)]
pub enum PlaceErr {
    /// No chip has room for this vertex, the first such of the list.
    NoRoom { vertex: u32 },
    /// There was not enough memory.
    Memory,
}

impl From<Memory> for PlaceErr {
    ghost use Rattle.std.specs.Prelude.{◌≡◌};
    ghost use Rattle.place_fit.specs.declared.placing.PlaceErr.TheVariants.{Memory as NoMemory};

    ghost from_gives = { λ _ e. e ≡ NoMemory };

    fn from(_: Memory) -> Self {
        PlaceErr::Memory
    }
}

/// Places the vertices in their order. A vertex with a device on link d of a chip stands at number 18 + d of that chip,
/// and has room where the chip is live and the link is not. Each other vertex stands on the first chip with room, in the
/// order of the curve, or on the chip that it names, and takes the least core there that is usable and no earlier vertex's.
/// A chip has room where it has such a core, and earlier vertices leave as many bytes of its memory as the vertex needs;
/// devices need none. The memory of a vertex begins behind what earlier vertices on its chip need, and at 0 where it needs
/// none. `NoRoom` comes exactly where some vertex, device or not, finds no room, and names the first.
pub fn place(alloc: Global, machine: &Machine, graph: &Graph) -> Result<Placement, PlaceErr>
    requires { IsValidGraph graph.now }
    ensures placed { IfOk result
        (λ p. IsPlacement machine.now graph.now.vertices p.spots p.memory) }
    ensures no_room { IfErr result (IsPlacementCause machine.now graph.now.vertices) }
    ensures different { IfOk result (λ p. AllPairs (λ a b. a ≢ b) p.spots) }
    ensures sites { IfOk result (λ p. All (IsSite machine.now) p.spots) }
    ensures cores { IfOk result (λ p. AllZip
        (λ (v : Vertex) s. v.device ≡ None → IsUsable machine.now s) graph.now.vertices p.spots) }
{
    let mut board = Board::whole(alloc, machine)?;
    let mut spots = Seq::new(alloc);
    let mut memory = Seq::new(alloc);
    for (i, vertex) in graph.vertices.as_slice().iter().enumerate() {
        let Some(placed) = board.put(machine, vertex) else {
            return Err(PlaceErr::NoRoom { vertex: i as u32 });
        };
        spots.push(placed.spot)?;
        memory.push(placed.memory)?;
    }
    Ok(Placement { spots, memory })
}
