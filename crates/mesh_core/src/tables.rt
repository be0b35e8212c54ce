// The table from spots to vertices.
ghost use Rattle.std.specs.Prelude.{◌≡◌, ◌≢◌, AllPairs, IfOk};
ghost use Rattle.mesh_core.specs.VertexTable.{TellsVertices, IsSpotPlace};

use machine_desc::Machine;
use spin_base::{Memory, Spot};
use std::alloc::Global;

/// How many vertices a chip has room for: one on each of its cores 0 to 17, and one on each of its six links.
pub const SPOTS: usize = 24;

// The vertex on each spot, at the spot's place.
pub(crate) fn vertex_table(
    alloc: Global,
    machine: &Machine,
    spots: &[Spot],
) -> Result<Vec<Option<u32>>, Memory>
    requires { AllPairs (λ a b. a ≢ b) spots.now }
    ensures { IfOk result (λ v. TellsVertices machine.now spots.now v.items) }
{
    let mut table = vec![in alloc; None; SPOTS * machine.chips()]?;
    for (vertex, spot) in spots.iter().enumerate() {
        // (there are at most 98,304 spots)
        let Ok(number) = u32::try_from(vertex) else {
            return Err(Memory);
        };
        if let Some(place) = spot_place(machine, *spot) {
            table[place] = Some(number);
        }
    }
    Ok(table)
}

// The place of a spot in the table, if a chip of the machine has it.
pub(crate) fn spot_place(machine: &Machine, spot: Spot) -> Option<usize>
    ensures { IsSpotPlace machine.now spot result }
{
    let core = usize::from(spot.core);
    if machine.is_inside(spot.chip) && core < SPOTS {
        Some(SPOTS * machine.index(spot.chip) as usize + core)
    } else {
        None
    }
}
