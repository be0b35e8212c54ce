// How a mesh of a setup is shared between workers, whatever copies it holds.
ghost use Rattle.std.specs.Prelude.{IfOk};
ghost use Rattle.mesh_core.specs.State.{IsMesh};
ghost use Rattle.mesh_run.specs.Layouts.{IsLayoutOf};

use crate::floors::Floor;
use crate::footing::Footing;
use crate::homes::{Cut, Home, cuts_of, homes_of, runs_of, share_table};
use mesh_core::MeshParts;
use spin_base::Memory;
use std::alloc::Global;

/// How a mesh is shared: who stands where, the runs of actors, the homes of all queues, and the queues between two runs. It is of the
/// mesh's setup alone, so it may serve as often as a mesh of that setup is split.
#[derive(Drop)]
pub struct Layout {
    pub(crate) floor: Floor,
    pub(crate) runs: Vec<usize>,
    pub(crate) homes: Vec<Home>,
    pub(crate) cuts: Vec<Cut>,
}

impl Layout {
    /// How a mesh is shared, for so many workers, where none counts as one. How many runs there are, and of how many actors, no clause says.
    ///
    /// # Errors
    ///
    /// `Memory` where memory runs out.
    pub fn of(alloc: Global, parts: &MeshParts, workers: u32) -> Result<Layout, Memory>
        requires { IsMesh parts.now }
        ensures { IfOk result (IsLayoutOf parts.now.setup) }
    {
        let floor = Floor::of(alloc, &parts.setup)?;
        let footing = Footing {
            setup: &parts.setup,
            floor: &floor,
        };
        let runs = runs_of(alloc, footing, workers)?;
        let table = share_table(alloc, &runs, footing.actors())?;
        let homes = homes_of(alloc, footing, &table)?;
        let cuts = cuts_of(alloc, &homes)?;
        Ok(Layout {
            floor,
            runs,
            homes,
            cuts,
        })
    }
}
