// The lists of a report that come from a plan.
ghost use Rattle.std.specs.Prelude.{◌≡◌, map, IfOk};
ghost use Rattle.std.specs.List.{zip};
ghost use Rattle.machine_desc.specs.declared.nets.NetPlan.{NetPlan};
ghost use Rattle.run_report.specs.Listed.{vertex_names};

use crate::planned::PlannedGraph;
use spin_base::{Block, Memory, Name, Seq, Spot};
use std::alloc::Global;

// Each vertex with its core.
pub(crate) fn placed_of(
    alloc: Global,
    planned: &PlannedGraph<'_>,
) -> Result<Seq<(Name, Spot)>, Memory>
    ensures { IfOk result (λ placed. placed
        ≡ zip (vertex_names planned.now.graph.now.vertices) planned.now.spots.now) }
{
    let (vertices, spots) = (&planned.graph.vertices, planned.spots);
    let mut placed = Seq::new(alloc);
    for i in 0..vertices.len() {
        let name = Name::of(alloc, vertices.get(i).name.as_str())?;
        placed.push((name, *spots.get(i)))?;
    }
    Ok(placed)
}

// Each net with its keys.
pub(crate) fn keys_of(
    alloc: Global,
    planned: &PlannedGraph<'_>,
) -> Result<Seq<(Name, Block)>, Memory>
    ensures { IfOk result (λ keys. keys ≡ zip (map (λ net. net.name) planned.now.graph.now.nets)
        (map (λ (net : NetPlan). net.block) planned.now.nets.now)) }
{
    let (given, nets) = (&planned.graph.nets, planned.nets);
    let mut keys = Seq::new(alloc);
    for i in 0..given.len() {
        let name = Name::of(alloc, given.get(i).name.as_str())?;
        keys.push((name, nets.get(i).block))?;
    }
    Ok(keys)
}
