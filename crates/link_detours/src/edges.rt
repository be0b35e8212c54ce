// Lists of edges: those that are live, those that a search reached, and the same links from their other ends.
ghost use Rattle.std.specs.Prelude.{◌≡◌, ◌+◌, ◌*◌, ◌<◌, ◌≤◌, ◌↔◌, length, All, IfOk, Contains, filter, map, Some, ℕ};
ghost use Rattle.machine_desc.specs.Live.{IsInside, is_live_link, far_of, index_of};
ghost use Rattle.machine_desc.specs.RoutingTree.{end_of};
ghost use Rattle.std.specs.List.{filter_map};
ghost use Rattle.link_detours.specs.Usable.{is_marked, other_end_of};
ghost use Rattle.spin_base.specs.declared.chips.Chip.{Chip};
ghost use Rattle.machine_desc.specs.declared.trees.Edge.{Edge};

use crate::grounds::{Edges, Ground, MarkedEdges};
use machine_desc::Edge;
use spin_base::{Chip, Memory};
use std::alloc::Global;

// The edges that are live links.
pub(crate) fn live_edges(alloc: Global, ground: Ground, edges: &[Edge]) -> Result<Vec<Edge>, Memory>
    ensures { IfOk result (λ v. v.items
        ≡ filter (λ e. is_live_link ground.entry.machine.now e.chip e.dir) edges.now) }
{
    let mut live = Vec::with_capacity(alloc, edges.len())?;
    for edge in edges {
        if ground.has(*edge) {
            live.push(*edge)?;
        }
    }
    Ok(live)
}

// The edges that begin at a marked chip.
pub(crate) fn reached_edges(alloc: Global, marked: MarkedEdges) -> Result<Vec<Edge>, Memory>
    ensures { IfOk result (λ v. v.items
        ≡ filter (λ e. is_marked marked.entry.edges.machine.now marked.entry.marks.now e.chip)
        marked.entry.edges.list.now) }
{
    let links = marked.edges;
    let mut reached = Vec::with_capacity(alloc, links.list.len())?;
    for edge in links.list {
        if marked.marks[links.machine.index(edge.chip) as usize] {
            reached.push(*edge)?;
        }
    }
    Ok(reached)
}

// The same links, each from its other end.
pub(crate) fn turned_edges(alloc: Global, links: Edges) -> Result<Vec<Edge>, Memory>
    ensures { IfOk result (λ v. v.items ≡ filter_map (other_end_of links.entry.machine.now)
        links.entry.list.now) }
{
    let turned = links.list.iter().filter_map(|edge| {
        let far = links.machine.far(edge.chip, edge.dir)?;
        Some(Edge {
            chip: far,
            dir: edge.dir.opposite(),
        })
    });
    Ok(turned.collect(alloc)?)
}
