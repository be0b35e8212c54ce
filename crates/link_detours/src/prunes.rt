// What of a tree leads to a target.
ghost use Rattle.std.specs.Prelude.{◌≡◌, ℕ, ◌↔◌, IfOk, Contains};
ghost use Rattle.link_detours.specs.Repair.{LeadsToTarget, AreInPlaceOrder};
ghost use Rattle.spin_base.specs.declared.chips.Chip.{Chip};
ghost use Rattle.machine_desc.specs.declared.trees.Edge.{Edge};

use crate::edges::{reached_edges, turned_edges};
use crate::grounds::{Edges, Flagged, MarkedEdges, Search, TargetedEdges};
use crate::searches::reached_chips;
use crate::tables::{in_place_order, link_table};
use machine_desc::Edge;
use spin_base::Memory;
use std::alloc::Global;

// The edges at or below whose far end a target stands, in order: a search from the targets up the tree finds them.
pub(crate) fn pruned(alloc: Global, whole: TargetedEdges) -> Result<Vec<Edge>, Memory>
    ensures left { IfOk result (λ v. (e : Edge)
        → Contains v.items e
        ↔ (Contains whole.entry.edges.list.now e × LeadsToTarget whole.entry.edges.machine.now
        whole.entry.edges.list.now whole.entry.targets.now e)) }
    ensures in_order { IfOk result (λ v. AreInPlaceOrder whole.entry.edges.machine.now v.items) }
{
    let machine = whole.edges.machine;
    let turned = turned_edges(alloc, whole.edges)?;
    let links = Edges {
        machine,
        list: &turned,
    };
    let table = link_table(alloc, links)?;
    let flagged = Flagged {
        machine,
        flags: &table,
    };
    let search = Search {
        table: flagged,
        seeds: whole.targets,
    };
    let marks = reached_chips(alloc, search)?;
    let marked = MarkedEdges {
        edges: links,
        marks: &marks,
    };
    let wanted = reached_edges(alloc, marked)?;
    let found = Edges {
        machine,
        list: &wanted,
    };
    let left = turned_edges(alloc, found)?;
    let kept = Edges {
        machine,
        list: &left,
    };
    let edges = in_place_order(alloc, kept)?;
    Ok(edges)
}
