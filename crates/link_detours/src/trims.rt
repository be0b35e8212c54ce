// Trees of which nothing has to be taken off: seen from their edges, without a search.
ghost use Rattle.std.specs.Prelude.{◌≡◌, ◌↔◌, ◌++◌, true, Some, map, All, IfOk, Contains};
ghost use Rattle.machine_desc.specs.RoutingTree.{end_of, IsTreeChip};
ghost use Rattle.link_detours.specs.Usable.{is_marked};
ghost use Rattle.link_detours.specs.Repair.{LeadsToTarget, AreInPlaceOrder};
ghost use Rattle.link_detours.specs.Whole.{IsWholeTree, GoesOnFrom};
ghost use Rattle.spin_base.specs.declared.chips.Chip.{Chip};
ghost use Rattle.machine_desc.specs.declared.trees.Edge.{Edge};

use crate::grounds::{BrokenTree, Chips, Edges, MarkedEdges, TargetedEdges};
use crate::prunes::pruned;
use crate::searches::seed_table;
use crate::tables::{in_place_order, link_place};
use machine_desc::Edge;
use spin_base::{Chip, Memory};
use std::alloc::Global;

// The edges at or below whose far end a target stands, in order. Where those are all and in order, no search is made.
pub(crate) fn trimmed(
    alloc: Global,
    broken: BrokenTree,
    whole: Vec<Edge>,
) -> Result<Vec<Edge>, Memory>
    requires is_whole { IsWholeTree broken.ground.machine.now broken.root whole.items }
    requires on_tree { All (IsTreeChip broken.ground.machine.now broken.root whole.items)
        broken.targets.now }
    ensures left { IfOk result (λ v. (e : Edge)
        → Contains v.items e
        ↔ (Contains whole.items e × LeadsToTarget broken.entry.ground.machine.now whole.items
        broken.entry.targets.now e)) }
    ensures in_order { IfOk result (λ v. AreInPlaceOrder broken.entry.ground.machine.now v.items) }
{
    let edges = Edges {
        machine: broken.ground.machine,
        list: &whole,
    };
    let aimed = TargetedEdges {
        edges,
        targets: broken.targets,
    };
    if !ends_go_on(alloc, aimed)? {
        return pruned(alloc, aimed);
    }
    if is_in_order(edges) {
        return Ok(whole);
    }
    let left = in_place_order(alloc, edges)?;
    Ok(left)
}

// Whether edges stand in order of x, y and link number.
fn is_in_order(edges: Edges) -> bool
    ensures { result ≡ true → AreInPlaceOrder edges.entry.machine.now edges.entry.list.now }
{
    let mut least = 0;
    for edge in edges.list {
        let place = link_place(edges.machine, edge.chip, edge.dir);
        if place < least {
            return false;
        }
        least = place + 1;
    }
    true
}

// Whether each edge ends at a target, or where another begins.
fn ends_go_on(alloc: Global, aimed: TargetedEdges) -> Result<bool, Memory>
    ensures { IfOk result (λ b. b ≡ true
        → All (λ e. (c : Chip) → end_of aimed.entry.edges.machine.now e ≡ Some c
        → GoesOnFrom aimed.entry.edges.list.now aimed.entry.targets.now c)
        aimed.entry.edges.list.now) }
{
    let edges = aimed.edges;
    let chips = chips_before(alloc, edges.list, aimed.targets)?;
    let seeds = Chips {
        machine: edges.machine,
        list: &chips,
    };
    let table = seed_table(alloc, seeds)?;
    Ok(ends_are_marked(MarkedEdges {
        edges,
        marks: &table,
    }))
}

// The targets, and the chips at which edges begin.
fn chips_before(alloc: Global, edges: &[Edge], targets: &[Chip]) -> Result<Vec<Chip>, Memory>
    ensures { IfOk result (λ v. v.items ≡ targets.now ++ map (λ e. e.chip) edges.now) }
{
    let begins = edges.iter().map(|edge| edge.chip);
    Ok(targets.iter().copied().chain(begins).collect(alloc)?)
}

// Whether each chip at which an edge ends is marked.
fn ends_are_marked(marked: MarkedEdges) -> bool
    ensures { result ≡ true
        → All (λ e. (c : Chip) → end_of marked.entry.edges.machine.now e ≡ Some c
        → is_marked marked.entry.edges.machine.now marked.entry.marks.now c ≡ true)
        marked.entry.edges.list.now }
{
    let MarkedEdges { edges, marks } = marked;
    edges.list.iter().all(|edge| match edges.machine.far(edge.chip, edge.dir) {
        Some(far) => marks[edges.machine.index(far) as usize],
        None => true,
    })
}
