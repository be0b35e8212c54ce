// Whether a tree is a routing tree.
ghost use Rattle.std.specs.Prelude.{◌≡◌, ◌*◌, ◌<◌, ◌↔◌, ℕ, true, false, length, All, IsTrue, IfOk, MatchBool, slice_index_or};
ghost use Rattle.std.proofs.Props.{props};
ghost use Rattle.machine_desc.specs.Live.{IsInside};
ghost use Rattle.machine_desc.specs.RoutingTree.{IsRoutingTree};
ghost use Rattle.plan_check.specs.GoodTrees.{IsGood};
ghost use Rattle.plan_check.specs.Marks.{IsAlone, EntersOnce, EntersAnew, EntersNone, IsMarkedChip, going_on};

use link_detours::{Chips, RootedEdges, seed_table, tree_reach};
use machine_desc::{Edge, Machine, PerChip, Tree};
use spin_base::{Chip, Memory, Seq, Spot};
use std::alloc::Global;

/// Whether the tree begins at the root and is a routing tree from there to the targets: over live links, with one edge into
/// each chip but the root and none into the root, each chip reached from the root, with all targets' chips, and with no end
/// that is none. Edges may stand in any order; one that stands twice leads twice into a chip.
pub fn good(
    alloc: Global,
    machine: &Machine,
    tree: &Tree,
    root: Chip,
    targets: &Seq<Spot>,
) -> Result<bool, Memory>
    ensures { IfOk result (λ is. IsTrue is ↔ IsGood machine.now tree.now root targets.now) }
{
    if tree.root != root {
        return Ok(false);
    }
    is_tree(
        alloc,
        machine,
        root,
        tree.edges.as_slice(),
        targets.as_slice(),
    )
}

// Whether the edges are a routing tree from the root to the targets.
fn is_tree(
    alloc: Global,
    machine: &Machine,
    root: Chip,
    edges: &[Edge],
    targets: &[Spot],
) -> Result<bool, Memory>
    ensures { IfOk result (λ is. IsTrue is ↔ IsRoutingTree machine.now root edges.now targets.now) }
{
    if !machine.is_inside(root) {
        return Ok(is_alone(root, edges, targets));
    }
    is_routed(alloc, Rooted { machine, root }, edges, targets)
}

// Whether there is no edge, and some target, and all targets are on the root.
fn is_alone(root: Chip, edges: &[Edge], targets: &[Spot]) -> bool
    ensures { IsTrue result ↔ IsAlone root edges.now targets.now }
{
    edges.is_empty() && !targets.is_empty() && targets.iter().all(|target| target.chip == root)
}

// A root in the grid of a machine.
#[derive(Clone, Copy)]
struct Rooted<'a> {
    machine: &'a Machine,
    root: Chip,
    ghost inside: { IsInside machine.now root } by { Prim.hlevel props },
}

// Whether the edges are a routing tree from the root.
fn is_routed(
    alloc: Global,
    rooted: Rooted,
    edges: &[Edge],
    targets: &[Spot],
) -> Result<bool, Memory>
    ensures { IfOk result (λ is. IsTrue is
        ↔ IsRoutingTree rooted.entry.machine.now rooted.entry.root edges.now targets.now) }
{
    let Rooted { machine, root } = rooted;
    if !enters_once(alloc, rooted, edges)? {
        return Ok(false);
    }
    let tree = RootedEdges {
        machine,
        root,
        list: edges,
    };
    let reached = tree_reach(alloc, tree)?;
    let marks = ChipMarks {
        machine,
        list: &reached,
    };
    if !all_begin(marks, edges) {
        return Ok(false);
    }
    if !has_all(marks, targets) {
        return Ok(false);
    }
    let chips = going_on(alloc, edges, targets)?;
    let seeds = Chips {
        machine,
        list: &chips,
    };
    let on = seed_table(alloc, seeds)?;
    Ok(each_goes_on(marks.list, &on))
}

// Whether all edges are live, none leads into the root, and no two lead into one chip.
fn enters_once(alloc: Global, rooted: Rooted, edges: &[Edge]) -> Result<bool, Memory>
    ensures { IfOk result (λ once. IsTrue once
        ↔ EntersOnce rooted.entry.machine.now rooted.entry.root edges.now) }
{
    let mut entered = PerChip::filled(alloc, rooted.machine, false)?;
    entered.set(rooted.root, true);
    for edge in edges {
        if !enters_anew(&mut entered, *edge) {
            return Ok(false);
        }
    }
    Ok(true)
}

// Whether the edge is live and leads into a chip that has no mark. It marks that chip.
fn enters_anew(marks: &mut PerChip<bool>, edge: Edge) -> bool
    ensures machine { marks.new.machine.now ≡ marks.old.machine.now }
    ensures anew { MatchBool result
        (EntersAnew marks.old.machine.now edge marks.old.items.items marks.new.items.items)
        (EntersNone marks.old.machine.now edge marks.old.items.items) }
{
    let machine = marks.machine();
    if !machine.link_live(edge.chip, edge.dir) {
        return false;
    }
    match machine.far(edge.chip, edge.dir) {
        None => false,
        Some(chip) => {
            if marks.at(chip) {
                return false;
            }
            marks.set(chip, true);
            true
        }
    }
}

// Marks of chips, with a place for each chip of a machine.
#[derive(Clone, Copy)]
struct ChipMarks<'a> {
    machine: &'a Machine,
    list: &'a [bool],
    ghost long: { length list.now ≡ machine.now.width * machine.now.height },
}

// Whether the chip is in the grid and has a mark.
fn is_marked(marks: ChipMarks, chip: Chip) -> bool
    ensures { IsTrue result ↔ IsMarkedChip marks.entry.machine.now marks.entry.list.now chip }
{
    marks.machine.is_inside(chip) && marks.list[marks.machine.index(chip) as usize]
}

// Whether all edges begin at chips that have marks.
fn all_begin(marks: ChipMarks, edges: &[Edge]) -> bool
    ensures { IsTrue result ↔
        All (λ e. IsMarkedChip marks.entry.machine.now marks.entry.list.now e.chip) edges.now }
{
    edges.iter().all(|edge| is_marked(marks, edge.chip))
}

// Whether the chips of all targets have marks.
fn has_all(marks: ChipMarks, targets: &[Spot]) -> bool
    ensures { IsTrue result ↔
        All (λ s. IsMarkedChip marks.entry.machine.now marks.entry.list.now s.chip) targets.now }
{
    targets.iter().all(|target| is_marked(marks, target.chip))
}

// The chips where a target stands, and those where an edge begins.
fn going_on(alloc: Global, edges: &[Edge], targets: &[Spot]) -> Result<Vec<Chip>, Memory>
    ensures { IfOk result (λ v. v.items ≡ going_on edges.now targets.now) }
{
    let begins = edges.iter().map(|edge| edge.chip);
    let chips = targets.iter().map(|target| target.chip).chain(begins);
    Ok(chips.collect(alloc)?)
}

// Whether each chip that has a mark in the first list has one in the second.
fn each_goes_on(reached: &[bool], on: &[bool]) -> bool
    requires { length on.now ≡ length reached.now }
    ensures { IsTrue result ↔ ((i : ℕ) → i < length reached.now →
        slice_index_or reached.now i false ≡ true → slice_index_or on.now i false ≡ true) }
{
    reached.iter().zip(on).all(|(reached, on)| !*reached || *on)
}
