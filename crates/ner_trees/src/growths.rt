// Trees that grow from target to target.
ghost use Rattle.std.specs.Prelude.{◌≡◌, ◌≢◌, ℕ, ◌+◌, ◌*◌, ◌<◌, ◌≤◌, List, [], Some, length, map, IfOk, All, AllPairs};
ghost use Rattle.std.specs.List.Sorted.{IsPermutation};
ghost use Rattle.machine_desc.specs.Live.{IsInside, IsLiveLink};
ghost use Rattle.machine_desc.specs.RoutingTree.{end_of, IsTreeTo};
ghost use Rattle.ner_trees.specs.Growth.{IsJoinedBy, IsGrown, IsWithoutDead, distance_sum};
ghost use Rattle.machine_desc.specs.EdgeOrder.{IsEdgeBefore};
ghost use Rattle.ner_trees.specs.Search.{TellsTree};
ghost use Rattle.ner_trees.specs.EdgeNumbers.{edge_numbered, IsEdgeNumber};
ghost use Rattle.spin_base.specs.Links.{dir_at, dir_number};
ghost use Rattle.spin_base.specs.declared.chips.Chip.{Chip};

use crate::cuts::{mark, new_branch};
use crate::displacements::{ChipPair, displacement};
use crate::marks::{MarkedChip, Marks};
use crate::partial_trees::GrowingTree;
use crate::searches::near_chip;
use crate::walks::walk_anew;
use machine_desc::{Edge, Machine, Tree};
use spin_base::{Chip, Dir, Memory, Seq, Shared};
use std::alloc::Global;

/// How a target came to a tree: the chip of the tree that is near it, and the chip where its branch starts, which is the
/// last chip of the walk from the near chip that was in the tree.
#[derive(Clone, Copy, PartialEq, Eq)]
pub struct Join {
    pub target: Chip,
    pub near: Chip,
    pub start: Chip,
}

/// A tree, and how each of its targets came to it, in their order.
#[derive(Drop)]
pub struct Grown {
    pub tree: Tree,
    pub joins: Seq<Join>,
}

impl Shared for Grown {}

// The number by which edges are put in order: to compare one number takes less than x, y and link.
fn edge_number(x: u8, y: u8, dir: Dir) -> u32
    ensures value { result ≡ x * 65536 + y * 256 + dir_number dir }
    ensures back { edge_numbered result
        ≡ (record { chip = record { x = x; y = y }; dir = dir }) }
{
    u32::from(x) * 65536 + u32::from(y) * 256 + u32::from(dir.number())
}

// The link of this number. No edge has a number above 5, which is that of no link.
fn link_numbered(number: u8) -> Dir
    ensures { result ≡ dir_at number }
{
    match Dir::from_number(number) {
        Some(dir) => dir,
        None => Dir::East,
    }
}

// The edge that has this number.
fn edge_numbered(number: u32) -> Edge
    ensures { result ≡ edge_numbered number }
{
    let chip = Chip {
        x: (number / 65536 % 256) as u8,
        y: (number / 256 % 256) as u8,
    };
    let dir = link_numbered((number % 256) as u8);
    Edge { chip, dir }
}

// The numbers of these edges.
fn numbers_of(alloc: Global, edges: &[Edge]) -> Result<Vec<u32>, Memory>
    ensures back { IfOk result (λ v. map edge_numbered v.items ≡ edges.now) }
    ensures numbers { IfOk result (λ v. All IsEdgeNumber v.items) }
{
    let mut numbers = Vec::with_capacity(alloc, edges.len())?;
    for edge in edges {
        let Edge { chip, dir } = *edge;
        numbers.push(edge_number(chip.x, chip.y, dir))?;
    }
    Ok(numbers)
}

// The edges that have these numbers.
fn edges_of(alloc: Global, numbers: &[u32]) -> Result<Vec<Edge>, Memory>
    ensures { IfOk result (λ v. v.items ≡ map edge_numbered numbers.now) }
{
    let edges = numbers.iter().map(|number| edge_numbered(*number));
    Ok(edges.collect(alloc)?)
}

// The edges in the order of (x, y, link).
fn in_order(alloc: Global, edges: Vec<Edge>) -> Result<Vec<Edge>, Memory>
    ensures same_edges { IfOk result (λ v. IsPermutation edges.items v.items) }
    ensures in_order { IfOk result (λ v. AllPairs (λ e f. IsEdgeBefore f e → ⊥) v.items) }
{
    let mut numbers = numbers_of(alloc, &edges)?;
    numbers.sort_unstable();
    edges_of(alloc, &numbers)
}

// Joins a target to the tree. The walk to it and the links of its branch are put where those of the target before are.
fn add_target(
    tree: &mut GrowingTree,
    walk: &mut Vec<Dir>,
    links: &mut Vec<Edge>,
    target: Chip,
) -> Result<Join, Memory>
    requires target_inside { IsInside tree.old.on.machine.now target }
    requires on_is { TellsTree tree.old.on.machine.now tree.old.root
        tree.old.on.items.items tree.old.edges.items }
    ensures machine { IfOk result (λ _. tree.new.on.machine.now ≡ tree.old.on.machine.now) }
    ensures root { IfOk result (λ _. tree.new.root ≡ tree.old.root) }
    ensures on_is { IfOk result (λ _.
        TellsTree tree.old.on.machine.now tree.old.root
        tree.new.on.items.items tree.new.edges.items) }
    ensures target { IfOk result (λ j. j.target ≡ target) }
    ensures joined { IfOk result (λ j.
        IsJoinedBy tree.old.on.machine.now tree.old.root tree.old.edges.items j
        tree.new.edges.items) }
{
    let near = near_chip(tree, target);
    let begin = MarkedChip {
        on: &tree.on,
        chip: near,
    };
    let pair = ChipPair {
        machine: tree.on.machine(),
        from: near,
        to: target,
    };
    walk_anew(walk, displacement(pair))?;
    let start = new_branch(begin, walk, links)?;
    mark(&mut tree.on, links)?;
    tree.edges.extend_from_slice(links)?;
    Ok(Join {
        target,
        near,
        start,
    })
}

// The tree that has its root and no edge.
fn tree_of_root(alloc: Global, ends: Ends) -> Result<GrowingTree, Memory>
    ensures machine { IfOk result (λ t. t.on.machine.now ≡ ends.entry.machine.now) }
    ensures root { IfOk result (λ t. t.root ≡ ends.entry.root) }
    ensures edges { IfOk result (λ t. t.edges.items ≡ []) }
    ensures on_is { IfOk result (λ t.
        TellsTree ends.entry.machine.now ends.entry.root t.on.items.items []) }
{
    let mut on = Marks::none(alloc, ends.machine)?;
    on.set(ends.root)?;
    Ok(GrowingTree {
        root: ends.root,
        edges: Vec::with_capacity(alloc, 128)?,
        on,
    })
}

/// The root of a tree that is to grow over a machine, and its targets in order.
#[derive(Clone, Copy)]
pub struct Ends<'a> {
    pub machine: &'a Machine,
    pub root: Chip,
    pub targets: &'a Seq<Chip>,
    pub ghost root_inside: { IsInside machine.now root },
    pub ghost targets_inside: { All (IsInside machine.now) targets.now },
}

/// The tree that grows from the root by the targets in the order of their list, whatever is dead. Each is joined to the
/// nearest chip of the tree within 20 links, by distance to the target, then x, then y, or to the root where there is
/// none (neighbour-exploring routing: Navaridas and others, 2015; radius and ties are this project's own). The branch is
/// the walk of `ldf` from that chip, after the last of its chips that is in the tree. Edges are in order of (x, y, link).
pub fn ner(alloc: Global, ends: Ends) -> Result<Grown, Memory>
    ensures root { IfOk result (λ g. g.tree.root ≡ ends.entry.root) }
    ensures grown { IfOk result (λ g. IsGrown ends.entry.machine.now ends.entry.root
        ends.entry.targets.now g.joins g.tree.edges) }
    ensures edges_inside { IfOk result (λ g.
        All (λ e. IsInside ends.entry.machine.now e.chip) g.tree.edges) }
    ensures none_into_root { IfOk result (λ g.
        All (λ e. end_of ends.entry.machine.now e ≢ Some ends.entry.root) g.tree.edges) }
    ensures one_into_each { IfOk result (λ g. AllPairs (λ e f. (c : Chip)
        → end_of ends.entry.machine.now e ≡ Some c → end_of ends.entry.machine.now f ≢ Some c)
        g.tree.edges) }
    ensures few_edges { IfOk result (λ g. length g.tree.edges
        ≤ distance_sum ends.entry.machine.now ends.entry.root ends.entry.targets.now) }
    ensures whole { IfOk result (λ g.
        All (λ e. IsLiveLink ends.entry.machine.now e.chip e.dir) g.tree.edges
        → 0 < length ends.entry.targets.now
        → IsTreeTo ends.entry.machine.now ends.entry.root g.tree.edges ends.entry.targets.now) }
    ensures routing { IfOk result (λ g.
        IsWithoutDead ends.entry.machine.now → 0 < length ends.entry.targets.now
        → IsTreeTo ends.entry.machine.now ends.entry.root g.tree.edges ends.entry.targets.now) }
{
    let mut tree = tree_of_root(alloc, ends)?;
    let mut joins = Seq::from_vec(Vec::with_capacity(alloc, ends.targets.len())?);
    let mut walk = Vec::with_capacity(alloc, 64)?;
    let mut links = Vec::with_capacity(alloc, 64)?;
    for target in ends.targets.as_slice() {
        joins.push(add_target(&mut tree, &mut walk, &mut links, *target)?)?;
    }
    Ok(Grown {
        tree: Tree {
            root: ends.root,
            edges: Seq::from_vec(in_order(alloc, tree.edges)?),
        },
        joins,
    })
}
