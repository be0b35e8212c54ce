// Trees joined again round dead links.
ghost use Rattle.std.specs.Prelude.{◌≡◌, ◌↔◌, All, IfOk, IfErr, Contains};
ghost use Rattle.machine_desc.specs.RoutingTree.{IsTreeChip, IsTreeTo};
ghost use Rattle.link_detours.specs.Repair.{IsKeptEdge, Joins, IsRepaired, AreInPlaceOrder};
ghost use Rattle.link_detours.specs.Whole.{IsWholeTree};
ghost use Rattle.link_detours.specs.Cause.{IsRepairCause};
ghost use Rattle.link_detours.specs.declared.repairs.RepairErr.TheVariants.{Memory as NoMemory};
ghost use Rattle.spin_base.specs.declared.chips.Chip.{Chip};
ghost use Rattle.machine_desc.specs.declared.trees.Edge.{Edge};

use crate::detours::{join, tree_reach};
use crate::edges::{live_edges, reached_edges};
use crate::grounds::{Aim, BrokenTree, Edges, GroundedTree, MarkedEdges, RootedEdges};
use crate::sets::{empty_set, put_tree};
use crate::trims::trimmed;
use machine_desc::{Edge, Tree};
use spin_base::{Chip, Memory, Seq};
use std::alloc::Global;

/// Why a tree is not repaired.
#[derive(Clone, Copy, PartialEq, Eq)]
pub enum RepairErr {
    /// No walk of live links joins the root and this target, the first such of the list.
    CutOff { target: Chip },
    /// There was not enough memory.
    Memory,
}

impl From<Memory> for RepairErr {
    ghost use Rattle.std.specs.Prelude.{◌≡◌};
    ghost use Rattle.link_detours.specs.declared.repairs.RepairErr.TheVariants.{Memory as NoMemory};

    ghost from_gives = { λ _ e. e ≡ NoMemory };

    fn from(_: Memory) -> Self {
        RepairErr::Memory
    }
}

/// The tree with, of its edges, those that live links of the tree join to the root; with a detour to each target that
/// is then not in the tree, in the order of the list, each the shortest over live links from the tree as it is then
/// (of all, last link first, that of the least link numbers); and without edges that lead to no target. Edges are in
/// order of (x, y, link). It is refused exactly where some target is cut off from the root.
pub fn repair(alloc: Global, broken: BrokenTree) -> Result<Tree, RepairErr>
    ensures root { IfOk result (λ t. t.root ≡ broken.entry.root) }
    ensures repaired { IfOk result (λ t. IsRepaired broken.entry.ground.machine.now
        broken.entry.root broken.entry.edges.now broken.entry.targets.now t.edges) }
    ensures routing { IfOk result (λ t. IsTreeTo broken.entry.ground.machine.now
        broken.entry.root t.edges broken.entry.targets.now) }
    ensures cut_off { IfErr result (IsRepairCause broken.entry.ground.machine.now
        broken.entry.root broken.entry.targets.now) }
    ensures same_edges { IsTreeTo broken.entry.ground.machine.now broken.entry.root
        broken.entry.edges.now broken.entry.targets.now →
        IfOk result (λ t. (e : Edge) → Contains t.edges e ↔ Contains broken.entry.edges.now e) }
    ensures unchanged { IsTreeTo broken.entry.ground.machine.now broken.entry.root
        broken.entry.edges.now broken.entry.targets.now →
        AreInPlaceOrder broken.entry.ground.machine.now broken.entry.edges.now →
        IfOk result (λ t. t.edges ≡ broken.entry.edges.now) }
    ensures not_cut_off { IsTreeTo broken.entry.ground.machine.now broken.entry.root
        broken.entry.edges.now broken.entry.targets.now →
        IfErr result (λ e. e ≡ NoMemory) }
{
    let kept = kept_edges(alloc, broken)?;
    let whole = join_all(alloc, broken, kept)?;
    let left = trimmed(alloc, broken, whole)?;
    Ok(Tree {
        root: broken.root,
        edges: Seq::from_vec(left),
    })
}

// The edges that live links of the tree join to the root.
fn kept_edges(alloc: Global, broken: BrokenTree) -> Result<Vec<Edge>, Memory>
    ensures kept { IfOk result (λ v. (e : Edge) → Contains v.items e
        ↔ IsKeptEdge broken.entry.ground.machine.now broken.entry.root broken.entry.edges.now e) }
    ensures is_whole { IfOk result (λ v.
        IsWholeTree broken.entry.ground.machine.now broken.entry.root v.items) }
{
    let live = live_edges(alloc, broken.ground, broken.edges)?;
    let links = Edges {
        machine: broken.ground.machine,
        list: &live,
    };
    let tree = RootedEdges {
        machine: links.machine,
        root: broken.root,
        list: links.list,
    };
    let reach = tree_reach(alloc, tree)?;
    let marked = MarkedEdges {
        edges: links,
        marks: &reach,
    };
    let kept = reached_edges(alloc, marked)?;
    Ok(kept)
}

// The tree with a detour to each target that it doesn't have, in the order of their list.
fn join_all(alloc: Global, broken: BrokenTree, kept: Vec<Edge>) -> Result<Vec<Edge>, RepairErr>
    requires { IsWholeTree broken.ground.machine.now broken.root kept.items }
    ensures joined { IfOk result (λ v. Joins broken.entry.ground.machine.now broken.entry.root
        kept.items broken.entry.targets.now v.items) }
    ensures is_whole { IfOk result (λ v.
        IsWholeTree broken.entry.ground.machine.now broken.entry.root v.items) }
    ensures on_tree { IfOk result (λ v. All
        (IsTreeChip broken.entry.ground.machine.now broken.entry.root v.items)
        broken.entry.targets.now) }
    ensures cut_off { IfErr result (IsRepairCause broken.entry.ground.machine.now
        broken.entry.root broken.entry.targets.now) }
{
    let (ground, root) = (broken.ground, broken.root);
    let mut whole = kept;
    let mut words = empty_set(alloc, ground.machine)?;
    let chips: &mut [u64] = &mut words;
    let edges = GroundedTree {
        ground,
        root,
        list: &whole,
    };
    put_tree(edges, chips);
    for target in broken.targets {
        let aim = Aim {
            ground,
            root,
            target: *target,
        };
        let joined = join(alloc, aim, chips, &mut whole)?;
        if !joined {
            return Err(RepairErr::CutOff { target: *target });
        }
    }
    Ok(whole)
}
