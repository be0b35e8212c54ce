// The plan of each net.
ghost use Rattle.std.specs.Prelude.{◌≡◌, ℕ, ◌<◌, ◌≤◌, All, length, IfOk, IfErr};
ghost use Rattle.spin_base.specs.declared.chips.Chip.{Chip};
ghost use Rattle.machine_desc.specs.Live.{IsSite};
ghost use Rattle.machine_desc.specs.RoutingTree.{IsRoutingTree, IsTreeTo};
ghost use Rattle.link_detours.specs.Cause.{IsRepairCause};
ghost use Rattle.link_detours.specs.Repair.{IsRepaired};
ghost use Rattle.net_plans.specs.Cause.{IsNetCause, IsCauseOne, IsRefusedBy};
ghost use Rattle.net_plans.specs.CutOffTargets.{HasNoneCutOff, IsFirstCutOffIn, IsFirstNetCutOff};
ghost use Rattle.net_plans.specs.NetPlans.{IsPlannedNet, ArePlanned};
ghost use Rattle.net_plans.specs.Ways.{AreRoutedNets, CanRoute, CanRouteAt, HasEndsAmong, HaveWays, IsFirstWithout, IsGrownTree, IsRoutedNet};

use crate::boards::TargetVertices;
use crate::targets::{NetEnds, target_chips, targets_of};
use app_graph::{Graph, Net};
use link_detours::{BrokenTree, Ground, RepairErr, Roads, repair};
use machine_desc::{Machine, NetPlan, Tree};
use ner_trees::{Ends, Grown, ner};
use rayon::prelude::*;
use spin_base::{Block, Chip, Memory, Seq, Shared, Spot};
use std::alloc::{AllocError, Global};
use std::thread::Threads;

/// A graph on a machine, with a core for each vertex and the keys of each net.
#[derive(Clone, Copy)]
pub struct PlacedGraph<'a> {
    pub machine: &'a Machine,
    pub graph: &'a Graph,
    pub spots: &'a Seq<Spot>,
    pub blocks: &'a Seq<Block>,
    pub ghost few: { length graph.now.nets ≤ 4096 },
    pub ghost ends: { All (HasEndsAmong (length spots.now)) graph.now.nets },
    pub ghost sites: { All (IsSite machine.now) spots.now },
    pub ghost a_block_each: { length blocks.now ≡ length graph.now.nets },
}

/// A net whose keys are this block, and the core of each vertex on a machine.
#[derive(Clone, Copy)]
pub struct PlacedNet<'a> {
    pub ground: Ground<'a>,
    pub spots: &'a Seq<Spot>,
    pub net: &'a Net,
    pub block: Block,
    pub ghost ends: { HasEndsAmong (length spots.now) net.now },
    pub ghost sites: { All (IsSite ground.machine.now) spots.now },
}

// What came of routing a net: the net's place in the list of nets, and its plan, or why it has none.
#[derive(Drop)]
pub struct RoutedNet {
    pub net: u32,
    pub way: Result<NetPlan, RepairErr>,
}

impl Shared for RoutedNet {}

/// Why nets are not planned.
#[derive(Clone, Copy, PartialEq, Eq)]
pub enum NetErr {
    /// No walk of live links joins the source's chip and this target chip of the net, the first such net and target.
    CutOff { net: u32, target: Chip },
    /// There was not enough memory.
    Memory,
}

impl From<Memory> for NetErr {
    ghost use Rattle.std.specs.Prelude.{◌≡◌};
    ghost use Rattle.net_plans.specs.declared.nets.NetErr.TheVariants.{Memory as NoMemory};

    ghost from_gives = { λ _ e. e ≡ NoMemory };

    fn from(_: Memory) -> Self {
        NetErr::Memory
    }
}

/// The plan of each net of a graph: its block, the core of its source, its targets, and the tree that grows from the
/// source's chip to the target chips, with detours round what is dead. Threads route the nets side by side. What came of each net is collected whole, in the order of
/// the nets, before it is looked through: so the answer does not depend on which net was done first.
///
/// # Errors
///
/// `CutOff` exactly where a target of some net is not reached by a walk of live links: it names the first such net, and
/// its first such target. `Memory` where memory runs out.
pub fn net_plans<R: Threads + Sync>(
    rt: &R,
    alloc: Global,
    placed: PlacedGraph,
) -> Result<Seq<NetPlan>, NetErr>
    ensures planned { IfOk result (ArePlanned placed.entry.machine.now placed.entry.spots.now
        placed.entry.graph.now.nets placed.entry.blocks.now) }
    ensures routing { IfOk result (λ plans. All (λ p.
        IsRoutingTree placed.entry.machine.now p.tree.root p.tree.edges p.targets) plans) }
    ensures reached { IfOk result (λ _. All (HasNoneCutOff placed.entry.machine.now
        placed.entry.spots.now) placed.entry.graph.now.nets) }
    ensures cause { IfErr result (IsNetCause placed.entry.machine.now placed.entry.spots.now
        placed.entry.graph.now.nets) }
    ensures cut_off { (i : ℕ) (target : Chip) →
        IsFirstNetCutOff placed.entry.machine.now placed.entry.spots.now
        placed.entry.graph.now.nets i target →
        IsRefusedBy result (NetErr.CutOff i target) NetErr.Memory }
{
    let PlacedGraph {
        machine,
        graph,
        spots,
        blocks,
    } = placed;
    let roads = Roads::of(alloc, machine)?;
    let ground = Ground {
        machine,
        roads: &roads,
    };
    let Ok(routed) = routed_nets(rt, alloc, &ground, graph, spots, blocks) else {
        return Err(NetErr::Memory);
    };
    looked_through(alloc, routed)
}

// The plans of all nets, or the first net of which a target is cut off, or which wanted memory.
fn looked_through(alloc: Global, routed: Vec<RoutedNet>) -> Result<Seq<NetPlan>, NetErr>
    ensures all { IfOk result (HaveWays routed.items) }
    ensures first { IfErr result (IsFirstWithout routed.items) }
{
    let mut plans = Seq::new(alloc);
    for item in routed {
        let RoutedNet { net, way } = item;
        let plan = match way {
            Ok(plan) => plan,
            Err(RepairErr::CutOff { target }) => return Err(NetErr::CutOff { net, target }),
            Err(RepairErr::Memory) => return Err(NetErr::Memory),
        };
        plans.push(plan)?;
    }
    Ok(plans)
}

// What came of routing each net, in the order of the nets.
fn routed_nets<R: Threads + Sync>(
    rt: &R,
    alloc: Global,
    ground: &Ground,
    graph: &Graph,
    spots: &Seq<Spot>,
    blocks: &Seq<Block>,
) -> Result<Vec<RoutedNet>, AllocError>
    requires { CanRoute ground.now.machine.now graph.now spots.now blocks.now }
    ensures { IfOk result (λ routed. AreRoutedNets ground.now.machine.now spots.now
        graph.now.nets blocks.now routed.items) }
{
    (0..graph.nets.len())
        .into_par_iter()
        .map(
            |i: usize| -> RoutedNet
                requires { CanRouteAt ground.now.machine.now graph.now
                    spots.now blocks.now i }
                ensures { IsRoutedNet ground.entry.now.machine.now spots.entry.now
                    graph.entry.now.nets blocks.entry.now i result }
            { routed_net(alloc, ground, graph, spots, blocks, i) },
        )
        .collect(rt, alloc)
}

// What came of routing the net at this place.
fn routed_net(
    alloc: Global,
    ground: &Ground,
    graph: &Graph,
    spots: &Seq<Spot>,
    blocks: &Seq<Block>,
    i: usize,
) -> RoutedNet
    requires { CanRouteAt ground.now.machine.now graph.now spots.now blocks.now i }
    ensures { IsRoutedNet ground.now.machine.now spots.now graph.now.nets
        blocks.now i result }
{
    let block = *blocks.get(i);
    let net = PlacedNet {
        ground: *ground,
        spots,
        net: graph.nets.get(i),
        block,
    };
    let way = net_plan(alloc, net);
    RoutedNet { net: i as u32, way }
}

/// The plan of one net. All that it is lent it only reads, so nets may be planned side by side.
///
/// # Errors
///
/// `CutOff` exactly where some target is not reached by a walk of live links: it names the first such target chip.
/// `Memory` where memory runs out.
pub fn net_plan(alloc: Global, placed: PlacedNet) -> Result<NetPlan, RepairErr>
    ensures planned { IfOk result (IsPlannedNet placed.entry.ground.machine.now
        placed.entry.spots.now placed.entry.net.now placed.entry.block) }
    ensures routing { IfOk result (λ plan. IsRoutingTree placed.entry.ground.machine.now
        plan.tree.root plan.tree.edges plan.targets) }
    ensures reached { IfOk result (λ _. HasNoneCutOff placed.entry.ground.machine.now
        placed.entry.spots.now placed.entry.net.now) }
    ensures cause { IfErr result (IsCauseOne placed.entry.ground.machine.now
        placed.entry.spots.now placed.entry.net.now) }
    ensures cut_off { (target : Chip) → IsFirstCutOffIn placed.entry.ground.machine.now
        placed.entry.spots.now placed.entry.net.now target →
        IsRefusedBy result (RepairErr.CutOff target) RepairErr.Memory }
{
    let PlacedNet {
        ground,
        spots,
        net,
        block,
    } = placed;
    let machine = ground.machine;
    let source = *spots.get(net.source as usize);
    let wanted = TargetVertices {
        spots,
        vertices: &net.targets,
    };
    let targets = targets_of(alloc, wanted)?;
    let ends = NetEnds {
        machine,
        root: source.chip,
        targets: &targets,
    };
    let chips = target_chips(alloc, ends)?;
    let growth = Ends {
        machine,
        root: source.chip,
        targets: &chips,
    };
    let Grown {
        tree: grown,
        joins: _,
    } = ner(alloc, growth)?;
    let tree = with_detours(alloc, ground, grown, &chips)?;
    Ok(NetPlan {
        block,
        source,
        targets,
        tree,
    })
}

// The tree of a net with its detours. A tree without a dead link is itself that tree: it is handed on, and not searched.
fn with_detours(
    alloc: Global,
    ground: Ground,
    tree: Tree,
    chips: &Seq<Chip>,
) -> Result<Tree, RepairErr>
    requires grown { IsGrownTree ground.machine.now tree chips.now }
    ensures root { IfOk result (λ t. t.root ≡ tree.root) }
    ensures repaired { IfOk result (λ t.
        IsRepaired ground.entry.machine.now tree.root tree.edges chips.now t.edges) }
    ensures routing { IfOk result (λ t. IsTreeTo ground.entry.machine.now tree.root t.edges
        chips.now) }
    ensures cut_off { IfErr result (IsRepairCause ground.entry.machine.now tree.root chips.now) }
{
    let edges = tree.edges.as_slice();
    if ground.carry(edges) {
        return Ok(tree);
    }
    let broken = BrokenTree {
        ground,
        root: tree.root,
        edges,
        targets: chips.as_slice(),
    };
    repair(alloc, broken)
}
