// The nets of a graph, each with the tree that was handed in for it.
ghost use Rattle.std.specs.Prelude.{◌≡◌, All, IfOk, IfErr, length};
ghost use Rattle.app_graph.specs.ValidGraph.{IsValidGraph};
ghost use Rattle.net_plans.specs.Cause.{IsRefusedBy};
ghost use Rattle.net_plans.specs.Ways.{HasEndsAmong};
ghost use Rattle.run_report.specs.declared.causes.Refusal.{Refusal as Cause};
ghost use Rattle.run_report.specs.declared.causes.Refusal.TheVariants.{Memory as NoMemory};
ghost use Rattle.spin_checks.specs.Answers.{IsJobRefusal, HasNoAnswer};
ghost use Rattle.spin_checks.specs.Nets.{AreNetsWith, IsEachNetWith, IsNetWith, IsTreeOf, StandsOnSites};
ghost use Rattle.spin_checks.specs.Naming.{key_refusal, net_in, place_refusal, vertex_in, vertex_name_in};

use crate::lines::name_at;
use app_graph::{Graph, Net, Vertex};
use key_alloc::{KeyErr, keys};
use machine_desc::{Edge, Machine, NetPlan, Tree};
use net_plans::{TargetVertices, targets_of};
use place_fit::{PlaceErr, place};
use run_report::Refusal;
use spin_base::{Block, Chip, Memory, Name, Seq, Spot};
use std::alloc::Global;

// The nets, placed and with blocks as compiling does it, or the refusal that compiling has for these causes.
pub(crate) fn nets_with(
    alloc: Global,
    machine: &Machine,
    graph: &Graph,
    trees: &[Seq<Edge>],
) -> Result<Seq<NetPlan>, Refusal>
    requires graph { IsValidGraph graph.now }
    requires one_tree_each { length trees.now ≡ length graph.now.nets }
    ensures nets { IfOk result (AreNetsWith machine.now graph.now trees.now) }
    ensures sites { IfOk result (All (StandsOnSites machine.now)) }
    ensures none { IfErr result (HasNoAnswer machine.now graph.now) }
    ensures refused { (r : Cause) → IsJobRefusal machine.now graph.now r
        → IsRefusedBy result r NoMemory }
{
    let placement = match place(alloc, machine, graph) {
        Ok(placement) => placement,
        Err(error) => return Err(place_refusal(error, vertex_in(alloc, graph, error))),
    };
    let blocks = match keys(alloc, graph) {
        Ok(blocks) => blocks,
        Err(error) => return Err(key_refusal(error, net_in(alloc, graph, error))),
    };
    let handed = HandedNets {
        spots: &placement.spots,
        nets: &graph.nets,
        blocks: &blocks,
        trees,
    };
    match plans_with(alloc, handed) {
        Ok(plans) => Ok(plans),
        Err(Memory) => Err(Refusal::Memory),
    }
}

// The name of the vertex that has no room.
fn vertex_in(alloc: Global, graph: &Graph, error: PlaceErr) -> Result<Name, Memory>
    ensures { IfOk result (λ name. name ≡ vertex_in graph.now error) }
{
    match error {
        PlaceErr::NoRoom { vertex } => Name::of(alloc, vertex_name_in(&graph.vertices, vertex)),
        PlaceErr::Memory => Err(Memory),
    }
}

// The name of the vertex at this place, and no letter where there is no such vertex.
fn vertex_name_in(vertices: &Seq<Vertex>, vertex: u32) -> &str
    ensures { result.now ≡ vertex_name_in vertices.now vertex }
{
    match vertices.as_slice().get(vertex as usize) {
        Some(vertex) => vertex.name.as_str(),
        None => "",
    }
}

// The refusal of vertices that are not placed, with the name of the one without room.
fn place_refusal(error: PlaceErr, name: Result<Name, Memory>) -> Refusal
    ensures { result ≡ place_refusal error name }
{
    match error {
        PlaceErr::NoRoom { .. } => match name {
            Ok(name) => Refusal::NoRoom(name),
            Err(Memory) => Refusal::Memory,
        },
        PlaceErr::Memory => Refusal::Memory,
    }
}

// The name of the net that has no keys.
fn net_in(alloc: Global, graph: &Graph, error: KeyErr) -> Result<Name, Memory>
    ensures { IfOk result (λ name. name ≡ net_in graph.now error) }
{
    match error {
        KeyErr::KeysOut { net } => Name::of(alloc, name_at(&graph.nets, net)),
        KeyErr::Memory => Err(Memory),
    }
}

// The refusal of nets without keys, with the name of the first.
fn key_refusal(error: KeyErr, name: Result<Name, Memory>) -> Refusal
    ensures { result ≡ key_refusal error name }
{
    match error {
        KeyErr::KeysOut { .. } => match name {
            Ok(name) => Refusal::KeysOut(name),
            Err(Memory) => Refusal::Memory,
        },
        KeyErr::Memory => Refusal::Memory,
    }
}

// The core of each vertex, and the nets, each with its block and the edges that were handed in for it.
#[derive(Clone, Copy)]
struct HandedNets<'a> {
    spots: &'a Seq<Spot>,
    nets: &'a Seq<Net>,
    blocks: &'a Seq<Block>,
    trees: &'a [Seq<Edge>],
    ghost ends: { All (HasEndsAmong (length spots.now)) nets.now },
    ghost a_block_each: { length blocks.now ≡ length nets.now },
    ghost a_tree_each: { length trees.now ≡ length nets.now },
}

// Each net with its block and the edges that were handed in for it.
fn plans_with(alloc: Global, handed: HandedNets) -> Result<Seq<NetPlan>, Memory>
    ensures long { IfOk result (λ plans. length plans ≡ length handed.entry.nets.now) }
    ensures each { IfOk result (IsEachNetWith handed.entry.spots.now handed.entry.nets.now
        handed.entry.blocks.now handed.entry.trees.now) }
{
    let HandedNets {
        spots,
        nets,
        blocks,
        trees,
    } = handed;
    let mut plans = Seq::new(alloc);
    for i in 0..nets.len() {
        let net = HandedNet {
            spots,
            net: nets.get(i),
            block: *blocks.get(i),
            edges: &trees[i],
        };
        plans.push(net_with(alloc, net)?)?;
    }
    Ok(plans)
}

// The core of each vertex, and a net with its block and the edges that were handed in for it.
#[derive(Clone, Copy)]
struct HandedNet<'a> {
    spots: &'a Seq<Spot>,
    net: &'a Net,
    block: Block,
    edges: &'a Seq<Edge>,
    ghost ends: { HasEndsAmong (length spots.now) net.now },
}

// One net with its block and the edges that were handed in for it.
fn net_with(alloc: Global, handed: HandedNet) -> Result<NetPlan, Memory>
    ensures { IfOk result (IsNetWith handed.entry.spots.now handed.entry.net.now
        handed.entry.block handed.entry.edges.now) }
{
    let HandedNet {
        spots,
        net,
        block,
        edges,
    } = handed;
    let source = *spots.get(net.source as usize);
    let wanted = TargetVertices {
        spots,
        vertices: &net.targets,
    };
    let targets = targets_of(alloc, wanted)?;
    let tree = tree_of(alloc, source.chip, edges)?;
    Ok(NetPlan {
        block,
        source,
        targets,
        tree,
    })
}

// The tree of these edges, which begins at this chip.
fn tree_of(alloc: Global, root: Chip, edges: &Seq<Edge>) -> Result<Tree, Memory>
    ensures { IfOk result (IsTreeOf root edges.now) }
{
    let mut edges = Vec::from_slice(alloc, edges.as_slice())?;
    edges.sort_by_key(|edge| (edge.chip.x, edge.chip.y, edge.dir.number()))?;
    Ok(Tree {
        root,
        edges: Seq::from_vec(edges),
    })
}
