// Reads the graph of a job.
ghost use Rattle.std.specs.Prelude.{◌≡◌, ◌<◌, ◌≤◌, false, true, length, map, option_map, [], IfOk, IfSome, Some, None, All, AllPairs, slice_get};
ghost use Rattle.std.specs.List.{list_all, list_any};
ghost use Rattle.serde_json.specs.View.{view};
ghost use Rattle.job_text.specs.Reading.{GivesOrFaults, ◌▹◌};
ghost use Rattle.job_text.specs.Fields.{is_name, list_value};
ghost use Rattle.app_graph.specs.declared.graphs.Vertex.{Vertex};
ghost use Rattle.app_graph.specs.ValidGraph.{IsValidVertex, IsValidNet, IsValidGraph, IsFixedFor, AreFixedApart, HaveDifferentDevices, HasSendingSource};
ghost use Rattle.job_readers.specs.Items.{following_faults};
ghost use Rattle.job_readers.specs.Blocks.{shares_key};
ghost use Rattle.job_readers.specs.Hung.{is_among};
ghost use Rattle.job_readers.specs.Job.{job_own_faults};
ghost use Rattle.job_readers.specs.GraphPart.{name_value, name_faults, at_faults, at_value, device_faults, device_value, vertex_faults, vertex_value, next_vertex_faults, vertices_faults, vertices_value, vertex_names_of, sender_in, net_source_faults, source_value, some_faults, targets_faults, targets_value, fixed_faults, fixed_value, net_faults, net_value, next_net_faults, nets_faults, nets_value, graph_members_faults, graph_members, graph_faults, graph_value};
ghost use Rattle.job_text.specs.Paths.{path_text};

use crate::blocks::block_for;
use crate::devices::Devices;
use crate::entries::{chip_in, link_in, pair};
use crate::fixed_blocks::FixedBlocks;
use crate::items::each_item;
use crate::members::{list_of, member_from, number_of};
use crate::named_vertices::NamedVertices;
use crate::names::{Names, clash, new_name, said_name, said_text, unplaced};
use app_graph::{Graph, Net, Vertex};
use job_text::{Path, TextErr, field, list, member, object, range, shape};
use machine_desc::Edge;
use serde_json::Value;
use spin_base::{Block, Chip, Memory, Name, Seq};
use std::alloc::Global;

/// A side of the greatest grid.
const GRID: u8 = 64;

/// Bytes of shared memory of a chip (SpiNNaker datasheet).
const CHIP_MEMORY: u64 = 134217728;

/// The most vertices of a graph.
const MOST_VERTICES: u64 = 16384;

/// The most nets of a graph.
const MOST_NETS: u64 = 4096;

/// The most keys of a net: all keys of 32 bits.
const MOST_KEYS: u64 = 4294967296;

// The name of an item, which no item before it has.
#[tactic(auto, unfolding(crate::specs::GraphPart::name_faults, crate::specs::GraphPart::name_value))]
fn item_name<'a>(
    alloc: Global,
    item: &'a Value,
    path: &Path<'_>,
    before: &Names,
) -> Result<&'a str, TextErr>
    ensures { GivesOrFaults (λ s. s.now) result
        (name_faults before.now (path_text path.now) (view item.now))
        (name_value (view item.now)) }
{
    let path = Path::Member(path, "name");
    new_name(alloc, member(item, "name"), &path, before)
}

// The chip on which a vertex must stand.
#[tactic(auto, unfolding(crate::specs::GraphPart::at_faults, crate::specs::GraphPart::at_value))]
fn vertex_place(alloc: Global, item: &Value, path: &Path<'_>) -> Result<Option<Chip>, TextErr>
    ensures { GivesOrFaults (λ c. c) result (at_faults (path_text path.now) (view item.now))
        (at_value (view item.now)) }
{
    let path = Path::Member(path, "at");
    let Some(at) = member(item, "at") else {
        return Ok(None);
    };
    Ok(Some(chip_in(alloc, at, &path, GRID, GRID)?))
}

// The device that a vertex is, which no vertex before it is.
#[tactic(auto, using(crate::proofs::Firsts::firsts), unfolding(crate::specs::GraphPart::device_faults, crate::specs::GraphPart::device_value))]
fn vertex_device(
    alloc: Global,
    item: &Value,
    path: &Path<'_>,
    version: u32,
    before: &Devices,
) -> Result<Option<Edge>, TextErr>
    ensures read { GivesOrFaults (λ e. e) result
        (device_faults version before.now (path_text path.now)
        (view item.now))
        (device_value version (view item.now)) }
    ensures fresh { IfOk result (λ o. IfSome o (λ e. is_among before.now e ≡ false)) }
{
    let path = Path::Member(path, "device");
    let Some(found) = member_from(item, "device", 3, version) else {
        return Ok(None);
    };
    let device = link_in(alloc, found, &path, GRID, GRID)?;
    if before.has(device) {
        return Err(clash(alloc, &path));
    }
    Ok(Some(device))
}

#[tactic(auto, using(crate::proofs::Firsts::firsts), unfolding(crate::specs::GraphPart::vertex_faults, crate::specs::GraphPart::vertex_value))]
fn vertex(
    alloc: Global,
    item: &Value,
    path: &Path<'_>,
    version: u32,
    names: &Names,
    devices: &Devices,
) -> Result<Vertex, TextErr>
    ensures read { GivesOrFaults (λ v. v) result
        (vertex_faults version names.now devices.now (path_text path.now)
        (view item.now)) (vertex_value version (view item.now)) }
    ensures valid { IfOk result IsValidVertex }
    ensures fresh { IfOk result (λ v. IfSome v.device (λ e. is_among devices.now e ≡ false)) }
{
    let item = object(alloc, Some(item), path)?;
    let said = item_name(alloc, item, path, names)?;
    let sdram = number_of(alloc, item, path, "sdram", (0, CHIP_MEMORY), Some(0))? as u32;
    let at = vertex_place(alloc, item, path)?;
    let device = vertex_device(alloc, item, path, version, devices)?;
    Ok(Vertex {
        name: Name::of(alloc, said)?,
        sdram,
        at,
        device,
    })
}

#[tactic(auto, unfolding(crate::specs::GraphPart::vertex_names_of, crate::specs::GraphPart::devices_of))]
fn each_vertex(
    alloc: Global,
    items: &[Value],
    path: &Path<'_>,
    version: u32,
) -> Result<Seq<Vertex>, TextErr>
    requires { length items.now ≤ 16384 }
    ensures read { GivesOrFaults (λ v. v) result (following_faults (next_vertex_faults version)
        (vertex_value version) [] (path_text path.now) 0 (map view items.now))
        (map (vertex_value version) (map view items.now)) }
    ensures valid { IfOk result (λ vs. All IsValidVertex vs) }
    ensures devices { IfOk result (λ vs. AllPairs HaveDifferentDevices vs) }
{
    let mut names = Names::new(alloc, items.len())?;
    let mut devices = Devices::new(alloc);
    let mut vertices = Seq::new(alloc);
    for (i, item) in items.iter().enumerate() {
        let path = Path::Item(&*path, i as u64);
        let vertex = vertex(alloc, item, &path, version, &names, &devices)?;
        names = names.with_new(said_name(item))?;
        devices = devices.and(vertex.device)?;
        vertices.push(vertex)?;
    }
    Ok(vertices)
}

#[tactic(auto, using(crate::proofs::Firsts::firsts), unfolding(crate::specs::GraphPart::vertices_faults, crate::specs::GraphPart::vertices_value))]
fn vertices(
    alloc: Global,
    graph: &Value,
    path: &Path<'_>,
    version: u32,
) -> Result<Seq<Vertex>, TextErr>
    ensures read { GivesOrFaults (λ v. v) result
        (vertices_faults version (path_text path.now) (view graph.now))
        (vertices_value version (view graph.now)) }
    ensures valid { IfOk result (λ vs. All IsValidVertex vs) }
    ensures devices { IfOk result (λ vs. AllPairs HaveDifferentDevices vs) }
    ensures few { IfOk result (λ vs. length vs ≤ 16384) }
{
    let items = list_of(alloc, graph, path, "vertices", true, MOST_VERTICES)?;
    let path = Path::Member(path, "vertices");
    each_vertex(alloc, items, &path, version)
}

// The place of a vertex of that name, where it is no device.
#[tactic(auto, using(crate::proofs::PlaceSteps::bounds), unfolding(crate::specs::GraphPart::sender_in, crate::specs::GraphPart::sender_at))]
fn sender(said: &str, among: &NamedVertices<'_, '_>) -> Option<u32>
    ensures found { result ≡ sender_in among.now.vertices.now said.now }
    ensures below { IfSome result (λ i. i < length among.now.vertices.now) }
    ensures sends { IfSome result (λ i. (v : Vertex) → slice_get among.now.vertices.now i ≡ Some v
        → v.device ≡ None) }
{
    let i = among.names.place(said)?;
    match among.vertices.get(i as usize).device {
        Some(_) => None,
        None => Some(i),
    }
}

// The vertex that a net starts from.
#[tactic(auto, using(crate::proofs::Firsts::firsts), unfolding(crate::specs::GraphPart::net_source_faults, crate::specs::GraphPart::source_value))]
fn source(
    alloc: Global,
    item: &Value,
    path: &Path<'_>,
    among: &NamedVertices<'_, '_>,
) -> Result<u32, TextErr>
    ensures read { GivesOrFaults (λ i. i) result
        (net_source_faults among.now.vertices.now (path_text path.now)
        (view item.now))
        (source_value among.now.vertices.now (view item.now)) }
    ensures below { IfOk result (λ i. i < length among.now.vertices.now) }
    ensures sends { IfOk result (λ i. (v : Vertex) → slice_get among.now.vertices.now i ≡ Some v
        → v.device ≡ None) }
{
    let path = Path::Member(path, "source");
    let Some(said) = said_text(member(item, "source")) else {
        return Err(shape(alloc, &path));
    };
    match sender(said, among) {
        Some(i) => Ok(i),
        None => Err(unplaced(alloc, said, &path)),
    }
}

// The list of a net's targets, which has an item.
#[tactic(auto, using(crate::proofs::Firsts::firsts), unfolding(crate::specs::GraphPart::some_faults))]
fn some_items<'a>(
    alloc: Global,
    v: Option<&'a Value>,
    path: &Path<'_>,
) -> Result<&'a [Value], TextErr>
    ensures read { GivesOrFaults (λ items. map view items.now) result
        (some_faults (path_text path.now) (option_map (λ d. view d.now) v.entry))
        (list_value (option_map (λ d. view d.now) v.entry)) }
    ensures some { IfOk result (λ items. 0 < length items.now) }
{
    let items = list(alloc, v, path, true)?;
    if items.is_empty() {
        return Err(range(alloc, path));
    }
    Ok(items)
}

#[tactic(auto, using(crate::proofs::Firsts::firsts), unfolding(crate::specs::GraphPart::targets_faults, crate::specs::GraphPart::targets_value, crate::specs::Members::list_member))]
fn targets(
    alloc: Global,
    item: &Value,
    path: &Path<'_>,
    among: &NamedVertices<'_, '_>,
) -> Result<Seq<u32>, TextErr>
    ensures read { GivesOrFaults (λ t. t) result
        (targets_faults among.now.names.now (path_text path.now) (view item.now))
        (targets_value among.now.names.now (view item.now)) }
    ensures below { IfOk result (λ ts. All (λ t. t < length among.now.names.now) ts) }
    ensures some { IfOk result (λ ts. 0 < length ts) }
{
    let path = Path::Member(path, "targets");
    let items = some_items(alloc, member(item, "targets"), &path)?;
    each_item(alloc, items, &path, among)
}

// The block that a net must have, which shares no key with those before it.
#[tactic(auto, using(crate::proofs::Firsts::firsts), unfolding(crate::specs::GraphPart::fixed_faults, crate::specs::GraphPart::fixed_value))]
fn fixed_block(
    alloc: Global,
    item: &Value,
    path: &Path<'_>,
    version: u32,
    keys: u64,
    before: &FixedBlocks,
) -> Result<Option<Block>, TextErr>
    ensures read { GivesOrFaults (λ b. b) result
        (fixed_faults version before.now keys (path_text path.now)
        (view item.now)) (fixed_value version (view item.now)) }
    ensures fixed { IfOk result (λ o. IfSome o (IsFixedFor keys)) }
    ensures fresh { IfOk result (λ o. IfSome o (λ b. list_any (shares_key b) before.now ≡ false)) }
{
    let path = Path::Member(path, "fixed");
    let Some(found) = member_from(item, "fixed", 2, version) else {
        return Ok(None);
    };
    let Some((key, mask)) = pair(found) else {
        return Err(shape(alloc, &path));
    };
    let Some(block) = block_for(key, mask, keys) else {
        return Err(range(alloc, &path));
    };
    if before.meets(block) {
        return Err(clash(alloc, &path));
    }
    Ok(Some(block))
}

// What the nets before one have: their names, and their fixed blocks.
#[derive(Clone, Copy)]
struct NetsBefore<'a, 'b> {
    names: &'a Names<'b>,
    blocks: &'a FixedBlocks,
}

// The net that an item is, after nets with these names and blocks.
#[tactic(auto, using(crate::proofs::Firsts::firsts), unfolding(crate::specs::GraphPart::net_faults, crate::specs::GraphPart::net_value, crate::specs::GraphPart::keys_value))]
fn net(
    alloc: Global,
    item: &Value,
    path: &Path<'_>,
    version: u32,
    before: &NetsBefore<'_, '_>,
    among: &NamedVertices<'_, '_>,
) -> Result<Net, TextErr>
    ensures read { GivesOrFaults (λ n. n) result
        (net_faults version among.now.vertices.now before.now.names.now before.now.blocks.now
        (path_text path.now) (view item.now))
        (net_value version among.now.vertices.now (view item.now)) }
    ensures valid { IfOk result (IsValidNet (length among.now.vertices.now)) }
    ensures sends { IfOk result (HasSendingSource among.now.vertices.now) }
    ensures fresh { IfOk result
        (λ n. IfSome n.fixed (λ b. list_any (shares_key b) before.now.blocks.now ≡ false)) }
{
    let item = object(alloc, Some(item), path)?;
    let said = item_name(alloc, item, path, before.names)?;
    let source = source(alloc, item, path, among)?;
    let targets = targets(alloc, item, path, among)?;
    let keys = number_of(alloc, item, path, "keys", (1, MOST_KEYS), Some(1))?;
    let fixed = fixed_block(alloc, item, path, version, keys, before.blocks)?;
    Ok(Net {
        name: Name::of(alloc, said)?,
        source,
        targets,
        keys,
        fixed,
    })
}

#[tactic(auto, unfolding(crate::specs::GraphPart::net_names, crate::specs::GraphPart::fixed_blocks_of))]
fn each_net(
    alloc: Global,
    items: &[Value],
    path: &Path<'_>,
    version: u32,
    among: &NamedVertices<'_, '_>,
) -> Result<Seq<Net>, TextErr>
    requires few { length items.now ≤ 4096 }
    ensures read { GivesOrFaults (λ n. n) result
        (following_faults (next_net_faults version among.now.vertices.now)
        (net_value version among.now.vertices.now)
        [] (path_text path.now) 0 (map view items.now))
        (map (net_value version among.now.vertices.now) (map view items.now)) }
    ensures valid { IfOk result (λ ns. All (IsValidNet (length among.now.vertices.now)) ns) }
    ensures sources { IfOk result (λ ns. All (HasSendingSource among.now.vertices.now) ns) }
    ensures fixed { IfOk result (λ ns. AllPairs AreFixedApart ns) }
{
    let mut names = Names::new(alloc, items.len())?;
    let mut blocks = FixedBlocks::new(alloc);
    let mut nets = Seq::new(alloc);
    for (i, item) in items.iter().enumerate() {
        let path = Path::Item(&*path, i as u64);
        let before = NetsBefore {
            names: &names,
            blocks: &blocks,
        };
        let net = net(alloc, item, &path, version, &before, among)?;
        names = names.with_new(said_name(item))?;
        blocks = blocks.and(net.fixed)?;
        nets.push(net)?;
    }
    Ok(nets)
}

#[tactic(auto, using(crate::proofs::Firsts::firsts), unfolding(crate::specs::GraphPart::nets_faults, crate::specs::GraphPart::nets_value))]
fn nets(
    alloc: Global,
    graph: &Value,
    path: &Path<'_>,
    version: u32,
    among: &NamedVertices<'_, '_>,
) -> Result<Seq<Net>, TextErr>
    ensures read { GivesOrFaults (λ n. n) result
        (nets_faults version among.now.vertices.now (path_text path.now)
        (view graph.now))
        (nets_value version among.now.vertices.now (view graph.now)) }
    ensures valid { IfOk result (λ ns. All (IsValidNet (length among.now.vertices.now)) ns) }
    ensures sources { IfOk result (λ ns. All (HasSendingSource among.now.vertices.now) ns) }
    ensures fixed { IfOk result (λ ns. AllPairs AreFixedApart ns) }
    ensures few { IfOk result (λ ns. length ns ≤ 4096) }
{
    let items = list_of(alloc, graph, path, "nets", true, MOST_NETS)?;
    let path = Path::Member(path, "nets");
    each_net(alloc, items, &path, version, among)
}

// The names of vertices.
#[tactic(auto, unfolding(crate::specs::GraphPart::vertex_names_of))]
pub(crate) fn names_of_vertices<'a>(
    alloc: Global,
    vertices: &'a [Vertex],
) -> Result<Names<'a>, Memory>
    requires { length vertices.now ≤ 16384 }
    ensures { IfOk result (λ names. names ≡ vertex_names_of vertices.now) }
{
    let mut names = Names::new(alloc, vertices.len())?;
    for vertex in vertices {
        names = names.with(vertex.name.as_str())?;
    }
    Ok(names)
}

// The nets among these vertices.
fn nets_among(
    alloc: Global,
    graph: &Value,
    path: &Path<'_>,
    version: u32,
    vertices: &Seq<Vertex>,
) -> Result<Seq<Net>, TextErr>
    requires few { length vertices.now ≤ 16384 }
    requires known { list_all is_name (vertex_names_of vertices.now) ≡ true }
    ensures read { GivesOrFaults (λ n. n) result
        (nets_faults version vertices.now (path_text path.now)
        (view graph.now)) (nets_value version vertices.now (view graph.now)) }
    ensures valid { IfOk result (λ ns. All (IsValidNet (length vertices.now)) ns) }
    ensures sources { IfOk result (λ ns. All (HasSendingSource vertices.now) ns) }
    ensures fixed { IfOk result (λ ns. AllPairs AreFixedApart ns) }
    ensures few { IfOk result (λ ns. length ns ≤ 4096) }
{
    let names = names_of_vertices(alloc, vertices.as_slice())?;
    let among = NamedVertices {
        vertices,
        names: &names,
    };
    nets(alloc, graph, path, version, &among)
}

#[tactic(auto, using(crate::proofs::Firsts::firsts), unfolding(crate::specs::GraphPart::graph_members_faults, crate::specs::GraphPart::graph_members))]
fn graph_members(
    alloc: Global,
    graph: &Value,
    path: &Path<'_>,
    version: u32,
) -> Result<Graph, TextErr>
    ensures read { GivesOrFaults (λ g. g) result (graph_members_faults version (path_text path.now)
        (view graph.now))
        (graph_members version (view graph.now)) }
    ensures valid { IfOk result IsValidGraph }
{
    let vertices = vertices(alloc, graph, path, version)?;
    let nets = nets_among(alloc, graph, path, version, &vertices)?;
    Ok(Graph { vertices, nets })
}

/// The graph of the job at a path, which is valid. The job's version says which members are read: `fixed` of a net from
/// version 2 on, `device` of a vertex from version 3 on.
///
/// # Errors
///
/// `Fault` with the first fault of the job's own shape and of its graph; `Memory`.
#[tactic(auto, using(crate::proofs::Firsts::firsts), unfolding(crate::specs::Job::job_own_faults, crate::specs::GraphPart::graph_faults, crate::specs::GraphPart::graph_value))]
pub fn graph_of(alloc: Global, job: &Value, path: &Path<'_>, version: u32) -> Result<Graph, TextErr>
    ensures graph { GivesOrFaults (λ g. g) result
        (job_own_faults (path_text path.now) (view job.now) ▹ graph_faults
        (path_text path.now) version (view job.now))
        (graph_value version (view job.now)) }
    ensures valid { IfOk result IsValidGraph }
{
    let found = field(alloc, job, path, "graph")?;
    let path = Path::Member(path, "graph");
    let graph = object(alloc, found, &path)?;
    graph_members(alloc, graph, &path, version)
}
