// The JSON value of a generated job.
ghost use Rattle.std.specs.Prelude.{◌≡◌, ◌<◌, ℕ, length, map, IfOk};
ghost use Rattle.serde_json.specs.View.{view, items_of};
ghost use Rattle.serde_json.specs.Data.{string, array};
ghost use Rattle.job_gen.specs.Values.{generated_vertex_name, generated_net_name, vertex_data, net_data, packet_data, chip_data, dead_pairs, machine_data, graph_data, run_data, job_data, numbered, name_data, pair_data};

use crate::draws::{Drawn, DrawnNet, DrawnPacket};
use serde_json::{Value, json};
use std::alloc::{AllocError, Global};

// The dead chips of a grid of 8 by 8 that leave a board of 48 chips, in the order of x, then y.
const DEAD_CHIPS: [(u8, u8); 16] = [
    (0, 4),
    (0, 5),
    (0, 6),
    (0, 7),
    (1, 5),
    (1, 6),
    (1, 7),
    (2, 6),
    (2, 7),
    (3, 7),
    (5, 0),
    (6, 0),
    (6, 1),
    (7, 0),
    (7, 1),
    (7, 2),
];

/// The value of the job that was drawn.
///
/// # Errors
///
/// `AllocError` where memory runs out.
#[tactic(auto, unfolding(crate::specs::Values::job_data))]
pub fn job_value(alloc: Global, job: &Drawn) -> Result<Value, AllocError>
    ensures { IfOk result (λ v. view v ≡ job_data job.now) }
{
    json!(in alloc; {
        "graph": graph_value(alloc, job)?,
        "machine": machine_value(alloc)?,
        "run": run_value(alloc, job.packets.as_slice())?,
        "version": 1u32
    })
}

// The graph: nets and vertices.
#[tactic(auto, unfolding(crate::specs::Values::graph_data))]
fn graph_value(alloc: Global, job: &Drawn) -> Result<Value, AllocError>
    ensures { IfOk result (λ v. view v ≡ graph_data job.now) }
{
    json!(in alloc; {
        "nets": nets_value(alloc, job.nets.as_slice())?,
        "vertices": vertices_value(alloc, job.sdrams.as_slice())?
    })
}

// The machine: a board of 48 chips.
#[tactic(auto, unfolding(crate::specs::Values::machine_data))]
fn machine_value(alloc: Global) -> Result<Value, AllocError>
    ensures { IfOk result (λ v. view v ≡ machine_data) }
{
    let dead_chips = dead_chips_value(alloc)?;
    json!(in alloc; {"dead_chips": dead_chips, "height": 8u32, "width": 8u32})
}

// How it is to run: each queue has room for all packets.
#[tactic(auto, unfolding(crate::specs::Values::run_data))]
fn run_value(alloc: Global, packets: &[DrawnPacket]) -> Result<Value, AllocError>
    ensures { IfOk result (λ v. view v ≡ run_data packets.now) }
{
    let packets = packets_value(alloc, packets)?;
    json!(in alloc; {"packets": packets, "patience": 16u32, "queue": 1200u32, "target": 0u32, "turns": 64u32, "workers": 4u32})
}

#[tactic(auto, unfolding(crate::specs::Values::dead_pairs))]
fn dead_chips_value(alloc: Global) -> Result<Value, AllocError>
    ensures { IfOk result (λ v. view v ≡ array (items_of (map pair_data dead_pairs))) }
{
    chips_value(alloc, &DEAD_CHIPS)
}

fn chips_value(alloc: Global, chips: &[(u8, u8)]) -> Result<Value, AllocError>
    ensures { IfOk result (λ v. view v ≡ array (items_of (map pair_data chips.now))) }
{
    let values: Vec<Value> = chips
        .iter()
        .map(|chip| chip_value(alloc, chip.0, chip.1))
        .try_collect(alloc)?;
    Ok(Value::Array(values))
}

fn chip_value(alloc: Global, x: u8, y: u8) -> Result<Value, AllocError>
    ensures { IfOk result (λ v. view v ≡ chip_data x y) }
{
    json!(in alloc; [x, y])
}

fn vertices_value(alloc: Global, sdrams: &[u32]) -> Result<Value, AllocError>
    ensures { IfOk result (λ v. view v ≡ array (items_of (numbered vertex_data 0 sdrams.now))) }
{
    let values: Vec<Value> = sdrams
        .iter()
        .enumerate()
        .map(|(i, sdram)| vertex_value(alloc, i, *sdram))
        .try_collect(alloc)?;
    Ok(Value::Array(values))
}

#[tactic(auto, unfolding(crate::specs::Values::vertex_data))]
fn vertex_value(alloc: Global, i: usize, sdram: u32) -> Result<Value, AllocError>
    ensures { IfOk result (λ v. view v ≡ vertex_data i sdram) }
{
    let name = format!(in alloc; "v{i}")?;
    json!(in alloc; {"name": name, "sdram": sdram})
}

fn nets_value(alloc: Global, nets: &[DrawnNet]) -> Result<Value, AllocError>
    ensures { IfOk result (λ v. view v ≡ array (items_of (numbered net_data 0 nets.now))) }
{
    let values: Vec<Value> = nets
        .iter()
        .enumerate()
        .map(|(i, net)| net_value(alloc, i, net))
        .try_collect(alloc)?;
    Ok(Value::Array(values))
}

#[tactic(auto, unfolding(crate::specs::Values::net_data))]
fn net_value(alloc: Global, i: usize, net: &DrawnNet) -> Result<Value, AllocError>
    ensures { IfOk result (λ v. view v ≡ net_data i net.now) }
{
    json!(in alloc; {
        "keys": net.keys,
        "name": format!(in alloc; "n{i}")?,
        "source": vertex_named(alloc, net.source)?,
        "targets": targets_value(alloc, net.targets.as_slice())?
    })
}

fn targets_value(alloc: Global, targets: &[u32]) -> Result<Value, AllocError>
    ensures { IfOk result (λ v. view v ≡ array (items_of (map name_data targets.now))) }
{
    let values: Vec<Value> = targets
        .iter()
        .map(|target| vertex_named(alloc, *target))
        .try_collect(alloc)?;
    Ok(Value::Array(values))
}

// The name of a vertex.
#[tactic(auto, unfolding(crate::specs::Values::name_data))]
fn vertex_named(alloc: Global, i: u32) -> Result<Value, AllocError>
    ensures { IfOk result (λ v. view v ≡ name_data i) }
{
    let name = format!(in alloc; "v{i}")?;
    Ok(Value::String(name))
}

fn packets_value(alloc: Global, packets: &[DrawnPacket]) -> Result<Value, AllocError>
    ensures { IfOk result (λ v. view v ≡ array (items_of (map packet_data packets.now))) }
{
    let values: Vec<Value> = packets
        .iter()
        .map(|packet| packet_value(alloc, *packet))
        .try_collect(alloc)?;
    Ok(Value::Array(values))
}

#[tactic(auto, unfolding(crate::specs::Values::packet_data))]
fn packet_value(alloc: Global, packet: DrawnPacket) -> Result<Value, AllocError>
    ensures { IfOk result (λ v. view v ≡ packet_data packet) }
{
    let DrawnPacket {
        net,
        index,
        payload,
    } = packet;
    json!(in alloc; {"index": index, "net": format!(in alloc; "n{net}")?, "payload": payload})
}
