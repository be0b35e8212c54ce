// Reads the run part of a job.
ghost use Rattle.std.specs.Prelude.{◌≡◌, ◌+◌, ◌*◌, ◌<◌, ◌≤◌, ◌-◌, [], length, map, codes, IfOk, All, Some, None};
ghost use Rattle.std.proofs.Props.{props};
ghost use Rattle.serde_json.specs.View.{view};
ghost use Rattle.serde_json.specs.Data.{null};
ghost use Rattle.job_text.specs.Reading.{GivesOrFaults, ◌▹◌};
ghost use Rattle.machine_desc.specs.Live.{live_count_of};
ghost use Rattle.app_graph.specs.ValidGraph.{IsValidGraph};
ghost use Rattle.app_graph.specs.RunPart.{key_count_of, IsPacketOf, IsRunOf};
ghost use Rattle.job_readers.specs.Members.{number_member_faults, number_member, optional_number};
ghost use Rattle.job_readers.specs.Job.{job_own_faults};
ghost use Rattle.job_readers.specs.GraphPart.{net_names};
ghost use Rattle.job_readers.specs.RunPart.{packets_faults, packets_value, events_faults, events_value, places_faults, run_members_faults, run_members, run_faults, run_value};
ghost use Rattle.job_text.specs.Paths.{path_text};

use crate::events::events;
use crate::items::{ItemReader, each_item};
use crate::members::{list_of, number_of};
use crate::names::{Names, reference};
use crate::valid_graphs::ValidGraph;
use app_graph::{Graph, Net, RunPart};
use job_text::{Path, TextErr, count_to, field, member, number_in, object};
use machine_desc::Machine;
use serde_json::Value;
use spin_base::{Memory, Packet, Port, Seq};
use std::alloc::Global;

/// The most packets of a job.
const MOST_PACKETS: u64 = 65536;

/// The most places of all queues together.
const MOST_PLACES: u64 = 16777216;

// The last key of a net, counted from 0.
fn last_key(valid: &ValidGraph<'_>, net: u32) -> u64
    requires { net < length valid.now.graph.now.nets }
    ensures last { result ≡ key_count_of valid.now.graph.now.nets net - 1 }
    ensures key { result < key_count_of valid.now.graph.now.nets net }
    ensures small { result < 4294967296 }
{
    valid.graph.nets.get(net as usize).keys - 1
}

// The payload of a packet.
#[tactic(auto, unfolding(crate::specs::Members::number_member_faults, crate::specs::Members::optional_number))]
fn payload_of(alloc: Global, item: &Value, path: &Path<'_>) -> Result<Option<u32>, TextErr>
    ensures { GivesOrFaults (λ p. p) result (number_member_faults (path_text path.now)
        (codes "payload") 0 4294967295
        (Some 0) (view item.now)) (optional_number (codes "payload") (view item.now)) }
{
    let path = Path::Member(path, "payload");
    let Some(found) = member(item, "payload") else {
        return Ok(None);
    };
    let payload = number_in(alloc, Some(found), &path, 0, 4294967295, None)?;
    Ok(Some(payload as u32))
}

// The nets, by whose names packets are read.
#[derive(Clone, Copy)]
struct Senders<'a, 'b> {
    valid: ValidGraph<'a>,
    names: &'a Names<'b>,
    ghost named: { names.now ≡ net_names valid.graph.now.nets } by { Prim.hlevel props },
}

impl<'a, 'b> ItemReader for Senders<'a, 'b> {
    ghost use Rattle.app_graph.specs.RunPart.{IsPacketOf};
    ghost use Rattle.job_readers.specs.RunPart.{packet_faults, packet_value};

    type Item = Packet;

    ghost faults = { λ among. packet_faults among.valid.graph.now.nets };

    ghost value = { λ among. packet_value among.valid.graph.now.nets };

    ghost Holds = { λ among. IsPacketOf among.valid.graph.now.nets };

    #[tactic(auto, using(crate::proofs::Firsts::firsts), unfolding(crate::specs::RunPart::packet_faults, crate::specs::RunPart::packet_net_faults, crate::specs::RunPart::packet_net, crate::specs::RunPart::packet_value))]
    fn read(&self, alloc: Global, item: &Value, path: &Path<'_>) -> Result<Packet, TextErr> {
        let item = object(alloc, Some(item), path)?;
        let sender = Path::Member(path, "net");
        let net = reference(alloc, member(item, "net"), &sender, self.names)?;
        let last = last_key(&self.valid, net);
        let index = number_of(alloc, item, path, "index", (0, last), None)? as u32;
        let payload = payload_of(alloc, item, path)?;
        Ok(Packet {
            net,
            index,
            payload,
        })
    }
}

// The names of nets.
#[tactic(auto, unfolding(crate::specs::GraphPart::net_names))]
fn names_of_nets<'a>(alloc: Global, nets: &'a [Net]) -> Result<Names<'a>, Memory>
    requires { length nets.now ≤ 4096 }
    ensures { IfOk result (λ names. names ≡ net_names nets.now) }
{
    let mut names = Names::new(alloc, nets.len())?;
    for net in nets {
        names = names.with(net.name.as_str())?;
    }
    Ok(names)
}

#[tactic(auto, using(crate::proofs::Firsts::firsts), unfolding(crate::specs::RunPart::packets_faults, crate::specs::RunPart::packets_value))]
fn packets(
    alloc: Global,
    run: &Value,
    path: &Path<'_>,
    valid: &ValidGraph<'_>,
) -> Result<Seq<Packet>, TextErr>
    ensures read { GivesOrFaults (λ p. p) result (packets_faults valid.now.graph.now.nets (path_text path.now)
        (view run.now))
        (packets_value valid.now.graph.now.nets (view run.now)) }
    ensures found { IfOk result (λ ps. All (IsPacketOf valid.now.graph.now.nets) ps) }
    ensures few { IfOk result (λ ps. length ps ≤ 65536) }
{
    let items = list_of(alloc, run, path, "packets", false, MOST_PACKETS)?;
    // The names of nets are for packets alone.
    if items.is_empty() {
        return Ok(Seq::new(alloc));
    }
    let path = Path::Member(path, "packets");
    let names = names_of_nets(alloc, valid.graph.nets.as_slice())?;
    let senders = Senders {
        valid: *valid,
        names: &names,
    };
    each_item(alloc, items, &path, &senders)
}

// Tests that the places of all queues are not too many.
#[tactic(auto, unfolding(crate::specs::RunPart::places_faults))]
fn places_to(
    alloc: Global,
    run: &Value,
    path: &Path<'_>,
    queue: u32,
    live: u32,
    vertices: u16,
) -> Result<(), TextErr>
    requires queue { queue ≡ number_member (codes "queue") (Some 16) (view run.now) }
    requires few { queue ≤ 65536 }
    ensures { GivesOrFaults (λ u. u) result (places_faults live vertices (path_text path.now)
        (view run.now)) tt }
{
    let path = Path::Member(path, "queue");
    let places = u64::from(queue)
        * (u64::from(Port::COUNT) * u64::from(live) + u64::from(vertices));
    count_to(alloc, &path, MOST_PLACES, places)
}

#[tactic(auto, using(crate::proofs::Firsts::firsts), unfolding(crate::specs::RunPart::run_members_faults, crate::specs::RunPart::run_members))]
fn run_members(
    alloc: Global,
    run: &Value,
    path: &Path<'_>,
    machine: &Machine,
    valid: &ValidGraph<'_>,
) -> Result<RunPart, TextErr>
    ensures read { GivesOrFaults (λ r. r) result
        (run_members_faults (live_count_of machine.now) valid.now.graph.now (path_text path.now)
        (view run.now))
        (run_members valid.now.graph.now (view run.now)) }
    ensures found { IfOk result (IsRunOf valid.now.graph.now) }
{
    let queue = number_of(alloc, run, path, "queue", (1, 65536), Some(16))? as u32;
    let patience = number_of(alloc, run, path, "patience", (1, 255), Some(16))? as u32;
    let workers = number_of(alloc, run, path, "workers", (1, 64), Some(1))? as u32;
    let turns = number_of(alloc, run, path, "turns", (1, 64), Some(16))? as u32;
    let target = number_of(alloc, run, path, "target", (0, 1024), Some(1024))? as u32;
    let packets = packets(alloc, run, path, valid)?;
    let events = events(alloc, run, path, valid)?;
    let vertices = valid.graph.vertices.len() as u16;
    places_to(alloc, run, path, queue, machine.live_count(), vertices)?;
    Ok(RunPart {
        queue,
        patience,
        workers,
        turns,
        target,
        packets,
        events,
    })
}

// The run part that is not there.
fn absent_run(
    alloc: Global,
    path: &Path<'_>,
    machine: &Machine,
    valid: &ValidGraph<'_>,
) -> Result<RunPart, TextErr>
    ensures read { GivesOrFaults (λ r. r) result
        (run_members_faults (live_count_of machine.now) valid.now.graph.now (path_text path.now) null)
        (run_members valid.now.graph.now null) }
    ensures found { IfOk result (IsRunOf valid.now.graph.now) }
{
    let absent = Value::Null;
    run_members(alloc, &absent, path, machine, valid)
}

/// The run part of the job at a path, for its machine and its graph.
///
/// # Errors
///
/// `Fault` with the first fault of the job's own shape and of its run part; `Memory`.
#[tactic(auto, using(crate::proofs::Firsts::firsts), unfolding(crate::specs::Job::job_own_faults, crate::specs::RunPart::optional_object_faults, crate::specs::RunPart::run_faults, crate::specs::RunPart::run_value))]
pub fn run_of(
    alloc: Global,
    job: &Value,
    path: &Path<'_>,
    machine: &Machine,
    graph: &Graph,
) -> Result<RunPart, TextErr>
    requires { IsValidGraph graph.now }
    ensures run { GivesOrFaults (λ r. r) result
        (job_own_faults (path_text path.now) (view job.now) ▹ run_faults
        (path_text path.now) machine.now graph.now
        (view job.now)) (run_value graph.now (view job.now)) }
    ensures found { IfOk result (IsRunOf graph.now) }
{
    let found = field(alloc, job, path, "run")?;
    let path = Path::Member(path, "run");
    let valid = ValidGraph { graph };
    let Some(found) = found else {
        return absent_run(alloc, &path, machine, &valid);
    };
    let run = object(alloc, Some(found), &path)?;
    run_members(alloc, run, &path, machine, &valid)
}
