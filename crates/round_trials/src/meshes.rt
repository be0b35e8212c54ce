// Where a copy is in the mesh of a job, and what a round makes of that mesh.
ghost use Rattle.std.specs.Prelude.{◌≡◌, [], IfSome};
ghost use Rattle.app_graph.specs.RunPart.{IsRunOf};
ghost use Rattle.app_graph.specs.ValidGraph.{IsValidGraph};
ghost use Rattle.mesh_round.specs.RoundFlow.{HasNoHand};
ghost use Rattle.spin_jobs.specs.Parts.{WhereRun};
ghost use Rattle.round_trials.specs.Kept.{KeepsLedger};

use crate::calls::THREE_PACKETS;
use crate::gates::InOrder;
use job_readers::Job;
use mesh_core::{Mesh, Place, Where};
use mesh_round::round;
use mesh_run::Pace;
use spin_base::{Chip, Delivery, Dir, DumpRec, FreeGate, McCopy, Out, Port};
use spin_input::job_of_text;
use spin_jobs::{Parts, made_of_job};
use spin_words::JobWord;
use std::alloc::Global;
use std::mem;
use std::sync::Wait;
use std::thread::Threads;

/// The same two chips with one packet, which its vertex has sent.
const ONE_INJECTED: &str =
    "{\"version\":1,\"machine\":{\"width\":2,\"height\":1},\"graph\":{\"vertices\":[{\"name\":\"a\",\"at\":[0,0]},{\"name\":\"b\",\"at\":[1,0]}],\"nets\":[{\"name\":\"n\",\"source\":\"a\",\"targets\":[\"b\"]}]},\"run\":{\"packets\":[{\"net\":\"n\",\"index\":0}],\"events\":[[\"inject\",\"a\"]]}}";

// The job of a text. What else is made here and below is forgotten, so that the tests owe no proof of taking it apart.
fn job_in(alloc: Global, text: &str) -> Option<Job>
    ensures graph { IfSome result (λ job. IsValidGraph job.graph) }
    ensures run { IfSome result (λ job. IsRunOf job.graph job.run) }
{
    match job_of_text(alloc, text.as_bytes()) {
        Ok(job) => Some(job),
        Err(refusal) => {
            mem::forget(refusal);
            None
        }
    }
}

// The job with its plan, and its mesh after its events.
fn traced<R: Threads + Wait + Sync>(rt: &R, alloc: Global, job: Job) -> Option<Parts>
    requires graph { IsValidGraph job.graph }
    requires run { IsRunOf job.graph job.run }
    ensures kept { IfSome result (λ p. WhereRun p KeepsLedger) }
    ensures no_hand { IfSome result (λ p. job.run.events ≡ [] → IfSome p.mesh HasNoHand) }
{
    match made_of_job(rt, alloc, JobWord::Trace, job, &FreeGate) {
        Ok(made) => {
            mem::forget(made.text);
            Some(made.parts)
        }
        Err(refusal) => {
            mem::forget(refusal);
            None
        }
    }
}

// Where the first packet is on its way to the first target of the first net, if it is of that net.
fn first_copy(parts: &Parts) -> Option<Where>
    requires { WhereRun parts.now KeepsLedger }
{
    let job = parts.job.as_ref()?;
    let plan = parts.plan.as_ref()?;
    let mesh = parts.mesh.as_ref()?;
    let _report = parts.report.as_ref()?;
    let packet = job.run.packets.as_slice().first()?;
    let net = plan.nets.as_slice().first()?;
    let target = net.targets.as_slice().first()?;
    if packet.net != 0 || mesh.delivered().len() > 9 || mesh.dumped().len() > 9 {
        return None;
    }
    Some(mesh.where_is(net, 0, *target))
}

// The same in the mesh of a job after its events.
fn found<R: Threads + Wait + Sync>(rt: &R, alloc: Global, text: &str) -> Option<Where> {
    let job = job_in(alloc, text)?;
    let parts = traced(rt, alloc, job)?;
    let place = first_copy(&parts);
    mem::forget(parts);
    place
}

#[test]
fn a_packet_is_found_unsent(rt: HostRuntime) {
    assert!(rt; found(&rt, rt.alloc(), THREE_PACKETS) == Some(Where::Unsent));
}

// An injected copy stands in the queue of its chip's own cores (docs/formats.md, "How a run goes").
#[test]
fn an_injected_packet_is_found_in_the_queue_of_the_cores(rt: HostRuntime) {
    let queue = Place::InQueue(Chip { x: 0, y: 0 }, Port::Local);
    assert!(rt; found(&rt, rt.alloc(), ONE_INJECTED) == Some(Where::At(queue)));
}

// The mesh of a job before any event.
fn opened<R: Threads + Wait + Sync>(rt: &R, alloc: Global, text: &str) -> Option<Mesh>
    ensures { IfSome result HasNoHand }
{
    let job = job_in(alloc, text)?;
    if !job.run.events.as_slice().is_empty() {
        mem::forget(job);
        return None;
    }
    let Parts {
        job,
        plan,
        mesh,
        report,
    } = traced(rt, alloc, job)?;
    mem::forget(job);
    mem::forget(plan);
    mem::forget(report);
    mesh
}

// Two workers of four turns, without patience.
fn pace() -> Pace {
    Pace {
        patience: 1,
        workers: 2,
        turns: 4,
    }
}

// The mesh of the three packets after one round under a gate.
fn after_round<R: Threads + Wait + Sync>(rt: &R, alloc: Global, gate: &InOrder) -> Option<Mesh> {
    let mesh = opened(rt, alloc, THREE_PACKETS)?;
    match round(rt, alloc, mesh, pace(), 1, gate) {
        Ok(mesh) => Some(mesh),
        Err(refused) => {
            mem::forget(refused);
            None
        }
    }
}

// Whether a round under this gate delivers, drops and leaves waiting at the second chip these copies: in each test all three.
fn leaves<R: Threads + Wait + Sync>(
    rt: &R,
    alloc: Global,
    gate: &InOrder,
    delivered: &[Delivery],
    dumped: &[DumpRec],
    waiting: &[McCopy],
) -> bool {
    let Some(mesh) = after_round(rt, alloc, gate) else {
        return false;
    };
    let right = Chip { x: 1, y: 0 };
    let is_right = mesh.machine().is_inside(right)
        && mesh.delivered() == delivered
        && mesh.dumped() == dumped
        && mesh.queue(right, Port::Link(Dir::West)) == waiting;
    mem::forget(mesh);
    is_right && gate.held()
}

// The copy of a packet that has passed so many routers.
fn copy(packet: u32, hop: u32) -> McCopy {
    McCopy {
        packet,
        key: 0,
        payload: None,
        hop,
    }
}

// The delivery of a packet to `b`, behind two routers.
fn got(packet: u32) -> Delivery {
    Delivery {
        vertex: 1,
        copy: copy(packet, 2),
    }
}

// The record of a packet that found the queue behind the first chip's link East full.
fn dump(packet: u32) -> DumpRec {
    DumpRec {
        chip: Chip { x: 0, y: 0 },
        out: Out::Link(Dir::East),
        copy: copy(packet, 0),
    }
}

// Worker 0 has the first chip, worker 1 the second; in a turn a chip's router goes before its bank. The first chip's four turns
// without the second are: (1) the bank injects packet 0; (2) the router sends it East, where the queue was empty, and the bank
// injects packet 1; (3) the router offers packet 1 once, finds the queue full, and drops it, and the bank injects packet 2; (4) the
// router drops that, too.
#[test]
fn a_round_ends_with_its_turns(rt: HostRuntime) {
    // The second chip's turns come after these: (1) its router sends packet 0 to the core, and its bank delivers it.
    let after = InOrder::new([[0, 0, 0, 0, 0], [5, 0, 0, 0, 0]]);
    assert!(rt; leaves(&rt, rt.alloc(), &after, &[got(0)], &[dump(1), dump(2)], &[]));
    // They come before these, and find nothing: packet 0 still waits at the end.
    let before = InOrder::new([[5, 0, 0, 0, 0], [0, 0, 0, 0, 0]]);
    assert!(rt;
        leaves(
            &rt,
            rt.alloc(),
            &before,
            &[],
            &[dump(1), dump(2)],
            &[copy(0, 1)]
        )
    );
    // They come between: what the first chip sends in its turns 2, 3 and 4 is delivered in the same turn of the second.
    let between = InOrder::new([[0, 2, 3, 4, 5], [2, 3, 4, 5, 0]]);
    assert!(rt;
        leaves(
            &rt,
            rt.alloc(),
            &between,
            &[got(0), got(1), got(2)],
            &[],
            &[]
        )
    );
}
