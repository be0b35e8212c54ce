// The mesh of a job: opened, after all its packets, or after all its events.
ghost use Rattle.std.specs.Prelude.{◌≡◌, ◌≤◌, IfOk, OnOk, []};
ghost use Rattle.app_graph.specs.RunPart.{IsRunOf};
ghost use Rattle.mesh_core.specs.State.{State, IsMesh};
ghost use Rattle.mesh_core.specs.Step.{after_events, answers_of};
ghost use Rattle.mesh_core.specs.Expected.{IsAtRest};
ghost use Rattle.mesh_round.specs.Bound.{LeadsSoon};
ghost use Rattle.mesh_round.specs.OnThreads.{MayGoOn};
ghost use Rattle.mesh_round.specs.Reinjecting.{HasPasses};
ghost use Rattle.job_readers.specs.declared.jobs.Job.{Job};
ghost use Rattle.par_compile.specs.declared.compiling.Plan.{Plan};
ghost use Rattle.spin_jobs.specs.Planned.{opened_of, setup_of, IsMeshOf, IsPlanOfJob};
ghost use Rattle.spin_jobs.specs.Reinjecting.{HasKeptPasses};
ghost use Rattle.spin_jobs.specs.Runs.{IsReachedSoon, IsRoomy};

use crate::planned_jobs::PlannedJob;
use mesh_core::{Did, Mesh, MeshSetup};
use mesh_drain::open_mesh;
use mesh_round::flow_laws::{
    roomy_rounds_deliver_all, rounds_keep_the_ledger, rounds_lead_to_a_mesh,
};
use mesh_round::laws::{a_quiet_mesh_is_ready, passes_keep_the_ledger};
use mesh_round::{reinject, run_out};
use mesh_run::Pace;
use par_compile::memories_of;
use spin_base::{Event, Gate, Memory, Seq};
use std::alloc::Global;
use std::sync::Wait;
use std::thread::Threads;

// The mesh of a job after all its packets: by rounds from the opened one, until nothing waits and nothing is unsent.
pub(crate) fn run_job<R: Threads + Wait + Sync, G: Gate>(
    rt: &R,
    alloc: Global,
    planned: &PlannedJob<'_>,
    gate: &G,
) -> Result<Mesh, Memory>
    ensures reached { IfOk result (IsReachedSoon planned.now.job planned.now.plan) }
    ensures kept { IfOk result (IsMeshOf planned.now.job planned.now.plan) }
    ensures at_rest { IfOk result IsAtRest }
    ensures no_record { IfOk result (λ mesh. IsRoomy planned.now.job → mesh.dumped ≡ []) }
{
    rounds_of_a_job();
    // Read, so that what holds of each planned job is known here.
    let _job = planned.job;
    let mesh = open_job(alloc, planned)?;
    match run_out(rt, alloc, mesh, pace_of(planned, workers_of(planned)), gate) {
        Ok(mesh) => Ok(mesh),
        Err((_, memory)) => Err(memory),
    }
}

// The mesh of a job after all its packets, with dumped copies put back between rounds until none is left.
pub(crate) fn reinject_job<R: Threads + Wait + Sync, G: Gate>(
    rt: &R,
    alloc: Global,
    planned: &PlannedJob<'_>,
    gate: &G,
) -> Result<Mesh, Memory>
    ensures reached { IfOk result (HasKeptPasses planned.now.job planned.now.plan) }
    ensures kept { IfOk result (IsMeshOf planned.now.job planned.now.plan) }
    ensures at_rest { IfOk result IsAtRest }
    ensures no_record { IfOk result (λ mesh. mesh.dumped ≡ []) }
{
    passes_of_a_job();
    // Read, so that what holds of each planned job is known here.
    let _job = planned.job;
    let mesh = open_job(alloc, planned)?;
    match reinject(rt, alloc, mesh, pace_of(planned, 1), gate) {
        Ok(mesh) => Ok(mesh),
        Err((_, memory)) => Err(memory),
    }
}

// How many workers share the chips of a run: those that the job asks for, and no more than a round has turns. So for each turn at most
// one thread is begun.
fn workers_of(planned: &PlannedJob<'_>) -> u32
    ensures some { 1 ≤ result }
    ensures asked { result ≤ planned.now.job.run.workers }
    ensures few { result ≤ planned.now.job.run.turns }
{
    let run = &planned.job.run;
    if run.workers < run.turns {
        run.workers
    } else {
        run.turns
    }
}

// How the rounds of a job go.
fn pace_of(planned: &PlannedJob<'_>, workers: u32) -> Pace
    requires { 1 ≤ workers }
    ensures patience { result.patience ≡ planned.now.job.run.patience }
    ensures turns { result.turns ≡ planned.now.job.run.turns }
{
    let run = &planned.job.run;
    Pace {
        patience: run.patience,
        workers,
        turns: run.turns,
    }
}

// Few rounds from the opened mesh of a planned job, of the job's patience and turns, lead to a mesh of the job and keep its ledger;
// and where queues have room for all packets, they make no dump record.
fn rounds_of_a_job()
    ensures { (job : Job) (plan : Plan) (m n : State) → IsRunOf job.graph job.run
        → IsPlanOfJob job plan → IsMesh m → m ≡ opened_of job plan →
        LeadsSoon job.run.patience job.run.turns m n → IsReachedSoon job plan n
        × IsMeshOf job plan n × (IsRoomy job → n.dumped ≡ []) }
{
    rounds_keep_the_ledger();
    rounds_lead_to_a_mesh();
    roomy_rounds_deliver_all();
}

// The same of rounds and copies put back, in any order.
fn passes_of_a_job()
    ensures { (job : Job) (plan : Plan) (m n : State) → IsRunOf job.graph job.run
        → IsPlanOfJob job plan → IsMesh m → m ≡ opened_of job plan →
        HasPasses job.run.patience job.run.turns m n → HasKeptPasses job plan n
        × IsMeshOf job plan n }
{
    passes_keep_the_ledger();
}

// The mesh of a job before its first event.
pub(crate) fn open_job(alloc: Global, planned: &PlannedJob<'_>) -> Result<Mesh, Memory>
    ensures opened { IfOk result (λ mesh. mesh ≡ opened_of planned.now.job planned.now.plan) }
    ensures ready { IfOk result MayGoOn }
{
    a_quiet_mesh_is_ready();
    let setup = setup_of(alloc, planned)?;
    let nets = planned.plan.nets.as_slice();
    let packets = planned.job.run.packets.as_slice();
    open_mesh(alloc, setup, nets, packets)
}

// Takes events one by one, and gives the answers to them in their order.
pub(crate) fn take_events(
    alloc: Global,
    mesh: &mut Mesh,
    events: &[Event],
) -> Result<Seq<Did>, Memory>
    ensures mesh { OnOk result (mesh.new ≡ after_events mesh.old events.now) }
    ensures did { IfOk result (λ did. did ≡ answers_of mesh.old events.now) }
    ensures setup { OnOk result (mesh.new.setup ≡ mesh.old.setup) }
{
    let mut did = Seq::new(alloc);
    for event in events {
        did.push(mesh.step(*event)?)?;
    }
    Ok(did)
}

// What the mesh of a job never changes: the job's machine, the plan's spots, the lookup memories that are loaded from the image of
// its tables, and the capacity of its queues.
fn setup_of(alloc: Global, planned: &PlannedJob<'_>) -> Result<MeshSetup, Memory>
    ensures { IfOk result (λ setup. setup ≡ setup_of planned.now.job planned.now.plan) }
{
    let spots = Vec::from_slice(alloc, planned.plan.placement.spots.as_slice())?;
    let memories = memories_of(alloc, &planned.job.machine, &planned.plan.tables)?;
    MeshSetup::new(
        alloc,
        planned.job.machine.copy(alloc)?,
        Seq::from_vec(spots),
        memories,
        planned.job.run.queue,
    )
}
