// What each word makes of a planned job.
ghost use Rattle.std.specs.Prelude.{◌≡◌, IfOk};
ghost use Rattle.job_gen.specs.Generated.{gen_job};
ghost use Rattle.spin_jobs.specs.Making.{IsOutputAs};
ghost use Rattle.spin_jobs.specs.Planned.{setup_of};
ghost use Rattle.spin_jobs.specs.Words.{Images, IsTraced, Lists, Reports, Summarises, TellsRun};

use crate::outcomes::WordOutput;
use crate::planned_jobs::PlannedJob;
use crate::runs::{open_job, run_job, take_events};
use mesh_core::laws::deliveries_are_as_many_as_expected;
use mesh_core::{Did, Mesh};
use par_compile::{image_of, images_fill_their_tables};
use run_report::{PlannedGraph, plan_text, report_of, summary_text, text_of};
use spin_base::{Gate, Memory, Seq};
use std::alloc::Global;
use std::sync::Wait;
use std::thread::Threads;
use table_load::encode;

// A run of the job of a number, and its summary.
pub(crate) fn generated<R: Threads + Wait + Sync, G: Gate>(
    rt: &R,
    alloc: Global,
    number: u64,
    planned: &PlannedJob<'_>,
    gate: &G,
) -> Result<WordOutput, Memory>
    ensures { IfOk result (IsOutputAs (λ job plan parts text.
        job ≡ gen_job number → Summarises number job plan parts text) planned.now) }
{
    deliveries_are_as_many_as_expected();
    let mesh = run_job(rt, alloc, planned, gate)?;
    let image = image_of(alloc, &planned.job.machine, &planned.plan.tables)?;
    let graph = PlannedGraph {
        graph: &planned.job.graph,
        spots: &planned.plan.placement.spots,
        nets: &planned.plan.nets,
    };
    let report = report_of(alloc, &graph, image.chips, &mesh, Seq::new(alloc))?;
    let text = summary_text(
        alloc,
        number,
        &planned.job.machine,
        &planned.job.graph,
        &planned.job.run,
        &report,
    )?;
    Ok(WordOutput {
        mesh: Some(mesh),
        report: Some(report),
        text,
    })
}

// The mesh after all events of the job, its report, and the report's text.
pub(crate) fn trace(alloc: Global, planned: &PlannedJob<'_>) -> Result<WordOutput, Memory>
    ensures { IfOk result (IsOutputAs (Reports IsTraced) planned.now) }
{
    let mut mesh = open_job(alloc, planned)?;
    let did = take_events(alloc, &mut mesh, planned.job.run.events.as_slice())?;
    reported(alloc, planned, mesh, did)
}

// The text of the plan.
pub(crate) fn list(alloc: Global, planned: &PlannedJob<'_>) -> Result<WordOutput, Memory>
    ensures { IfOk result (IsOutputAs Lists planned.now) }
{
    let image = image_of(alloc, &planned.job.machine, &planned.plan.tables)?;
    let graph = PlannedGraph {
        graph: &planned.job.graph,
        spots: &planned.plan.placement.spots,
        nets: &planned.plan.nets,
    };
    let text = plan_text(alloc, &graph, &image)?;
    Ok(WordOutput {
        mesh: None,
        report: None,
        text,
    })
}

// The bytes of the image of the plan's tables.
pub(crate) fn image(alloc: Global, planned: &PlannedJob<'_>) -> Result<WordOutput, Memory>
    ensures { IfOk result (IsOutputAs Images planned.now) }
{
    images_fill_their_tables();
    let image = image_of(alloc, &planned.job.machine, &planned.plan.tables)?;
    let text = encode(alloc, &image)?;
    Ok(WordOutput {
        mesh: None,
        report: None,
        text,
    })
}

// A mesh after events with these answers, its report, and the report's text.
pub(crate) fn reported(
    alloc: Global,
    planned: &PlannedJob<'_>,
    mesh: Mesh,
    did: Seq<Did>,
) -> Result<WordOutput, Memory>
    requires setup { mesh.setup ≡ setup_of planned.now.job planned.now.plan }
    ensures { IfOk result (IsOutputAs (λ job plan. TellsRun job plan mesh did) planned.now) }
{
    let image = image_of(alloc, &planned.job.machine, &planned.plan.tables)?;
    let graph = PlannedGraph {
        graph: &planned.job.graph,
        spots: &planned.plan.placement.spots,
        nets: &planned.plan.nets,
    };
    let report = report_of(alloc, &graph, image.chips, &mesh, did)?;
    let text = text_of(alloc, &report)?;
    Ok(WordOutput {
        mesh: Some(mesh),
        report: Some(report),
        text,
    })
}
