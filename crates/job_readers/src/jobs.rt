// The whole job.
ghost use Rattle.std.specs.Prelude.{◌≡◌, IfOk};
ghost use Rattle.serde_json.specs.View.{view};
ghost use Rattle.job_text.specs.Reading.{GivesOrFaults};
ghost use Rattle.app_graph.specs.ValidGraph.{IsValidGraph};
ghost use Rattle.app_graph.specs.RunPart.{IsRunOf};
ghost use Rattle.job_readers.specs.Named.{HasNamesApart};
ghost use Rattle.job_readers.specs.WholeJob.{job_faults, job_value};
ghost use Rattle.job_text.specs.Paths.{path_text};

use crate::graph_parts::graph_of;
use crate::machine_parts::machine_of;
use crate::run_parts::run_of;
use crate::versions::version_of;
use app_graph::{Graph, RunPart};
use job_text::{Path, TextErr};
use machine_desc::Machine;
use serde_json::Value;
use std::alloc::Global;

/// The greatest version of the text of a job.
pub const GREATEST_VERSION: u32 = 3;

/// A job: its machine, its graph, and how it is to run.
#[derive(Drop)]
pub struct Job {
    pub machine: Machine,
    pub graph: Graph,
    pub run: RunPart,
}

/// The job that a value is, which stands at a path. Versions from 1 to the greatest are read.
///
/// # Errors
///
/// `Fault` with the job's first fault in the order of reading; `Memory`.
#[tactic(auto, using(crate::proofs::Parts::parts), unfolding(crate::specs::WholeJob::job_faults, crate::specs::WholeJob::job_value))]
pub fn job_of(alloc: Global, value: &Value, path: &Path<'_>, greatest: u32) -> Result<Job, TextErr>
    ensures job { GivesOrFaults (λ j. j) result
        (job_faults (path_text path.now) greatest (view value.now))
        (job_value (view value.now)) }
    ensures graph { IfOk result (λ j. IsValidGraph j.graph) }
    ensures names { IfOk result (λ j. HasNamesApart j.graph) }
    ensures run { IfOk result (λ j. IsRunOf j.graph j.run) }
{
    let version = version_of(alloc, value, path, greatest)?;
    let machine = machine_of(alloc, value, path)?;
    let graph = graph_of(alloc, value, path, version)?;
    let run = run_of(alloc, value, path, &machine, &graph)?;
    Ok(Job {
        machine,
        graph,
        run,
    })
}
