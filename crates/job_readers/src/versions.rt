// Reads the version of a job.
ghost use Rattle.serde_json.specs.View.{view};
ghost use Rattle.std.specs.Prelude.{◌≤◌, IfOk};
ghost use Rattle.job_text.specs.Reading.{GivesOrFaults, ◌▹◌};
ghost use Rattle.job_readers.specs.Job.{job_own_faults, version_faults, version_value};
ghost use Rattle.job_text.specs.Paths.{path_text};

use crate::members::number_of;
use job_text::{Path, TextErr, object};
use serde_json::Value;
use std::alloc::Global;

/// The version of the job at a path: from 1 to the greatest that is read.
///
/// # Errors
///
/// `Fault` with the first fault of the job's own shape and of its version; `Memory`.
#[tactic(auto, using(crate::proofs::Firsts::firsts), unfolding(crate::specs::Job::job_own_faults, crate::specs::Job::version_faults, crate::specs::Job::version_value))]
pub fn version_of(
    alloc: Global,
    job: &Value,
    path: &Path<'_>,
    greatest: u32,
) -> Result<u32, TextErr>
    ensures version { GivesOrFaults (λ n. n) result
        (job_own_faults (path_text path.now) (view job.now) ▹ version_faults
        (path_text path.now) greatest (view job.now))
        (version_value (view job.now)) }
    ensures within { IfOk result (λ n. (1 ≤ n) × (n ≤ greatest)) }
{
    object(alloc, Some(job), path)?;
    let greatest = u64::from(greatest);
    Ok(number_of(alloc, job, path, "version", (1, greatest), None)? as u32)
}
