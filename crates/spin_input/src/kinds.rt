// Kinds of input.
ghost use Rattle.std.specs.Prelude.{List, IfOk};
ghost use Rattle.serde_json.specs.Data.{Data};
ghost use Rattle.serde_json.specs.View.{view};
ghost use Rattle.job_text.specs.declared.faults.JobFault.{JobFault};
ghost use Rattle.job_text.specs.Reading.{GivesOrFaults};

use job_readers::{GREATEST_VERSION, Job, job_of};
use job_requests::{Request, Step, request_of, steps_of};
use job_text::{Path, TextErr};
use serde_json::Value;
use spin_base::Seq;
use std::alloc::Global;

/// What a source may be read as: the faults of a value, which input it is, and what holds of each input.
pub trait Input: Drop {
    ghost faults: { Data → List JobFault };

    ghost value_of: { Data → Self };

    ghost IsSound: { Self → Type 0 };

    /// The input that a value is, or its first fault.
    fn of_value(alloc: Global, value: &Value) -> Result<Self, TextErr>
        ensures read { GivesOrFaults (λ input. input) result (faults (view value.now))
            (value_of (view value.now)) }
        ensures sound { IfOk result IsSound };
}

impl Input for Job {
    ghost use Rattle.std.specs.Prelude.{codes};
    ghost use Rattle.app_graph.specs.ValidGraph.{IsValidGraph};
    ghost use Rattle.app_graph.specs.RunPart.{IsRunOf};
    ghost use Rattle.job_readers.specs.Named.{HasNamesApart};
    ghost use Rattle.job_readers.specs.WholeJob.{job_faults, job_value};

    ghost faults = { job_faults (codes "job") 3 };

    ghost value_of = { job_value };

    ghost IsSound = { λ job. (IsValidGraph job.graph) × (HasNamesApart job.graph)
        × (IsRunOf job.graph job.run) };

    fn of_value(alloc: Global, value: &Value) -> Result<Job, TextErr> {
        job_of(alloc, value, &Path::Whole("job"), GREATEST_VERSION)
    }
}

impl Input for Request {
    ghost use Rattle.std.specs.Prelude.{◌≡◌, length};
    ghost use Rattle.app_graph.specs.ValidGraph.{IsValidGraph};
    ghost use Rattle.job_readers.specs.Named.{HasNamesApart};
    ghost use Rattle.job_requests.specs.Requests.{request_faults, request_value};

    ghost faults = { request_faults };

    ghost value_of = { request_value };

    ghost IsSound = { λ r. (IsValidGraph r.job.graph) × (HasNamesApart r.job.graph)
        × (length r.trees ≡ length r.job.graph.nets) };

    fn of_value(alloc: Global, value: &Value) -> Result<Request, TextErr> {
        request_of(alloc, value)
    }
}

impl Input for Seq<Step> {
    ghost use Rattle.std.specs.Prelude.{◌≤◌, All, length};
    ghost use Rattle.job_requests.specs.Steps.{steps_faults, steps_value};
    ghost use Rattle.job_requests.specs.Valid.{HasFirstMachine, IsValidStep};

    ghost faults = { steps_faults };

    ghost value_of = { steps_value };

    ghost IsSound = { λ steps. (All IsValidStep steps) × (length steps ≤ 65535)
        × HasFirstMachine steps };

    fn of_value(alloc: Global, value: &Value) -> Result<Seq<Step>, TextErr> {
        steps_of(alloc, value)
    }
}
