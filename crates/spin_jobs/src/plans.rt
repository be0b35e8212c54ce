// The plan of a job, and what a word makes of it.
ghost use Rattle.std.specs.Prelude.{◌≡◌, ◌⊎◌, ℕ, IfOk, IfErr};
ghost use Rattle.app_graph.specs.RunPart.{IsRunOf};
ghost use Rattle.app_graph.specs.ValidGraph.{IsValidGraph};
ghost use Rattle.job_gen.specs.Generated.{gen_job};
ghost use Rattle.par_compile.specs.Compiled.{IsCompileCause};
ghost use Rattle.spin_words.specs.declared.commands.JobWord.TheVariants.{Gen};
ghost use Rattle.run_report.specs.declared.causes.Refusal.TheVariants.{Memory as NoMemory};
ghost use Rattle.spin_jobs.specs.Unplanned.{HasNoPlan, IsNameIn, refusal_of};
ghost use Rattle.spin_jobs.specs.Words.{IsMadeOf};

use crate::outcomes::{Made, Parts};
use crate::planned_jobs::PlannedJob;
use crate::words::make;
use job_readers::Job;
use par_compile::{CompileErr, CompileRequest, compile};
use run_report::Refusal;
use spin_base::{Gate, Memory, Name};
use spin_words::JobWord;
use std::alloc::Global;
use std::sync::Wait;
use std::thread::Threads;

/// What a word makes of a job: its plan, and of the plan what the word asks for. The job of `gen N` is that of the number. Plan and
/// rounds are made by as many workers as the job says, and may wait for the gate.
///
/// # Errors
///
/// `NoRoom`, `KeysOut`, `CutOff` or `TableLong`, with what it names, where the job has no plan. `Memory` where memory runs out.
pub fn made_of_job<R: Threads + Wait + Sync, G: Gate>(
    rt: &R,
    alloc: Global,
    word: JobWord,
    job: Job,
    gate: &G,
) -> Result<Made, Refusal>
    requires graph { IsValidGraph job.graph }
    requires run { IsRunOf job.graph job.run }
    requires generated { (number : ℕ) → word ≡ Gen number → job ≡ gen_job number }
    ensures made { IfOk result (λ made. IsMadeOf word job made.parts made.text) }
    ensures err { IfErr result (λ r. HasNoPlan job r ⊎ (r ≡ NoMemory)) }
{
    let request = CompileRequest {
        machine: &job.machine,
        graph: &job.graph,
        target: job.run.target,
        workers: job.run.workers,
    };
    let plan = match compile(rt, alloc, &request, gate) {
        Ok(plan) => plan,
        Err(cause) => {
            let name = name_in(alloc, &job, &cause);
            return Err(refusal_of(cause, name));
        }
    };
    let planned = PlannedJob {
        job: &job,
        plan: &plan,
    };
    let told = match make(rt, alloc, word, &planned, gate) {
        Ok(told) => told,
        Err(Memory) => return Err(Refusal::Memory),
    };
    Ok(Made {
        parts: Parts {
            job: Some(job),
            plan: Some(plan),
            mesh: told.mesh,
            report: told.report,
        },
        text: told.text,
    })
}

// The name of the vertex or net that a cause numbers. One that numbers none has no text, and takes no memory.
fn name_in(alloc: Global, job: &Job, cause: &CompileErr) -> Result<Name, Memory>
    requires { IsCompileCause job.now.machine job.now.graph job.now.run.target cause.now }
    ensures { IfOk result (IsNameIn job.now.graph cause.now) }
{
    let graph = &job.graph;
    match cause {
        CompileErr::NoRoom { vertex } => {
            let vertex = graph.vertices.get(*vertex as usize);
            Name::of(alloc, vertex.name.as_str())
        }
        CompileErr::KeysOut { net } => {
            let net = graph.nets.get(*net as usize);
            Name::of(alloc, net.name.as_str())
        }
        CompileErr::CutOff { net, .. } => {
            let net = graph.nets.get(*net as usize);
            Name::of(alloc, net.name.as_str())
        }
        CompileErr::TableLong { .. } | CompileErr::Memory => {
            Ok(Name::from_string(String::new(alloc)))
        }
    }
}

// The refusal of a cause, with the name of the vertex or net that it numbers.
fn refusal_of(cause: CompileErr, name: Result<Name, Memory>) -> Refusal
    ensures { result ≡ refusal_of cause name }
{
    match cause {
        CompileErr::NoRoom { .. } => match name {
            Ok(name) => Refusal::NoRoom(name),
            Err(Memory) => Refusal::Memory,
        },
        CompileErr::KeysOut { .. } => match name {
            Ok(name) => Refusal::KeysOut(name),
            Err(Memory) => Refusal::Memory,
        },
        CompileErr::CutOff { target, .. } => match name {
            Ok(name) => Refusal::CutOff(name, target),
            Err(Memory) => Refusal::Memory,
        },
        CompileErr::TableLong { chip, table } => Refusal::TableLong(chip, table),
        CompileErr::Memory => Refusal::Memory,
    }
}
