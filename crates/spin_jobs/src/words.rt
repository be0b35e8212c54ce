// What a word makes of a planned job.
ghost use Rattle.std.specs.Prelude.{◌≡◌, ℕ, IfOk};
ghost use Rattle.job_gen.specs.Generated.{gen_job};
ghost use Rattle.spin_words.specs.declared.commands.JobWord.TheVariants.{Gen};
ghost use Rattle.spin_jobs.specs.Making.{IsOutputAs};
ghost use Rattle.spin_jobs.specs.Words.{Makes};

use crate::makes::{generated, image, list, reported, trace};
use crate::outcomes::WordOutput;
use crate::planned_jobs::PlannedJob;
use crate::runs::{reinject_job, run_job};
use spin_base::{Gate, Memory, Seq};
use spin_words::JobWord;
use std::alloc::Global;
use std::sync::Wait;
use std::thread::Threads;

// The mesh and the report where the word asks for them, and the whole text. The job of `gen N` is to be that of the number.
pub(crate) fn make<R: Threads + Wait + Sync, G: Gate>(
    rt: &R,
    alloc: Global,
    word: JobWord,
    planned: &PlannedJob<'_>,
    gate: &G,
) -> Result<WordOutput, Memory>
    ensures { IfOk result (IsOutputAs (λ job plan parts text.
        ((number : ℕ) → word ≡ Gen number → job ≡ gen_job number)
        → Makes word job plan parts text) planned.now) }
{
    match word {
        JobWord::Run => {
            let mesh = run_job(rt, alloc, planned, gate)?;
            reported(alloc, planned, mesh, Seq::new(alloc))
        }
        JobWord::Reinject => {
            let mesh = reinject_job(rt, alloc, planned, gate)?;
            reported(alloc, planned, mesh, Seq::new(alloc))
        }
        JobWord::Trace => trace(alloc, planned),
        JobWord::Compile => image(alloc, planned),
        JobWord::Tables => list(alloc, planned),
        JobWord::Gen(number) => generated(rt, alloc, number, planned, gate),
    }
}
