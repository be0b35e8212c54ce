// The job of a word.
ghost use Rattle.std.specs.Prelude.{◌≡◌, IfOk, IfErr};
ghost use Rattle.app_graph.specs.RunPart.{IsRunOf};
ghost use Rattle.app_graph.specs.ValidGraph.{IsValidGraph};
ghost use Rattle.job_gen.specs.Generated.{gen_job};
ghost use Rattle.job_readers.specs.Named.{HasNamesApart};
ghost use Rattle.run_report.specs.declared.causes.Refusal.TheVariants.{Memory as NoMemory};
ghost use Rattle.spin_input.specs.Inputs.{reading_of};
ghost use Rattle.spin_top.specs.Made.{HasNoJob, IsJobOf};

use job_gen::gen_text;
use job_readers::Job;
use run_report::Refusal;
use spin_base::{Memory, Source};
use spin_input::{job_of_text, read_job};
use spin_words::JobWord;
use std::alloc::Global;

// The job of a word: that of the number of `gen`, for which nothing is read, or the one that the source's bytes are.
pub(crate) fn job_for<S: Source>(
    alloc: Global,
    word: JobWord,
    source: &mut S,
) -> Result<Job, Refusal>
    ensures job { IfOk result (IsJobOf word (reading_of S.left S.faults source.old source.new)) }
    ensures graph { IfOk result (λ job. IsValidGraph job.graph) }
    ensures names { IfOk result (λ job. HasNamesApart job.graph) }
    ensures run { IfOk result (λ job. IsRunOf job.graph job.run) }
    ensures err { IfErr result (HasNoJob word (reading_of S.left S.faults source.old source.new)) }
{
    match word {
        JobWord::Gen(number) => generated_job(alloc, number),
        _ => read_job(alloc, source),
    }
}

// The job of a number, from its text.
fn generated_job(alloc: Global, number: u64) -> Result<Job, Refusal>
    ensures job { IfOk result (λ job. job ≡ gen_job number) }
    ensures graph { IfOk result (λ job. IsValidGraph job.graph) }
    ensures names { IfOk result (λ job. HasNamesApart job.graph) }
    ensures run { IfOk result (λ job. IsRunOf job.graph job.run) }
    ensures err { IfErr result (λ r. r ≡ NoMemory) }
{
    let text = match gen_text(alloc, number) {
        Ok(text) => text,
        Err(Memory) => return Err(Refusal::Memory),
    };
    match job_of_text(alloc, text.as_slice()) {
        Ok(job) => Ok(job),
        Err(refusal) => Err(refusal),
    }
}
