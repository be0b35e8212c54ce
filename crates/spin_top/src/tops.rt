// The top call.
ghost use Rattle.std.specs.Prelude.{◌≡◌, ◌⊎◌, Some, None, IfOk, IfErr, MatchResult};
ghost use Rattle.job_readers.specs.Named.{HasNamesApart};
ghost use Rattle.mesh_core.specs.Opened.{MeetsJobLedger};
ghost use Rattle.spin_base.specs.Outside.{FaultsRose};
ghost use Rattle.spin_words.specs.Commands.{spelled, texts_of};
ghost use Rattle.spin_words.specs.declared.commands.Command.TheVariants.{OfJob};
ghost use Rattle.spin_words.specs.declared.commands.JobWord.TheVariants.{Run, Reinject, Trace};
ghost use Rattle.run_report.specs.Refusals.{line_of as line_of_refusal, status_at};
ghost use Rattle.run_report.specs.declared.causes.Refusal.TheVariants.{Memory as NoMemory};
ghost use Rattle.spin_jobs.specs.Parts.{no_parts, WhereGiven, WhereRun};
ghost use Rattle.spin_jobs.specs.Planned.{IsThePlan};
ghost use Rattle.spin_jobs.specs.Reinjecting.{HasReinjected};
ghost use Rattle.spin_jobs.specs.Runs.{HasRunOut};
ghost use Rattle.spin_jobs.specs.Words.{IsTraced};
ghost use Rattle.spin_input.specs.Inputs.{reading_of};
ghost use Rattle.spin_top.specs.Causes.{AskForApps, AskForCheck, HasCause};
ghost use Rattle.spin_top.specs.Ends.{Ends, EndsGenerated, HasAnswer, IsExact, IsOfApps, IsOfCheck};
ghost use Rattle.spin_top.specs.Made.{IsMade};
ghost use Rattle.spin_top.specs.Writing.{IsWritten, told_unmade, writing_of};

use crate::answers::{checked, done};
use crate::inputs::job_for;
use crate::outcomes::{Outcome, Output, no_parts};
use run_report::{OUT_OF_MEMORY, Refusal, line_of};
use spin_base::{Gate, Memory, Seq, Sink, Source, write_all};
use spin_jobs::made_of_job;
use spin_words::{Command, command_of};
use std::alloc::Global;
use std::sync::Wait;
use std::thread::Threads;

// The lines for which no memory is needed.
const USAGE: &str = "usage: run, trace, compile, tables, gen N, apps, reinject or check\n";

const READ_FAULT: &str = "read fault\n";

/// Does what the words ask for, with the source's bytes as the input, and writes the text or one line to the sink.
///
/// The words are those of the command line without the program's name: `run`, `reinject`, `trace`, `compile`, `tables`, `gen N`,
/// `check` or `apps`. `run` compiles the job, runs its packets by rounds on threads until none waits, and writes the report;
/// `reinject` does the same, and puts dumped copies back between rounds until none is left; `trace` compiles it, takes its
/// events one by one, and writes the report with the answers to them; `compile` compiles it and writes the bytes of the image
/// of its tables; `tables` compiles it and writes where its vertices stand, which keys its nets have, and its tables. `gen N`
/// reads nothing: it compiles the job of the number, runs it, and writes a summary. `check` reads a request, which is a job
/// with a tree for each of its nets and the bytes of an image, and writes whether the image's tables route the nets by these
/// trees. `apps` reads a list of steps, does them on one machine, each a load or an unload of an application or a run of all, and
/// writes one line a step.
/// The whole text stands before its first byte is written, and a refusal writes its line and nothing else.
///
/// Statuses: 0, the text was written; 1, the words spell no command; 2, reading failed; 3, writing failed; 4, the bytes are
/// no job, request or steps; 5, a vertex has no room; 6, a net has no keys; 7, a target is cut off; 8, a table is too long; 9, memory ran
/// out. `gen N` ends with 0, 3 or 9, `check` with none of 7 and 8, and `apps` with none of 5 to 8.
///
/// It may wait for the gate and for threads; it keeps its promises if it returns.
pub fn spin<Rt: Threads + Wait + Sync, S: Source, K: Sink, G: Gate>(
    rt: &Rt,
    alloc: Global,
    words: &[String],
    source: &mut S,
    sink: &mut K,
    gate: &G,
) -> Outcome
    ensures status { result.status ≡ status_at result.refusal }
    ensures ends { Ends (texts_of words.now)
        (reading_of S.left S.faults source.old source.new)
        (writing_of K.written K.faults sink.old sink.new)
        result }
    ensures names { WhereGiven result.parts (λ job plan. HasNamesApart job.graph) }
    ensures plan { WhereGiven result.parts IsThePlan }
    ensures ledger { WhereRun result.parts (λ job plan mesh report.
        MeetsJobLedger mesh plan.nets job.run.packets) }
    ensures run { spelled (texts_of words.now) ≡ Some (OfJob Run)
        → WhereRun result.parts HasRunOut }
    ensures reinject { spelled (texts_of words.now) ≡ Some (OfJob Reinject)
        → WhereRun result.parts HasReinjected }
    ensures trace { spelled (texts_of words.now) ≡ Some (OfJob Trace)
        → WhereRun result.parts IsTraced }
    ensures generated { EndsGenerated (texts_of words.now)
        (reading_of S.left S.faults source.old source.new)
        (writing_of K.written K.faults sink.old sink.new)
        result }
    ensures checked { AskForCheck (texts_of words.now) → IsOfCheck result }
    ensures apps { AskForApps (texts_of words.now) → IsOfApps result }
    ensures exact { IsExact (texts_of words.now) (S.left source.old) result.refusal }
    ensures complete { HasAnswer (texts_of words.now) (S.left source.old)
        → ¬ FaultsRose (S.faults source.old) (S.faults source.new) →
        ¬ FaultsRose (K.faults sink.old) (K.faults sink.new)
        → (result.status ≡ 0) ⊎ (result.status ≡ 9) }
{
    match made_of(rt, alloc, words, source, gate) {
        Ok(made) => write_text(made, sink),
        Err(refusal) => {
            let line = line_of(alloc, &refusal);
            write_refusal(refusal, line, sink)
        }
    }
}

// What the words and the source's bytes give, or why they give nothing.
fn made_of<R: Threads + Wait + Sync, S: Source, G: Gate>(
    rt: &R,
    alloc: Global,
    words: &[String],
    source: &mut S,
    gate: &G,
) -> Result<Output, Refusal>
    ensures made { IfOk result (λ made. IsMade (texts_of words.now)
        (reading_of S.left S.faults source.old source.new)
        made.parts made.apps made.text) }
    ensures err { IfErr result (HasCause (texts_of words.now)
        (reading_of S.left S.faults source.old source.new)) }
{
    let Some(command) = command_of(words) else {
        return Err(Refusal::Usage);
    };
    match command {
        Command::OfJob(word) => {
            let job = job_for(alloc, word, source)?;
            let made = made_of_job(rt, alloc, word, job, gate)?;
            Ok(Output {
                parts: made.parts,
                apps: None,
                text: made.text,
            })
        }
        Command::Check => checked(alloc, source),
        Command::Apps => done(alloc, source),
    }
}

// Writes the text of what was made.
fn write_text<K: Sink>(made: Output, sink: &mut K) -> Outcome
    ensures status { result.status ≡ status_at result.refusal }
    ensures parts { result.parts ≡ made.parts }
    ensures apps { result.apps ≡ made.apps }
    ensures written { IsWritten (writing_of K.written K.faults sink.old sink.new)
        made.text None result.refusal }
{
    let Output { parts, apps, text } = made;
    match write_all(sink, text.as_slice()) {
        Ok(()) => Outcome {
            status: 0,
            parts,
            refusal: None,
            apps,
        },
        Err(_) => Outcome {
            status: 3,
            parts,
            refusal: Some(Refusal::WriteFault),
            apps,
        },
    }
}

// Writes the line of a refusal where it was made, and else that of the refusal for which no memory is needed.
fn write_refusal<K: Sink>(refusal: Refusal, line: Result<Seq<u8>, Memory>, sink: &mut K) -> Outcome
    requires { IfOk line (λ text. text ≡ line_of_refusal refusal) }
    ensures status { result.status ≡ status_at result.refusal }
    ensures parts { result.parts ≡ no_parts }
    ensures apps { result.apps ≡ None }
    ensures written { MatchResult line
        (λ _. IsWritten (writing_of K.written K.faults sink.old sink.new)
        (line_of_refusal refusal) (Some refusal) result.refusal)
        (λ _. IsWritten (writing_of K.written K.faults sink.old sink.new)
        (line_of_refusal (told_unmade refusal)) (Some (told_unmade refusal)) result.refusal) }
{
    match line {
        Ok(line) => write_line(refusal, line.as_slice(), sink),
        Err(Memory) => write_unmade(refusal, sink),
    }
}

// Writes the line of a refusal for which there was no memory: its own where that stands in the program, else that of want of memory.
fn write_unmade<K: Sink>(refusal: Refusal, sink: &mut K) -> Outcome
    ensures status { result.status ≡ status_at result.refusal }
    ensures parts { result.parts ≡ no_parts }
    ensures apps { result.apps ≡ None }
    ensures written { IsWritten (writing_of K.written K.faults sink.old sink.new)
        (line_of_refusal (told_unmade refusal)) (Some (told_unmade refusal)) result.refusal }
{
    match refusal {
        Refusal::Usage => write_line(Refusal::Usage, USAGE.as_bytes(), sink),
        Refusal::ReadFault => write_line(Refusal::ReadFault, READ_FAULT.as_bytes(), sink),
        Refusal::WriteFault
        | Refusal::TooLong
        | Refusal::NotJson
        | Refusal::Job(_)
        | Refusal::NoRoom(_)
        | Refusal::KeysOut(_)
        | Refusal::CutOff(..)
        | Refusal::TableLong(..)
        | Refusal::Memory => write_line(Refusal::Memory, OUT_OF_MEMORY.as_bytes(), sink),
    }
}

// Writes the line of a refusal.
fn write_line<K: Sink>(refusal: Refusal, line: &[u8], sink: &mut K) -> Outcome
    requires { line.now ≡ line_of_refusal refusal }
    ensures status { result.status ≡ status_at result.refusal }
    ensures parts { result.parts ≡ no_parts }
    ensures apps { result.apps ≡ None }
    ensures written { IsWritten (writing_of K.written K.faults sink.old sink.new)
        (line_of_refusal refusal) (Some refusal) result.refusal }
{
    let refusal = match write_all(sink, line) {
        Ok(()) => refusal,
        Err(_) => Refusal::WriteFault,
    };
    Outcome {
        status: refusal.status(),
        parts: no_parts(),
        refusal: Some(refusal),
        apps: None,
    }
}
