// The input that a source's bytes are.
ghost use Rattle.std.specs.Prelude.{◌≡◌, ◌⊎◌, ◌≤◌, All, Ok, Err, length, IfOk, IfErr};
ghost use Rattle.app_graph.specs.ValidGraph.{IsValidGraph};
ghost use Rattle.app_graph.specs.RunPart.{IsRunOf};
ghost use Rattle.run_report.specs.declared.causes.Refusal.TheVariants.{Memory};
ghost use Rattle.job_text.specs.Json.{json_of};
ghost use Rattle.job_readers.specs.Named.{HasNamesApart};
ghost use Rattle.spin_input.specs.Inputs.{IsReadAs, HasNoInput, reading_of};
ghost use Rattle.spin_input.specs.Kinds.{input_of, input_in};
ghost use Rattle.spin_input.specs.Refusals.{unread};
ghost use Rattle.spin_input.specs.Jobs.{job_from, job_in};
ghost use Rattle.spin_input.specs.Requests.{request_in};
ghost use Rattle.spin_input.specs.Steps.{steps_in};
ghost use Rattle.job_requests.specs.Valid.{HasFirstMachine, IsValidStep};

use crate::kinds::Input;
use crate::texts::input_of_text;
use job_readers::Job;
use job_requests::{Request, Step};
use run_report::Refusal;
use spin_base::{ReadErr, Seq, Source, read_all};
use std::alloc::Global;

/// The most bytes of an input.
const MOST_BYTES: u64 = 16_777_216;

/// The job that all bytes are which the source has left. It is read to its end, where nothing fails before.
///
/// # Errors
///
/// `ReadFault` where the source failed. `TooLong` where it gave more than 16,777,216 bytes. `NotJson` where the bytes are no
/// JSON. `Job` with the first fault of the job. `Memory` where memory runs out.
#[tactic(auto, unfolding(crate::specs::Jobs::job_of))]
pub fn read_job<S: Source>(alloc: Global, source: &mut S) -> Result<Job, Refusal>
    ensures job { IfOk result (IsReadAs job_in (reading_of S.left S.faults source.old source.new)) }
    ensures graph { IfOk result (λ job. IsValidGraph job.graph) }
    ensures names { IfOk result (λ job. HasNamesApart job.graph) }
    ensures run { IfOk result (λ job. IsRunOf job.graph job.run) }
    ensures err { IfErr result
        (HasNoInput job_in (reading_of S.left S.faults source.old source.new)) }
{
    read_input(alloc, source)
}

/// The request to the checker that all bytes are which the source has left. It is read to its end, where nothing fails before.
///
/// # Errors
///
/// `ReadFault` where the source failed. `TooLong` where it gave more than 16,777,216 bytes. `NotJson` where the bytes are no
/// JSON. `Job` with the first fault of the request. `Memory` where memory runs out.
#[tactic(auto, unfolding(crate::specs::Requests::request_of))]
pub fn read_request<S: Source>(alloc: Global, source: &mut S) -> Result<Request, Refusal>
    ensures request { IfOk result
        (IsReadAs request_in (reading_of S.left S.faults source.old source.new)) }
    ensures graph { IfOk result (λ request. IsValidGraph request.job.graph) }
    ensures names { IfOk result (λ request. HasNamesApart request.job.graph) }
    ensures one_each { IfOk result
        (λ request. length request.trees ≡ length request.job.graph.nets) }
    ensures err { IfErr result
        (HasNoInput request_in (reading_of S.left S.faults source.old source.new)) }
{
    read_input(alloc, source)
}

/// The steps with applications that all bytes are which the source has left. It is read to its end, where nothing fails before.
///
/// # Errors
///
/// `ReadFault` where the source failed. `TooLong` where it gave more than 16,777,216 bytes. `NotJson` where the bytes are no
/// JSON. `Job` with the first fault of the steps. `Memory` where memory runs out.
#[tactic(auto, unfolding(crate::specs::Steps::app_steps_of))]
pub fn read_steps<S: Source>(alloc: Global, source: &mut S) -> Result<Seq<Step>, Refusal>
    ensures steps { IfOk result
        (IsReadAs steps_in (reading_of S.left S.faults source.old source.new)) }
    ensures valid { IfOk result (All IsValidStep) }
    ensures few { IfOk result (λ steps. length steps ≤ 65535) }
    ensures machine { IfOk result HasFirstMachine }
    ensures err { IfErr result
        (HasNoInput steps_in (reading_of S.left S.faults source.old source.new)) }
{
    read_input(alloc, source)
}

/// The input of a kind that all bytes are which the source has left. It is read to its end, where nothing fails before.
///
/// # Errors
///
/// `ReadFault` where the source failed. `TooLong` where it gave more than 16,777,216 bytes. `NotJson` where the bytes are no
/// JSON. `Job` with the first fault of the input. `Memory` where memory runs out.
pub fn read_input<I: Input, S: Source>(alloc: Global, source: &mut S) -> Result<I, Refusal>
    ensures input { IfOk result (IsReadAs (input_in (input_of I.faults I.value_of))
        (reading_of S.left S.faults source.old source.new)) }
    ensures sound { IfOk result I.IsSound }
    ensures err { IfErr result (HasNoInput (input_in (input_of I.faults I.value_of))
        (reading_of S.left S.faults source.old source.new)) }
{
    match read_all(alloc, source, MOST_BYTES) {
        Ok(bytes) => input_of_text(alloc, bytes.as_slice()),
        Err(error) => Err(unread(error)),
    }
}

// The refusal of a source that was not read.
fn unread(error: ReadErr) -> Refusal
    ensures { result ≡ unread error }
{
    match error {
        ReadErr::Fault => Refusal::ReadFault,
        ReadErr::TooLong => Refusal::TooLong,
        ReadErr::OutOfMemory => Refusal::Memory,
    }
}

/// The job that a text is, however long it is.
///
/// # Errors
///
/// `NotJson` where the text is no JSON. `Job` with the first fault of the job. `Memory` where memory runs out.
#[tactic(auto, unfolding(crate::specs::Jobs::job_of))]
pub fn job_of_text(alloc: Global, bytes: &[u8]) -> Result<Job, Refusal>
    ensures job { IfOk result (λ job. job_from (json_of bytes.now) ≡ Ok job) }
    ensures graph { IfOk result (λ job. IsValidGraph job.graph) }
    ensures names { IfOk result (λ job. HasNamesApart job.graph) }
    ensures run { IfOk result (λ job. IsRunOf job.graph job.run) }
    ensures err { IfErr result (λ r. (job_from (json_of bytes.now) ≡ Err r) ⊎ (r ≡ Memory)) }
{
    input_of_text(alloc, bytes)
}
