// The input that a text is.
ghost use Rattle.std.specs.Prelude.{◌≡◌, ◌⊎◌, Ok, Err, IfOk, IfErr};
ghost use Rattle.run_report.specs.declared.causes.Refusal.TheVariants.{Memory};
ghost use Rattle.job_text.specs.Json.{json_of};
ghost use Rattle.spin_input.specs.Kinds.{input_of, input_from};
ghost use Rattle.spin_input.specs.Refusals.{unparsed, unfit};

use crate::kinds::Input;
use job_text::{ParseErr, TextErr, parse};
use run_report::Refusal;
use serde_json::Value;
use std::alloc::Global;
use std::mem;

/// The most bytes of a text whose value is not freed.
const MOST_UNFREED: usize = 8_388_608;

// The input that a text is, however long it is.
pub(crate) fn input_of_text<I: Input>(alloc: Global, bytes: &[u8]) -> Result<I, Refusal>
    ensures input { IfOk result (λ input. input_from (input_of I.faults I.value_of)
        (json_of bytes.now) ≡ Ok input) }
    ensures sound { IfOk result I.IsSound }
    ensures err { IfErr result
        (λ r. (input_from (input_of I.faults I.value_of) (json_of bytes.now) ≡ Err r)
        ⊎ (r ≡ Memory)) }
{
    match parse(alloc, bytes) {
        Ok(value) => {
            let read = I::of_value(alloc, &value);
            let_go(value, bytes.len());
            match read {
                Ok(input) => Ok(input),
                Err(error) => Err(unfit(error)),
            }
        }
        Err(error) => Err(unparsed(error)),
    }
}

// Lets a value go that was read, of a text of so many bytes. To free its many small parts one by one takes up to a fifth of a
// command, and the system has all back at the command's end. So of a short text the value stays: a caller who goes on loses with each
// short text that is read what its value takes. A long text's value is freed, since later stages may want its memory.
fn let_go(value: Value, length: usize) {
    if length <= MOST_UNFREED {
        mem::forget(value);
    }
}

// The refusal of bytes that are no JSON.
fn unparsed(error: ParseErr) -> Refusal
    ensures { result ≡ unparsed error }
{
    match error {
        ParseErr::NotJson => Refusal::NotJson,
        ParseErr::Memory => Refusal::Memory,
    }
}

// The refusal of a value with a fault. For want of memory it is refused exactly where its reader wanted it.
fn unfit(error: TextErr) -> Refusal
    ensures { result ≡ unfit error }
{
    match error {
        TextErr::Fault(fault) => Refusal::Job(fault),
        TextErr::Memory => Refusal::Memory,
    }
}
