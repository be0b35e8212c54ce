// What words make of an input that is no job.
ghost use Rattle.std.specs.Prelude.{ℕ, List, IfOk, IfErr};
ghost use Rattle.spin_input.specs.Inputs.{reading_of};
ghost use Rattle.spin_top.specs.Causes.{AskForApps, AskForCheck, HasCause};
ghost use Rattle.spin_top.specs.Made.{IsMade};

use crate::outcomes::{Output, no_parts};
use run_report::Refusal;
use spin_base::{Memory, Source};
use spin_input::{read_request, read_steps};
use std::alloc::Global;

// The answer to the request that the source's bytes are.
pub(crate) fn checked<S: Source>(alloc: Global, source: &mut S) -> Result<Output, Refusal>
    ensures made { (words : List (List ℕ)) → AskForCheck words → IfOk result (λ made. IsMade words
        (reading_of S.left S.faults source.old source.new)
        made.parts made.apps made.text) }
    ensures err { (words : List (List ℕ)) → AskForCheck words → IfErr result (HasCause words
        (reading_of S.left S.faults source.old source.new)) }
{
    let request = read_request(alloc, source)?;
    let trees = request.trees.as_slice();
    let image = request.image.as_slice();
    let text = spin_checks::answer(
        alloc,
        &request.job.machine,
        &request.job.graph,
        trees,
        image,
    )?;
    Ok(Output {
        parts: no_parts(),
        apps: None,
        text,
    })
}

// The answers to the steps that the source's bytes are.
pub(crate) fn done<S: Source>(alloc: Global, source: &mut S) -> Result<Output, Refusal>
    ensures made { (words : List (List ℕ)) → AskForApps words → IfOk result (λ made. IsMade words
        (reading_of S.left S.faults source.old source.new)
        made.parts made.apps made.text) }
    ensures err { (words : List (List ℕ)) → AskForApps words → IfErr result (HasCause words
        (reading_of S.left S.faults source.old source.new)) }
{
    let steps = read_steps(alloc, source)?;
    match spin_apps::answer(alloc, steps.as_slice()) {
        Ok(answered) => Ok(Output {
            parts: no_parts(),
            apps: answered.apps,
            text: answered.text,
        }),
        Err(Memory) => Err(Refusal::Memory),
    }
}
