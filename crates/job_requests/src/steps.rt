// Steps with applications.
ghost use Rattle.std.specs.Prelude.{◌≡◌, ◌≤◌, All, IfOk, length, map};
ghost use Rattle.serde_json.specs.View.{view};
ghost use Rattle.job_text.specs.Reading.{GivesOrFaults};
ghost use Rattle.job_readers.specs.Items.{items_faults};
ghost use Rattle.job_requests.specs.Steps.{number_of, step_number_faults, whole_job, load_faults, load_of, unload_faults, unload_of, run_step_faults, step_word_faults, worded_step, step_faults, step_value, is_load, job_without_machine, kept_step, first_machine_alone, steps_faults, steps_value};
ghost use Rattle.job_requests.specs.declared.steps.Step.TheVariants.{Run};
ghost use Rattle.job_requests.specs.Valid.{IsValidStep, HasFirstMachine};
ghost use Rattle.job_text.specs.Paths.{path_text};

use app_graph::{Graph, RunPart};
use job_readers::{Job, items_in, job_of};
use job_text::{Path, TextErr, count_to, list, range, shape};
use machine_desc::Machine;
use serde_json::Value;
use spin_base::Seq;
use std::alloc::Global;

/// The most steps.
const MOST_STEPS: u64 = 65535;

/// The greatest version of a job that may be loaded.
const GREATEST_VERSION: u32 = 2;

/// The job of a load. Of a list's loads the first has its machine, and the others have none: applications share the first one's.
#[derive(Drop)]
pub struct AppJob {
    pub machine: Option<Machine>,
    pub graph: Graph,
    pub run: RunPart,
}

/// A step: an application is loaded under a number, or unloaded, or all are run.
#[derive(Drop)]
pub enum Step {
    /// The job is loaded under this number.
    Load(u32, AppJob),
    /// The application of this number is unloaded.
    Unload(u32),
    /// Events are taken until nothing waits.
    Run,
}

/// The steps that a value is. Each load's job is read whole, and only the machine of the first is kept.
///
/// # Errors
///
/// `Fault` with the first fault in the order of reading: those of the list, then those of each step, with the path
/// `job[i]`, those of a job in it with the path `job[i][2]`; `Memory`.
#[tactic(auto, unfolding(crate::specs::Steps::steps_faults, crate::specs::Steps::steps_value))]
pub fn steps_of(alloc: Global, value: &Value) -> Result<Seq<Step>, TextErr>
    ensures steps { GivesOrFaults (λ s. s) result (steps_faults (view value.now)) (steps_value
        (view value.now)) }
    ensures valid { IfOk result (All IsValidStep) }
    ensures few { IfOk result (λ s. length s ≤ 65535) }
    ensures machine { IfOk result HasFirstMachine }
{
    let path = Path::Whole("job");
    let items = list(alloc, Some(value), &path, true)?;
    count_to(alloc, &path, MOST_STEPS, items.len() as u64)?;
    each_step(alloc, items, &path)
}

// The steps that the items of a list are, which stands at a path. A machine is dropped as soon as its job is read, where an earlier
// load has kept its own.
fn each_step(alloc: Global, items: &[Value], path: &Path<'_>) -> Result<Seq<Step>, TextErr>
    ensures read { GivesOrFaults (λ s. s) result
        (items_faults step_faults (path_text path.now) 0 (map view items.now))
        (first_machine_alone (map step_value (map view items.now))) }
    ensures valid { IfOk result (All IsValidStep) }
    ensures count { IfOk result (λ s. length s ≡ length items.now) }
    ensures machine { IfOk result HasFirstMachine }
{
    let mut steps = Seq::new(alloc);
    let mut loaded = false;
    for (i, item) in items.iter().enumerate() {
        let path = Path::Item(&*path, i as u64);
        let step = kept(step_in(alloc, item, &path)?, loaded);
        loaded |= is_load(&step);
        steps.push(step)?;
    }
    Ok(steps)
}

// Whether a step is a load.
fn is_load(step: &Step) -> bool
    ensures { result ≡ is_load step.now }
{
    match step {
        Step::Load(_, _) => true,
        Step::Unload(_) => false,
        Step::Run => false,
    }
}

// What is kept of a step: where a load was before, a load keeps no machine.
fn kept(step: Step, loaded: bool) -> Step
    ensures kept { result ≡ kept_step loaded step }
    ensures valid { IsValidStep step → IsValidStep result }
{
    if !loaded {
        return step;
    }
    match step {
        Step::Load(number, job) => Step::Load(number, without_machine(job)),
        Step::Unload(number) => Step::Unload(number),
        Step::Run => Step::Run,
    }
}

// The job of a load that is not the first.
fn without_machine(job: AppJob) -> AppJob
    ensures { result ≡ job_without_machine job }
{
    let AppJob {
        machine: _,
        graph,
        run,
    } = job;
    AppJob {
        machine: None,
        graph,
        run,
    }
}

// The step that an item is, with its machine, which stands at a path.
#[tactic(auto, unfolding(crate::specs::Steps::step_faults, crate::specs::Steps::step_value))]
fn step_in(alloc: Global, item: &Value, path: &Path<'_>) -> Result<Step, TextErr>
    ensures read { GivesOrFaults (λ s. s) result (step_faults (path_text path.now) (view item.now))
        (step_value (view item.now)) }
    ensures valid { IfOk result IsValidStep }
{
    let [head, rest @ ..] = items_in(item) else {
        return Err(shape(alloc, path));
    };
    let Some(word) = head.as_str() else {
        return Err(shape(alloc, path));
    };
    worded(alloc, word, rest, path)
}

// The step that begins with a word.
#[tactic(auto, unfolding(crate::specs::Steps::step_word_faults, crate::specs::Steps::worded_step))]
fn worded(alloc: Global, word: &str, rest: &[Value], path: &Path<'_>) -> Result<Step, TextErr>
    ensures read { GivesOrFaults (λ s. s) result (step_word_faults (path_text path.now) word.now
        (map view rest.now)) (worded_step word.now (map view rest.now)) }
    ensures valid { IfOk result IsValidStep }
{
    if word == "load" {
        return load_in(alloc, rest, path);
    }
    if word == "unload" {
        return unload_in(alloc, rest, path);
    }
    if word == "run" {
        return run_in(alloc, rest, path);
    }
    Err(range(alloc, path))
}

// A number and a job.
#[tactic(auto, unfolding(crate::specs::Steps::load_faults))]
fn load_in(alloc: Global, rest: &[Value], path: &Path<'_>) -> Result<Step, TextErr>
    ensures read { GivesOrFaults (λ s. s) result
        (load_faults (path_text path.now) (map view rest.now)) (load_of
        (map view rest.now)) }
    ensures valid { IfOk result IsValidStep }
{
    let [said, job] = rest else {
        return Err(shape(alloc, path));
    };
    let number = number(alloc, said, path)?;
    let path = Path::Item(path, 2);
    let job = job_of(alloc, job, &path, GREATEST_VERSION)?;
    Ok(Step::Load(number, whole_job(job)))
}

// A job with its machine.
fn whole_job(job: Job) -> AppJob
    ensures { result ≡ whole_job job }
{
    AppJob {
        machine: Some(job.machine),
        graph: job.graph,
        run: job.run,
    }
}

// A number alone.
#[tactic(auto, unfolding(crate::specs::Steps::unload_faults))]
fn unload_in(alloc: Global, rest: &[Value], path: &Path<'_>) -> Result<Step, TextErr>
    ensures read { GivesOrFaults (λ s. s) result
        (unload_faults (path_text path.now) (map view rest.now))
        (unload_of (map view rest.now)) }
    ensures valid { IfOk result IsValidStep }
{
    let [said] = rest else {
        return Err(shape(alloc, path));
    };
    Ok(Step::Unload(number(alloc, said, path)?))
}

// Nothing.
#[tactic(auto, unfolding(crate::specs::Steps::run_step_faults))]
fn run_in(alloc: Global, rest: &[Value], path: &Path<'_>) -> Result<Step, TextErr>
    ensures read { GivesOrFaults (λ s. s) result (run_step_faults (path_text path.now)
        (map view rest.now)) Run }
    ensures valid { IfOk result IsValidStep }
{
    if rest.is_empty() {
        return Ok(Step::Run);
    }
    Err(shape(alloc, path))
}

// The number of an application.
fn number(alloc: Global, said: &Value, path: &Path<'_>) -> Result<u32, TextErr>
    ensures { GivesOrFaults (λ n. n) result
        (step_number_faults (path_text path.now) (view said.now)) (number_of
        (view said.now)) }
{
    match said.as_u64() {
        Some(n) if n <= 4294967295 => Ok(n as u32),
        Some(_) => Err(range(alloc, path)),
        None => Err(shape(alloc, path)),
    }
}
