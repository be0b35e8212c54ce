// The answers of steps, one after the other.
ghost use Rattle.std.specs.Prelude.{◌≡◌, ◌≤◌, ℕ, List, All, Err, IfOk, IfSome, OnOk, Option, Some, is_some, length, string_bytes};
ghost use Rattle.std.specs.List.{list_any};
ghost use Rattle.job_requests.specs.declared.steps.Step.TheVariants.{Load, Unload, Run};
ghost use Rattle.job_requests.specs.Steps.{is_load};
ghost use Rattle.job_requests.specs.Valid.{HasFirstMachine, IsValidStep};
ghost use Rattle.app_loads.specs.Applications.{AreApps};
ghost use Rattle.app_loads.specs.Host.{Host};
ghost use Rattle.spin_apps.specs.Answers.{AreAnswered, host_at};
ghost use Rattle.spin_apps.specs.Hosting.{CanLoad, CanLoadOn, CanTake, CanTakeAll, IsAnsweredBy, HasAddedLine};

use crate::hosts::{Hosted, UnloadAnswer};
use crate::laws::steps_have_one_text;
use crate::lines::{put_load, put_run, put_unload};
use app_loads::Apps;
use job_requests::{AppJob, Step};
use spin_base::{Memory, Seq};
use std::alloc::Global;

/// The lines that steps were answered, and the machine with its applications after the last step, where one of them was a load.
#[derive(Drop)]
pub struct Answered {
    pub text: Seq<u8>,
    pub apps: Option<Apps>,
}

/// Does each step, and answers it with a line. Machine and queues are those of the first load's job, which has its machine. A load is answered `load N
/// ok`, or the first that comes of `load N loaded`, exactly where the number is loaded; `load N no room VERTEX`, with the first
/// vertex that finds no chip with room and a free core; `load N cut off NET X Y`, with the first net of which a target is cut off,
/// and the chip of its first such target; `load N memory out VERTEX`, `load N keys out NET` and `load N rows out X Y`, for what
/// could not be taken first. An unload is answered `unload N got G dumped U`, with how many deliveries and dump records were
/// handed back, `unload N not loaded`, or `unload N waiting P`, with the application's least packet that has not arrived. A run
/// brings all packets to their targets, and is answered `run`. What was refused has changed nothing. No other text is the answer to
/// these steps.
///
/// # Errors
///
/// `Memory` where memory runs out.
pub fn answer(alloc: Global, steps: &[Step]) -> Result<Answered, Memory>
    requires valid { All IsValidStep steps.now }
    requires few { length steps.now ≤ 65535 }
    requires machine { HasFirstMachine steps.now }
    ensures answered { IfOk result (λ a. AreAnswered steps.now a.text a.apps) }
    ensures given { IfOk result (λ a. is_some a.apps ≡ list_any is_load steps.now) }
    ensures apps { IfOk result (λ a. IfSome a.apps AreApps) }
    ensures only { IfOk result (λ a. (other : List ℕ) (last : Option Host)
        → AreAnswered steps.now other last → other ≡ a.text) }
{
    steps_have_one_text();
    let mut text = String::new(alloc);
    let mut hosted = None;
    let taken = take_all(alloc, &mut hosted, steps, &mut text);
    finished(taken, text, apps_of(hosted))
}

// The applications alone.
fn apps_of(hosted: Option<Hosted>) -> Option<Apps>
    ensures same { result ≡ hosted }
    ensures apps { IfSome result AreApps }
{
    match hosted {
        Some(hosted) => Some(hosted.into_apps()),
        None => None,
    }
}

// What was answered, where all steps were done.
fn finished(taken: Result<(), Memory>, text: String, apps: Option<Apps>) -> Result<Answered, Memory>
    ensures { IfOk result (λ a. IsAnsweredBy taken (string_bytes text) apps a) }
{
    match taken {
        Ok(()) => Ok(Answered {
            text: Seq::from_vec(text.into_bytes()),
            apps,
        }),
        Err(memory) => without(apps, memory),
    }
}

// Lets the applications go, where memory ran out. Each case by itself: so no drop of an `Option` of them is proved.
fn without(apps: Option<Apps>, memory: Memory) -> Result<Answered, Memory>
    ensures { result ≡ Err memory }
{
    match apps {
        Some(_apps) => Err(memory),
        None => Err(memory),
    }
}

// Does each step, and puts their lines at the end.
#[tactic(auto, using(crate::proofs::Chain::goes_all))]
fn take_all(
    alloc: Global,
    hosted: &mut Option<Hosted>,
    steps: &[Step],
    text: &mut String,
) -> Result<(), Memory>
    requires { CanTakeAll steps.now hosted.old (string_bytes text.old) }
    ensures { OnOk result (AreAnswered steps.now (string_bytes text.new) hosted.new) }
{
    for step in steps {
        take(alloc, hosted, step, text)?;
    }
    Ok(())
}

// Does a step, and puts its line at the end.
fn take(
    alloc: Global,
    hosted: &mut Option<Hosted>,
    step: &Step,
    text: &mut String,
) -> Result<(), Memory>
    requires { CanTake hosted.old step.now }
    ensures { OnOk result (HasAddedLine step.now hosted.old (string_bytes text.old)
        (string_bytes text.new) hosted.new) }
{
    match step {
        Step::Load(number, job) => load(alloc, hosted, *number, job, text),
        Step::Unload(number) => unload(alloc, hosted, *number, text),
        Step::Run => run(alloc, hosted, text),
    }
}

// A load, on the machine of the job where there was none before.
fn load(
    alloc: Global,
    hosted: &mut Option<Hosted>,
    number: u32,
    job: &AppJob,
    text: &mut String,
) -> Result<(), Memory>
    requires { CanLoad hosted.old job.now }
    ensures { OnOk result (HasAddedLine (Load number job.now) hosted.old (string_bytes text.old)
        (string_bytes text.new) hosted.new) }
{
    match hosted {
        Some(host) => load_on(alloc, host, number, job, text),
        None => {
            let machine = job.machine.as_ref().unwrap();
            let bare = Hosted::bare(alloc, machine, job.run.queue)?;
            load_on(alloc, hosted.insert(bare), number, job, text)
        }
    }
}

// A load on a machine: the one that the state before it has, or the job.
#[tactic(auto, using(crate::proofs::Chain::told_load))]
fn load_on(
    alloc: Global,
    host: &mut Hosted,
    number: u32,
    job: &AppJob,
    text: &mut String,
) -> Result<(), Memory>
    requires { CanLoadOn host.old job.now }
    ensures { (before : Option Host) → host_at before job.now ≡ Some host.old →
        OnOk result (HasAddedLine (Load number job.now) before (string_bytes text.old)
        (string_bytes text.new) (Some host.new)) }
{
    let answer = host.load(alloc, number, job)?;
    put_load(text, number, &job.graph, answer)
}

fn unload(
    alloc: Global,
    hosted: &mut Option<Hosted>,
    number: u32,
    text: &mut String,
) -> Result<(), Memory>
    ensures { OnOk result (HasAddedLine (Unload number) hosted.old (string_bytes text.old)
        (string_bytes text.new) hosted.new) }
{
    match hosted {
        Some(host) => {
            let answer = host.unload(alloc, number)?;
            put_unload(text, number, answer)
        }
        None => put_unload(text, number, UnloadAnswer::NotLoaded),
    }
}

fn run(alloc: Global, hosted: &mut Option<Hosted>, text: &mut String) -> Result<(), Memory>
    ensures { OnOk result (HasAddedLine Run hosted.old (string_bytes text.old)
        (string_bytes text.new) hosted.new) }
{
    match hosted {
        Some(host) => {
            host.run(alloc)?;
            put_run(text)
        }
        None => put_run(text),
    }
}
