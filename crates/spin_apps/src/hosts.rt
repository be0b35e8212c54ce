// A machine with its applications, and what it answers.
ghost use Rattle.std.specs.Prelude.{◌≡◌, ◌≤◌, ℕ, IfOk, OnOk, false};
ghost use Rattle.app_loads.specs.Applications.{AreApps};
ghost use Rattle.app_loads.specs.Host.{Host, is_loaded};
ghost use Rattle.app_loads.specs.Loading.{IsWhyNotLoaded};
ghost use Rattle.app_loads.specs.Opening.{bare_host};
ghost use Rattle.app_loads.specs.declared.plans.AppPlan.{AppPlan as APlan};
ghost use Rattle.job_requests.specs.declared.steps.AppJob.{AppJob as AJob};
ghost use Rattle.place_fit.specs.Boards.{AreFreeOn};
ghost use Rattle.spin_apps.specs.Answers.{HasDrained, IsLoadAnswer, IsUnloadAnswer};
ghost use Rattle.spin_apps.specs.Free.{free_machine};
ghost use Rattle.spin_apps.specs.Hosting.{CanTakePlan, HasNumbersFor, IsTaken};
ghost use Rattle.spin_apps.specs.Plans.{IsWhyUnplanned};

use crate::plans::{PlanErr, plan_of};
use app_loads::{AppPlan, Apps, LoadErr, LoadRefusal, UnloadErr};
use job_requests::AppJob;
use link_detours::Roads;
use machine_desc::Machine;
use place_fit::FreeCores;
use spin_base::{Chip, Memory};
use std::alloc::Global;
use std::marker::Model;

/// What a load is answered.
#[derive(Clone, Copy)]
pub enum LoadAnswer {
    /// The application is loaded.
    Done,
    /// No chip on which this vertex may stand has room for it, the first such.
    NoRoom { vertex: u32 },
    /// No walk of live links joins the source's chip and this target chip of the net, the first such net and target.
    CutOff { net: u32, target: Chip },
    /// The machine refused it.
    Refused(LoadRefusal),
}

/// What an unload is answered.
#[derive(Clone, Copy)]
pub enum UnloadAnswer {
    /// The application is unloaded, and so many deliveries and dump records were handed back.
    Got { delivered: usize, dumped: usize },
    /// No application of that number is loaded.
    NotLoaded,
    /// This is the application's least packet of which a copy is unsent or waits.
    Waiting { packet: u32 },
}

// A machine, its live links, the applications on it, and the cores that are free beside them.
#[derive(Drop)]
pub(crate) struct Hosted {
    pub(crate) machine: Machine,
    pub(crate) roads: Roads,
    pub(crate) free: FreeCores,
    pub(crate) apps: Apps,
}

impl Model for Hosted {
    ghost use Rattle.app_loads.specs.Host.{Host};

    ghost Value = { Host };

    ghost use Rattle.spin_apps.specs.Hosting.{hosted_of, IsHosted};

    ghost view = { hosted_of };

    ghost invariant = { IsHosted };
}

impl Hosted {
    // The machine without an application.
    pub(crate) fn bare(alloc: Global, machine: &Machine, queue: u32) -> Result<Hosted, Memory>
        requires { 1 ≤ queue }
        ensures { IfOk result (λ hosted. hosted ≡ bare_host machine.now queue) }
    {
        let roads = Roads::of(alloc, machine)?;
        let free = FreeCores::of(alloc, machine)?;
        let machine = machine.copy(alloc)?;
        let apps = Apps::new(alloc, &machine, queue)?;
        Ok(Hosted {
            machine,
            roads,
            free,
            apps,
        })
    }

    // The applications alone.
    pub(crate) fn into_apps(self) -> Apps
        ensures { result ≡ self }
    {
        self.apps
    }

    // Loads a job under a number.
    pub(crate) fn load(
        &mut self,
        alloc: Global,
        number: u32,
        job: &AppJob,
    ) -> Result<LoadAnswer, Memory>
        requires { HasNumbersFor self.old job.now }
        ensures answer { IfOk result (λ a. IsLoadAnswer self.old number job.now a self.new) }
        ensures apps { AreApps self.new }
    {
        if self.apps.loaded(number) {
            return Ok(LoadAnswer::Refused(LoadRefusal::Loaded));
        }
        match plan_of(alloc, &self.machine, &self.roads, &mut self.free, job) {
            Ok(plan) => take(alloc, &mut self.apps, &mut self.free, number, &plan),
            Err(e) => unplanned(e),
        }
    }

    // Unloads the application of a number.
    pub(crate) fn unload(&mut self, alloc: Global, number: u32) -> Result<UnloadAnswer, Memory>
        ensures answer { IfOk result (λ a. IsUnloadAnswer self.old number a self.new) }
        ensures apps { AreApps self.new }
    {
        let spots = self.apps.spots_of(alloc, number)?;
        match self.apps.unload(alloc, number) {
            Ok(ended) => {
                self.free.give(&spots);
                Ok(UnloadAnswer::Got {
                    delivered: ended.delivered.len(),
                    dumped: ended.dumped.len(),
                })
            }
            Err(UnloadErr::NotLoaded) => Ok(UnloadAnswer::NotLoaded),
            Err(UnloadErr::Waiting { packet }) => Ok(UnloadAnswer::Waiting { packet }),
            Err(UnloadErr::Memory) => Err(Memory),
        }
    }

    // Brings all packets to their targets.
    pub(crate) fn run(&mut self, alloc: Global) -> Result<(), Memory>
        ensures drained { OnOk result (HasDrained self.old self.new) }
        ensures apps { AreApps self.new }
    {
        self.apps.drain(alloc)
    }
}

// Loads a plan under a number, whose cores were taken. After a refusal they are free again.
#[tactic(auto, using(crate::proofs::Serving::free_after_load, crate::proofs::Serving::machine_after_load))]
fn take(
    alloc: Global,
    apps: &mut Apps,
    free: &mut FreeCores,
    number: u32,
    plan: &AppPlan,
) -> Result<LoadAnswer, Memory>
    requires { CanTakePlan apps.old plan.now free.old }
    ensures taken { IfOk result (λ a. IsTaken apps.old number plan.now a apps.new) }
    ensures apps { AreApps apps.new }
    ensures machine { apps.new.mesh.setup.machine ≡ apps.old.mesh.setup.machine }
    ensures free { AreFreeOn (free_machine apps.new) free.new }
{
    match apps.load(alloc, number, plan) {
        Ok(()) => Ok(LoadAnswer::Done),
        Err(e) => {
            free.give(plan.spots.as_slice());
            refused(e)
        }
    }
}

// What a load is answered that is refused.
fn refused(e: LoadErr) -> Result<LoadAnswer, Memory>
    ensures { (h : Host) (number : ℕ) (plan : APlan) → IsWhyNotLoaded h number plan e → IfOk result
        (λ a. IsTaken h number plan a h) }
{
    match e {
        LoadErr::Refused(refusal) => Ok(LoadAnswer::Refused(refusal)),
        LoadErr::Memory => Err(Memory),
    }
}

// What a load is answered that has no plan.
fn unplanned(e: PlanErr) -> Result<LoadAnswer, Memory>
    ensures { (h : Host) (number : ℕ) (job : AJob) → is_loaded h.apps number ≡ false
        → IsWhyUnplanned h job e → IfOk result (λ a. IsLoadAnswer h number job a h) }
{
    match e {
        PlanErr::NoRoom { vertex } => Ok(LoadAnswer::NoRoom { vertex }),
        PlanErr::CutOff { net, target } => Ok(LoadAnswer::CutOff { net, target }),
        PlanErr::Memory => Err(Memory),
    }
}
