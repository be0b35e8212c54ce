// A job with its plan.
use job_readers::Job;
use par_compile::Plan;
use std::marker::Model;

// A valid job and a plan of it, which stay with the caller.
#[derive(Drop)]
pub(crate) struct PlannedJob<'a> {
    pub(crate) job: &'a Job,
    pub(crate) plan: &'a Plan,
}

impl<'a> Model for PlannedJob<'a> {
    ghost use Rattle.spin_jobs.specs.Planned.{JobWithPlan, IsValidWithPlan};

    ghost Value = { JobWithPlan };

    ghost view = { λ p. record { job = p.job.now; plan = p.plan.now } };

    ghost invariant = { λ p. IsValidWithPlan p.job.now p.plan.now };
}
