// What came of a call.
ghost use Rattle.std.specs.Prelude.{◌≡◌};
ghost use Rattle.spin_jobs.specs.Parts.{no_parts};

use app_loads::Apps;
use run_report::Refusal;
use spin_base::Seq;
use spin_jobs::Parts;

/// What came of a call: the status, what was made, and why there is no text of its own. The parts of a job, or the machine with its
/// applications, are given where the whole text was made, also where writing it failed.
#[derive(Drop)]
pub struct Outcome {
    pub status: u8,
    pub parts: Parts,
    pub refusal: Option<Refusal>,
    pub apps: Option<Apps>,
}

// What was made: the parts, the machine with its applications, and the whole text.
#[derive(Drop)]
pub(crate) struct Output {
    pub(crate) parts: Parts,
    pub(crate) apps: Option<Apps>,
    pub(crate) text: Seq<u8>,
}

// No part.
pub(crate) fn no_parts() -> Parts
    ensures { result ≡ no_parts }
{
    Parts {
        job: None,
        plan: None,
        mesh: None,
        report: None,
    }
}
