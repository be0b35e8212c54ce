// What holds of the answers to steps, whatever is called.
ghost use Rattle.std.specs.Prelude.{◌≡◌, ℕ, All, List, Option};
ghost use Rattle.app_loads.specs.Host.{Host};
ghost use Rattle.job_requests.specs.declared.steps.Step.{Step};
ghost use Rattle.job_requests.specs.Valid.{IsValidStep};
ghost use Rattle.spin_apps.specs.Answers.{AreAnswered};

use app_loads::laws::alike_machines_have_as_many_deliveries;

/// Steps have one text: two lists of lines that are answers to the same steps are equal, whatever machines the steps leave.
#[tactic(auto, using(crate::proofs::OneText::one_text))]
pub fn steps_have_one_text()
    ensures { (steps : List Step) (text other : List ℕ) (after last : Option Host)
        → All IsValidStep steps → AreAnswered steps text after → AreAnswered steps other last
        → other ≡ text }
{
    alike_machines_have_as_many_deliveries();
}
