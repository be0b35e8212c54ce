//! Laws of reports. Each function does nothing: its clauses are the law.
ghost use Rattle.std.specs.Prelude.{◌≡◌, ℕ, List, [], map};
ghost use Rattle.std.specs.List.{flat_map};
ghost use Rattle.spin_base.specs.declared.chips.Spot.{Spot};
ghost use Rattle.spin_base.specs.declared.copies.McCopy.{McCopy};
ghost use Rattle.spin_base.specs.declared.copies.Packet.{Packet};
ghost use Rattle.machine_desc.specs.declared.nets.NetPlan.{NetPlan};
ghost use Rattle.mesh_core.specs.State.{State, IsMesh};
ghost use Rattle.mesh_core.specs.Opened.{MeetsJobLedger};
ghost use Rattle.mesh_core.specs.Expected.{IsAtRest, expected_deliveries};
ghost use Rattle.run_report.specs.RunReport.{IsDeliveredOf, named_delivery};
ghost use Rattle.run_report.specs.ReportText.{got_line};

/// Where a mesh that meets the ledger of a job is at rest and has no dump record, the `got` lines of its report are those of the
/// deliveries that the job asks for, in their order.
#[tactic(auto, using(crate::proofs::GotLines::got_lines))]
pub fn got_lines_are_those_of_the_expected_deliveries()
    ensures { (s : State) (nets : List NetPlan) (packets : List Packet) (placed : List (List ℕ
        × Spot)) (delivered : List (List ℕ × McCopy)) →
        IsMesh s → MeetsJobLedger s nets packets → IsAtRest s → s.dumped ≡ []
        → IsDeliveredOf placed s.delivered delivered →
        flat_map got_line delivered
        ≡ flat_map got_line (map (named_delivery placed)
        (expected_deliveries s.setup.spots nets packets)) }
{}
