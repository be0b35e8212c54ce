//! Laws of rounds. Each function does nothing: its clauses are the law, for every mesh.
ghost use Rattle.std.specs.Prelude.{◌≡◌, ◌<◌, ◌≤◌, ℕ, List, [], Option, length};
ghost use Rattle.spin_base.specs.declared.copies.Packet.{Packet};
ghost use Rattle.machine_desc.specs.declared.nets.NetPlan.{NetPlan};
ghost use Rattle.machine_desc.specs.NetsOn.{AreNetsOn};
ghost use Rattle.machine_desc.specs.RightTables.{AreRight};
ghost use Rattle.mesh_core.specs.State.{Setup, State, IsMesh};
ghost use Rattle.mesh_core.specs.Ledger.{Asked, Label, MeetsLedger, MeetsLedgerFor};
ghost use Rattle.mesh_core.specs.Opened.{opened_mesh, AreOfNets, MeetsJobLedger};
ghost use Rattle.mesh_core.specs.Expected.{IsAtRest, AreAsExpected};
ghost use Rattle.mesh_round.specs.RoundFlow.{Flow, Passes, IsRound, HasMoved, HasRounds};
ghost use Rattle.mesh_round.specs.Work.{work_in};
ghost use Rattle.mesh_round.specs.Bound.{HasMovingRounds, LeadsSoon};

use mesh_core::laws::{
    a_mesh_at_rest_has_delivered_all, each_target_has_one_way, opened_mesh_meets_its_ledger,
};

/// What passes the queues of a mesh in a round, in whatever order routers and vertices take their turns, keeps the ledger of
/// copies where the tables are right for its nets: of nets and keys, of packets that were asked for, and of a job.
pub fn a_round_keeps_the_ledger()
    ensures of_nets { (m n : State) (f : Flow) (nets : List NetPlan) (labels : ℕ → Label) → IsMesh m
        → IsMesh n → Passes m f n →
        AreRight m.setup.machine m.setup.tables nets → MeetsLedger m nets labels
        → MeetsLedger n nets labels }
    ensures of_packets { (m n : State) (f : Flow) (nets : List NetPlan) (asked : ℕ → Option Asked)
        → IsMesh m → IsMesh n → Passes m f n →
        AreRight m.setup.machine m.setup.tables nets → MeetsLedgerFor m nets asked
        → MeetsLedgerFor n nets asked }
    ensures of_a_job { (m n : State) (f : Flow) (nets : List NetPlan) (packets : List Packet)
        → IsMesh m → IsMesh n → Passes m f n →
        AreRight m.setup.machine m.setup.tables nets → MeetsJobLedger m nets packets
        → MeetsJobLedger n nets packets }
{}

/// So do rounds one after the other, each from a mesh to a mesh: the ledger of a job holds after each of them.
pub fn rounds_keep_the_ledger()
    ensures { (patience turns : ℕ) (m n : State) (nets : List NetPlan) (packets : List Packet)
        → IsMesh m →
        AreRight m.setup.machine m.setup.tables nets → MeetsJobLedger m nets packets
        → HasRounds patience turns m n →
        MeetsJobLedger n nets packets }
{}

/// Rounds lead from a mesh to a mesh, of the same machine, vertices, tables and capacity.
pub fn rounds_lead_to_a_mesh()
    ensures { (patience turns : ℕ) (m n : State) → IsMesh m → HasRounds patience turns m n
        → IsMesh n × (n.setup ≡ m.setup) }
{}

/// A round leaves no more to be done than there was, and less where it moves a copy: so rounds that each move one come to an end.
pub fn a_round_leaves_less_to_do()
    ensures no_more { (m n : State) (f : Flow) → IsMesh m → IsMesh n → Passes m f n
        → work_in n ≤ work_in m }
    ensures less { (m n : State) (f : Flow) → IsMesh m → IsMesh n → Passes m f n → HasMoved m f
        → work_in n < work_in m }
{}

/// Rounds in each of which a copy moves are no more than copies of a job's packets can move. A packet is sent once, the router of
/// each chip of its net's tree takes it once, and each target gets it once.
pub fn rounds_that_move_copies_are_few()
    ensures { (patience turns : ℕ) (m n : State) → IsMesh m
        → HasMovingRounds patience turns m n → LeadsSoon patience turns m n }
{
    each_target_has_one_way();
}

/// Where a queue has room for a copy of each packet of a job, no round dumps a copy, in whatever order routers and vertices take
/// their turns: no queue can be full while a copy still comes to it. Nor do rounds one after the other.
pub fn a_roomy_round_drops_nothing()
    ensures no_record { (patience turns : ℕ) (m n : State) (f : Flow) (nets : List NetPlan)
        (packets : List Packet) → 1 ≤ patience → IsMesh m → IsMesh n →
        IsRound patience turns m f n → AreRight m.setup.machine m.setup.tables nets
        → MeetsJobLedger m nets packets →
        length packets ≤ m.setup.capacity → f.dumped ≡ [] }
    ensures after_rounds { (patience turns : ℕ) (m n : State) (nets : List NetPlan)
        (packets : List Packet) → 1 ≤ patience → IsMesh m →
        AreRight m.setup.machine m.setup.tables nets → MeetsJobLedger m nets packets
        → length packets ≤ m.setup.capacity →
        HasRounds patience turns m n → n.dumped ≡ m.dumped }
{
    each_target_has_one_way();
}

/// So rounds from the opened mesh of a job that leave nothing waiting and nothing unsent make no dump record, and deliver all that
/// the job asks for and nothing else: in whatever order routers, cores and vertices take their turns.
pub fn roomy_rounds_deliver_all()
    ensures no_record { (patience turns : ℕ) (setup : Setup) (n : State) (nets : List NetPlan)
        (packets : List Packet) → 1 ≤ patience →
        IsMesh (opened_mesh setup nets packets) → AreRight setup.machine setup.tables nets
        → AreNetsOn setup.machine setup.spots nets →
        AreOfNets nets packets → length packets ≤ setup.capacity
        → HasRounds patience turns (opened_mesh setup nets packets) n → n.dumped ≡ [] }
    ensures delivered { (patience turns : ℕ) (setup : Setup) (n : State) (nets : List NetPlan)
        (packets : List Packet) → 1 ≤ patience →
        IsMesh (opened_mesh setup nets packets) → AreRight setup.machine setup.tables nets
        → AreNetsOn setup.machine setup.spots nets →
        AreOfNets nets packets → length packets ≤ setup.capacity
        → HasRounds patience turns (opened_mesh setup nets packets) n → IsAtRest n →
        AreAsExpected n nets packets }
{
    a_roomy_round_drops_nothing();
    opened_mesh_meets_its_ledger();
    rounds_keep_the_ledger();
    a_mesh_at_rest_has_delivered_all();
}
