//! Laws of rounds on threads. Each function does nothing: its clauses are the law, for every mesh.
ghost use Rattle.std.specs.Prelude.{◌≡◌, ℕ, List, []};
ghost use Rattle.spin_base.specs.declared.copies.Packet.{Packet};
ghost use Rattle.machine_desc.specs.declared.nets.NetPlan.{NetPlan};
ghost use Rattle.machine_desc.specs.RightTables.{AreRight};
ghost use Rattle.mesh_core.specs.State.{State, IsMesh};
ghost use Rattle.mesh_core.specs.Ledger.{Label, MeetsLedger};
ghost use Rattle.mesh_core.specs.Opened.{MeetsJobLedger};
ghost use Rattle.mesh_core.specs.Expected.{AreAsExpected, IsAtRest, NothingWaits};
ghost use Rattle.mesh_run.specs.Played.{IsPlayedBy};
ghost use Rattle.chip_node.specs.Items.{Item};
ghost use Rattle.mesh_round.specs.RoundFlow.{HasNoHand};
ghost use Rattle.mesh_round.specs.OnThreads.{LeadsByFlow};
ghost use Rattle.mesh_round.specs.Reinjecting.{HasPasses};

use crate::flow_laws::a_round_keeps_the_ledger;
use mesh_core::laws::a_mesh_at_rest_has_delivered_all;

/// A round on threads leads from a mesh to a mesh, in whatever order the threads took their turns: by a round in which a copy
/// moves where anything was done. No router has a copy in hand after it. Where nothing was done the mesh is as it was.
pub fn a_round_on_threads_is_a_round()
    ensures mesh { (patience turns : ℕ) (items : List Item) (m n : State) → IsMesh m → HasNoHand m
        → IsPlayedBy patience turns items m n → IsMesh n }
    ensures hands { (patience turns : ℕ) (items : List Item) (m n : State) → HasNoHand m
        → IsPlayedBy patience turns items m n → HasNoHand n }
    ensures round { (patience turns : ℕ) (items : List Item) (m n : State) → IsMesh m → HasNoHand m
        → IsPlayedBy patience turns items m n → LeadsByFlow patience turns items m n }
    ensures still { (patience turns : ℕ) (items : List Item) (m n : State) →
        IsMesh m → IsPlayedBy patience turns items m n → items ≡ [] → n ≡ m }
{}

/// So it keeps the ledger of a job, where the tables are right for its nets.
pub fn a_round_on_threads_keeps_the_ledger()
    ensures { (patience turns : ℕ) (items : List Item) (m n : State) (nets : List NetPlan)
        (packets : List Packet) → IsMesh m → HasNoHand m → IsPlayedBy patience turns items m n →
        AreRight m.setup.machine m.setup.tables nets →
        MeetsJobLedger m nets packets → MeetsJobLedger n nets packets }
{
    a_round_on_threads_is_a_round();
    a_round_keeps_the_ledger();
}

/// A mesh in which nothing waits may go by rounds, as the opened mesh of a job.
pub fn a_quiet_mesh_is_ready()
    ensures { (s : State) → NothingWaits s → HasNoHand s }
{}

/// Rounds and copies put back, in any order, lead from a mesh to a mesh of the same machine, vertices, tables and capacity. They
/// keep the ledger of a job, and that of nets, where the tables are right for the nets.
pub fn passes_keep_the_ledger()
    ensures mesh { (patience turns : ℕ) (m n : State) → IsMesh m → HasPasses patience turns m n
        → IsMesh n × (n.setup ≡ m.setup) }
    ensures ledger { (patience turns : ℕ) (m n : State) (nets : List NetPlan)
        (packets : List Packet) → IsMesh m →
        AreRight m.setup.machine m.setup.tables nets → MeetsJobLedger m nets packets
        → HasPasses patience turns m n → MeetsJobLedger n nets packets }
    ensures of_nets { (patience turns : ℕ) (m n : State) (nets : List NetPlan) (labels : ℕ → Label)
        → IsMesh m →
        AreRight m.setup.machine m.setup.tables nets → MeetsLedger m nets labels
        → HasPasses patience turns m n → MeetsLedger n nets labels }
{
    a_round_keeps_the_ledger();
}

/// So a mesh that was reached so, with nothing waiting, nothing unsent and no dump record left, has delivered all that the job
/// asks for and nothing else: each packet once at each target of its net, however often copies were dropped on the way.
pub fn reinjected_meshes_have_delivered_all()
    ensures { (patience turns : ℕ) (m n : State) (nets : List NetPlan) (packets : List Packet)
        → IsMesh m →
        AreRight m.setup.machine m.setup.tables nets → MeetsJobLedger m nets packets
        → HasPasses patience turns m n → IsAtRest n →
        n.dumped ≡ [] → AreAsExpected n nets packets }
{
    passes_keep_the_ledger();
    a_mesh_at_rest_has_delivered_all();
}
