//! Laws of the core. Each function does nothing: its clauses are the law, for every mesh.
ghost use Rattle.std.specs.Prelude.{◌≡◌, ◌≢◌, ◌≤◌, ◌+◌, ◌*◌, ◌^◌, ◌==◌, ℕ, List, [], Option, Some, count_by, map, All, AllPairs, Contains, length};
ghost use Rattle.std.specs.List.{range_with_len};
ghost use Rattle.std.specs.List.Sorted.{IsPermutation};
ghost use Rattle.spin_base.specs.declared.chips.Chip.{Chip};
ghost use Rattle.spin_base.specs.declared.chips.Spot.{Spot};
ghost use Rattle.spin_base.specs.declared.routes.Out.{Out};
ghost use Rattle.spin_base.specs.declared.copies.McCopy.{McCopy};
ghost use Rattle.spin_base.specs.declared.copies.Event.{Event};
ghost use Rattle.spin_base.specs.declared.copies.Event.TheVariants.{Dump};
ghost use Rattle.spin_base.specs.declared.copies.Delivery.{Delivery};
ghost use Rattle.spin_base.specs.declared.copies.Packet.{Packet};
ghost use Rattle.machine_desc.specs.Branch.{Exit};
ghost use Rattle.machine_desc.specs.Description.{Description, HasSize};
ghost use Rattle.machine_desc.specs.Live.{IsSite};
ghost use Rattle.machine_desc.specs.declared.nets.NetPlan.{NetPlan};
ghost use Rattle.machine_desc.specs.NetsOn.{AreNetsOn, IsWayOn};
ghost use Rattle.machine_desc.specs.RightTables.{AreRight};
ghost use Rattle.mesh_core.specs.State.{Setup, State, IsMesh, Queue, behind};
ghost use Rattle.mesh_core.specs.declared.places.Did.TheVariants.{Idle};
ghost use Rattle.mesh_core.specs.Step.{after_events, answer};
ghost use Rattle.mesh_core.specs.PutBack.{after_put_back};
ghost use Rattle.mesh_core.specs.Ledger.{marks_of, Label, Asked, MeetsLedger, MeetsLedgerFor, OnlyUnderWay};
ghost use Rattle.mesh_core.specs.Trail.{in_hand};
ghost use Rattle.mesh_core.specs.Waiting.{queue_of};
ghost use Rattle.mesh_core.specs.Opened.{opened_mesh, AreOfNets, MeetsJobLedger};
ghost use Rattle.mesh_core.specs.Expected.{IsAtRest, AreAsExpected, without_hop, IsDeliveryNotAfter, expected_deliveries, expected_count};

use crate::meshes::Mesh;
pub use crate::setups::every_setup_has_sites;

/// The opened mesh of a job is a mesh, for vertices on different sites of a machine of 1 to 64 chips along each axis, with one
/// table for each chip index and room for at least one copy in a queue.
pub fn an_opened_mesh_is_a_mesh()
    ensures { (setup : Setup) (nets : List NetPlan) (packets : List Packet) →
        HasSize setup.machine → AllPairs (λ a b. a ≢ b) setup.spots
        → All (IsSite setup.machine) setup.spots →
        length setup.tables ≡ setup.machine.width * setup.machine.height → 1 ≤ setup.capacity →
        IsMesh (opened_mesh setup nets packets) }
{}

/// Every mesh is one, with the lists that a mesh has.
pub fn every_mesh_is_one(mesh: &Mesh)
    ensures { IsMesh mesh.now }
{
    let _ = &mesh.setup; // Opens the mesh.
}

/// A mesh is one after every list of events, and after its first dumped copy was put back.
#[tactic(auto, using(crate::proofs::Named::meshes_stay))]
pub fn a_mesh_stays_a_mesh()
    ensures after_events { (s : State) (events : List Event) → IsMesh s
        → IsMesh (after_events s events) }
    ensures after_put_back { (s : State) → IsMesh s → IsMesh (after_put_back s) }
{}

/// Each target of a net that stands on a machine has a way, and two ways to one target are one.
pub fn each_target_has_one_way()
    ensures some { (m : Description) (spots : List Spot) (nets : List NetPlan) (net : NetPlan)
        (target : Spot) →
        AreNetsOn m spots nets → Contains nets net → Contains net.targets target →
        (branch : List Exit) × (from : ℕ) × (to : ℕ) × IsWayOn m spots net target branch from to }
    ensures no_other { (m : Description) (spots : List Spot) (nets : List NetPlan) (net : NetPlan)
        (target : Spot)
        (branch other : List Exit) (from begin to end : ℕ) →
        AreNetsOn m spots nets → Contains nets net → IsWayOn m spots net target branch from to
        → IsWayOn m spots net target other begin end →
        (branch ≡ other) × (from ≡ begin) × (to ≡ end) }
{}

/// Where the tables are right for the nets and the mesh meets the ledger of copies, it meets the ledger after every list
/// of events, so after each event of any list; and the same for the ledger of asked packets and that of a job.
pub fn events_keep_the_ledger()
    ensures of_nets { (s : State) (nets : List NetPlan) (labels : ℕ → Label) (events : List Event) →
        IsMesh s → AreRight s.setup.machine s.setup.tables nets → MeetsLedger s nets labels
        → MeetsLedger (after_events s events) nets labels }
    ensures of_asked { (s : State) (nets : List NetPlan) (asked : ℕ
        → Option Asked) (events : List Event) →
        IsMesh s → AreRight s.setup.machine s.setup.tables nets → MeetsLedgerFor s nets asked
        → MeetsLedgerFor (after_events s events) nets asked }
    ensures of_job { (s : State) (nets : List NetPlan) (packets : List Packet)
        (events : List Event) →
        IsMesh s → AreRight s.setup.machine s.setup.tables nets → MeetsJobLedger s nets packets
        → MeetsJobLedger (after_events s events) nets packets }
{}

/// The same of putting the first dumped copy back.
pub fn putting_back_keeps_the_ledger()
    ensures of_nets { (s : State) (nets : List NetPlan) (labels : ℕ → Label) →
        IsMesh s → AreRight s.setup.machine s.setup.tables nets → MeetsLedger s nets labels
        → MeetsLedger (after_put_back s) nets labels }
    ensures of_asked { (s : State) (nets : List NetPlan) (asked : ℕ → Option Asked) →
        IsMesh s → AreRight s.setup.machine s.setup.tables nets → MeetsLedgerFor s nets asked
        → MeetsLedgerFor (after_put_back s) nets asked }
    ensures of_job { (s : State) (nets : List NetPlan) (packets : List Packet) →
        IsMesh s → AreRight s.setup.machine s.setup.tables nets → MeetsJobLedger s nets packets
        → MeetsJobLedger (after_put_back s) nets packets }
{}

/// The opened mesh of a job meets the ledger of the job, where the nets stand on its machine and each packet has a key of its
/// net.
pub fn opened_mesh_meets_its_ledger()
    ensures { (setup : Setup) (nets : List NetPlan) (packets : List Packet) →
        AreNetsOn setup.machine setup.spots nets → AreOfNets nets packets
        → MeetsJobLedger (opened_mesh setup nets packets) nets packets }
{}

/// A mesh that meets the ledger of a job, where nothing waits, nothing is unsent and nothing was dumped, has delivered
/// each packet at each target of its net once, and nothing else.
#[tactic(auto, using(crate::proofs::DeliveredLaw::delivered_as_expected))]
pub fn a_mesh_at_rest_has_delivered_all()
    ensures { (s : State) (nets : List NetPlan) (packets : List Packet) →
        MeetsJobLedger s nets packets → IsAtRest s → s.dumped ≡ [] → AreAsExpected s nets packets }
{}

/// The deliveries of such a mesh, put in the order of a report, are exactly the list of deliveries that the job asks for, but for
/// hop numbers.
#[tactic(auto, using(crate::proofs::DeliveredLaw::delivered_as_expected, crate::proofs::ExpectedList::in_order_is_list))]
pub fn deliveries_in_order_are_the_expected_list()
    ensures { (s : State) (nets : List NetPlan) (packets : List Packet) (sorted : List Delivery) →
        IsMesh s → MeetsJobLedger s nets packets → IsAtRest s → s.dumped ≡ [] →
        IsPermutation s.delivered sorted → AllPairs IsDeliveryNotAfter sorted →
        map without_hop sorted ≡ expected_deliveries s.setup.spots nets packets }
{}

/// And they are as many as the targets of the packets' nets, over all packets.
#[tactic(auto, using(crate::proofs::ExpectedCount::as_many, crate::proofs::DeliveredLaw::delivered_as_expected))]
pub fn deliveries_are_as_many_as_expected()
    ensures { (s : State) (nets : List NetPlan) (packets : List Packet) →
        IsMesh s → MeetsJobLedger s nets packets → IsAtRest s → s.dumped ≡ []
        → length s.delivered ≡ expected_count nets packets }
{}

/// The deliveries and dump records of a mesh that meets the ledger of a job are few: together at most the number of packets
/// times the greatest number of targets of a net, so at most 2 ^ 30 for 65,536 packets and 16,384 vertices.
pub fn deliveries_and_records_are_few()
    ensures few { (s : State) (nets : List NetPlan) (packets : List Packet) (most : ℕ) →
        MeetsJobLedger s nets packets → All (λ net. length net.targets ≤ most) nets →
        length s.delivered + length s.dumped ≤ length packets * most }
    ensures at_limits { (s : State) (nets : List NetPlan) (packets : List Packet) →
        MeetsJobLedger s nets packets → length packets ≤ 2 ^ 16 → length s.setup.spots ≤ 2 ^ 14 →
        length s.delivered + length s.dumped ≤ 2 ^ 30 }
{}

/// In a mesh that meets the ledger of copies a packet waits once: behind each output that a hand still has to serve there is a
/// queue, without a copy of the hand's packet; and no queue has two copies of one packet.
pub fn a_packet_waits_once()
    ensures behind_a_hand { (s : State) (nets : List NetPlan) (labels : ℕ
        → Label) (c : Chip) (o : Out) (k : McCopy) →
        IsMesh s → MeetsLedger s nets labels
        → Contains (marks_of s) (record { copy = k; station = in_hand c o }) →
        (q : List McCopy) × (queue_of s (behind s.setup c o) ≡ Some q)
        × All (λ j. j.packet ≢ k.packet) q }
    ensures in_a_queue { (s : State) (nets : List NetPlan) (labels : ℕ
        → Label) (b : Queue) (q : List McCopy) (number : ℕ) →
        MeetsLedger s nets labels → queue_of s b ≡ Some q
        → count_by (λ j. j.packet == number) q ≤ 1 }
{}

/// Where a queue has room for a copy of each packet that is under way (unsent or waiting), no Dump is enabled, and no list of events
/// makes a dump record. The packets of a job have the numbers below their number.
pub fn a_roomy_mesh_drops_nothing()
    ensures idle { (s : State) (nets : List NetPlan) (labels : ℕ → Label) (numbers : List ℕ)
        (c : Chip) (o : Out) →
        IsMesh s → MeetsLedger s nets labels → OnlyUnderWay numbers s
        → length numbers ≤ s.setup.capacity → answer s (Dump c o) ≡ Idle }
    ensures no_record { (s : State) (nets : List NetPlan) (labels : ℕ → Label) (numbers : List ℕ)
        (events : List Event) →
        IsMesh s → AreRight s.setup.machine s.setup.tables nets → MeetsLedger s nets labels
        → OnlyUnderWay numbers s → length numbers ≤ s.setup.capacity →
        (after_events s events).dumped ≡ s.dumped }
    ensures of_job { (s : State) (nets : List NetPlan) (packets : List Packet) →
        MeetsJobLedger s nets packets → OnlyUnderWay (range_with_len 0 (length packets)) s }
{}

/// A mesh with room for a copy of each packet of a job has delivered all that the job asks for, and nothing else, after every list
/// of events from the opened mesh of the job that leaves nothing waiting and nothing unsent: in whatever order routers, cores and
/// vertices take their turns.
#[tactic(auto, using(crate::proofs::RoomyRuns::run_delivers_all))]
pub fn a_roomy_mesh_delivers_all()
    ensures { (setup : Setup) (nets : List NetPlan) (packets : List Packet) (events : List Event) →
        IsMesh (opened_mesh setup nets packets) → AreRight setup.machine setup.tables nets
        → AreNetsOn setup.machine setup.spots nets →
        AreOfNets nets packets → length packets ≤ setup.capacity
        → IsAtRest (after_events (opened_mesh setup nets packets) events) →
        AreAsExpected (after_events (opened_mesh setup nets packets) events) nets packets }
{}
