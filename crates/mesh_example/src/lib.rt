//! Two chips, a net with targets on both, and a net to a device: the definitions of the mesh tried on one example.
//!
//! What the definitions of trees, right tables, steps and the ledger ask can be met, and not by any tables; and the events
//! do on it what a reader expects. The example is this project's own.
#![tactic(auto)]

ghost use Rattle.std.specs.Prelude.{◌≡◌, ℕ, ◌<◌, List, [], ◌∷◌, ◌++◌, None, Some};
ghost use Rattle.spin_base.specs.declared.chips.Dir.TheVariants.{East, West};
ghost use Rattle.spin_base.specs.declared.chips.Port.TheVariants.{Link as ByLink, Local};
ghost use Rattle.spin_base.specs.declared.routes.Out.TheVariants.{Link, Core};
ghost use Rattle.spin_base.specs.declared.copies.Event.{Event};
ghost use Rattle.spin_base.specs.declared.copies.Event.TheVariants.{Inject, Take, Send};
ghost use Rattle.machine_desc.specs.NetsOn.{AreNetsOn, IsWayOn};
ghost use Rattle.machine_desc.specs.RightTables.{AreRight};
ghost use Rattle.mesh_core.specs.State.{IsMesh};
ghost use Rattle.mesh_core.specs.Step.{after_events};
ghost use Rattle.mesh_core.specs.Opened.{AreOfNets, MeetsJobLedger};
ghost use Rattle.mesh_core.specs.Whereabouts.{IsTracked};
ghost use Rattle.mesh_example.specs.Board.{two_chip_board, left_chip, right_chip, device, spots, net, other_net, nets, tables, wrong_tables, packets, opened, far_branch, device_branch, first_packet, second_packet, device_packet, copy, other_copy};

/// The nets stand on the machine with trees to their targets, the tables are right for them, and each packet has a key of
/// its net. So the mesh meets the ledger of the job after every list of events, and each packet can be found in it. Tables
/// that lack a row are not right.
pub fn the_example_meets_the_definitions()
    ensures is_mesh { IsMesh opened }
    ensures stands { AreNetsOn two_chip_board spots nets }
    ensures right_tables { AreRight two_chip_board tables nets }
    ensures wrong_tables { AreRight two_chip_board wrong_tables nets → ⊥ }
    ensures of_nets { AreOfNets nets packets }
    ensures way { IsWayOn two_chip_board spots net (record {
      chip = right_chip;
      core = 2;
    }) far_branch 0 3 }
    ensures way_to_device { IsWayOn two_chip_board spots other_net device device_branch 1 4 }
    ensures ledger { (events : List Event)
        → MeetsJobLedger (after_events opened events) nets packets }
    ensures tracked { (events : List Event) (i : ℕ) → i < 2
        → IsTracked (after_events opened events) net i }
    ensures tracked_to_device { (events : List Event)
        → IsTracked (after_events opened events) other_net 2 }
{}

/// What is where, worked by hand: the first packet is in hand on the left chip with two outputs to serve; on the right
/// chip's port after it left by the link; and delivered at last at three vertices, but for vertex 1, where it waits. So the
/// second packet is dumped there. The packet of the other net is delivered at the device, with no row on the right chip.
#[tactic(auto, unfolding(spin_base::specs::Outputs::link_outs, spin_base::specs::Outputs::core_outs))]
pub fn the_events_do_what_is_expected()
    ensures in_hand { (after_events opened (Inject 0 ∷ Take left_chip Local ∷ [])).hands
        ≡ Some (record {
          copy = copy 0 0;
          port = Local;
          outs = Link East ∷ Core 2 ∷ [];
        }) ∷ None ∷ [] }
    ensures across { (after_events opened (Inject 0 ∷ Take left_chip Local ∷ Send left_chip (Link East) ∷
        [])).inputs
        ≡ [] ∷ [] ∷ [] ∷ [] ∷ [] ∷ [] ∷ [] ∷ [] ∷ [] ∷ [] ∷ (copy 0 1 ∷ []) ∷ [] ∷ [] ∷ [] ∷ [] }
    ensures delivered { (after_events opened first_packet).delivered
        ≡ record { vertex = 2; copy = copy 0 2 } ∷ record { vertex = 3; copy = copy 0 2 } ∷ [] }
    ensures waits { (after_events opened first_packet).cores
        ≡ [] ∷ (copy 0 1 ∷ []) ∷ [] ∷ [] ∷ [] ∷ [] }
    ensures dumped { (after_events opened (first_packet ++ second_packet)).dumped
        ≡ record { chip = left_chip; out = Core 2; copy = copy 1 0 } ∷ [] }
    ensures goes_on { (after_events opened (first_packet ++ second_packet)).hands
        ≡ Some (record { copy = copy 1 0; port = Local; outs = Link East ∷ [] }) ∷ None ∷ [] }
    ensures at_device { (after_events opened device_packet).delivered
        ≡ record { vertex = 4; copy = other_copy 2 } ∷ [] }
{}
