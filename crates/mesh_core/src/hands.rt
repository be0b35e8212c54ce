// What a router holds in hand: a copy, and the outputs by which it still has to leave.
ghost use Rattle.std.specs.Prelude.{◌≡◌, ◌==◌, [], if◌then◌else◌, position, replicate, None, IfOk, slice_get};
ghost use Rattle.std.specs.List.{list_any};
ghost use Rattle.spin_base.specs.Equality.{out_eq};
ghost use Rattle.spin_base.specs.Lookup.{lookup};
ghost use Rattle.spin_base.specs.Outputs.{outs_of};
ghost use Rattle.mesh_core.specs.Step.{outs_without};
ghost use Rattle.mesh_core.specs.Serving.{hands_after};

use spin_base::{McCopy, Memory, Out, Outs, Port};
use std::alloc::Global;
use std::marker::Model;
use tcam_find::Tcam;

/// A copy in a router's hand: the port at which it came in, and the outputs by which it still has to leave.
#[derive(Drop)]
pub struct Hand {
    pub copy: McCopy,
    pub port: Port,
    pub outs: Outs,
}

impl Model for Hand {
    ghost use Rattle.mesh_core.specs.State.{Hand};

    ghost Value = { Hand };

    ghost view = { λ h. record { copy = h.copy; port = h.port; outs = h.outs.items } };
}

impl Hand {
    ghost use Rattle.spin_base.specs.Hops.{last_hop};
    ghost use Rattle.mesh_core.specs.Step.{in_hand};

    // What a router holds once it took a copy from a port: nothing where it gives the copy no output.
    pub(crate) fn taken(copy: McCopy, port: Port, table: &Tcam) -> Option<Hand>
        ensures { result
            ≡ in_hand copy port (if copy.hop == last_hop then [] else outs_of
            (lookup table.now copy.key port)) }
    {
        if copy.hop == u32::MAX {
            return None;
        }
        let outs = table.find(copy.key, port).outs();
        if outs.is_empty() {
            None
        } else {
            Some(Hand { copy, port, outs })
        }
    }

    // Whether the copy still has to leave by that output.
    pub(crate) fn serves(&self, out: Out) -> bool
        ensures { result ≡ list_any (out_eq out) self.now.outs }
    {
        self.outs
            .as_slice()
            .iter()
            .any(|other| other.number() == out.number())
    }

    // What is held after that output was served: nothing where no other is left.
    pub(crate) fn without(self, out: Out) -> Option<Hand>
        ensures { result ≡ in_hand self.copy self.port (outs_without out self.outs) }
    {
        let Hand {
            copy,
            port,
            mut outs,
        } = self;
        strike(&mut outs, out);
        if outs.is_empty() {
            None
        } else {
            Some(Hand { copy, port, outs })
        }
    }
}

// Takes an output off the list, at its first place.
#[tactic(auto, using(crate::proofs::HandOutputs::left_outputs))]
fn strike(outs: &mut Outs, out: Out)
    ensures { outs.new.items ≡ outs_without out outs.old.items }
{
    if let Some(place) = place_of(outs, out) {
        outs.remove(place);
    }
}

// The first place of an output in the list.
fn place_of(outs: &Outs, out: Out) -> Option<usize>
    ensures { result ≡ position (out_eq out) outs.now.items }
{
    outs.as_slice()
        .iter()
        .position(|other| other.number() == out.number())
}

// So many hands that hold nothing.
pub(crate) fn empty_hands(alloc: Global, count: usize) -> Result<Vec<Option<Hand>>, Memory>
    ensures { IfOk result (λ v. v.items ≡ replicate count None) }
{
    let mut hands = Vec::new(alloc);
    for _ in 0..count {
        hands.push(None)?;
    }
    Ok(hands)
}

// The chip's router has served an output.
#[tactic(auto, using(crate::proofs::Named::hands_served))]
pub(crate) fn serve(hands: &mut [Option<Hand>], chip: usize, out: Out)
    ensures { hands.new ≡ hands_after hands.old chip out (slice_get hands.old chip) }
{
    if chip >= hands.len() {
        return;
    }
    if let Some(hand) = hands[chip].take() {
        hands[chip] = hand.without(out);
    }
}
