// The ends of the links between shares: dealt to the shares before a round, and collected after it.
ghost use Rattle.std.specs.Prelude.{◌≡◌, ◌<◌, ◌^◌, List, Some, length};
ghost use Rattle.chip_node.specs.declared.ends.End.{End};
ghost use Rattle.chip_node.specs.declared.ends.End.TheVariants.{Sends, Takes};
ghost use Rattle.chip_node.specs.declared.ends.InEnd.{InEnd};
ghost use Rattle.chip_node.specs.declared.ends.OutEnd.{OutEnd};
ghost use Rattle.mesh_run.specs.Split.{end_at};
ghost use Rattle.link_queue.specs.declared.links.LinkEnds.{LinkEnds};
ghost use Rattle.mesh_run.specs.Crossing.{AreCuts, AreLaid, Deals, HoldsCollected, HoldsNoEnds, PutsEnd};
ghost use Rattle.mesh_run.specs.Standing.{HoldsAll};

use crate::homes::Cut;
use crate::shares::Share;
use crate::standing::{Standing, take_at};
use chip_node::{End, InEnd, OutEnd};
use link_queue::{Rx, Tx};
use std::mem;

/// Each cut's share of the sender gets the sending end of its link, and that of the receiver the receiving end.
#[tactic(auto, using(crate::proofs::CrossingLaws::dealt_all, crate::proofs::CrossingLaws::dealt_none))]
pub(crate) fn deal(shares: &mut Vec<Share>, standing: &mut Standing, cuts: &[Cut])
    requires cuts { AreCuts cuts.now shares.old.items }
    requires ends { (ends : List LinkEnds) × HoldsAll ends standing.old
        × (length ends ≡ length cuts.now) }
    ensures deals { (ends : List LinkEnds) → HoldsAll ends standing.old
        → Deals ends cuts.now shares.old.items shares.new.items }
    ensures none_left { (ends : List LinkEnds) → HoldsAll ends standing.old
        → HoldsNoEnds ends standing.new }
{
    for number in 0..cuts.len() {
        let cut = cuts[number];
        let tx = take_at(&mut standing.txs, number);
        let rx = take_at(&mut standing.rxs, number);
        let link = number as u32;
        let queue = cut.queue as usize;
        let _first = put_end(
            shares,
            cut.sender as usize,
            queue,
            End::Sends(OutEnd { link, tx }),
        );
        let _second = put_end(
            shares,
            cut.receiver as usize,
            queue,
            End::Takes(InEnd { link, rx }),
        );
    }
}

/// The ends of all links are with the links again.
#[tactic(auto, using(crate::proofs::CrossingLaws::collected_none))]
pub(crate) fn collect(shares: &mut Vec<Share>, standing: &mut Standing, cuts: &[Cut])
    requires cuts { AreCuts cuts.now shares.old.items }
    requires laid { AreLaid standing.old.links.items shares.old.items cuts.now }
    requires none { (ends : List LinkEnds) × HoldsNoEnds ends standing.old
        × (length ends ≡ length cuts.now) }
    ensures { (ends : List LinkEnds) → HoldsNoEnds ends standing.old → length ends ≡ length cuts.now
        → HoldsCollected ends cuts.now shares.old.items standing.new shares.new.items }
{
    for number in 0..cuts.len() {
        let cut = cuts[number];
        let queue = cut.queue as usize;
        let out = put_end(shares, cut.sender as usize, queue, End::Away);
        let into = put_end(shares, cut.receiver as usize, queue, End::Away);
        let tx = sender_of(out);
        let rx = receiver_of(into);
        standing.txs[number] = tx;
        standing.rxs[number] = rx;
    }
}

/// Another end stands at a place of a share. The one that stood there.
#[tactic(auto, using(crate::proofs::CrossingLaws::end_inside, crate::proofs::CrossingLaws::read_end, crate::proofs::CrossingLaws::share_inside))]
pub(crate) fn put_end(shares: &mut Vec<Share>, share: usize, queue: usize, end: End) -> End
    requires { (e : End) × (end_at shares.old.items share queue ≡ Some e) }
    ensures stood { end_at shares.old.items share queue ≡ Some result }
    ensures put { PutsEnd share queue end shares.old.items shares.new.items }
{
    mem::replace(&mut shares[share].hold.ends[queue], end)
}

// The sending end of a link, where it is one.
fn sender_of(end: End) -> Option<Tx>
    ensures { (e : OutEnd) → end ≡ Sends e → result ≡ Some e.tx }
{
    match end {
        End::Sends(end) => Some(end.tx),
        _ => None,
    }
}

// The receiving end of a link, where it is one.
fn receiver_of(end: End) -> Option<Rx>
    ensures { (e : InEnd) → end ≡ Takes e → result ≡ Some e.rx }
{
    match end {
        End::Takes(end) => Some(end.rx),
        _ => None,
    }
}
