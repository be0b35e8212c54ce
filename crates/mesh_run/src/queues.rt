// Queues brought up as links, links that rest between rounds, and links brought down to queues.
//
// A link holds its whole queue, and has more places than a round can fill, as long as its queue's capacity asks for them. One that
// a round leaves with fewer gets twice as many. So between rounds no copy moves, and a round costs what it moves.
ghost use Rattle.std.specs.Prelude.{◌≡◌, ℕ, ◌+◌, ◌<◌, ◌≤◌, List, All, OnErr, OnOk, IfOk, Some, length, map, slice_get};
ghost use Rattle.link_queue.specs.declared.links.LinkEnds.{LinkEnds};
ghost use Rattle.mesh_run.specs.Standing.{HoldsAll};
ghost use Rattle.mesh_run.specs.Queues.{AreUp, AreEnds, DownTo, IsUp, RestAll, RestsAt, StayUp, UpAt, WasUp, free_places_of, places_for, queue_of_link};

use crate::standing::{Rising, Standing};
use link_queue::{AtRest, FirstList, LentLink, LinkEnds, WholeLink, link_down, link_up, rest};
use spin_base::{Fifo, McCopy, Memory, Seq};
use std::alloc::Global;
use std::sync::Wait;

/// Whether no link holds a copy, and how many places are left in the fullest link of those that have fewer than their queue.
#[derive(Clone, Copy)]
pub(crate) struct Rested {
    pub quiet: bool,
    pub free: usize,
}

/// For what links have places: the capacity of their queues, and so many turns of a round.
#[derive(Clone, Copy)]
pub(crate) struct Places {
    pub cap: u32,
    pub turns: u32,
    ghost some: { 0 < cap },
}

impl Places {
    // The places of a link that holds so many copies of a queue. Turns of a round bring it at most one copy each, so with one
    // place more than that it is full exactly when its queue is: never, or where it has as many places. Twice as many, so that a
    // queue that grows seldom asks for another link. All places are made with a link, used or not.
    fn for_held(self, held: usize) -> u32
        ensures { result ≡ places_for self.cap self.turns held }
    {
        let filled = (held as u64).saturating_add(u64::from(self.turns) + 1);
        u64::from(self.cap).min(filled.saturating_mul(2)) as u32
    }
}

/// A link for each queue, at its place, with the queue as its first list, and with places for a round of so many turns.
#[tactic(auto, using(crate::proofs::BringingUp::may_rise, crate::proofs::BringingUp::up_none))]
pub(crate) fn bring_up<R: Wait>(
    rt: &R,
    alloc: Global,
    queues: &[Fifo<McCopy>],
    places: Places,
) -> Result<Standing, Memory>
    requires { All (λ q. length q ≤ places.cap) queues.now }
    ensures { IfOk result (λ s. (ends : List LinkEnds) × HoldsAll ends s
        × AreUp places.cap (places.turns + 1) queues.now ends) }
{
    let mut rising = Rising::over(alloc, queues.len())?;
    for place in 0..queues.len() {
        let list = copied(alloc, queues[place].as_slice())?;
        let cap = places.for_held(list.len());
        let first = FirstList { list, cap };
        match link_up(rt, alloc, first) {
            Ok(ends) => rising.put(ends),
            Err(_) => return Err(Memory),
        }
    }
    Ok(rising.into_standing())
}

// A copy of a list.
fn copied(alloc: Global, list: &[McCopy]) -> Result<Seq<McCopy>, Memory>
    ensures { IfOk result (λ copy. copy ≡ list.now) }
{
    Ok(Seq::from_vec(Vec::from_slice(alloc, list)?))
}

/// All links rest: each keeps what it holds.
#[tactic(auto, using(crate::proofs::Resting::none_rest))]
pub(crate) fn rest_all<R: Wait>(rt: &R, standing: &mut Standing, cap: u32) -> Rested
    requires { (ends : List LinkEnds) × HoldsAll ends standing.old × All (WasUp cap) ends }
    ensures { (ends : List LinkEnds) → HoldsAll ends standing.old
        → RestAll cap ends standing.new result }
{
    let mut quiet = true;
    let mut free = usize::MAX;
    for place in 0..standing.links.len() {
        let held = rest_at(rt, standing, place);
        quiet = quiet && held == 0;
        free = free.min(free_places(standing.links[place].places(), held, cap));
    }
    Rested { quiet, free }
}

// The link at a place rests. How many copies it holds.
#[tactic(auto, using(std::proofs::lemmas::Option::slice_get_within))]
fn rest_at<R: Wait>(rt: &R, standing: &mut Standing, place: usize) -> usize
    requires { (ends : List LinkEnds) × (old : LinkEnds) × HoldsAll ends standing.old
        × (slice_get ends place ≡ Some old) × AreEnds old }
    ensures { (ends : List LinkEnds) (old : LinkEnds) → HoldsAll ends standing.old
        → slice_get ends place ≡ Some old → RestsAt ends place old standing.new result }
{
    let (tx, rx) = standing.take_ends(place);
    let lent = LentLink {
        link: &standing.links[place],
        tx,
        rx,
    };
    let AtRest { tx, rx, held, .. } = rest(rt, lent);
    standing.put_ends(place, tx, rx);
    held
}

// How many places are left in a link, or the greatest number where it has as many as its queue.
fn free_places(places: usize, held: usize, cap: u32) -> usize
    ensures { result ≡ free_places_of cap places held }
{
    if places == cap as usize {
        usize::MAX
    } else {
        places.saturating_sub(held)
    }
}

/// Gives each link places for a round of so many turns. After a refusal some have them, and all hold what they held.
#[tactic(auto, using(crate::proofs::Resting::StaysAs, crate::proofs::Resting::none_done))]
pub(crate) fn widen_all<R: Wait>(
    rt: &R,
    alloc: Global,
    standing: &mut Standing,
    places: Places,
) -> Result<(), Memory>
    requires { (ends : List LinkEnds) × HoldsAll ends standing.old
        × AreUp places.cap 0 (map queue_of_link ends) ends }
    ensures wide { OnOk result ((ends : List LinkEnds) → HoldsAll ends standing.old
        → StayUp places.cap (places.turns + 1) ends standing.new) }
    ensures back { OnErr result ((ends : List LinkEnds) → HoldsAll ends standing.old
        → StayUp places.cap 0 ends standing.new) }
{
    for place in 0..standing.links.len() {
        widen_at(rt, alloc, standing, place, places)?;
    }
    Ok(())
}

// Where the link at a place has too few places, one with more stands there with the same queue.
fn widen_at<R: Wait>(
    rt: &R,
    alloc: Global,
    standing: &mut Standing,
    place: usize,
    places: Places,
) -> Result<(), Memory>
    requires { (ends : List LinkEnds) × (old : LinkEnds) × HoldsAll ends standing.old
        × (slice_get ends place ≡ Some old) × IsUp places.cap 0 (queue_of_link old) old }
    ensures wide { OnOk result ((ends : List LinkEnds) (old : LinkEnds) → HoldsAll ends standing.old
        → slice_get ends place ≡ Some old → IsUp places.cap 0 (queue_of_link old) old
        → UpAt places.cap (places.turns + 1) ends place (queue_of_link old) standing.new) }
    ensures back { OnErr result ((ends : List LinkEnds) (old : LinkEnds)
        → HoldsAll ends standing.old → slice_get ends place ≡ Some old
        → IsUp places.cap 0 (queue_of_link old) old
        → UpAt places.cap 0 ends place (queue_of_link old) standing.new) }
{
    let held = rest_at(rt, standing, place);
    let has = standing.links[place].places();
    if (places.turns as usize) < free_places(has, held, places.cap) {
        return Ok(());
    }
    let (tx, rx) = standing.take_ends(place);
    let wider = places.for_held(held);
    let resting = AtRest {
        link: &standing.links[place],
        tx,
        rx,
        held,
    };
    match resting.widened(rt, alloc, wider) {
        Ok(ends) => {
            standing.set(place, ends);
            Ok(())
        }
        Err((tx, rx, e)) => {
            standing.put_ends(place, tx, rx);
            Err(e)
        }
    }
}

/// Brings all links down: at the place of each, what it holds.
#[tactic(auto, using(crate::proofs::Holding::as_many, crate::proofs::Holding::down_none))]
pub(crate) fn bring_down<R: Wait>(rt: &R, standing: Standing, queues: &mut Vec<Fifo<McCopy>>)
    requires ends { (ends : List LinkEnds) × HoldsAll ends standing × All AreEnds ends
        × (length ends ≤ length queues.old.items) }
    ensures long { length queues.new.items ≡ length queues.old.items }
    ensures down { (ends : List LinkEnds) → HoldsAll ends standing → DownTo ends queues.new.items }
{
    let mut standing = standing;
    let count = standing.links.len();
    for gone in 0..count {
        let LinkEnds { link, tx, rx, room } = standing.pop();
        let whole = WholeLink { link, tx, rx, room };
        queues[count - gone - 1] = Fifo::from_seq(link_down(rt, whole));
    }
}
