// A mesh split into shares.
ghost use Rattle.std.specs.Prelude.{◌≡◌, ◌+◌, ◌<◌, ◌++◌, IfOk, ℕ, List, [], Some, length, slice_get, slice_index_or};
ghost use Rattle.spin_base.specs.WithRoom.{WithRoom};
ghost use Rattle.spin_base.specs.declared.copies.McCopy.{McCopy};
ghost use Rattle.chip_node.specs.declared.ends.End.TheVariants.{Own};
ghost use Rattle.mesh_core.specs.State.{IsMesh};
ghost use Rattle.chip_node.specs.declared.ends.End.{End};
ghost use Rattle.mesh_run.specs.declared.shares.Share.{Share};
ghost use Rattle.mesh_run.specs.Split.{cut_queues, end_at, unsent_at};
ghost use Rattle.mesh_run.specs.Layouts.{IsLayoutOf};
ghost use Rattle.mesh_run.specs.Splitting.{AreInside, AreSameHolds, FitHomes, HoldNothing, IsEmptyHand, IsSplitPlanOf, MayPutLane, MayTakeLane, MovesIn, MovesOut, PutsUnsent, SetsQueue, SetsUnsent};

use crate::crossing::put_end;
use crate::homes::{Cut, Home};
use crate::layout::Layout;
use crate::paces::Pace;
use crate::queues::{Places, bring_up};
use crate::rooms::LEAST_LOG;
use crate::shares::Share;
use crate::standing::Standing;
use chip_node::{End, Flags, Holdings, Lane, Log};
use mesh_core::MeshParts;
use spin_base::{Fifo, McCopy, Memory, Seq};
use std::alloc::Global;
use std::mem;
use std::sync::Wait;

/// How a mesh is split on a layout: the links between the shares, and shares that hold nothing yet.
#[derive(Drop)]
pub(crate) struct SplitPlan {
    pub standing: Standing,
    /// A place for each link's queue to come down to.
    pub crossing: Vec<Fifo<McCopy>>,
    pub shares: Vec<Share>,
}

impl SplitPlan {
    /// How a mesh is split, at a pace, on its layout.
    #[tactic(auto, using(crate::proofs::PlanLaws::cuts_fit, crate::proofs::PlanLaws::cuts_inside))]
    pub fn of<R: Wait>(
        rt: &R,
        alloc: Global,
        parts: &MeshParts,
        layout: &Layout,
        pace: Pace,
    ) -> Result<SplitPlan, Memory>
        requires mesh { IsMesh parts.now }
        requires layout { IsLayoutOf parts.now.setup layout.now }
        ensures { IfOk result (IsSplitPlanOf parts.now layout.now (pace.turns + 1)) }
    {
        let crossing = crossing_of(alloc, parts, &layout.cuts)?;
        let places = Places {
            cap: parts.setup.capacity(),
            turns: pace.turns,
        };
        let standing = bring_up(rt, alloc, &crossing, places)?;
        let shares = empty_shares(alloc, &layout.runs, layout.homes.len(), parts.unsent.len())?;
        Ok(SplitPlan {
            standing,
            crossing,
            shares,
        })
    }
}

// Copies of the queues between shares.
fn crossing_of(alloc: Global, parts: &MeshParts, cuts: &[Cut]) -> Result<Vec<Fifo<McCopy>>, Memory>
    requires { AreInside (length parts.now.inputs + length parts.now.cores) cuts.now }
    ensures { IfOk result (λ c. c.items
        ≡ cut_queues (parts.now.inputs ++ parts.now.cores) cuts.now) }
{
    let mut crossing = Vec::new(alloc);
    for cut in cuts {
        let copies = Vec::from_slice(alloc, queue_at(parts, cut.queue as usize).as_slice())?;
        crossing.push(Fifo::from_seq(Seq::from_vec(copies)))?;
    }
    Ok(crossing)
}

// Shares of these runs that hold nothing.
#[tactic(auto, using(crate::proofs::SplitLaws::nothing_none, crate::proofs::SplitLaws::nothing_more, crate::proofs::SplitLaws::nothing_all))]
fn empty_shares(
    alloc: Global,
    runs: &[usize],
    queues: usize,
    vertices: usize,
) -> Result<Vec<Share>, Memory>
    ensures { IfOk result (λ s. HoldNothing runs.now queues vertices s.items) }
{
    let mut shares = Vec::new(alloc);
    let mut from: usize = 0;
    for to in runs {
        let hold = empty_holdings(alloc, queues, vertices)?;
        let worker = shares.len();
        shares.push(share_of(from, *to, worker, hold))?;
        from = *to;
    }
    Ok(shares)
}

// A share of actors, all of whom are awake.
fn share_of(from: usize, to: usize, worker: usize, hold: Holdings) -> Share
    ensures from { result.from ≡ from }
    ensures to { result.to ≡ to }
    ensures hold { result.hold ≡ hold }
{
    Share {
        from,
        to,
        hold,
        worker: u32::try_from(worker).unwrap_or(u32::MAX),
        awake: Flags::all(),
        polled: Flags::none(),
        short: Flags::all(),
        moved: false,
        dumps_wanted: LEAST_LOG,
        deliveries_wanted: LEAST_LOG,
    }
}

// Nothing is held.
fn empty_holdings(alloc: Global, queues: usize, vertices: usize) -> Result<Holdings, Memory>
    ensures { IfOk result (IsEmptyHand queues vertices) }
{
    let mut ends = Vec::new(alloc);
    for _queue in 0..queues {
        ends.push(End::Away)?;
    }
    let mut unsent = Vec::new(alloc);
    for _vertex in 0..vertices {
        unsent.push(Fifo::new(alloc))?;
    }
    Ok(Holdings {
        ends,
        unsent,
        dumps: Log::new(alloc),
        deliveries: Log::new(alloc),
    })
}

/// The queues that no two shares are between, and what vertices did not send, move into their shares. Who takes from another share is
/// polled. It takes no memory.
#[tactic(auto, using(crate::proofs::SplitLaws::holds_self, crate::proofs::SplitLaws::lanes_none, crate::proofs::SplitLaws::vertices_to_none))]
pub(crate) fn move_in(
    alloc: Global,
    parts: &mut MeshParts,
    homes: &[Home],
    cuts: &[Cut],
    shares: &mut Vec<Share>,
)
    requires { (queues vertices : ℕ) × (runs : List ℕ) × HoldNothing runs queues vertices shares.old.items
        × FitHomes parts.old homes.now shares.old.items }
    ensures { MovesIn parts.old homes.now shares.old.items parts.new shares.new.items }
{
    for place in 0..homes.len() {
        let copies = swap_queue(parts, place, Fifo::new(alloc));
        put_lane(shares, homes[place], place, copies);
    }
    let ports = parts.inputs.len();
    for vertex in 0..parts.unsent.len() {
        let share = homes[ports + vertex].receiver as usize;
        let copies = swap_kept(parts, vertex, Fifo::new(alloc));
        let _ = swap_unsent(shares, share, vertex, copies);
    }
    for cut in cuts {
        let taker = taker_of(parts, cut.queue as usize);
        poll(shares, cut.receiver as usize, taker);
    }
}

// The lane of a queue that no two shares are between stands in its share.
fn put_lane(shares: &mut Vec<Share>, home: Home, place: usize, copies: Fifo<McCopy>)
    requires { (e : End) × (end_at shares.old.items home.sender place ≡ Some e) }
    ensures { MayPutLane home place copies shares.old.items shares.new.items }
{
    if home.sender == home.receiver {
        let lane = Lane::of_queue(copies);
        let _ = put_end(shares, home.sender as usize, place, End::Own(lane));
    }
}

// Other unsent copies stand at the place of a vertex in a share. Those that stood there.
fn swap_unsent(
    shares: &mut Vec<Share>,
    share: usize,
    vertex: usize,
    copies: Fifo<McCopy>,
) -> Fifo<McCopy>
    requires { (s : Share) × (slice_get shares.old.items share ≡ Some s)
        × (vertex < length s.hold.unsent.items) }
    ensures stood { result ≡ unsent_at shares.old.items share vertex }
    ensures put { PutsUnsent share vertex copies shares.old.items shares.new.items }
{
    mem::replace(&mut shares[share].hold.unsent[vertex], copies)
}

// An actor of a share, where there is one, is polled from now on.
#[tactic(auto, using(crate::proofs::SplitLaws::holds_self, crate::proofs::SplitLaws::holds_set))]
fn poll(shares: &mut Vec<Share>, share: usize, taker: usize)
    ensures { AreSameHolds shares.old.items shares.new.items }
{
    if share < shares.len() {
        shares[share].polled.set(taker);
    }
}

/// All that shares hold moves back. It takes no memory.
#[tactic(auto, using(crate::proofs::SplitLaws::out_none, crate::proofs::SplitLaws::unsent_out_none))]
pub(crate) fn move_out(
    alloc: Global,
    parts: &mut MeshParts,
    homes: &[Home],
    shares: &mut Vec<Share>,
)
    requires { FitHomes parts.old homes.now shares.old.items }
    ensures { MovesOut homes.now shares.old.items parts.old parts.new }
{
    for place in 0..homes.len() {
        take_lane(alloc, parts, homes[place], place, shares);
    }
    let ports = parts.inputs.len();
    for vertex in 0..parts.unsent.len() {
        let share = homes[ports + vertex].receiver as usize;
        let copies = swap_unsent(shares, share, vertex, Fifo::new(alloc));
        let _ = swap_kept(parts, vertex, copies);
    }
}

// The lane of a queue that no two shares are between moves back.
fn take_lane(
    alloc: Global,
    parts: &mut MeshParts,
    home: Home,
    place: usize,
    shares: &mut Vec<Share>,
)
    requires queue { place < length parts.old.inputs + length parts.old.cores }
    requires end { (e : End) × (end_at shares.old.items home.sender place ≡ Some e) }
    ensures { MayTakeLane home place parts.old shares.old.items parts.new shares.new.items }
{
    if home.sender == home.receiver {
        let end = put_end(shares, home.sender as usize, place, End::Away);
        let _ = swap_queue(parts, place, queue_in(alloc, end));
    }
}

// The queue of a lane.
fn queue_in(alloc: Global, end: End) -> Fifo<McCopy>
    ensures { (a : WithRoom McCopy) → end ≡ Own a → result ≡ a.items }
{
    match end {
        End::Own(lane) => lane.into_queue(),
        _ => Fifo::new(alloc),
    }
}

// Who takes from the queue at a place. It is a hint, and no promise rests on it.
fn taker_of(parts: &MeshParts, place: usize) -> usize {
    if place < parts.inputs.len() {
        return place / 7 * 2;
    }
    match parts.setup.spots().get(place - parts.inputs.len()) {
        None => 0,
        Some(spot) => {
            let machine = parts.setup.machine();
            if machine.is_inside(spot.chip) {
                (2 * machine.index(spot.chip) + 1) as usize
            } else {
                0
            }
        }
    }
}

/// Another queue stands at a place among all queues. The one that stood there.
#[tactic(auto, using(crate::proofs::SplitLaws::sets_input, crate::proofs::SplitLaws::sets_core, crate::proofs::SplitLaws::read_input, crate::proofs::SplitLaws::read_core))]
pub(crate) fn swap_queue(parts: &mut MeshParts, place: usize, queue: Fifo<McCopy>) -> Fifo<McCopy>
    requires { place < length parts.old.inputs + length parts.old.cores }
    ensures stood { result
        ≡ slice_index_or (parts.old.inputs ++ parts.old.cores) place [] }
    ensures stands { SetsQueue place queue parts.old parts.new }
{
    let ports = parts.inputs.len();
    if place < ports {
        mem::replace(&mut parts.inputs[place], queue)
    } else {
        mem::replace(&mut parts.cores[place - ports], queue)
    }
}

// Other unsent copies of a vertex stand in a mesh. Those that stood there.
#[tactic(auto, using(crate::proofs::SplitLaws::sets_unsent))]
fn swap_kept(parts: &mut MeshParts, vertex: usize, copies: Fifo<McCopy>) -> Fifo<McCopy>
    requires { vertex < length parts.old.unsent }
    ensures stood { result ≡ slice_index_or parts.old.unsent vertex [] }
    ensures stands { SetsUnsent vertex copies parts.old parts.new }
{
    mem::replace(&mut parts.unsent[vertex], copies)
}

// The queue at a place among all queues.
fn queue_at(parts: &MeshParts, place: usize) -> &Fifo<McCopy>
    requires { place < length parts.now.inputs + length parts.now.cores }
    ensures { result.now ≡ slice_index_or (parts.now.inputs ++ parts.now.cores) place [] }
{
    if place < parts.inputs.len() {
        &parts.inputs[place]
    } else {
        &parts.cores[place - parts.inputs.len()]
    }
}
