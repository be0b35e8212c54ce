// A link brought up with its first list, and brought down to what it still holds.
ghost use Rattle.std.specs.Prelude.{◌≡◌, ◌<◌, ◌≤◌, [], ◌++◌, length, All, IfOk, IfErr};
ghost use Rattle.crossbeam_queue.specs.Passes.{view, IsPassOf, ruled_capacity};
ghost use Rattle.link_queue.specs.Ends.{IsTx, IsRx, cap_of, sending, taking};
ghost use Rattle.link_queue.specs.Steps.{newborn, told};
ghost use Rattle.link_queue.specs.TheRule.{put_of, IsFullNote};
ghost use Rattle.link_queue.specs.Ups.{NoNotes};

use crate::known::Known;
use crate::links::{
    BothEnds, Capacity, Empties, KnowsCapacity, Link, LinkEnds, Places, Queue, Rx, Tx,
};
use crossbeam_queue::Pass;
use spin_base::{McCopy, Memory, Room, Seq};
use std::alloc::{AllocError, Global};
use std::marker::Brand;
use std::sync::Wait;

/// What a link begins with, front first, and how many copies it can hold: at least one, and all of these.
#[derive(Drop)]
pub struct FirstList {
    pub list: Seq<McCopy>,
    pub cap: u32,
    ghost some: { 0 < cap },
    ghost fits: { length list ≤ cap },
}

/// A link that holds the first list, with its two ends and room for all that it can hold. A refusal hands the list back.
pub fn link_up<R: Wait>(
    rt: &R,
    alloc: Global,
    first: FirstList,
) -> Result<LinkEnds, (Seq<McCopy>, Memory)>
    ensures sending { IfOk result (λ e. IsTx e.link e.tx × NoNotes first.list (sending e.tx)) }
    ensures taking { IfOk result (λ e. IsRx e.link e.rx × NoNotes first.list (taking e.rx)) }
    ensures cap { IfOk result (λ e. cap_of e.link ≡ first.cap) }
    ensures room { IfOk result (λ e. (e.room.items ≡ []) × (first.cap ≤ e.room.spare)) }
    ensures back { IfErr result (λ b. b.0 ≡ first.list) }
{
    let Ok(room) = Room::over(Seq::new(alloc), u64::from(first.cap)) else {
        return Err((first.list, Memory));
    };
    let Ok((queue, mut pass)) = new_queue::<Brand>(alloc, &first) else {
        return Err((first.list, Memory));
    };
    for copy in first.list.as_slice() {
        match queue.push_as::<Places, R>(rt, &mut pass, *copy) {
            Ok(()) => {}
            // There is room for the whole list, and nobody else pushes.
            Err(_) => unreachable!(),
        }
    }
    let taker = queue.another::<BothEnds>(&mut pass);
    Ok(LinkEnds {
        link: Link { queue },
        tx: Tx { pass },
        rx: Rx { pass: taker },
        room,
    })
}

// An empty queue, and its pass, which knows the capacity.
fn new_queue<C: Capacity>(
    alloc: Global,
    first: &FirstList,
) -> Result<(Queue, Pass<McCopy, Known>), AllocError>
    ensures pass { IfOk result (λ q. IsPassOf q.0 q.1) }
    ensures told { IfOk result (λ q. view q.1 ≡ told C.cap newborn) }
    ensures cap { IfOk result (λ q. ruled_capacity q.0 ≡ first.now.cap) }
{
    let (queue, mut pass) = Queue::ruled(alloc, first.cap as usize)?;
    let _ = queue.another::<KnowsCapacity<C>>(&mut pass);
    Ok((queue, pass))
}

/// A link that is to be brought down, with both its ends and an empty room for all that it can hold.
#[derive(Drop)]
pub struct WholeLink {
    pub link: Link,
    pub tx: Tx,
    pub rx: Rx,
    pub room: Room<McCopy>,
    ghost sends: { IsTx link tx },
    ghost takes: { IsRx link rx },
    ghost empty: { room.items ≡ [] },
    ghost spare: { cap_of link ≤ room.spare },
}

/// The copies that are still held, front first: at most as many as the link can hold. The first list followed by what
/// was taken of the sender's offers is what the receiver took followed by the answer. Each note of Full is at most the
/// number of copies that entered and, less the capacity, at most the number of copies that the receiver took.
pub fn link_down<R: Wait>(rt: &R, whole: WholeLink) -> Seq<McCopy>
    ensures held { (sending whole.tx).first ++ (sending whole.tx).sent ≡ (taking whole.rx).took ++ result }
    ensures bound { length result ≤ cap_of whole.link }
    ensures noted { All (IsFullNote (cap_of whole.link) (put_of (sending whole.tx)) (taking whole.rx).took)
        (sending whole.tx).fulls }
{
    let WholeLink {
        link,
        tx,
        rx,
        mut room,
    } = whole;
    let Link { queue } = link;
    let Tx { mut pass } = tx;
    let Rx { pass: taker } = rx;
    queue.absorb::<BothEnds>(&mut pass, taker);
    let held = queue.len_as::<Empties, R>(rt, &mut pass);
    for _ in 0..held {
        match queue.pop_as::<Empties, R>(rt, &mut pass) {
            Some(copy) => room.put(copy),
            // The seat has both ends, so nobody else takes.
            None => unreachable!(),
        }
    }
    queue.learn_as::<Empties>(&mut pass);
    room.into_seq()
}
