// The ends of queues that routers and banks hold: a lane, or an end of a link with the place of that link.
ghost use Rattle.std.specs.Prelude.{◌≡◌, IsFalse, IsTrue, IfSome, IfNone};
ghost use Rattle.link_queue.specs.Ends.{sending};
ghost use Rattle.chip_node.specs.Ends.{IsOutEndOf};
ghost use Rattle.chip_node.specs.Offers.{IsServedAs};
ghost use Rattle.chip_node.specs.Going.{EndHasRoom, EndStays, IsEndOf};
ghost use Rattle.chip_node.specs.Passing.{EndLacks, EndServes, EndTakes, IsSeen, MayOffer};

use crate::lanes::Lane;
use link_queue::{Link, Offered, Rx, Tx, finds_nothing, offer, take};
use spin_base::{McCopy, Shared};
use std::sync::Wait;

/// The receiving end of a link, and the link's place in the list of links that a call is lent.
#[derive(Drop)]
pub struct InEnd {
    pub link: u32,
    pub rx: Rx,
}

/// The sending end of a link, and the link's place in the list of links that a call is lent.
#[derive(Drop)]
pub struct OutEnd {
    pub link: u32,
    pub tx: Tx,
}

/// What a worker holds of a queue.
#[derive(Drop)]
pub enum End {
    /// Neither end.
    Away,
    /// Both: the queue is a lane of its own.
    Own(Lane),
    /// The sending end of a link.
    Sends(OutEnd),
    /// The receiving end of a link.
    Takes(InEnd),
}

impl Shared for End {}

/// What became of a copy at an output.
#[derive(Clone, Copy)]
pub enum Served {
    /// It entered the queue behind the output.
    Sent,
    /// It was dropped, with a record.
    Dumped,
}

impl OutEnd {
    // Offers a copy to the end's link up to `patience` times, until one offer is taken.
    pub(crate) fn send<R: Wait>(
        &mut self,
        rt: &R,
        links: &[Link],
        copy: McCopy,
        patience: u32,
    ) -> Served
        requires { IsOutEndOf links.now self.old }
        ensures served { IsServedAs patience copy result (sending self.old.tx)
            (sending self.new.tx) }
        ensures link { self.new.link ≡ self.old.link }
        ensures end { IsOutEndOf links.now self.new }
    {
        for _ in 0..patience {
            match offer(rt, &links[self.link as usize], &mut self.tx, copy) {
                Offered::Taken => return Served::Sent,
                Offered::Full(_) => {}
            }
        }
        Served::Dumped
    }
}

/// What is seen of a queue without taking from it.
#[derive(Clone, Copy)]
pub(crate) enum Seen {
    /// Nothing can be taken.
    Nothing,
    /// This copy stands in front.
    Front(McCopy),
    /// Another worker may send copies at any time.
    Unknown,
}

impl End {
    // What is seen of the queue.
    pub(crate) fn front(&self) -> Seen
        ensures { IsSeen result self.now }
    {
        match self {
            End::Own(lane) => match lane.front() {
                Some(copy) => Seen::Front(copy),
                None => Seen::Nothing,
            },
            End::Takes(_) => Seen::Unknown,
            End::Away => Seen::Nothing,
            End::Sends(_) => Seen::Nothing,
        }
    }

    // Takes the copy at the front of the queue.
    pub(crate) fn take<R: Wait>(&mut self, rt: &R, links: &[Link]) -> Option<McCopy>
        requires { IsEndOf links.now self.old }
        ensures some { IfSome result (λ k. EndTakes k self.old self.new) }
        ensures none { IfNone result (EndLacks self.old self.new) }
        ensures end { IsEndOf links.now self.new }
    {
        match self {
            End::Own(lane) => lane.pop(),
            End::Takes(end) => take(rt, &links[end.link as usize], &mut end.rx),
            End::Away => None,
            End::Sends(_) => None,
        }
    }

    // `true` comes only where nothing can be taken: of a link, where it was found empty since this end last took a copy. `false` promises
    // nothing of the queue.
    pub(crate) fn finds_nothing(&mut self, links: &[Link]) -> bool
        requires { IsEndOf links.now self.old }
        ensures yes { IsTrue result → EndLacks self.old self.new }
        ensures no { IsFalse result → EndStays self.old self.new }
        ensures end { IsEndOf links.now self.new }
    {
        match self {
            End::Takes(end) => finds_nothing(&links[end.link as usize], &mut end.rx),
            End::Own(_) => false,
            End::Away => false,
            End::Sends(_) => false,
        }
    }

    // Offers a copy to the queue, to a link up to `patience` times. A lane that is full stays full within a turn.
    pub(crate) fn send<R: Wait>(
        &mut self,
        rt: &R,
        links: &[Link],
        copy: McCopy,
        bounds: Bounds,
    ) -> Served
        requires { MayOffer links.now bounds.capacity self.old }
        ensures served { EndServes bounds.capacity bounds.patience copy result self.old self.new }
        ensures end { IsEndOf links.now self.new }
    {
        match self {
            End::Own(lane) => {
                if lane.len() < bounds.capacity as usize {
                    lane.put(copy);
                    Served::Sent
                } else {
                    Served::Dumped
                }
            }
            End::Sends(end) => end.send(rt, links, copy, bounds.patience),
            // Their sending ends are not held.
            End::Away => unreachable!(),
            End::Takes(_) => unreachable!(),
        }
    }

    // Whether the queue takes a copy without more room, or takes none.
    pub(crate) fn has_room(&self, capacity: u32) -> bool
        ensures yes { IsTrue result → EndHasRoom capacity self.now }
        ensures no { EndHasRoom capacity self.now → IsTrue result }
    {
        match self {
            End::Own(lane) => lane.spare() > 0 || lane.len() >= capacity as usize,
            End::Away => true,
            End::Sends(_) => true,
            End::Takes(_) => true,
        }
    }
}

/// How many copies a queue holds at most, and how often a copy is offered to a link.
#[derive(Clone, Copy)]
pub(crate) struct Bounds {
    pub capacity: u32,
    pub patience: u32,
}
