// A link, its two ends, and the rule under which they stand.
use crate::known::Known;
use crossbeam_queue::protocol::{Join, Lesson, Outcome, Protocol, Split};
use crossbeam_queue::{Pass, RuledArrayQueue};
use spin_base::{McCopy, Room, Shared};
use std::marker::{Brand, PhantomData};

pub(crate) type Queue = RuledArrayQueue<McCopy, Known, InOrder>;

/// A queue of copies for one sender and one receiver.
#[derive(Drop)]
pub struct Link {
    pub(crate) queue: Queue,
}

impl Shared for Link {}

/// The sending end of a link.
#[derive(Drop)]
pub struct Tx {
    pub(crate) pass: Pass<McCopy, Known>,
}

impl Shared for Tx {}

/// The receiving end of a link.
#[derive(Drop)]
pub struct Rx {
    pub(crate) pass: Pass<McCopy, Known>,
}

impl Shared for Rx {}

/// A link with its two ends, and room for all that it can hold.
#[derive(Drop)]
pub struct LinkEnds {
    pub link: Link,
    pub tx: Tx,
    pub rx: Rx,
    pub room: Room<McCopy>,
}

/// What became of an offer.
#[derive(Clone, Copy)]
pub enum Offered {
    /// The copy stands in the queue.
    Taken,
    /// The queue refused it, and here it is again.
    Full(McCopy),
}

/// First in, first out, with one sender and one receiver.
pub struct InOrder;

impl Protocol<McCopy, Known> for InOrder {
    ghost use Rattle.link_queue.specs.Steps.{newborn};
    ghost use Rattle.link_queue.specs.TheRule.{Kept};

    ghost holds = { Kept };

    ghost first = { newborn };
}

/// The capacity of a queue, known from when it is made.
pub(crate) trait Capacity {
    ghost cap: { ℕ };
}

ghost use Rattle.std.specs.Prelude.{ℕ};

impl Capacity for Brand {
    ghost cap = { 0 };
}

/// Tells the pass the capacity.
pub(crate) struct KnowsCapacity<C> {
    of: PhantomData<C>,
}

impl<C: Capacity> Split<Known> for KnowsCapacity<C> {
    ghost use Rattle.link_queue.specs.Steps.{told, blank};

    ghost left = { told C.cap };

    ghost right = { λ v. blank };
}

/// A push that places a copy of the first list.
pub(crate) struct Places;

impl Outcome<McCopy, Known> for Places {
    ghost use Rattle.std.specs.Prelude.{◌≡◌, ℕ};
    ghost use Rattle.link_queue.specs.Steps.{placed};

    ghost then = { λ v x w. (h : ℕ) × (w ≡ placed v x h) };
}

impl Lesson<McCopy, Known> for Places {
    ghost use Rattle.link_queue.specs.Steps.{SeenFull};

    ghost fact = { SeenFull };
}

/// A push of an offer.
pub(crate) struct Offers;

impl Outcome<McCopy, Known> for Offers {
    ghost use Rattle.std.specs.Prelude.{◌≡◌, ℕ};
    ghost use Rattle.link_queue.specs.Steps.{offered};

    ghost then = { λ v x w. (h : ℕ) × (w ≡ offered v x h) };
}

impl Lesson<McCopy, Known> for Offers {
    ghost use Rattle.link_queue.specs.Steps.{SeenFull};

    ghost fact = { SeenFull };
}

/// A pop by the receiver.
pub(crate) struct Takes;

impl Outcome<McCopy, Known> for Takes {
    ghost use Rattle.std.specs.Prelude.{◌≡◌, ℕ};
    ghost use Rattle.link_queue.specs.Steps.{popped};

    ghost then = { λ v x w. (h : ℕ) × (w ≡ popped v x h) };
}

impl Lesson<McCopy, Known> for Takes {
    ghost use Rattle.link_queue.specs.Steps.{SeenEmpty};

    ghost fact = { SeenEmpty };
}

/// A pop by the joined seat, which knows what entered.
pub(crate) struct Empties;

impl Outcome<McCopy, Known> for Empties {
    ghost use Rattle.std.specs.Prelude.{◌≡◌};
    ghost use Rattle.link_queue.specs.Steps.{popped};

    ghost then = { λ v x w. w ≡ popped v x 0 };
}

impl Lesson<McCopy, Known> for Empties {
    ghost use Rattle.link_queue.specs.Steps.{Balanced};

    ghost fact = { Balanced };
}

/// One note more of Full.
pub(crate) struct NotesFull;

impl Split<Known> for NotesFull {
    ghost use Rattle.link_queue.specs.Steps.{full_noted, blank};

    ghost left = { full_noted };

    ghost right = { λ v. blank };
}

/// One note more of None.
pub(crate) struct NotesNone;

impl Split<Known> for NotesNone {
    ghost use Rattle.link_queue.specs.Steps.{none_noted, blank};

    ghost left = { none_noted };

    ghost right = { λ v. blank };
}

/// The two seats, made of one and joined again.
pub(crate) struct BothEnds;

impl Split<Known> for BothEnds {
    ghost use Rattle.link_queue.specs.Steps.{sender_of, receiver_of};

    ghost left = { sender_of };

    ghost right = { receiver_of };
}

impl Join<Known> for BothEnds {
    ghost use Rattle.link_queue.specs.Steps.{joined, blank};

    ghost both = { joined };

    ghost spent = { blank };
}

/// The two seats, made anew of one that has both ends: what is held is their first list.
pub(crate) struct Renews;

impl Split<Known> for Renews {
    ghost use Rattle.link_queue.specs.Steps.{renewed, sender_of, receiver_of};

    ghost left = { λ v. sender_of (renewed v) };

    ghost right = { λ v. receiver_of (renewed v) };
}
