// Between rounds: both ends of a link in one hand, and what they know begun anew.
ghost use Rattle.std.specs.Prelude.{◌≡◌, ◌<◌, ◌≤◌, [], length, IfOk, IfErr};
ghost use Rattle.link_queue.specs.Ends.{IsTx, IsRx, cap_of, sending, taking};
ghost use Rattle.link_queue.specs.Ups.{NoNotes, Rests};

use crate::links::{BothEnds, Empties, Link, LinkEnds, Offered, Renews, Rx, Tx};
use crate::moves::{offer, take};
use crate::ups::{FirstList, link_up};
use spin_base::{Memory, Seq};
use std::alloc::Global;
use std::sync::Wait;

impl Link {
    /// How many copies the link can hold.
    pub fn places(&self) -> usize
        ensures { result ≡ cap_of self.now }
    {
        self.queue.capacity()
    }
}

/// A link that is lent, with both its ends.
#[derive(Drop)]
pub struct LentLink<'a> {
    pub link: &'a Link,
    pub tx: Tx,
    pub rx: Rx,
    ghost sends: { IsTx link.now tx },
    ghost takes: { IsRx link.now rx },
}

/// A link at rest: it is lent, with both its ends. What it holds is their first list, they have no notes, and so many copies
/// it holds.
#[derive(Drop)]
pub struct AtRest<'a> {
    pub link: &'a Link,
    pub tx: Tx,
    pub rx: Rx,
    pub held: usize,
    ghost sends: { IsTx link.now tx },
    ghost takes: { IsRx link.now rx },
    ghost sent: { NoNotes (sending tx).first (sending tx) },
    ghost took: { NoNotes (sending tx).first (taking rx) },
    ghost counts: { held ≡ length (sending tx).first },
}

/// The link with its ends, which have what it holds as their first list, and no notes. The first list followed by what was
/// taken of the sender's offers is what the receiver took followed by what is held. No copy moves.
pub fn rest<'a, R: Wait>(rt: &R, lent: LentLink<'a>) -> AtRest<'a>
    ensures link { result.link.now ≡ lent.entry.link.now }
    ensures rests { Rests (cap_of lent.entry.link.now) (sending lent.entry.tx) (taking lent.entry.rx)
        (sending result.tx) (taking result.rx) result.held }
{
    let LentLink { link, tx, rx } = lent;
    let Tx { mut pass } = tx;
    let Rx { pass: taker } = rx;
    link.queue.absorb::<BothEnds>(&mut pass, taker);
    let held = link.queue.len_as::<Empties, R>(rt, &mut pass);
    let taker = link.queue.another::<Renews>(&mut pass);
    AtRest {
        link,
        tx: Tx { pass },
        rx: Rx { pass: taker },
        held,
    }
}

impl AtRest<'_> {
    /// A link with `cap` places that holds the same copies, in their order. A refusal hands the ends back, and the link holds
    /// what it held.
    pub fn widened<R: Wait>(
        self,
        rt: &R,
        alloc: Global,
        cap: u32,
    ) -> Result<LinkEnds, (Tx, Rx, Memory)>
        requires some { 0 < cap }
        requires fits { self.held ≤ cap }
        ensures sending { IfOk result (λ e. IsTx e.link e.tx × NoNotes (sending self.entry.tx).first
            (sending e.tx)) }
        ensures taking { IfOk result (λ e. IsRx e.link e.rx × NoNotes (sending self.entry.tx).first
            (taking e.rx)) }
        ensures cap { IfOk result (λ e. cap_of e.link ≡ cap) }
        ensures room { IfOk result (λ e. (e.room.items ≡ []) × (cap ≤ e.room.spare)) }
        ensures back { IfErr result (λ b. (b.0 ≡ self.entry.tx) × (b.1 ≡ self.entry.rx)) }
    {
        let first = FirstList {
            list: Seq::new(alloc),
            cap,
        };
        let Ok(ends) = link_up(rt, alloc, first) else {
            return Err((self.tx, self.rx, Memory));
        };
        let LinkEnds {
            link: wide,
            tx: mut sender,
            rx: taker,
            room,
        } = ends;
        let AtRest {
            link,
            tx,
            mut rx,
            held,
        } = self;
        for _ in 0..held {
            match take(rt, link, &mut rx) {
                Some(copy) => match offer(rt, &wide, &mut sender, copy) {
                    Offered::Taken => {}
                    // There are places for all copies.
                    Offered::Full(_) => unreachable!(),
                },
                // Fewer were taken than are held.
                None => unreachable!(),
            }
        }
        let _ = rest(rt, LentLink { link, tx, rx });
        let AtRest { tx, rx, .. } = rest(
            rt,
            LentLink {
                link: &wide,
                tx: sender,
                rx: taker,
            },
        );
        Ok(LinkEnds {
            link: wide,
            tx,
            rx,
            room,
        })
    }
}
