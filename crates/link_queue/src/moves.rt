// An offer of the sender, and a take of the receiver.
ghost use Rattle.std.specs.Prelude.{◌≡◌, ℕ, MatchOption, IsTrue, IsFalse};
ghost use Rattle.link_queue.specs.declared.links.Link.{Link};
ghost use Rattle.link_queue.specs.Ends.{IsTx, IsRx, cap_of, sending, taking};
ghost use Rattle.link_queue.specs.Moves.{MatchOffered, TakesOffer, RefusesOffer, TakesCopy, FindsNothing};

use crate::links::{Link, NotesFull, NotesNone, Offered, Offers, Rx, Takes, Tx};
use spin_base::McCopy;
use std::sync::Wait;

/// Offers a copy to the link. `Taken` where it entered the queue. `Full` hands it back, and leaves the end one note more,
/// of how many copies had entered. It comes only where, since a copy last entered by this end, the queue was found to
/// hold as many copies as it can. Whether this call looked, how often, and by which call of the queue, no clause says.
pub fn offer<R: Wait>(rt: &R, link: &Link, tx: &mut Tx, copy: McCopy) -> Offered
    requires { IsTx link.now tx.old }
    ensures answer { MatchOffered result (TakesOffer (sending tx.old) copy (sending tx.new))
        (λ back. (back ≡ copy) × RefusesOffer (cap_of link.now) (sending tx.old) (sending tx.new)) }
    ensures end { IsTx link.now tx.new }
{
    match link.queue.push_as::<Offers, R>(rt, &mut tx.pass, copy) {
        Ok(()) => Offered::Taken,
        Err(copy) => {
            let _ = link.queue.another::<NotesFull>(&mut tx.pass);
            Offered::Full(copy)
        }
    }
}

/// Takes the copy at the front. `None` comes only where, since this end last took a copy, the queue was found empty: the
/// whole first list was then taken. It leaves the end one note more, of how many copies it took. Whether this call
/// looked, how often, and by which call of the queue, no clause says.
pub fn take<R: Wait>(rt: &R, link: &Link, rx: &mut Rx) -> Option<McCopy>
    requires { IsRx link.now rx.old }
    ensures answer { MatchOption result (FindsNothing (taking rx.old) (taking rx.new))
        (λ x. TakesCopy (taking rx.old) x (taking rx.new)) }
    ensures end { IsRx link.now rx.new }
{
    match link.queue.pop_as::<Takes, R>(rt, &mut rx.pass) {
        Some(copy) => Some(copy),
        None => {
            let _ = link.queue.another::<NotesNone>(&mut rx.pass);
            None
        }
    }
}

/// `true` comes only where, since this end last took a copy, the queue was found empty: the whole first list was then taken. It leaves
/// the end one note more, of how many copies it took. `false` promises nothing of the queue, and leaves the end as it was.
pub fn finds_nothing(link: &Link, rx: &mut Rx) -> bool
    requires { IsRx link.now rx.old }
    ensures yes { IsTrue result → FindsNothing (taking rx.old) (taking rx.new) }
    ensures no { IsFalse result → taking rx.new ≡ taking rx.old }
    ensures end { IsRx link.now rx.new }
{
    if !link.queue.is_empty_as::<Takes>(&mut rx.pass) {
        return false;
    }
    let _ = link.queue.another::<NotesNone>(&mut rx.pass);
    true
}
