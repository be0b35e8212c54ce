//! A link: a bounded queue with one sender and one receiver, which may stand in two threads.
//!
//! `link_up` places a first list of copies and makes the two ends, `offer` and `take` push and pop, and `link_down`
//! joins the ends and answers what is still held. Whatever the schedule, the first list followed by what was taken of
//! the sender's offers is what the receiver took followed by what is held. Each end keeps notes in proofs alone: of
//! the pushes that the queue refused, and of the pops that found nothing. With both ends in one hand `rest` begins their
//! knowledge anew, and no copy moves. The rules are this project's own.
#![tactic(auto)]

mod known;
mod links;
mod moves;
mod rests;
mod ups;

pub use known::Known;
pub use links::{Link, LinkEnds, Offered, Rx, Tx};
pub use moves::{finds_nothing, offer, take};
pub use rests::{AtRest, LentLink, rest};
pub use ups::{FirstList, WholeLink, link_down, link_up};
