//! Rounds of a mesh: one, as many as it takes, and with dumped copies put back between them.
//!
//! A round is what passes the queues of a mesh while all routers and banks of cores take some turns at the same time. Its flow says
//! of each queue what entered and what left it, and asks for no order in time between two chips. The laws say that a round keeps the
//! ledger of copies, for right tables.
//!
//! A round on threads says what routers and banks of cores did, as one list. It is a round, in whatever order the threads took their
//! turns. The rules are this project's own.
#![tactic(auto)]

pub mod flow_laws;
mod laid;
pub mod laws;
mod putting;
mod reinjecting;
mod rounds;

pub use reinjecting::{put_back, reinject};
pub use rounds::{round, run_out};
