//! Jobs that are made from a number.
//!
//! `gen_text` draws a job for a board of 48 chips from the words of a generator that the number seeds, and writes it as text.
//! Each number gives one job, and each of these jobs is read without a fault. What is drawn, and in which order, is this
//! project's own; the generator is xoshiro256++ (Blackman and Vigna).
//!
//! That generated jobs compile: what stands between any of them and a plan, and that none of it does.
//!
//! All functions here are laws: they do nothing, and their clauses say what holds whatever the number is. The board of 48 chips
//! has 816 usable cores for 200 vertices, its chips have memory for seventeen of them each, all nets together need at most 4,800
//! keys, walks of live links join its chips, and no table of a router has more than 300 rows.
#![tactic(auto)]

mod draws;
mod fits;
mod laws;
mod texts;
mod values;

pub use draws::{Drawn, DrawnNet, DrawnPacket};
pub use fits::{generated_jobs_are_small, generated_jobs_have_room, the_board_is_joined};
pub use laws::generated_jobs_are_read;
pub use texts::gen_text;
