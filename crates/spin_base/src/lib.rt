//! What every layer speaks of: chips, links, ports, outputs and routes of the machine; blocks and entries of a
//! table; copies of packets and what becomes of them; lists that contracts see as lists; and the outside, from
//! which bytes come and to which they go.
//!
//! Chips, links, ports, routes, entries and lookup are those of the SpiNNaker datasheet. The lists, sources and
//! sinks are this project's own.
//!
//! Laws of lists that several crates prove with, and that std does not have.
//!
//! | module of `proofs/` | on |
//! |---|---|
//! | `Members` | what is in a list: after a push, `++`, a map, a filter, a search |
//! | `Places` | the item at a place: after a write, a push, a map, beside another list |
//! | `Pairs` | what holds of all items of `++` and of all pairs |
//! | `Ascending` | lists in the order of a number |
//! | `Determined` | lists whose items are determined by those before them |
//! | `Counts`, `Ranges` | how many items pass; lists made of a range of numbers |
//! | `Gathering`, `Exchange` | what is made of all items with their places; one item taken out, others put in |
//! | `Tests` | what a test tells of the fact that it stands for |
//!
//! It stands on std alone. Before a lemma is put here, look for it in std (`rt lemma`); these are often proved again:
//! `and_parts`, `or_cases`, `eqb-true`, `eq-eqb`, `ne_eqb`, `cases_Bool`, `not-true` of `lemmas.Bool`; `All-head`,
//! `All-filter`, `All-more`, `Contains-append_cases` of `lemmas.List.Elements`; `slice_get_within`, `slice_get-get_or`,
//! `same_Some` of `lemmas.Option`; `all_zipped_more`, `seconds-zip` of `lemmas.Slice.Zip`.
#![tactic(auto)]

mod blocks;
mod chips;
mod copies;
mod fifos;
mod lists;
mod memory_ends;
mod names;
mod outside;
mod reading;
mod rooms;
mod routes;
mod shared;
mod sizes;
mod std_ends;
mod wants;
mod writing;

ghost use Rattle.std.specs.Prelude.{◌≡◌, ℕ, ◌<◌, List, AllPairs, Contains};

pub use blocks::{Block, ChipTable, Entry};
pub use chips::{CORES, Chip, Dir, Port, Spot};
pub use copies::{Delivery, DumpRec, Event, McCopy, Packet};
pub use fifos::Fifo;
pub use lists::Seq;
pub use memory_ends::{MemSink, MemSource};
pub use names::Name;
pub use outside::{FreeGate, Gate, Sink, Source};
pub use reading::{ReadErr, read_all};
pub use rooms::Room;
pub use routes::{Out, Outs, Route};
pub use shared::Shared;
pub use sizes::{CHIP_MEMORY, ROUTER_ENTRIES};
pub use std_ends::{StdSink, StdSource};
pub use wants::{Failed, Memory};
pub use writing::{WriteErr, write_all};

/// Two lists of numbers in ascending order that have the same numbers are the same list. (The law holds for items of
/// any type that a number orders: `same_in_order` of `proofs/Ascending`.)
pub fn ascending_lists_with_equal_members_are_equal()
    ensures same { (xs ys : List ℕ) → AllPairs (λ a b. a < b) xs → AllPairs (λ a b. a < b) ys
        → ((x : ℕ) → Contains xs x → Contains ys x) → ((x : ℕ) → Contains ys x → Contains xs x)
        → xs ≡ ys }
{}
