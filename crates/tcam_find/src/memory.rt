// The memory itself.
ghost use Rattle.spin_base.specs.Links.{dir_number};
ghost use Rattle.spin_base.specs.Lookup.{default_route};
ghost use Rattle.std.specs.Prelude.{◌≡◌, ◌^◌};

use crate::held::{Held, unused};
use crate::known::next_group;
use crate::lanes::LANES;
use spin_base::{Dir, Entry, Port, Route, Shared};
use std::alloc::Global;
use std::marker::Model;

/// The lookup memory of a router: 1,024 entries, seen as their list.
///
/// They stand in groups of eight, up to the last in which an entry was set, and nobody looks at a group where a key misses what is known
/// of it. A memory of unused entries holds no group.
#[derive(Drop)]
pub struct Tcam {
    held: Held,
}

impl Shared for Tcam {}

impl Model for Tcam {
    ghost use Rattle.std.specs.Prelude.{List};
    ghost use Rattle.spin_base.specs.declared.blocks.Entry.{Entry};
    ghost use Rattle.tcam_find.specs.Memory.{entries_held};

    ghost Value = { List Entry };

    ghost view = { λ t. entries_held t.held.groups.items };
}

impl Tcam {
    ghost use Rattle.std.specs.Prelude.{◌≡◌, ℕ, ◌<◌, false, Some, length, slice_get, slice_set};
    ghost use Rattle.spin_base.specs.Lookup.{lookup, matches};
    ghost use Rattle.spin_base.specs.declared.sizes.TheConstants.{ROUTER_ENTRIES};
    ghost use Rattle.tcam_find.specs.Memory.{empty_memory, entries_held, unused};

    /// A memory of unused entries. An unused entry has key ffffffff, mask 0 and no route, and matches no key. It takes no memory.
    pub fn empty(alloc: Global) -> Tcam
        ensures all_unused { result ≡ empty_memory }
        ensures size { length result ≡ ROUTER_ENTRIES }
        ensures unused_matches_no_key { (key : ℕ) → matches unused key ≡ false }
    {
        Tcam {
            held: Held::nothing(alloc),
        }
    }

    /// The memory that holds these groups.
    pub(crate) fn of(held: Held) -> Tcam
        ensures { result ≡ entries_held held.groups.items }
    {
        Tcam { held }
    }

    /// The groups that it holds.
    pub(crate) fn into_held(self) -> Held
        ensures { entries_held result.groups.items ≡ self }
    {
        let Tcam { held } = self;
        held
    }

    /// Makes the entry at a place unused. It takes no memory.
    pub fn clear(&mut self, place: u32)
        ensures one { self.new ≡ slice_set self.old place unused }
        ensures size { length self.new ≡ ROUTER_ENTRIES }
    {
        self.held.clear(place as usize);
    }

    /// The entry at a place below 1,024.
    pub fn entry(&self, place: u32) -> Entry
        requires { place < ROUTER_ENTRIES }
        ensures at_place { slice_get self.now place ≡ Some result }
        ensures size { length self.now ≡ ROUTER_ENTRIES }
    {
        let group = place as usize / LANES;
        if group < self.held.groups.len() {
            self.held.groups[group].entry(place as usize)
        } else {
            unused()
        }
    }

    /// The route of a packet with that key that came in at that port: the route of the first entry that matches,
    /// without one the opposite link for a link, and nothing at `Local` (SpiNNaker datasheet).
    pub fn find(&self, key: u32, port: Port) -> Route
        ensures { result ≡ lookup self.now key port }
    {
        let mut group = 0;
        while group < self.held.groups.len() {
            match self.held.groups[group].route_of(key) {
                Some(route) => return route,
                None => group = next_group(
                    &self.held.known,
                    group + 1,
                    self.held.groups.len(),
                    key,
                ),
            }
        }
        undecided(port)
    }
}

/// Where a packet goes on that no entry matches: by the opposite link, and nowhere from `Local`.
fn undecided(port: Port) -> Route
    ensures { result ≡ default_route port }
{
    match port {
        Port::Link(link) => through(link.opposite()),
        Port::Local => Route::nothing(),
    }
}

/// The route through one link.
fn through(link: Dir) -> Route
    ensures { result.bits ≡ 2 ^ dir_number link }
{
    Route {
        bits: 1 << link.number(),
    }
}
