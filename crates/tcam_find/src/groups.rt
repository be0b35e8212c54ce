// Eight entries that stand together.
ghost use Rattle.std.specs.Prelude.{◌≡◌, length};

use crate::lanes::{LANES, first_match};
use spin_base::{Entry, ROUTER_ENTRIES, Route};

/// How many groups a memory has.
pub(crate) const GROUPS: usize = ROUTER_ENTRIES / LANES;

/// How many blocks of eight groups a memory has.
pub(crate) const BLOCKS: usize = GROUPS / LANES;

/// Eight entries: 96 bytes, so that a lookup reads two lines of a processor's cache.
#[derive(Clone, Copy)]
pub(crate) struct Group {
    keys: [u32; LANES],
    masks: [u32; LANES],
    routes: [Route; LANES],
    ghost eight: { length keys ≡ 8 },
    ghost masked: { length masks ≡ 8 },
    ghost routed: { length routes ≡ 8 },
}

impl Group {
    ghost use Rattle.std.specs.Prelude.{◌≡◌, ◌<◌, ◌/◌, ◌%◌, Some, length, replicate, slice_get, slice_set, vec_capacity};
    ghost use Rattle.tcam_find.specs.Lanes.{first_route};
    ghost use Rattle.tcam_find.specs.Memory.{entries_in, unused};
    ghost use Rattle.tcam_find.specs.declared.groups.Group.{Group};

    /// Eight unused entries.
    pub(crate) fn empty() -> Group
        ensures { entries_in result ≡ replicate 8 unused }
    {
        Group {
            keys: [u32::MAX; LANES],
            masks: [0; LANES],
            routes: [Route::nothing(); LANES],
        }
    }

    /// Puts an entry at a place of the groups.
    pub(crate) fn put(groups: &mut Vec<Group>, place: usize, e: Entry)
        requires { place / 8 < length groups.old.items }
        ensures one { (g : Group) → slice_get groups.old.items (place / 8) ≡ Some g
            → (h : Group) × (entries_in h ≡ slice_set (entries_in g) (place % 8) e)
            × (groups.new.items ≡ slice_set groups.old.items (place / 8) h) }
        ensures room { vec_capacity groups.new ≡ vec_capacity groups.old }
    {
        groups[place / LANES].set(place, e);
    }

    /// Puts an entry into the group, at a place of the groups that it has.
    fn set(&mut self, place: usize, e: Entry)
        ensures { entries_in self.new ≡ slice_set (entries_in self.old) (place % 8) e }
    {
        let lane = place % LANES;
        self.keys[lane] = e.key;
        self.masks[lane] = e.mask;
        self.routes[lane] = e.route;
    }

    /// The group's entry at a place of the groups that it has.
    pub(crate) fn entry(&self, place: usize) -> Entry
        ensures { slice_get (entries_in self.now) (place % 8) ≡ Some result }
    {
        let lane = place % LANES;
        Entry {
            key: self.keys[lane],
            mask: self.masks[lane],
            route: self.routes[lane],
        }
    }

    /// The route of the group's first entry that matches the key.
    #[inline(always)]
    pub(crate) fn route_of(&self, key: u32) -> Option<Route>
        ensures { result ≡ first_route (entries_in self.now) key }
    {
        let lane = first_match(&self.keys, &self.masks, 0, key);
        if lane < LANES {
            Some(self.routes[lane])
        } else {
            None
        }
    }
}
