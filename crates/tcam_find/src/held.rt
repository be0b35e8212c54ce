// The groups in which entries were set, and what is known of them.
ghost use Rattle.std.specs.Prelude.{◌≡◌, ◌≤◌, [], IfSome, length, vec_capacity};
ghost use Rattle.std.proofs.Props.{props};
ghost use Rattle.tcam_find.specs.Memory.{AreLengthened, HaveInCommon, unused};

use crate::groups::Group;
use crate::known::{Known, known_for, known_of, put_known};
use crate::lanes::LANES;
use spin_base::{Entry, Memory, Route};
use std::alloc::Global;

/// The groups up to the last in which an entry was set, and what is known of those behind the first.
#[derive(Drop)]
pub(crate) struct Held {
    pub groups: Vec<Group>,
    pub known: Option<Box<Known>>,
    ghost few: { length groups.items ≤ 128 },
    ghost knows: { IfSome known (λ k. HaveInCommon groups.items k.value.common k.value.values) } by { Prim.hlevel props },
}

impl Held {
    ghost use Rattle.std.specs.Prelude.{◌≡◌, ◌*◌, ◌<◌, ◌≤◌, [], IfOk, slice_set, vec_capacity};
    ghost use Rattle.tcam_find.specs.Memory.{entries_held, unused};

    /// No group, and no room.
    pub(crate) fn nothing(alloc: Global) -> Held
        ensures { result.groups.items ≡ [] }
    {
        Held {
            groups: Vec::new(alloc),
            known: None,
        }
    }

    /// No group, and room for the places below `rows`.
    pub(crate) fn with_room(alloc: Global, rows: u32) -> Result<Held, Memory>
        ensures none { IfOk result (λ held. held.groups.items ≡ []) }
        ensures room { IfOk result (λ held. rows ≤ 8 * vec_capacity held.groups) }
    {
        let groups = Vec::with_capacity(alloc, (rows as usize).div_ceil(LANES))?;
        let known = known_for(alloc, rows as usize)?;
        Ok(Held { groups, known })
    }

    /// The same groups, with at least the room of another.
    pub(crate) fn with_room_of(self, other: Held) -> Held
        ensures same { result.groups.items ≡ self.groups.items }
        ensures room { vec_capacity other.groups ≤ vec_capacity result.groups }
    {
        let Held { groups, known } = self;
        let known = known_of(known, other.known, groups.len());
        let groups = roomier(groups, other.groups);
        Held { groups, known }
    }

    /// Puts an entry at a place for which there is room.
    pub(crate) fn set(&mut self, place: usize, e: Entry)
        requires below { place < 1024 }
        requires room { place < 8 * vec_capacity self.old.groups }
        ensures one { entries_held self.new.groups.items
            ≡ slice_set (entries_held self.old.groups.items) place e }
        ensures room { vec_capacity self.new.groups ≡ vec_capacity self.old.groups }
    {
        let group = place / LANES;
        lengthen(&mut self.groups, group + 1);
        Group::put(&mut self.groups, place, e);
        put_known(&mut self.known, group, e);
    }

    /// Makes the entry at a place unused, as it is behind the groups.
    pub(crate) fn clear(&mut self, place: usize)
        ensures { entries_held self.new.groups.items
            ≡ slice_set (entries_held self.old.groups.items) place unused }
    {
        if place / LANES >= self.groups.len() {
            return;
        }
        Group::put(&mut self.groups, place, unused());
    }
}

// Puts groups of unused entries behind the others, until there are so many. There is room for them.
pub(crate) fn lengthen(groups: &mut Vec<Group>, count: usize)
    requires { count ≤ vec_capacity groups.old }
    ensures same { count ≤ 128 → AreLengthened groups.old.items groups.new.items }
    ensures long { count ≤ length groups.new.items }
    ensures room { vec_capacity groups.new ≡ vec_capacity groups.old }
{
    while groups.len() < count {
        groups.push_reserved(Group::empty());
    }
}

// The groups, with at least the room of another list.
pub(crate) fn roomier(groups: Vec<Group>, spare: Vec<Group>) -> Vec<Group>
    ensures same { result.items ≡ groups.items }
    ensures room { vec_capacity spare ≤ vec_capacity result }
{
    if groups.capacity() >= spare.capacity() {
        return groups;
    }
    let mut spare = spare;
    spare.clear();
    for group in groups.as_slice() {
        spare.push_reserved(*group);
    }
    spare
}

// An entry that no key matches.
pub(crate) fn unused() -> Entry
    ensures { result ≡ unused }
{
    Entry {
        key: u32::MAX,
        mask: 0,
        route: Route::nothing(),
    }
}
