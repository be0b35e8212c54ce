// A memory into which rows are put, and the room for them.
ghost use Rattle.std.specs.Prelude.{◌≡◌, ◌<◌, ◌≤◌, IfOk};
ghost use Rattle.spin_base.specs.declared.sizes.TheConstants.{ROUTER_ENTRIES};

use crate::held::Held;
use crate::memory::Tcam;
use spin_base::{Entry, Memory};
use std::alloc::Global;
use std::marker::Model;

/// Room for the rows of a memory below a place: contracts see it as that number.
#[derive(Drop)]
pub struct Room {
    held: Held,
    rows: u32,
}

impl Model for Room {
    ghost use Rattle.std.specs.Prelude.{ℕ, ◌≤◌, ◌*◌, vec_capacity};

    ghost Value = { ℕ };

    ghost view = { λ r. r.rows };

    ghost invariant = { λ r. (r.rows ≤ 8 * vec_capacity r.held.groups) × (r.rows ≤ 1024) };
}

impl Room {
    /// Room for the places below `rows`.
    ///
    /// # Errors
    ///
    /// `Memory` where memory runs out.
    pub fn new(alloc: Global, rows: u32) -> Result<Room, Memory>
        requires { rows ≤ ROUTER_ENTRIES }
        ensures { IfOk result (λ room. room ≡ rows) }
    {
        let held = Held::with_room(alloc, rows)?;
        Ok(Room { held, rows })
    }

    /// No room. It takes no memory.
    pub fn none(alloc: Global) -> Room
        ensures { result ≡ 0 }
    {
        Room {
            held: Held::nothing(alloc),
            rows: 0,
        }
    }
}

/// A lookup memory with room for rows: contracts see it as its `entries`, and the number `room` of the places below which rows can be put.
#[derive(Drop)]
pub struct RoomyTcam {
    held: Held,
    rows: u32,
}

impl Model for RoomyTcam {
    ghost use Rattle.std.specs.Prelude.{◌≤◌, ◌*◌, vec_capacity};
    ghost use Rattle.tcam_find.specs.Memory.{Roomy, entries_held};

    ghost Value = { Roomy };

    ghost view = { λ t. record { entries = entries_held t.held.groups.items; room = t.rows } };

    ghost invariant = { λ t. (t.rows ≤ 8 * vec_capacity t.held.groups) × (t.rows ≤ 1024) };
}

impl RoomyTcam {
    ghost use Rattle.std.specs.Prelude.{◌≡◌, ◌<◌, length, slice_set};
    ghost use Rattle.spin_base.specs.declared.sizes.TheConstants.{ROUTER_ENTRIES};

    /// The memory, with the room. It takes no memory.
    pub fn new(memory: Tcam, room: Room) -> RoomyTcam
        ensures entries { result.entries ≡ memory }
        ensures room { result.room ≡ room }
    {
        let Room { held, rows } = room;
        RoomyTcam {
            held: memory.into_held().with_room_of(held),
            rows,
        }
    }

    /// Puts an entry at a place for which there is room. It takes no memory.
    pub fn set(&mut self, place: u32, e: Entry)
        requires { place < self.old.room }
        ensures one { self.new.entries ≡ slice_set self.old.entries place e }
        ensures size { length self.new.entries ≡ ROUTER_ENTRIES }
        ensures room { self.new.room ≡ self.old.room }
    {
        self.held.set(place as usize, e);
    }

    /// The memory.
    pub fn into_memory(self) -> Tcam
        ensures { result ≡ self.entries }
    {
        let RoomyTcam { held, rows: _ } = self;
        Tcam::of(held)
    }
}
