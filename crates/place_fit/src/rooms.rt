// How much room each place of a row has, so that the first with enough is found without going over all.
ghost use Rattle.std.specs.Prelude.{◌≡◌, ℕ, ◌*◌, ◌^◌, ◌<◌, ◌≤◌, length, replicate, slice_set, slice_get, slice_index, All, IfOk, IfSome, IfNone};

use spin_base::Memory;
use std::alloc::Global;
use std::marker::Model;

/// The rooms of a row of 2^levels places, seen as their list.
///
/// They are the leaves of a tree: the places of `tree` from its middle on. Each node before, from 1 on, has the greater
/// of the rooms of its two children, which stand at twice its own place and behind.
#[derive(Drop)]
pub struct Rooms {
    levels: u32,
    leaves: usize,
    tree: Vec<u64>,
}

impl Model for Rooms {
    ghost use Rattle.std.specs.Prelude.{ℕ, List};

    ghost Value = { List ℕ };

    ghost use Rattle.place_fit.specs.RoomTree.{leaves_of, IsRoomTree};

    ghost view = { leaves_of };

    ghost invariant = { IsRoomTree };
}

impl Rooms {
    /// A row without room.
    pub fn new(alloc: Global, levels: u32) -> Result<Rooms, Memory>
        requires { levels ≤ 12 }
        ensures { IfOk result (λ r. r ≡ replicate (2 ^ levels) 0) }
    {
        let leaves = 1usize << levels;
        let tree = vec![in alloc; 0u64; 2 * leaves]?;
        Ok(Rooms {
            levels,
            leaves,
            tree,
        })
    }

    /// The room of a place.
    pub fn get(&self, place: usize) -> u64
        requires { place < length self.now }
        ensures { result ≡ slice_index self.now place }
    {
        self.tree[self.leaves + place]
    }

    /// Gives a place this room. It goes up the tree as far as a node changes.
    pub fn set(&mut self, place: usize, room: u64)
        requires { place < length self.old }
        ensures { self.new ≡ slice_set self.old place room }
    {
        let mut node = self.leaves + place;
        self.tree[node] = room;
        while node > 1 {
            node /= 2;
            let greatest = self.tree[2 * node].max(self.tree[2 * node + 1]);
            if self.tree[node] == greatest {
                return;
            }
            self.tree[node] = greatest;
        }
    }

    /// The first place whose room is greater than `need`.
    pub fn first_above(&self, need: u64) -> Option<usize>
        ensures within { IfSome result (λ place. place < length self.now) }
        ensures enough { IfSome result (λ place. need < slice_index self.now place) }
        ensures first { IfSome result (λ place. (q : ℕ) → q < place
            → slice_index self.now q ≤ need) }
        ensures none { IfNone result (All (λ room. room ≤ need) self.now) }
    {
        if self.tree[1] <= need {
            return None;
        }
        let mut node = 1;
        for step in 0..self.levels {
            node *= 2;
            if self.tree[node] <= need {
                node += 1;
            }
        }
        Some(node - self.leaves)
    }
}
