// A list with room made beforehand.
ghost use Rattle.std.specs.Prelude.{◌≡◌, ◌+◌, ◌-◌, ◌<◌, ◌≤◌, [], ◌∷◌, ◌++◌, length, IfOk, IfErr};

use crate::lists::Seq;
use crate::wants::Memory;
use std::marker::Model;

/// A list with room for items to come: contracts see it as its `items` and a number `spare`, the number of
/// later `put`s for which room was made.
#[derive(Drop)]
pub struct Room<T> {
    items: Vec<T>,
}

impl<T> Model for Room<T> {
    ghost use Rattle.std.specs.Prelude.{◌-◌, ◌≤◌};
    ghost use Rattle.std.specs.Vec.{vec_len, vec_capacity};
    ghost use Rattle.spin_base.specs.WithRoom.{WithRoom};

    ghost Value = { WithRoom T };

    ghost view = { λ r. record { items = r.items.items; spare = vec_capacity r.items - vec_len r.items } };
}

impl<T> Room<T> {
    /// The same list, with room for at least `n` more items. A refusal hands the list back.
    pub fn over(list: Seq<T>, n: u64) -> Result<Room<T>, (Seq<T>, Memory)>
        ensures ok { IfOk result (λ room. (room.items ≡ list) × (n ≤ room.spare)) }
        ensures err { IfErr result (λ back. back.0 ≡ list) }
    {
        let mut items = list.into_vec();
        match items.reserve_exact(n as usize) {
            Ok(()) => Ok(Room { items }),
            Err(_) => Err((Seq::from_vec(items), Memory)),
        }
    }

    /// Puts an item at the back. It takes no memory.
    pub fn put(&mut self, item: T)
        requires { 0 < self.old.spare }
        ensures items { self.new.items ≡ self.old.items ++ item ∷ [] }
        ensures spare { self.new.spare + 1 ≡ self.old.spare }
    {
        self.items.push_reserved(item);
    }

    /// The number of items.
    pub fn len(&self) -> usize
        ensures { result ≡ length self.now.items }
    {
        self.items.len()
    }

    /// For how many items there is room.
    pub fn spare(&self) -> usize
        ensures { result ≡ self.now.spare }
    {
        self.items.capacity() - self.items.len()
    }

    /// The list.
    pub fn as_slice(&self) -> &[T]
        ensures { result.now ≡ self.now.items }
    {
        &self.items
    }

    /// The list, without the room. It takes no memory.
    pub fn into_seq(self) -> Seq<T>
        ensures { result ≡ self.items }
    {
        let Room { items } = self;
        Seq::from_vec(items)
    }
}
