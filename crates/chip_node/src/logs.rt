// A list that grows in turns, with room made beforehand.
ghost use Rattle.std.specs.Prelude.{◌≡◌, ◌+◌, ◌<◌, ◌≤◌, [], ◌∷◌, ◌++◌, length, OnErr, OnOk};

use spin_base::{Memory, Seq, Shared};
use std::alloc::Global;
use std::marker::Model;

/// What turns log: contracts see its `items`, and a number `spare`, for how many items more there is room.
#[derive(Drop)]
pub struct Log<T> {
    logged: Vec<T>,
}

impl<T: Send + Sync> Shared for Log<T> {}

impl<T> Model for Log<T> {
    ghost use Rattle.std.specs.Prelude.{◌-◌};
    ghost use Rattle.std.specs.Vec.{vec_len, vec_capacity};
    ghost use Rattle.spin_base.specs.WithRoom.{WithRoom};

    ghost Value = { WithRoom T };

    ghost view = { λ l. record {
      items = l.logged.items;
      spare = vec_capacity l.logged - vec_len l.logged;
    } };
}

impl<T: Copy> Log<T> {
    /// The empty log, with no room.
    pub fn new(alloc: Global) -> Log<T>
        ensures { result.items ≡ [] }
    {
        Log {
            logged: Vec::new(alloc),
        }
    }

    /// The log of a list's items. It takes no memory.
    pub fn of_list(list: Seq<T>) -> Log<T>
        ensures { result.items ≡ list }
    {
        Log {
            logged: list.into_vec(),
        }
    }

    /// The list of the log's items. It takes no memory.
    pub fn into_list(self) -> Seq<T>
        ensures { result ≡ self.items }
    {
        let Log { logged } = self;
        Seq::from_vec(logged)
    }

    /// Makes room for `n` items more. After a refusal the items are as before.
    pub fn make_room(&mut self, n: usize) -> Result<(), Memory>
        ensures items { self.new.items ≡ self.old.items }
        ensures room { OnOk result (n ≤ self.new.spare) }
    {
        self.logged.reserve(n)?;
        Ok(())
    }

    /// Puts an item at the back. It takes no memory.
    pub fn put(&mut self, item: T)
        requires { 0 < self.old.spare }
        ensures items { self.new.items ≡ self.old.items ++ item ∷ [] }
        ensures spare { self.new.spare + 1 ≡ self.old.spare }
    {
        self.logged.push_reserved(item);
    }

    /// For how many items more there is room.
    pub fn spare(&self) -> usize
        ensures { result ≡ self.now.spare }
    {
        self.logged.capacity() - self.logged.len()
    }

    /// The items.
    pub fn as_slice(&self) -> &[T]
        ensures { result.now ≡ self.now.items }
    {
        &self.logged
    }

    /// No item is left, and all room is there again.
    pub fn clear(&mut self)
        ensures items { self.new.items ≡ [] }
        ensures spare { self.new.spare ≡ self.old.spare + length self.old.items }
    {
        self.logged.clear();
    }
}
