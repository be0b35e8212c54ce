// A queue in one worker's hands, with room for copies to come.
ghost use Rattle.std.specs.Vec.{vec_capacity};
ghost use Rattle.std.specs.Prelude.{◌≡◌, ◌+◌, ◌<◌, ◌≤◌, ◌↔◌, [], ◌∷◌, ◌++◌, drop, length, option_to_list, IsNone, OnErr, OnOk, IfNone, IfSome, List};
ghost use Rattle.spin_base.specs.declared.copies.McCopy.{McCopy};

use spin_base::{Fifo, McCopy, Memory, Seq, Shared};
use std::marker::Model;

/// A queue of copies, first in first out, whose both ends one worker holds. Contracts see its `items`, front first, and a number
/// `spare`, for how many copies more there is room. Putting and taking cost the same however long it is.
#[derive(Drop)]
pub struct Lane {
    // Those that left still stand in front.
    copies: Vec<McCopy>,
    left: usize,
}

impl Shared for Lane {}

impl Model for Lane {
    ghost use Rattle.std.specs.Prelude.{◌≤◌, drop, length};
    ghost use Rattle.spin_base.specs.declared.copies.McCopy.{McCopy};
    ghost use Rattle.spin_base.specs.WithRoom.{WithRoom};
    ghost use Rattle.std.specs.Vec.{vec_len, vec_capacity};
    ghost use Rattle.chip_node.specs.Lanes.{spare_of};

    ghost Value = { WithRoom McCopy };

    ghost view = { λ l. record {
      items = drop l.left l.copies.items;
      spare = spare_of (vec_capacity l.copies) (vec_len l.copies) l.left;
    } };

    ghost invariant = { λ l. l.left ≤ length l.copies.items };
}

impl Lane {
    /// The lane of a queue's copies. It takes no memory.
    pub fn of_queue(queue: Fifo<McCopy>) -> Lane
        ensures { result.items ≡ queue }
    {
        Lane {
            copies: queue.into_seq().into_vec(),
            left: 0,
        }
    }

    /// The queue of the lane's copies. It takes no memory.
    pub fn into_queue(self) -> Fifo<McCopy>
        ensures { result ≡ self.items }
    {
        let Lane { mut copies, left } = self;
        close_up(&mut copies, left);
        Fifo::from_seq(Seq::from_vec(copies))
    }

    /// Makes room for `n` copies more. After a refusal the copies are as before.
    pub fn make_room(&mut self, n: usize) -> Result<(), Memory>
        ensures items { self.new.items ≡ self.old.items }
        ensures room { OnOk result (n ≤ self.new.spare) }
    {
        close_up(&mut self.copies, self.left);
        self.left = 0;
        self.copies.reserve(n)?;
        Ok(())
    }

    /// The number of copies.
    pub fn len(&self) -> usize
        ensures { result ≡ length self.now.items }
    {
        self.copies.len() - self.left
    }

    /// For how many copies more there is room.
    pub fn spare(&self) -> usize
        ensures { result ≡ self.now.spare }
    {
        if self.left > self.copies.len() / 2 {
            self.copies.capacity() - (self.copies.len() - self.left)
        } else {
            self.copies.capacity() - self.copies.len()
        }
    }

    /// The copy at the front.
    pub fn front(&self) -> Option<McCopy>
        ensures none { IfNone result (self.now.items ≡ []) }
        ensures first { IfSome result (λ k. (rest : List McCopy) × (self.now.items ≡ k ∷ rest)) }
    {
        self.copies[self.left..].first().copied()
    }

    /// Puts a copy at the back. It takes no memory.
    pub fn put(&mut self, copy: McCopy)
        requires { 0 < self.old.spare }
        ensures { self.new.items ≡ self.old.items ++ copy ∷ [] }
    {
        if self.left > self.copies.len() / 2 {
            close_up(&mut self.copies, self.left);
            self.left = 0;
        }
        self.copies.push_reserved(copy);
    }

    /// The front copy leaves the lane and is answered. `None` exactly where there is none, and then the lane is as it was.
    pub fn pop(&mut self) -> Option<McCopy>
        ensures items { self.old.items ≡ option_to_list result ++ self.new.items }
        ensures none { IsNone result ↔ (self.old.items ≡ []) }
        ensures same { IfNone result (self.new ≡ self.old) }
    {
        if self.left == self.copies.len() {
            return None;
        }
        let copy = self.copies[self.left];
        self.left += 1;
        Some(copy)
    }
}

// Takes those that left off the front.
fn close_up(copies: &mut Vec<McCopy>, left: usize)
    requires { left ≤ length copies.old.items }
    ensures items { copies.new.items ≡ drop left copies.old.items }
    ensures capacity { vec_capacity copies.new ≡ vec_capacity copies.old }
{
    let count = copies.len() - left;
    copies.copy_within(left.., 0);
    copies.truncate(count);
}
