// A queue.
ghost use Rattle.std.specs.Prelude.{◌≡◌, ◌≤◌, ◌↔◌, [], ◌∷◌, ◌++◌, length, drop, option_to_list, IsTrue, IsNone, OnOk, OnErr};

use crate::lists::Seq;
use crate::wants::Memory;
use std::alloc::Global;
use std::marker::Model;

/// A queue, first in first out: what a contract sees of it is the list of its items, front first. Putting and
/// taking cost the same however long it is.
#[derive(Drop)]
pub struct Fifo<T> {
    // Those that left still stand in front.
    items: Vec<T>,
    left: usize,
}

impl<T> Model for Fifo<T> {
    ghost use Rattle.std.specs.Prelude.{List, drop, ◌≤◌, length};

    ghost Value = { List T };

    ghost view = { λ q. drop q.left q.items.items };

    ghost invariant = { λ q. q.left ≤ length q.items.items };
}

impl<T: Copy> Fifo<T> {
    /// The empty queue.
    pub fn new(alloc: Global) -> Self
        ensures { result ≡ [] }
    {
        Fifo {
            items: Vec::new(alloc),
            left: 0,
        }
    }

    /// The queue of a list's items. It takes no memory.
    pub fn from_seq(list: Seq<T>) -> Self
        ensures { result ≡ list }
    {
        Fifo {
            items: list.into_vec(),
            left: 0,
        }
    }

    /// The list of the queue's items, front first. It takes no memory.
    pub fn into_seq(self) -> Seq<T>
        ensures { result ≡ self }
    {
        let Fifo { mut items, left } = self;
        close_up(&mut items, left);
        Seq::from_vec(items)
    }

    /// Puts an item at the back. After a refusal the queue is as before.
    pub fn push(&mut self, item: T) -> Result<(), Memory>
        ensures ok { OnOk result (self.new ≡ self.old ++ item ∷ []) }
        ensures err { OnErr result (self.new ≡ self.old) }
    {
        if self.left > self.items.len() / 2 {
            close_up(&mut self.items, self.left);
            self.left = 0;
        }
        self.items.push(item)?;
        Ok(())
    }

    /// The front item leaves the queue and is answered. `None` exactly where the queue is empty.
    pub fn pop(&mut self) -> Option<T>
        ensures items { self.old ≡ option_to_list result ++ self.new }
        ensures none { IsNone result ↔ (self.old ≡ []) }
    {
        if self.left == self.items.len() {
            return None;
        }
        let item = self.items[self.left];
        self.left += 1;
        Some(item)
    }

    /// The number of items.
    pub fn len(&self) -> usize
        ensures { result ≡ length self.now }
    {
        self.items.len() - self.left
    }

    /// The items, front first.
    pub fn as_slice(&self) -> &[T]
        ensures { result.now ≡ self.now }
    {
        &self.items[self.left..]
    }
}

// Takes those that left off the front.
fn close_up<T: Copy>(items: &mut Vec<T>, left: usize)
    requires { left ≤ length items.old.items }
    ensures { items.new.items ≡ drop left items.old.items }
{
    let count = items.len() - left;
    items.copy_within(left.., 0);
    items.truncate(count);
}
