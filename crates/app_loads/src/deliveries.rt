// What an application was delivered.
ghost use Rattle.std.specs.Prelude.{◌≡◌, ◌++◌, OnOk, length};

use crate::groups::Groups;
use spin_base::{Delivery, Memory, Seq};
use std::marker::Model;

/// Deliveries, in the order in which they came.
///
/// Those of packets that came to the same vertices are held together: each packet more costs some bytes, and not some for each
/// vertex.
#[derive(Drop)]
pub struct Deliveries {
    // Those of groups, and then others.
    pub(crate) early: Groups,
    pub(crate) late: Seq<Delivery>,
    pub(crate) count: usize,
}

impl Model for Deliveries {
    ghost use Rattle.std.specs.Prelude.{List, length, ◌≡◌, ◌++◌};
    ghost use Rattle.spin_base.specs.declared.copies.Delivery.{Delivery as ADelivery};
    ghost use Rattle.app_loads.specs.Grouping.{all_grouped};

    ghost Value = { List ADelivery };

    ghost view = { λ d. all_grouped d.early ++ d.late };

    ghost invariant = { λ d. d.count ≡ length (all_grouped d.early ++ d.late) };
}

impl Deliveries {
    /// How many there are. It takes constant time.
    pub fn len(&self) -> usize
        ensures { result ≡ length self.now }
    {
        self.count
    }

    /// Puts them at the back of a list. It takes memory for each of them.
    ///
    /// # Errors
    ///
    /// `Memory` where memory runs out.
    pub fn push_to(&self, list: &mut Seq<Delivery>) -> Result<(), Memory>
        ensures { OnOk result (list.new ≡ list.old ++ self.now) }
    {
        self.early.push_to(list)?;
        push_all(list, self.late.as_slice())
    }
}

// Puts deliveries at the back of a list.
pub(crate) fn push_all(list: &mut Seq<Delivery>, more: &[Delivery]) -> Result<(), Memory>
    ensures { OnOk result (list.new ≡ list.old ++ more.now) }
{
    for delivery in more {
        list.push(*delivery)?;
    }
    Ok(())
}
