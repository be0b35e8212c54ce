// What the shares logged in a round, put at the ends of the mesh's lists.
ghost use Rattle.std.specs.Prelude.{◌≡◌, ◌≤◌, ◌+◌, ◌++◌, ◌||◌, ◌∷◌, [], IfOk, OnOk, length};
ghost use Rattle.std.specs.List.{flat_map};
ghost use Rattle.mesh_run.specs.Gathering.{AreEmptied, FitsLogs, HasRoomForLogs, IsAnyMoved, IsEmptied};

use crate::shares::Share;
use chip_node::Log;
use spin_base::{Delivery, DumpRec, Memory};

/// The lists of deliveries and of dump records of a mesh.
#[derive(Drop)]
pub(crate) struct MeshLogs {
    pub delivered: Log<Delivery>,
    pub dumped: Log<DumpRec>,
}

impl MeshLogs {
    /// Makes room for all that the shares have room for. After a refusal the lists are as before.
    pub fn make_room(&mut self, shares: &[Share]) -> Result<(), Memory>
        ensures delivered { self.new.delivered.items ≡ self.old.delivered.items }
        ensures dumped { self.new.dumped.items ≡ self.old.dumped.items }
        ensures room { OnOk result (HasRoomForLogs shares.now self.new) }
    {
        let mut deliveries: usize = 0;
        let mut dumps: usize = 0;
        for share in shares {
            deliveries = sum_of(deliveries, share.hold.deliveries.spare())?;
            dumps = sum_of(dumps, share.hold.dumps.spare())?;
        }
        self.delivered.make_room(deliveries)?;
        self.dumped.make_room(dumps)
    }

    /// Takes what the shares logged, share by share. Whether a copy moved in any of them.
    pub fn gather(&mut self, shares: &mut [Share]) -> bool
        requires { FitsLogs shares.old self.old }
        ensures delivered { self.new.delivered.items
            ≡ self.old.delivered.items ++ flat_map (λ s. s.hold.deliveries.items) shares.old }
        ensures dumped { self.new.dumped.items
            ≡ self.old.dumped.items ++ flat_map (λ s. s.hold.dumps.items) shares.old }
        ensures cleared { AreEmptied shares.old shares.new }
        ensures moved { IsAnyMoved shares.old result }
    {
        let mut moved = false;
        for number in 0..shares.len() {
            moved = either(moved, shares[number].moved);
            self.take(&mut shares[number]);
        }
        moved
    }

    // Takes what a share logged.
    fn take(&mut self, share: &mut Share)
        requires { FitsLogs (share.old ∷ []) self.old }
        ensures delivered { self.new.delivered.items
            ≡ self.old.delivered.items ++ share.old.hold.deliveries.items }
        ensures delivered_room { self.new.delivered.spare + length share.old.hold.deliveries.items
            ≡ self.old.delivered.spare }
        ensures dumped { self.new.dumped.items
            ≡ self.old.dumped.items ++ share.old.hold.dumps.items }
        ensures dumped_room { self.new.dumped.spare + length share.old.hold.dumps.items
            ≡ self.old.dumped.spare }
        ensures cleared { IsEmptied share.old share.new }
    {
        share.deliveries_wanted = share.hold.deliveries.as_slice().len().saturating_mul(2);
        share.dumps_wanted = share.hold.dumps.as_slice().len().saturating_mul(2);
        put_all(&mut self.delivered, share.hold.deliveries.as_slice());
        put_all(&mut self.dumped, share.hold.dumps.as_slice());
        share.hold.deliveries.clear();
        share.hold.dumps.clear();
    }
}

fn either(first: bool, second: bool) -> bool
    ensures { result ≡ (first || second) }
{
    first || second
}

// The sum of two numbers of items. There is no memory for more items than a word counts.
fn sum_of(a: usize, b: usize) -> Result<usize, Memory>
    ensures { IfOk result (λ sum. sum ≡ a + b) }
{
    match a.checked_add(b) {
        Some(sum) => Ok(sum),
        None => Err(Memory),
    }
}

// Puts items at the end of a log.
fn put_all<T: Copy>(log: &mut Log<T>, items: &[T])
    requires { length items.now ≤ log.old.spare }
    ensures items { log.new.items ≡ log.old.items ++ items.entry.now }
    ensures spare { log.new.spare + length items.entry.now ≡ log.old.spare }
{
    for item in items {
        log.put(*item);
    }
}
