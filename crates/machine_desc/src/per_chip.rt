// Tables with an item for each chip of a machine.
ghost use Rattle.std.specs.Prelude.{◌≡◌, ◌*◌, length};
ghost use Rattle.machine_desc.specs.Description.{HasSize};

use crate::machines::Machine;
use spin_base::{Chip, Memory};
use std::alloc::Global;

/// One item for each chip of a machine, live or not, in the order of the chips' indices. To read or write one takes
/// constant time and no memory.
#[derive(Drop)]
pub struct PerChip<'m, T> {
    machine: &'m Machine,
    items: Vec<T>,
    pub ghost size: { HasSize machine.now },
    pub ghost long: { length items.items ≡ machine.now.width * machine.now.height },
}

impl<'m, T> PerChip<'m, T> {
    ghost use Rattle.std.specs.Prelude.{IfOk, replicate, slice_index_or, slice_set};
    ghost use Rattle.machine_desc.specs.Live.{IsInside, index_of};

    /// The same item for each chip.
    pub fn filled(alloc: Global, machine: &'m Machine, item: T) -> Result<PerChip<'m, T>, Memory>
    where
        T: Copy + Drop,
        ensures machine { IfOk result (λ t. t.machine.now ≡ machine.now) }
        ensures items { IfOk result (λ t.
            t.items.items ≡ replicate (machine.now.width * machine.now.height) item) }
    {
        let mut items = Vec::with_capacity(alloc, machine.chips())?;
        for _ in 0..machine.chips() {
            items.push(item)?;
        }
        Ok(PerChip { machine, items })
    }

    /// The machine whose chips these are.
    pub fn machine(&self) -> &'m Machine
        ensures { result.now ≡ self.now.machine.now }
    {
        self.machine
    }

    /// The item of a chip.
    pub fn at(&self, chip: Chip) -> T
    where
        T: Copy,
        requires { IsInside self.now.machine.now chip }
        ensures { (d : T) →
            result ≡ slice_index_or self.now.items.items (index_of self.now.machine.now chip) d }
    {
        self.items[self.machine.index(chip) as usize]
    }

    /// Writes the item of a chip.
    pub fn set(&mut self, chip: Chip, item: T)
    where
        T: Copy,
        requires { IsInside self.old.machine.now chip }
        ensures machine { self.new.machine.now ≡ self.old.machine.now }
        ensures items { self.new.items.items ≡
            slice_set self.old.items.items (index_of self.old.machine.now chip) item }
    {
        let place = self.machine.index(chip) as usize;
        self.items[place] = item;
    }
}
