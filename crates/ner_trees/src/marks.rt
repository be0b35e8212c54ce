// The chips of a machine that a tree has.
ghost use Rattle.std.specs.Prelude.{◌≡◌, ◌*◌, length, true};
ghost use Rattle.machine_desc.specs.Description.{HasSize};
ghost use Rattle.machine_desc.specs.Live.{IsInside};
ghost use Rattle.ner_trees.specs.Search.{AreAllOn, AreOn, is_on};

use machine_desc::Machine;
use spin_base::{Chip, Memory};
use std::alloc::Global;

// A mark for each chip of a machine, in the order of the chips' indices, and a list of the chips that are marked. To make them
// costs no turn for each chip.
#[derive(Drop)]
pub struct Marks<'m> {
    machine: &'m Machine,
    items: Vec<bool>,
    chips: Vec<Chip>,
    pub ghost size: { HasSize machine.now },
    pub ghost long: { length items.items ≡ machine.now.width * machine.now.height },
    pub ghost listed: { AreOn machine.now items.items chips.items },
    pub ghost all_listed: { AreAllOn machine.now items.items chips.items },
}

// A chip that is marked.
#[derive(Clone, Copy)]
pub struct MarkedChip<'t, 'm> {
    pub on: &'t Marks<'m>,
    pub chip: Chip,
    ghost inside: { IsInside on.now.machine.now chip },
    ghost marked: { is_on on.now.machine.now on.now.items.items chip ≡ true },
}

impl<'m> Marks<'m> {
    ghost use Rattle.std.specs.Prelude.{Bool, IfOk, OnOk, replicate, slice_index_or, slice_set, false};
    ghost use Rattle.machine_desc.specs.Live.{index_of};

    // No chip is marked.
    pub(crate) fn none(alloc: Global, machine: &'m Machine) -> Result<Marks<'m>, Memory>
        ensures machine { IfOk result (λ t. t.machine.now ≡ machine.now) }
        ensures items { IfOk result (λ t.
            t.items.items ≡ replicate (machine.now.width * machine.now.height) false) }
    {
        let items = vec![in alloc; false; machine.chips()]?;
        let chips = Vec::with_capacity(alloc, 128)?;
        Ok(Marks {
            machine,
            items,
            chips,
        })
    }

    // The machine whose chips these are.
    pub(crate) fn machine(&self) -> &'m Machine
        ensures { result.now ≡ self.now.machine.now }
    {
        self.machine
    }

    // Whether a chip is marked.
    pub(crate) fn at(&self, chip: Chip) -> bool
        requires { IsInside self.now.machine.now chip }
        ensures { (d : Bool) →
            result ≡ slice_index_or self.now.items.items (index_of self.now.machine.now chip) d }
    {
        self.items[self.machine.index(chip) as usize]
    }

    // The chips that are marked.
    pub(crate) fn chips(&self) -> &[Chip]
        ensures { result.now ≡ self.now.chips.items }
    {
        &self.chips
    }

    // Marks a chip.
    pub(crate) fn set(&mut self, chip: Chip) -> Result<(), Memory>
        requires { IsInside self.old.machine.now chip }
        ensures machine { self.new.machine.now ≡ self.old.machine.now }
        ensures items { OnOk result (self.new.items.items ≡
            slice_set self.old.items.items (index_of self.old.machine.now chip) true) }
    {
        let place = self.machine.index(chip) as usize;
        self.chips.push(chip)?;
        self.items[place] = true;
        Ok(())
    }
}
