// The chips to which steps lead.
ghost use Rattle.std.specs.Prelude.{◌≡◌, ◌*◌, ◌↔◌, length, IfOk, Contains, Some, IfSome, IfNone, true, false, ℕ};
ghost use Rattle.machine_desc.specs.Live.{IsInside, far_of};
ghost use Rattle.link_detours.specs.Steps.{IsReachedBy};
ghost use Rattle.machine_desc.specs.Flags.{is_flagged};
ghost use Rattle.link_detours.specs.Usable.{FlaggedStep, is_marked};
ghost use Rattle.spin_base.specs.declared.chips.Chip.{Chip};

use crate::grounds::{Chips, FlaggedChip, Search};
use crate::tables::link_place;
use spin_base::{Chip, Dir, Memory};
use std::alloc::Global;

// The chip to which the link leads, where the table flags the link and that chip has no mark.
#[tactic(auto, using(machine_desc::proofs::Far::far_inside))]
fn unmarked_far(from: FlaggedChip, d: Dir) -> Option<Chip>
    ensures inside { IfSome result (IsInside from.entry.table.machine.now) }
    ensures found { IfSome result (λ e. (is_flagged from.entry.table.machine.now
        from.entry.table.flags.now from.entry.chip d ≡ true)
        × (far_of from.entry.table.machine.now from.entry.chip d ≡ Some e)
        × (is_marked from.entry.table.machine.now from.entry.marks.now e ≡ false)) }
    ensures none { IfNone result ((e : Chip) → is_flagged from.entry.table.machine.now
        from.entry.table.flags.now from.entry.chip d ≡ true
        → far_of from.entry.table.machine.now from.entry.chip d ≡ Some e
        → is_marked from.entry.table.machine.now from.entry.marks.now e ≡ true) }
{
    let FlaggedChip { table, chip, marks } = from;
    if !table.flags[link_place(table.machine, chip, d)] {
        return None;
    }
    let far = table.machine.far(chip, d)?;
    if marks[table.machine.index(far) as usize] {
        None
    } else {
        Some(far)
    }
}

/// A table that marks the seeds, and no other chip.
///
/// # Errors
///
/// `Memory` where memory runs out.
pub fn seed_table(alloc: Global, seeds: Chips) -> Result<Vec<bool>, Memory>
    ensures long { IfOk result (λ t. length t.items
        ≡ seeds.entry.machine.now.width * seeds.entry.machine.now.height) }
    ensures seeds { IfOk result (λ t. (c : Chip) → IsInside seeds.entry.machine.now c
        → (is_marked seeds.entry.machine.now t.items c ≡ true) ↔ Contains seeds.entry.list.now c) }
{
    let machine = seeds.machine;
    let mut table = vec![in alloc; false; machine.chips()]?;
    for seed in seeds.list {
        table[machine.index(*seed) as usize] = true;
    }
    Ok(table)
}

// A table that marks the chips to which flagged links lead from a seed.
pub(crate) fn reached_chips(alloc: Global, search: Search) -> Result<Vec<bool>, Memory>
    ensures long { IfOk result (λ t. length t.items
        ≡ search.entry.table.machine.now.width * search.entry.table.machine.now.height) }
    ensures reached { IfOk result (λ t. (c : Chip) → IsInside search.entry.table.machine.now c
        → (is_marked search.entry.table.machine.now t.items c ≡ true) ↔ ((n : ℕ) × IsReachedBy
        (FlaggedStep search.entry.table.machine.now search.entry.table.flags.now)
        (Contains search.entry.seeds.now) n c)) }
{
    let machine = search.table.machine;
    let seeds = Chips {
        machine,
        list: search.seeds,
    };
    let mut marks = seed_table(alloc, seeds)?;
    let mut left = Vec::from_slice(alloc, search.seeds)?;
    while let Some(from) = left.pop() {
        for link in Dir::ALL {
            let here = FlaggedChip {
                table: search.table,
                chip: from,
                marks: &marks,
            };
            if let Some(to) = unmarked_far(here, link) {
                left.push(to)?;
                marks[machine.index(to) as usize] = true;
            }
        }
    }
    Ok(marks)
}
