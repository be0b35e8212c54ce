// The regions of a machine, and where each stands in the list of them.
ghost use Rattle.std.specs.Prelude.{◌≡◌};
ghost use Rattle.app_loads.specs.Regions.{IsRegion, place_of};

use machine_desc::Machine;
use spin_base::Chip;

// Where the keys stand in the list of regions.
const KEYS: usize = 0;

/// All places of one kind on a machine (this project's own).
#[derive(Clone, Copy)]
pub enum Region {
    /// The keys of the machine.
    Keys,
    /// The shared memory of a chip.
    Memory(Chip),
    /// The entries of a chip's table.
    Rows(Chip),
}

impl Region {
    /// Where the region stands in the list of all regions of the machine: first the keys, then the memory of each chip, then the
    /// entries of each, chips by their indices.
    pub fn place(self, machine: &Machine) -> usize
        requires { IsRegion machine.now self }
        ensures { result ≡ place_of machine.now self }
    {
        match self {
            Region::Keys => KEYS,
            Region::Memory(chip) => 1 + machine.index(chip) as usize,
            Region::Rows(chip) => 1 + (machine.chips() + machine.index(chip) as usize),
        }
    }
}
