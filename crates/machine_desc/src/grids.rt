// The places of chips, cores and links in the tables of a machine.
ghost use Rattle.std.specs.Prelude.{◌≡◌, ◌+◌, ◌*◌, ◌<◌, ◌≤◌, length, All, IfOk};

use crate::trees::Edge;
use spin_base::{CORES, Chip, Memory, Spot};
use std::alloc::Global;

// A grid of so many chips along each axis, at most 64.
#[derive(Clone, Copy)]
pub struct Grid {
    pub width: u8,
    pub height: u8,
    ghost small: { (width ≤ 64) × (height ≤ 64) },
}

impl Grid {
    ghost use Rattle.machine_desc.specs.Tables.{IsOn, IsCoreOn, IsEdgeOn, chip_place, core_place, edge_place, chip_total, TellsChips, TellsCores, TellsLinks};

    // The number of chips.
    pub(crate) fn chips(self) -> usize
        ensures total { result ≡ chip_total self }
        ensures few { result ≤ 4096 }
    {
        usize::from(self.width) * usize::from(self.height)
    }

    // The place of a chip in a table with a place for each chip.
    pub(crate) fn chip_place(self, chip: Chip) -> usize
        requires { IsOn self chip }
        ensures place { result ≡ chip_place self chip }
        ensures below { result < chip_total self }
        ensures few { result < 4096 }
    {
        usize::from(chip.x) * usize::from(self.height) + usize::from(chip.y)
    }

    // The place of a core in a table with 18 places for each chip.
    pub(crate) fn spot_place(self, spot: Spot) -> usize
        requires { IsCoreOn self spot }
        ensures place { result ≡ core_place self spot }
        ensures below { result < chip_total self * 18 }
    {
        self.chip_place(spot.chip) * CORES as usize + usize::from(spot.core)
    }

    // The place of a link in a table with six places for each chip.
    pub(crate) fn edge_place(self, edge: Edge) -> usize
        requires { IsEdgeOn self edge }
        ensures place { result ≡ edge_place self edge }
        ensures below { result < chip_total self * 6 }
    {
        self.chip_place(edge.chip) * 6 + usize::from(edge.dir.number())
    }

    // A table that has for each chip whether it is listed.
    pub(crate) fn chip_table(self, alloc: Global, listed: &[Chip]) -> Result<Vec<bool>, Memory>
        requires { All (IsOn self) listed.now }
        ensures told { IfOk result (λ t. TellsChips self t.items listed.now) }
        ensures long { IfOk result (λ t. length t.items ≡ chip_total self) }
    {
        let mut table = vec![in alloc; false; self.chips()]?;
        for chip in listed {
            table[self.chip_place(*chip)] = true;
        }
        Ok(table)
    }

    // A table that has for each core 0 to 17 of each chip whether it is listed.
    pub(crate) fn core_table(self, alloc: Global, listed: &[Spot]) -> Result<Vec<bool>, Memory>
        requires { All (λ s. IsOn self s.chip) listed.now }
        ensures told { IfOk result (λ t. TellsCores self t.items listed.now) }
        ensures long { IfOk result (λ t. length t.items ≡ chip_total self * 18) }
    {
        let mut table = vec![in alloc; false; self.chips() * CORES as usize]?;
        for spot in listed {
            if spot.core < CORES {
                table[self.spot_place(*spot)] = true;
            }
        }
        Ok(table)
    }

    // A table that has for each link of each chip whether it is listed.
    pub(crate) fn link_table(self, alloc: Global, listed: &[Edge]) -> Result<Vec<bool>, Memory>
        requires { All (IsEdgeOn self) listed.now }
        ensures told { IfOk result (λ t. TellsLinks self t.items listed.now) }
        ensures long { IfOk result (λ t. length t.items ≡ chip_total self * 6) }
    {
        let mut table = vec![in alloc; false; self.chips() * 6]?;
        for edge in listed {
            table[self.edge_place(*edge)] = true;
        }
        Ok(table)
    }
}
