// The live links of a machine.
ghost use Rattle.std.specs.Prelude.{◌≡◌, ◌<◌, ◌+◌, ◌*◌, ◌↔◌, ℕ, IfOk, length, slice_index, true};
ghost use Rattle.spin_base.specs.Links.{dir_number};
ghost use Rattle.std.specs.Int.{bit_at};
ghost use Rattle.machine_desc.specs.Live.{IsLiveLink};
ghost use Rattle.link_detours.specs.LiveRoads.{AreRoadsOf};

use machine_desc::Machine;
use spin_base::{Chip, Dir, Memory, Shared};
use std::alloc::Global;

/// The live links of a machine, as bits: made once a machine, and lent to the repair of each tree.
#[derive(Drop)]
pub struct Roads {
    words: Vec<u64>,
}

impl Shared for Roads {}

impl Roads {
    /// The live links of this machine: six words for each column of chips, each bit one link.
    ///
    /// # Errors
    ///
    /// `Memory` where memory runs out.
    pub fn of(alloc: Global, machine: &Machine) -> Result<Roads, Memory>
        ensures { IfOk result (λ roads. AreRoadsOf machine.now roads) }
    {
        let mut words = Vec::new(alloc);
        for place in 0..usize::from(machine.width()) * 6 {
            words.push(road_word(machine, (place / 6) as u8, Dir::ALL[place % 6]))?;
        }
        Ok(Roads { words })
    }

    // The word of a column and a link.
    pub(crate) fn word(&self, x: usize, d: Dir) -> u64
        requires { x * 6 + dir_number d < length self.now.words.items }
        ensures { result ≡ slice_index self.now.words.items (x * 6 + dir_number d) }
    {
        self.words[x * 6 + usize::from(d.number())]
    }
}

// Whether the bit of this place is set.
pub(crate) fn bit_is_set(word: u64, y: u8) -> bool
    requires { y < 64 }
    ensures { (result ≡ true) ↔ (bit_at word y ≡ 1) }
{
    (word >> y) & 1 == 1
}

// The word of a column and a link: bit y is set exactly where that link of the chip at y lives.
fn road_word(machine: &Machine, x: u8, d: Dir) -> u64
    ensures { (y : ℕ) → y < machine.now.height
        → (bit_at result y ≡ 1) ↔ IsLiveLink machine.now (record { x = x; y = y }) d }
{
    let mut word = 0;
    for y in 0..machine.height() {
        if machine.link_live(Chip { x, y }, d) {
            word |= 1 << y;
        }
    }
    word
}
