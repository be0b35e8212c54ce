// The targets of a net, and their chips.
ghost use Rattle.std.specs.Prelude.{◌≡◌, ◌+◌, ◌*◌, ◌/◌, ◌%◌, ◌<◌, All, map, length, slice_index_or, IfOk, IsTrue};
ghost use Rattle.spin_base.specs.declared.chips.Spot.{Spot};
ghost use Rattle.machine_desc.specs.Live.{IsInside};
ghost use Rattle.net_plans.specs.Targets.{AreTargets, AreTargetChips};
ghost use Rattle.net_plans.specs.Keys.{nowhere, spot_numbered, chip_of_key, AreNumbersOf, AreChipKeys, IsChipOfOne};

use crate::boards::{CoreBoard, TargetVertices, board_of, cores_on};
use crate::orders::each_once;
use machine_desc::Machine;
use ner_trees::{ChipPair, distance};
use spin_base::{Chip, Memory, Seq, Spot};
use std::alloc::Global;

/// The cores of a net's target vertices, each once, in the order of x, then y, then core.
///
/// # Errors
///
/// `Memory` where memory runs out.
pub fn targets_of(alloc: Global, targets: TargetVertices) -> Result<Seq<Spot>, Memory>
    ensures { IfOk result (AreTargets targets.entry.spots.now targets.entry.vertices.now) }
{
    match board_of(alloc, targets)? {
        Some(board) => cores_on(alloc, CoreBoard { words: &board }),
        None => sorted_targets(alloc, targets),
    }
}

// The same by a sort, which takes less where targets are few.
fn sorted_targets(alloc: Global, targets: TargetVertices) -> Result<Seq<Spot>, Memory>
    ensures { IfOk result (AreTargets targets.entry.spots.now targets.entry.vertices.now) }
{
    let mut numbers = spot_numbers(alloc, targets)?;
    each_once(&mut numbers);
    let spots = spots_of(alloc, &numbers)?;
    Ok(Seq::from_vec(spots))
}

/// The chips of a net's targets, each once, in the order of their distance from the root, then x, then y.
///
/// # Errors
///
/// `Memory` where memory runs out.
pub fn target_chips(alloc: Global, ends: NetEnds) -> Result<Seq<Chip>, Memory>
    ensures { IfOk result
        (AreTargetChips ends.entry.machine.now ends.entry.root ends.entry.targets.now) }
{
    let mut keys = chip_keys(alloc, ends)?;
    each_once(&mut keys);
    let chips = chips_at(alloc, &keys)?;
    Ok(Seq::from_vec(chips))
}

// The number by which targets are put in order: to compare one number takes less than x, y and core.
fn spot_number(x: u8, y: u8, core: u8) -> u32
    ensures value { result ≡ x * 65536 + y * 256 + core }
    ensures x_back { result / 65536 % 256 ≡ x }
    ensures y_back { result / 256 % 256 ≡ y }
    ensures core_back { result % 256 ≡ core }
{
    u32::from(x) * 65536 + u32::from(y) * 256 + u32::from(core)
}

// The core that has this number.
fn spot_numbered(number: u32) -> Spot
    ensures { result ≡ spot_numbered number }
{
    let chip = Chip {
        x: (number / 65536 % 256) as u8,
        y: (number / 256 % 256) as u8,
    };
    let core = (number % 256) as u8;
    Spot { chip, core }
}

// The numbers of the target vertices' cores.
fn spot_numbers(alloc: Global, targets: TargetVertices) -> Result<Vec<u32>, Memory>
    ensures { IfOk result (λ numbers.
        AreNumbersOf (map (λ v. slice_index_or targets.entry.spots.now v nowhere)
        targets.entry.vertices.now) numbers.items) }
{
    let mut numbers = Vec::with_capacity(alloc, targets.vertices.len())?;
    for i in 0..targets.vertices.len() {
        let vertex = *targets.vertices.get(i);
        let Spot { chip, core } = *targets.spots.get(vertex as usize);
        numbers.push(spot_number(chip.x, chip.y, core))?;
    }
    Ok(numbers)
}

fn spots_of(alloc: Global, numbers: &[u32]) -> Result<Vec<Spot>, Memory>
    ensures { IfOk result (λ spots. spots.items ≡ map spot_numbered numbers.now) }
{
    let spots = numbers.iter().map(|number| spot_numbered(*number));
    Ok(spots.collect(alloc)?)
}

/// The chip of a net's source and the net's targets, all on the machine.
#[derive(Clone, Copy)]
pub struct NetEnds<'a> {
    pub machine: &'a Machine,
    pub root: Chip,
    pub targets: &'a Seq<Spot>,
    pub ghost root_inside: { IsInside machine.now root },
    pub ghost targets_inside: { All (λ s. IsInside machine.now s.chip) targets.now },
}

// The keys of the targets' chips: the distance from the root, x and y. Targets in order have the cores of one chip side by side,
// so each chip is measured once, and most keys stand once before they are put in order.
fn chip_keys(alloc: Global, ends: NetEnds) -> Result<Vec<(u32, u8, u8)>, Memory>
    ensures { IfOk result (λ keys. AreChipKeys ends.entry.machine.now ends.entry.root
        ends.entry.targets.now keys.items) }
{
    let mut keys = Vec::with_capacity(alloc, ends.targets.len())?;
    for i in 0..ends.targets.len() {
        let chip = ends.targets.get(i).chip;
        if !ends_at(&keys, chip) {
            let pair = ChipPair {
                machine: ends.machine,
                from: ends.root,
                to: chip,
            };
            keys.push((distance(pair), chip.x, chip.y))?;
        }
    }
    Ok(keys)
}

// Whether the last of these keys is that of the chip.
fn ends_at(keys: &[(u32, u8, u8)], chip: Chip) -> bool
    ensures { IsTrue result → IsChipOfOne keys.now chip }
{
    match keys.last() {
        Some(key) => Chip { x: key.1, y: key.2 } == chip,
        None => false,
    }
}

fn chips_at(alloc: Global, keys: &[(u32, u8, u8)]) -> Result<Vec<Chip>, Memory>
    ensures { IfOk result (λ chips. chips.items ≡ map chip_of_key keys.now) }
{
    let chips = keys.iter().map(|key| Chip { x: key.1, y: key.2 });
    Ok(chips.collect(alloc)?)
}
