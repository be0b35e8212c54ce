// What is found of nets with their trees and of the bytes of an image.
ghost use Rattle.std.specs.Prelude.{◌≡◌, ◌<◌, ◌^◌, ◌↔◌, ℕ, List, All, IfOk, IsTrue, MatchOption, Some, length, slice_get};
ghost use Rattle.std.proofs.Props.{props};
ghost use Rattle.spin_base.specs.declared.blocks.Entry.{Entry};
ghost use Rattle.spin_base.specs.declared.chips.Chip.{Chip as ChipOf};
ghost use Rattle.machine_desc.specs.declared.nets.NetPlan.{NetPlan as Plan};
ghost use Rattle.machine_desc.specs.RightTables.{AreRight};
ghost use Rattle.table_load.specs.Images.{Spells};
ghost use Rattle.table_load.specs.Memories.{IsLoaded};
ghost use Rattle.table_load.specs.declared.tables.Image.{Image as ImageOf};
ghost use Rattle.plan_check.specs.Verdicts.{IsMisrouted};
ghost use Rattle.plan_check.specs.declared.verdicts.Verdict.TheVariants.{Right, Wrong};
ghost use Rattle.spin_checks.specs.Findings.{HasGoodTree, IsFinding, IsFirstBad, IsOfGrid};
ghost use Rattle.spin_checks.specs.Nets.{StandsOnSites};

use machine_desc::{Machine, NetPlan};
use plan_check::{GridImage, Verdict, check, good};
use spin_base::{Memory, Seq};
use std::alloc::Global;
use table_load::{Image, ImageErr, decode};

/// What is found of nets, each with the tree that was handed in for it, and of bytes of tables.
#[derive(Clone, Copy)]
pub enum Finding {
    /// This net is the first whose edges are no routing tree from the chip of its source to its targets.
    BadTree { net: u32 },
    /// The bytes are no image: at this place stands the first byte of the first field that is not there whole or is not
    /// allowed.
    BadImage { at: u64 },
    /// The image is of a grid of another size, or of one that wraps otherwise.
    OtherMachine,
    /// The trees are good, the image is of the machine's grid, and this is said of its tables.
    Judged(Verdict),
}

// Nets that begin on chips of a machine, and end at its cores and devices.
#[derive(Clone, Copy)]
pub(crate) struct StandingNets<'a> {
    pub(crate) machine: &'a Machine,
    pub(crate) nets: &'a Seq<NetPlan>,
    pub(crate) ghost few: { length nets.now < 2 ^ 32 },
    pub(crate) ghost sites: { All (StandsOnSites machine.now) nets.now } by { Prim.hlevel props },
}

// What is found of nets and bytes.
pub(crate) fn finding_on(
    alloc: Global,
    standing: StandingNets,
    bytes: &[u8],
) -> Result<Finding, Memory>
    ensures finding { IfOk result
        (IsFinding standing.entry.machine.now standing.entry.nets.now bytes.now) }
    ensures right { IfOk result (λ f. f ≡ Finding.Judged Right
        → (v : ImageOf) (memories : List (List Entry)) → Spells v bytes.now
        → IsLoaded v memories
        → AreRight standing.entry.machine.now memories standing.entry.nets.now) }
    ensures wrong { IfOk result (λ f. (i : ℕ) (c : ChipOf) (key : ℕ)
        → f ≡ Finding.Judged (Wrong i c key)
        → (net : Plan) × (slice_get standing.entry.nets.now i ≡ Some net)
        × ((v : ImageOf) (memories : List (List Entry)) → Spells v bytes.now
        → IsLoaded v memories
        → IsMisrouted standing.entry.machine.now memories net c key)) }
{
    let StandingNets { machine, nets } = standing;
    if let Some(net) = first_bad(alloc, standing)? {
        return Ok(Finding::BadTree { net });
    }
    let image = match decode(alloc, bytes) {
        Ok(image) => image,
        Err(ImageErr::Fault { at }) => return Ok(Finding::BadImage { at }),
        Err(ImageErr::Memory) => return Err(Memory),
    };
    if !is_of_grid(machine, &image) {
        return Ok(Finding::OtherMachine);
    }
    let grid = GridImage {
        machine,
        image: &image,
    };
    Ok(Finding::Judged(check(nets, grid)))
}

// The first net whose tree is not good.
fn first_bad(alloc: Global, standing: StandingNets) -> Result<Option<u32>, Memory>
    ensures { IfOk result (λ o. MatchOption o
        (All (HasGoodTree standing.entry.machine.now) standing.entry.nets.now)
        (IsFirstBad standing.entry.machine.now standing.entry.nets.now)) }
{
    let StandingNets { machine, nets } = standing;
    for i in 0..nets.len() {
        let net = nets.get(i);
        if !good(alloc, machine, &net.tree, net.source.chip, &net.targets)? {
            return Ok(Some(i as u32));
        }
    }
    Ok(None)
}

// Whether the image is of the machine's grid.
fn is_of_grid(machine: &Machine, image: &Image) -> bool
    ensures { IsTrue result ↔ IsOfGrid machine.now image.now }
{
    image.width == machine.width()
        && image.height == machine.height()
        && image.wrap == machine.wrap()
}
