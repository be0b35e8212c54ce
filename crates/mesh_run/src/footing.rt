// A setup with its floor: how many actors there are, and the router and the bank of each live chip.
ghost use Rattle.std.specs.Prelude.{◌≡◌, ◌*◌, ◌<◌, ◌↔◌, IfNone, IfSome, IsTrue};
ghost use Rattle.std.proofs.Props.{props};
ghost use Rattle.machine_desc.specs.Live.{chip_of};
ghost use Rattle.mesh_run.specs.FloorProps.{IsVertexOn-prop};
ghost use Rattle.mesh_run.specs.Floors.{IsBankOf, IsFloorOf, IsRouterOf, grid_size};
ghost use Rattle.mesh_run.specs.Played.{IsLiveIndex};

use crate::floors::{Floor, OUT_COUNT};
use chip_node::{CoreBank, RouterNode};
use mesh_core::MeshSetup;
use spin_base::Chip;

/// A setup, and the floor of it.
#[derive(Clone, Copy)]
pub(crate) struct Footing<'a, 'l> {
    pub setup: &'a MeshSetup,
    pub floor: &'l Floor,
    ghost stands: { IsFloorOf setup.now floor.now } by { Prim.hlevel (props, IsVertexOn-prop) },
}

impl<'a, 'l> Footing<'a, 'l> {
    /// How many actors there are: two for each chip index.
    pub fn actors(&self) -> u32
        ensures { result ≡ 2 * grid_size self.now.setup.now }
    {
        2 * self.setup.machine().chips() as u32
    }

    /// How many of them are of live chips. It is a hint, and no promise rests on it.
    pub fn live_actors(&self) -> usize {
        let live = self.floor.chips.iter().filter(|chip| chip.is_some());
        live.count().saturating_mul(2)
    }

    // The chip of an index, where it is live.
    fn chip(&self, index: usize) -> Option<Chip>
        ensures none { IfNone result (¬ IsLiveIndex self.now.setup.now index) }
        ensures live { IfSome result (λ _. IsLiveIndex self.now.setup.now index) }
        ensures below { IfSome result (λ _. index < grid_size self.now.setup.now) }
        ensures chip { IfSome result (λ chip. chip ≡ chip_of self.now.setup.now.machine index) }
    {
        match self.floor.chips.get(index) {
            Some(chip) => *chip,
            None => None,
        }
    }

    /// Whether the chip of an index is live.
    pub fn is_live(&self, index: usize) -> bool
        ensures { IsTrue result ↔ IsLiveIndex self.now.setup.now index }
    {
        self.chip(index).is_some()
    }

    /// The router of the chip of an index, where it is live.
    pub fn router<'x>(&'x self, index: usize) -> Option<RouterNode<'x>>
        ensures none { IfNone result (¬ IsLiveIndex self.now.setup.now index) }
        ensures some { IfSome result (IsRouterOf self.now.setup.now index) }
    {
        let setup: &'x MeshSetup = self.setup;
        let floor: &'x Floor = self.floor;
        let _few = setup.machine().chips();
        match self.chip(index) {
            Some(chip) => Some(RouterNode {
                chip,
                index: index as u32,
                table: &setup.tables()[index],
                behind: &floor.behind[OUT_COUNT * index..OUT_COUNT * index + OUT_COUNT],
            }),
            None => None,
        }
    }

    /// The bank of the chip of an index, where it is live.
    pub fn bank(&self, index: usize) -> Option<&CoreBank>
        ensures none { IfNone result (¬ IsLiveIndex self.now.setup.now index) }
        ensures live { IfSome result (λ _. IsLiveIndex self.now.setup.now index) }
        ensures some { IfSome result (λ bank. IsBankOf self.now.setup.now index bank.now) }
    {
        match self.chip(index) {
            Some(_) => Some(&self.floor.banks[index]),
            None => None,
        }
    }
}
