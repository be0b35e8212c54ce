// The parts of a machine on which no application is loaded.
ghost use Rattle.std.specs.Prelude.{◌≡◌, ◌≢◌, ◌≤◌, ◌++◌, ◌∷◌, [], All, AllPairs, filter, map, length, replicate, IfOk, OnOk};
ghost use Rattle.machine_desc.specs.Live.{IsSite, is_usable};
ghost use Rattle.tcam_find.specs.Memory.{empty_memory};
ghost use Rattle.mesh_core.specs.State.{IsMesh};
ghost use Rattle.app_loads.specs.Opening.{usable_spots, bare_mesh};
ghost use Rattle.app_loads.specs.Regions.{all_free, open_regions};
ghost use Rattle.app_loads.specs.Taking.{free_places_in};

use crate::claims::ALL_KEYS;
use machine_desc::Machine;
use mesh_core::laws::every_mesh_is_one;
use mesh_core::{Mesh, MeshSetup};
use range_store::Ranges;
use spin_base::{Memory, ROUTER_ENTRIES, Seq, Spot};
use std::alloc::Global;
use tcam_find::Tcam;

// How many cores of a chip can be usable: 1 to 17.
const CORES: u32 = 17;

// How many places a region has: no more than there are keys.
#[derive(Clone, Copy)]
struct Places {
    count: u64,
    ghost few: { count ≤ 4294967296 },
}

// The mesh with a vertex on each usable core, without a copy.
pub(crate) fn bare_mesh(alloc: Global, machine: &Machine, queue: u32) -> Result<Mesh, Memory>
    requires { 1 ≤ queue }
    ensures bare { IfOk result (λ mesh. mesh ≡ bare_mesh machine.now queue) }
    ensures valid { IfOk result IsMesh }
{
    let spots = usable_spots(alloc, machine)?;
    let tables = empty_tables(alloc, machine.chips())?;
    let setup = MeshSetup::new(alloc, machine.copy(alloc)?, spots, tables, queue)?;
    let mesh = Mesh::new(alloc, setup)?;
    every_mesh_is_one(&mesh);
    Ok(mesh)
}

// The usable cores of the machine, in the order of their chips' indices and their numbers. Each chip has 17, for its cores 1 to 17.
fn usable_spots(alloc: Global, machine: &Machine) -> Result<Seq<Spot>, Memory>
    ensures spots { IfOk result (λ spots. spots ≡ usable_spots machine.now) }
    ensures sites { IfOk result (All (IsSite machine.now)) }
    ensures different { IfOk result (AllPairs (λ a b. a ≢ b)) }
{
    let spots = (0..CORES * machine.chips() as u32)
        .map(|number| Spot {
            chip: machine.chip_at(number / CORES),
            core: (number % CORES) as u8 + 1,
        })
        .filter(|spot| machine.usable(*spot))
        .collect(alloc)?;
    Ok(Seq::from_vec(spots))
}

// So many tables of unused entries.
fn empty_tables(alloc: Global, count: usize) -> Result<Seq<Tcam>, Memory>
    ensures { IfOk result (λ tables. tables ≡ replicate count empty_memory) }
{
    let mut tables = Vec::with_capacity(alloc, count)?;
    for _ in 0..count {
        tables.push(Tcam::empty(alloc))?;
    }
    Ok(Seq::from_vec(tables))
}

// All regions of the machine, of which nothing is taken.
pub(crate) fn open_regions(alloc: Global, machine: &Machine) -> Result<Vec<Ranges>, Memory>
    ensures { IfOk result (λ regions. map free_places_in regions.items ≡ open_regions machine.now) }
{
    let mut regions = Vec::new(alloc);
    let keys = Places { count: ALL_KEYS };
    push_regions(alloc, &mut regions, 1, keys)?;
    let count = u64::from(machine.sdram());
    push_regions(alloc, &mut regions, machine.chips(), Places { count })?;
    let count = ROUTER_ENTRIES as u64;
    push_regions(alloc, &mut regions, machine.chips(), Places { count })?;
    Ok(regions)
}

// Puts so many regions of that size at the back of the list.
fn push_regions(
    alloc: Global,
    regions: &mut Vec<Ranges>,
    count: usize,
    size: Places,
) -> Result<(), Memory>
    ensures { OnOk result (map free_places_in regions.new.items
        ≡ map free_places_in regions.old.items
        ++ replicate count (all_free size.count)) }
{
    for _ in 0..count {
        regions.push(Ranges::new(alloc, size.count)?)?;
    }
    Ok(())
}
