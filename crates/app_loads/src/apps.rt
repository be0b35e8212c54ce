// The applications of a machine, and what can be asked of them.
ghost use Rattle.std.specs.Prelude.{◌≡◌, ◌==◌, ◌+◌, ◌≤◌, [], Contains, IfOk, OnOk, Some, false, is_some, true, vec_capacity, vec_len};
ghost use Rattle.std.specs.List.{list_any};
ghost use Rattle.spin_base.specs.Equality.{spot_eq};
ghost use Rattle.app_loads.specs.Applications.{AreApps};
ghost use Rattle.app_loads.specs.declared.loaded.LoadedApp.{LoadedApp as AnApp};
ghost use Rattle.app_loads.specs.Host.{is_free_spot, is_loaded, is_spot_taken};
ghost use Rattle.app_loads.specs.Opening.{bare_host};

use crate::loaded::LoadedApp;
use crate::meshes::KeptMesh;
use crate::opening::{bare_mesh, open_regions};
use machine_desc::Machine;
use range_store::Ranges;
use spin_base::{Memory, Seq, Spot};
use std::alloc::Global;
use std::marker::Model;

/// A machine and the applications that are loaded on it.
///
/// At every moment no two applications share a key, a byte of memory, an entry or a core; the tables are right for all their nets;
/// and each copy of their packets, and no other, is in exactly one place of its way.
#[derive(Drop)]
pub struct Apps {
    // It is there but while it is changed.
    pub(crate) mesh: Option<KeptMesh>,
    // The regions, by their numbers.
    pub(crate) regions: Vec<Ranges>,
    pub(crate) apps: Vec<LoadedApp>,
    // The applications' numbers, in the same order: to look for one reads four bytes an application.
    pub(crate) numbers: Vec<u32>,
    pub(crate) packets: u32,
    // Where it is known that no copy waits: the vertices that may have packets unsent.
    pub(crate) senders: Option<Seq<usize>>,
}

impl Model for Apps {
    ghost use Rattle.app_loads.specs.Host.{Host};

    ghost Value = { Host };

    ghost use Rattle.app_loads.specs.Inner.{host_of, IsHost};

    ghost view = { host_of };

    ghost invariant = { IsHost };
}

impl Apps {
    ghost use Rattle.machine_desc.specs.Live.{IsInside};

    /// The machine without an application, whose queues hold at most `queue` copies. It takes time and memory as the machine.
    ///
    /// # Errors
    ///
    /// `Memory` where memory runs out.
    pub fn new(alloc: Global, machine: &Machine, queue: u32) -> Result<Apps, Memory>
        requires { 1 ≤ queue }
        ensures bare { IfOk result (λ apps. apps ≡ bare_host machine.now queue) }
        ensures apps { IfOk result AreApps }
    {
        // The mesh comes last: no refusal after it has to drop it.
        let regions = open_regions(alloc, machine)?;
        let mesh = bare_mesh(alloc, machine, queue)?;
        Ok(Apps {
            mesh: Some(KeptMesh::new(alloc, mesh)),
            regions,
            apps: Vec::new(alloc),
            numbers: Vec::new(alloc),
            packets: 0,
            senders: Some(Seq::new(alloc)),
        })
    }

    /// Whether a spot of a chip inside the grid is a usable core, and no loaded application has it. It takes no memory, and time as
    /// the spots of loaded applications.
    pub fn free(&self, s: Spot) -> bool
        requires { IsInside self.now.mesh.setup.machine s.chip }
        ensures { result ≡ is_free_spot self.now s }
    {
        let Some(mesh) = &self.mesh else {
            return false;
        };
        mesh.machine().usable(s) && !is_taken(&self.apps, s)
    }

    /// Whether an application of that number is loaded. It takes no memory.
    #[tactic(auto, using(crate::proofs::Others::any_number))]
    pub fn loaded(&self, number: u32) -> bool
        ensures { result ≡ is_loaded self.now.apps number }
    {
        has_number(&self.numbers, number)
    }

    /// The spots of the application of a number, in the order of its vertices, or none where no application has it.
    ///
    /// # Errors
    ///
    /// `Memory` where memory runs out.
    pub fn spots_of(&self, alloc: Global, number: u32) -> Result<Vec<Spot>, Memory>
        ensures spots { IfOk result (λ spots. (app : AnApp) → Contains self.now.apps app
            → app.number ≡ number → spots.items ≡ app.plan.spots) }
        ensures none { IfOk result (λ spots. is_loaded self.now.apps number ≡ false
            → spots.items ≡ []) }
    {
        let Some(at) = self.place_of(number) else {
            return Ok(Vec::new(alloc));
        };
        let app = &self.apps[at];
        Ok(Vec::from_slice(alloc, app.plan.spots.as_slice())?)
    }

    /// How many packets all loads so far had together. It takes no memory and constant time.
    pub fn packets_so_far(&self) -> u32
        ensures packets { result ≡ self.now.packets }
        ensures apps { AreApps self.now }
    {
        self.packets
    }
}

// Puts an item in its place. What was there is dropped here, as a value of any type: so no caller drops a whole mesh.
pub(crate) fn put<T: Drop>(held: &mut Option<T>, item: T)
    ensures { held.new ≡ Some item }
{
    *held = Some(item);
}

// Takes the mesh out of its place, where it is.
pub(crate) fn take_out(held: &mut Option<KeptMesh>) -> KeptMesh
    requires { is_some held.old ≡ true }
    ensures { held.old ≡ Some result }
{
    let Some(mesh) = held.take() else {
        unreachable!()
    };
    mesh
}

// Whether the number is one of the list.
fn has_number(numbers: &[u32], number: u32) -> bool
    ensures { result ≡ list_any (λ other. other == number) numbers.now }
{
    numbers.iter().any(|other| *other == number)
}

// Whether one of the applications has the spot.
fn is_taken(apps: &[LoadedApp], spot: Spot) -> bool
    ensures { result ≡ is_spot_taken apps.now spot }
{
    apps.iter().any(|app| has_spot(app, spot))
}

// Whether the spot is one of the application's.
fn has_spot(app: &LoadedApp, spot: Spot) -> bool
    ensures { result ≡ list_any (spot_eq spot) app.now.plan.spots }
{
    app.plan.spots.as_slice().iter().any(|other| spot == *other)
}

// Makes room for an application and its number.
pub(crate) fn reserve_one(apps: &mut Vec<LoadedApp>, numbers: &mut Vec<u32>) -> Result<(), Memory>
    ensures apps { apps.new.items ≡ apps.old.items }
    ensures numbers { numbers.new.items ≡ numbers.old.items }
    ensures room { OnOk result (vec_len apps.new + 1 ≤ vec_capacity apps.new) }
    ensures number_room { OnOk result (vec_len numbers.new + 1 ≤ vec_capacity numbers.new) }
{
    apps.reserve(1)?;
    numbers.reserve(1)?;
    Ok(())
}
