// In which shares the two ends of each queue stand.
ghost use Rattle.std.specs.Prelude.{◌≡◌, ◌+◌, ◌*◌, ◌<◌, ◌≤◌, ◌^◌, ◌++◌, ℕ, List, IfOk, OnOk, Some, length, slice_get};
ghost use Rattle.mesh_run.specs.Floors.{grid_size};
ghost use Rattle.mesh_run.specs.Homes.{AreCutsOf, AreHomesOf, AreShareRuns, HaveSenders, IsShareTable, MayCut, MayGrow, SetsSender, homes_of_ports};
ghost use Rattle.mesh_run.specs.Shares.{router_place};

use crate::floors::OUT_COUNT;
use crate::footing::Footing;
use mesh_core::MeshSetup;
use mesh_core::laws::every_setup_has_sites;
use spin_base::Memory;
use std::alloc::Global;

/// The numbers of the shares of a queue's sender and of its receiver.
#[derive(Clone, Copy)]
pub(crate) struct Home {
    pub sender: u32,
    pub receiver: u32,
}

/// Where the runs of actors end, one behind the other: meant as runs of equal length, one for each worker, the last shorter, where the
/// actors of live chips count. No clause says how many they are, nor how long.
#[tactic(auto, using(crate::proofs::HomeLaws::rise_none, crate::proofs::HomeLaws::rise_more, crate::proofs::HomeLaws::runs_all))]
pub(crate) fn runs_of(alloc: Global, footing: Footing, workers: u32) -> Result<Vec<usize>, Memory>
    ensures { IfOk result (λ ends. AreShareRuns (2 * grid_size footing.entry.setup.now) ends.items) }
{
    let count = footing.actors() as usize;
    let size = footing
        .live_actors()
        .div_ceil(workers.max(1) as usize)
        .max(1);
    let mut ends = Vec::new(alloc);
    let mut here: usize = 0;
    for place in 0..count {
        here = end_run(&mut ends, place, here, size)?;
        if footing.is_live(place / 2) {
            here += 1;
        }
    }
    ends.push(count)?;
    Ok(ends)
}

// A run ends before a place where it has as many actors as it is to have. How many the run at hand has.
fn end_run(ends: &mut Vec<usize>, place: usize, here: usize, size: usize) -> Result<usize, Memory>
    ensures ends { OnOk result (MayGrow place ends.old.items ends.new.items) }
    ensures fewer { IfOk result (λ now. now ≤ here) }
{
    if here < size {
        return Ok(here);
    }
    ends.push(place)?;
    Ok(0)
}

/// The number of the run of each actor.
#[tactic(auto, using(crate::proofs::HomeLaws::table_none, crate::proofs::HomeLaws::run_from, crate::proofs::HomeLaws::run_more, crate::proofs::HomeLaws::run_all, crate::proofs::HomeLaws::table_all))]
pub(crate) fn share_table(alloc: Global, ends: &[usize], count: u32) -> Result<Vec<u32>, Memory>
    requires { AreShareRuns count ends.now }
    ensures { IfOk result (λ table. IsShareTable count ends.now table.items) }
{
    let mut table = Vec::new(alloc);
    for number in 0..ends.len() {
        for _place in table.len()..ends[number] {
            table.push(number as u32)?;
        }
    }
    Ok(table)
}

/// The homes of all queues: an output's router sends to the queue behind it, and a bank to its chip's injection queue; a router takes from
/// its ports' queues, and a bank from those of its vertices.
#[tactic(auto, using(crate::proofs::HomeLaws::homes_none, crate::proofs::HomeLaws::ports_more))]
pub(crate) fn homes_of(alloc: Global, footing: Footing, table: &[u32]) -> Result<Vec<Home>, Memory>
    requires { length table.now ≡ 2 * grid_size footing.setup.now }
    ensures { IfOk result (λ homes. AreHomesOf footing.entry.setup.now table.now homes.items) }
{
    let setup = footing.setup;
    let chips = chips_of(setup);
    let mut homes = Vec::new(alloc);
    for index in 0..chips {
        push_ports(&mut homes, table[2 * index], table[2 * index + 1])?;
    }
    every_setup_has_sites(setup);
    let spots = setup.spots();
    for vertex in 0..spots.len() {
        let home = setup.machine().index(spots[vertex].chip);
        let index = home as usize;
        homes.push(Home {
            sender: table[2 * index],
            receiver: table[2 * index + 1],
        })?;
    }
    for at in 0..chips {
        set_senders(&mut homes, footing, at, table[2 * at]);
    }
    Ok(homes)
}

// How many chips the grid has.
fn chips_of(setup: &MeshSetup) -> usize
    ensures value { result ≡ grid_size setup.now }
    ensures few { result ≤ 4096 }
{
    setup.machine().chips()
}

// The homes of the queues of a chip's ports, by the shares of its router and of its bank.
fn push_ports(homes: &mut Vec<Home>, router: u32, bank: u32) -> Result<(), Memory>
    ensures { OnOk result (homes.new.items ≡ homes.old.items ++ homes_of_ports router bank) }
{
    let own = Home {
        sender: router,
        receiver: router,
    };
    let injection = Home {
        sender: bank,
        receiver: router,
    };
    homes.extend_from_slice(&[own, own, own, own, own, own, injection])?;
    Ok(())
}

// The router of the chip of an index, where that is live, stands in a share and sends to the queues behind its outputs.
fn set_senders(homes: &mut Vec<Home>, footing: Footing, index: usize, router: u32)
    ensures { (table : List ℕ) → slice_get table (router_place index) ≡ Some router
        → HaveSenders footing.entry.setup.now table index 0 homes.old.items
        → HaveSenders footing.entry.setup.now table (index + 1) 0 homes.new.items }
{
    if !footing.is_live(index) {
        return;
    }
    for number in 0..OUT_COUNT {
        set_sender(homes, footing.floor.place_behind(index, number), router);
    }
}

// The queue at a place, where there is one, has another sender.
#[tactic(auto, using(crate::proofs::HomeLaws::sets_none, crate::proofs::HomeLaws::sets_one, crate::proofs::HomeLaws::sets_past))]
fn set_sender(homes: &mut Vec<Home>, place: Option<u32>, sender: u32)
    ensures { SetsSender place sender homes.old.items homes.new.items }
{
    if let Some(place) = place {
        if (place as usize) < homes.len() {
            homes[place as usize].sender = sender;
        }
    }
}

/// A queue between two shares: its place, and the numbers of the shares of its sender and of its receiver.
#[derive(Clone, Copy)]
pub(crate) struct Cut {
    pub queue: u32,
    pub sender: u32,
    pub receiver: u32,
}

/// The queues between two shares, in order of their places.
#[tactic(auto, using(crate::proofs::HomeLaws::cut_steps))]
pub(crate) fn cuts_of(alloc: Global, homes: &[Home]) -> Result<Vec<Cut>, Memory>
    requires { length homes.now < 2 ^ 32 }
    ensures { IfOk result (λ cuts. AreCutsOf homes.now cuts.items) }
{
    let mut cuts = Vec::new(alloc);
    for place in 0..homes.len() {
        push_cut(&mut cuts, place as u32, homes[place])?;
    }
    Ok(cuts)
}

// The queue at a place, where it is between two shares.
fn push_cut(cuts: &mut Vec<Cut>, place: u32, home: Home) -> Result<(), Memory>
    ensures { OnOk result (MayCut place home cuts.old.items cuts.new.items) }
{
    if home.sender == home.receiver {
        return Ok(());
    }
    cuts.push(Cut {
        queue: place,
        sender: home.sender,
        receiver: home.receiver,
    })?;
    Ok(())
}
