// The lookup memories of a grid's chips.
ghost use Rattle.std.specs.Prelude.{◌≡◌, ◌≤◌, length, replicate, IfOk};
ghost use Rattle.table_load.specs.Images.{IsValid};
ghost use Rattle.table_load.specs.Memories.{IsLoaded, loaded};
ghost use Rattle.tcam_find.specs.Memory.{empty_memory};

use crate::tables::Image;
use spin_base::{Entry, Memory, ROUTER_ENTRIES, Seq};
use std::alloc::Global;
use tcam_find::{Room, RoomyTcam, Tcam};

/// One lookup memory for each chip of the grid, in the order of the chips' indices x * height + y: a chip's rows from
/// place 0 on, and unused entries after them.
pub fn load(alloc: Global, image: &Image) -> Result<Seq<Tcam>, Memory>
    requires { IsValid image.now }
    ensures { IfOk result (λ memories. IsLoaded image.now memories) }
{
    let height = image.height as usize;
    let mut memories = empty_memories(alloc, image.width as usize * height)?;
    for table in image.chips.as_slice() {
        let at = table.chip.x as usize * height + table.chip.y as usize;
        let memory = filled(alloc, table.entries.as_slice())?;
        memories[at] = memory;
    }
    Ok(Seq::from_vec(memories))
}

/// Memories of unused entries.
fn empty_memories(alloc: Global, count: usize) -> Result<Vec<Tcam>, Memory>
    ensures { IfOk result (λ v. v.items ≡ replicate count empty_memory) }
{
    let mut memories = Vec::with_capacity(alloc, count)?;
    for _ in 0..count {
        memories.push(Tcam::empty(alloc))?;
    }
    Ok(memories)
}

/// A memory that has rows from place 0 on.
fn filled(alloc: Global, rows: &[Entry]) -> Result<Tcam, Memory>
    requires { length rows.now ≤ ROUTER_ENTRIES }
    ensures { IfOk result (λ memory. memory ≡ loaded rows.now) }
{
    let room = Room::new(alloc, rows.len() as u32)?;
    let mut roomy = RoomyTcam::new(Tcam::empty(alloc), room);
    for (at, row) in rows.iter().enumerate() {
        roomy.set(at as u32, *row);
    }
    Ok(roomy.into_memory())
}
