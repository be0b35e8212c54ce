// The plain rows of an application, and their ranges in the tables.
ghost use Rattle.std.specs.Prelude.{◌≡◌, ◌+◌, ◌*◌, ◌≤◌, IfNone, IfOk, IfSome, Some, length, map};
ghost use Rattle.std.specs.List.{AllZip};
ghost use Rattle.machine_desc.specs.declared.nets.NetPlan.{NetPlan as Plan};
ghost use Rattle.tcam_find.specs.Memory.{unused};
ghost use Rattle.tern_word.specs.Entries.{entry_of};
ghost use Rattle.net_tables.specs.Marks.{IsTableOf, row_of_mark, table_of_sorted};
ghost use Rattle.net_tables.specs.PlainTable.{AtEach, IsPlainTable};
ghost use Rattle.app_loads.specs.Host.{net_with, nets_of};
ghost use Rattle.app_loads.specs.Joining.{HasRoutes};
ghost use Rattle.app_loads.specs.Regions.{chip_count};
ghost use Rattle.app_loads.specs.Writing.{AreCopied, FillsFrom, AreUnused, CanClear, CanCopy, HasEntriesFrom, HasRoom, HaveRooms, row_entry, tables_in};

use crate::loaded::{LoadedApp, Range};
use crate::plans::AppNet;
use machine_desc::{Machine, NetPlan};
use net_tables::marks::Mark;
use net_tables::{in_row_order, original_blocks};
use spin_base::{Block, Entry, Memory, ROUTER_ENTRIES, Seq};
use std::alloc::Global;
use tcam_find::{Room, RoomyTcam, Tcam};

// The original blocks of the application's nets, by the chips' indices, in the order of the rows of their plain tables. So no row is
// made, and none has a list of aliases.
#[tactic(auto, using(std::proofs::lemmas::Option::slice_get_read, crate::proofs::Resting::nets_with_at, spin_base::proofs::Places::take_more_at))]
pub(crate) fn originals_of(
    alloc: Global,
    machine: &Machine,
    app: &LoadedApp,
) -> Result<Seq<Seq<Mark>>, Memory>
    requires { HasRoutes machine.now app.now }
    ensures long { IfOk result (λ lists. length (tables_in lists)
        ≡ machine.now.width * machine.now.height) }
    ensures plain { IfOk result (λ lists.
        AtEach machine.now (tables_in lists) (IsPlainTable machine.now (nets_of app.now))) }
{
    // The application's nets with their blocks.
    let mut nets = Seq::new(alloc);
    for (at, net) in app.plan.nets.as_slice().iter().enumerate() {
        nets.push(net_with(alloc, net, *app.blocks.get(at))?)?;
    }
    let blocks = original_blocks(alloc, machine, &nets)?;
    let originals = in_order(alloc, blocks.into_vec())?;
    Ok(originals)
}

// Each list in the order of the rows of its plain table.
fn in_order(alloc: Global, lists: Vec<Seq<Mark>>) -> Result<Seq<Seq<Mark>>, Memory>
    ensures { IfOk result (λ sorted. AllZip IsTableOf lists.items (tables_in sorted)) }
{
    Ok(Seq::from_vec(
        lists
            .into_iter()
            .map(|marks| sorted_marks(marks))
            .try_collect(alloc)?,
    ))
}

// Original blocks in the order of the rows of their plain table. Most chips have none, or one.
fn sorted_marks(marks: Seq<Mark>) -> Result<Seq<Mark>, Memory>
    ensures { IfOk result (λ sorted. IsTableOf marks (table_of_sorted sorted)) }
{
    if marks.len() < 2 {
        return Ok(marks);
    }
    in_row_order(marks)
}

// The net with a block.
fn net_with(alloc: Global, net: &AppNet, block: Block) -> Result<NetPlan, Memory>
    ensures { IfOk result (λ plan. plan ≡ net_with net.now block) }
{
    let AppNet {
        source,
        targets,
        tree,
        keys: _,
        fixed: _,
    } = net.copy(alloc)?;
    Ok(NetPlan {
        block,
        source,
        targets,
        tree,
    })
}

// Room for the places of each range of entries, in their tables.
pub(crate) fn rooms_for(
    alloc: Global,
    machine: &Machine,
    ranges: &[Range],
) -> Result<Vec<Room>, Memory>
    ensures { IfOk result (λ rooms. HaveRooms machine.now ranges.now rooms.items) }
{
    Ok(
        ranges
            .iter()
            .map(|range| room_for(alloc, machine, range))
            .try_collect(alloc)?,
    )
}

// Room for the places of a range, if it is one of entries.
fn room_for(alloc: Global, machine: &Machine, range: &Range) -> Result<Room, Memory>
    ensures { IfOk result (HasRoom machine.now range.now) }
{
    if range.region <= machine.chips() {
        return Ok(Room::none(alloc));
    }
    // (a range of entries ends with the table at the latest)
    let end = range
        .place
        .saturating_add(range.size)
        .min(ROUTER_ENTRIES as u64);
    Room::new(alloc, end as u32)
}

// Where the table stands, by its chip's index, whose entries are the region of a number, if these are entries.
fn table_of(machine: &Machine, region: usize) -> Option<usize>
    ensures some { IfSome result (λ at. region ≡ 1 + (chip_count machine.now + at)) }
    ensures none { IfNone result (region ≤ chip_count machine.now) }
    ensures few { chip_count machine.now ≤ 4096 }
{
    region.checked_sub(1 + machine.chips())
}

// Puts the rows of each chip's original blocks into the range of its table.
pub(crate) fn write_rows(
    alloc: Global,
    machine: &Machine,
    tables: &mut [Tcam],
    lists: &[Seq<Mark>],
    ranges: &[Range],
    rooms: Vec<Room>,
)
    requires { CanCopy machine.now tables.old (tables_in lists.now) ranges.now rooms.items }
    ensures { AreCopied machine.now (tables_in lists.now) ranges.now tables.old tables.new }
{
    let mut rooms = rooms.into_iter();
    for range in ranges {
        // There is a room for each range.
        let Some(room) = rooms.next() else {
            unreachable!()
        };
        if let Some(at) = table_of(machine, range.region) {
            put_rows(
                alloc,
                &mut tables[at],
                room,
                range.place as u32,
                lists[at].as_slice(),
            );
        } else {
            drop(room);
        }
    }
}

// Puts the rows of original blocks at the places from one on.
fn put_rows(alloc: Global, table: &mut Tcam, room: Room, first: u32, marks: &[Mark])
    requires has { HasEntriesFrom table.old first (length marks.now) }
    requires fits { first + length marks.now ≤ room }
    ensures { FillsFrom first (length marks.now) (row_entry (map row_of_mark marks.now) first)
        table.old table.new }
{
    let mut roomy = RoomyTcam::new(std::mem::replace(table, Tcam::empty(alloc)), room);
    for (at, mark) in marks.iter().enumerate() {
        roomy.set(first + at as u32, entry_of(*mark));
    }
    *table = roomy.into_memory();
}

// The entry of an original block.
fn entry_of(mark: Mark) -> Entry
    ensures { result ≡ entry_of (row_of_mark mark) }
{
    Entry {
        key: mark.block.key,
        mask: mark.block.mask,
        route: mark.route,
    }
}

// Makes the entries of the ranges unused.
pub(crate) fn clear_rows(machine: &Machine, tables: &mut [Tcam], ranges: &[Range])
    requires { CanClear machine.now tables.old ranges.now }
    ensures { AreUnused machine.now ranges.now tables.old tables.new }
{
    for range in ranges {
        if let Some(at) = table_of(machine, range.region) {
            clear_entries(&mut tables[at], range.place as u32, range.size as u32);
        }
    }
}

// Makes so many entries unused, from a place on.
fn clear_entries(table: &mut Tcam, first: u32, count: u32)
    requires { HasEntriesFrom table.old first count }
    ensures { FillsFrom first count (λ k. Some unused) table.old table.new }
{
    for at in 0..count {
        table.clear(first + at);
    }
}
