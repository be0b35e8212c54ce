// The image of final tables, and what it loads.
ghost use Rattle.std.specs.Prelude.{◌≡◌, ℕ, ◌*◌, ◌<◌, ◌≤◌, ◌++◌, List, All, IfOk, OnOk, Some, length, map, slice_get};
ghost use Rattle.machine_desc.specs.Description.{Description};
ghost use Rattle.machine_desc.specs.declared.nets.NetPlan.{NetPlan};
ghost use Rattle.machine_desc.specs.RightTables.{AreRight};
ghost use Rattle.default_routes.specs.declared.stripping.Final.{Final};
ghost use Rattle.table_load.specs.Images.{IsValid, Spells};
ghost use Rattle.table_load.specs.Memories.{rows_of_index};
ghost use Rattle.par_compile.specs.Finals.{KeepsRows, loaded_of};
ghost use Rattle.par_compile.specs.Imaging.{CanBeImaged, FillTables, image_in, listed};

use default_routes::Final;
use machine_desc::Machine;
use spin_base::{Chip, ChipTable, Memory, Seq};
use std::alloc::Global;
use table_load::{Image, an_image_has_one_spelling, decode, encode, load};
use tcam_find::Tcam;

/// The image of the final tables of a machine's chips, one for each chip by the chip's index: the entries of each chip that has
/// any, of which no chip has more than 1,024.
pub fn image_of(alloc: Global, machine: &Machine, finals: &Seq<Final>) -> Result<Image, Memory>
    requires { CanBeImaged machine.now finals.now }
    ensures valid { IfOk result IsValid }
    ensures image { IfOk result (λ v. v ≡ image_in machine.now finals.now) }
    ensures rows { IfOk result (λ v. (i : ℕ) (f : Final) → slice_get finals.now i ≡ Some f
        → rows_of_index v.height v.chips i ≡ f.entries) }
{
    let mut chips = Seq::new(alloc);
    let count = machine.chips();
    prove!(finals.len() == count);
    for (i, done) in finals.as_slice().iter().enumerate() {
        push_table(alloc, &mut chips, machine.chip_at(i as u32), done)?;
    }
    Ok(Image {
        width: machine.width(),
        height: machine.height(),
        wrap: machine.wrap(),
        chips,
    })
}

// Puts a chip's table at the back, where it has entries.
fn push_table(
    alloc: Global,
    chips: &mut Seq<ChipTable>,
    chip: Chip,
    done: &Final,
) -> Result<(), Memory>
    ensures { OnOk result (chips.new ≡ chips.old ++ listed chip done.now.entries) }
{
    if done.entries.is_empty() {
        return Ok(());
    }
    let entries = Seq::from_vec(Vec::from_slice(alloc, done.entries.as_slice())?);
    chips.push(ChipTable { chip, entries })
}

/// The lookup memories that a loader fills from the bytes of the image of final tables, one for each chip by the chip's
/// index: each has the entries of the chip's final table from place 0 on, and unused entries after them. Where these are right
/// for nets, so are the memories.
pub fn memories_of(
    alloc: Global,
    machine: &Machine,
    finals: &Seq<Final>,
) -> Result<Seq<Tcam>, Memory>
    requires { CanBeImaged machine.now finals.now }
    ensures loaded { IfOk result (λ memories. memories ≡ map loaded_of finals.now) }
    ensures right { IfOk result (λ memories. (nets : List NetPlan) → AreRight machine.now
        (map loaded_of finals.now) nets → AreRight machine.now memories nets) }
{
    let image = image_of(alloc, machine, finals)?;
    let bytes = encode(alloc, &image)?;
    match decode(alloc, bytes.as_slice()) {
        Ok(read) => load(alloc, &read),
        Err(_) => Err(Memory),
    }
}

/// From the bytes that spell the image of final tables a loader fills one memory a chip: the entries of the chip's final table
/// from place 0 on, and unused entries after them. Nothing else can be filled from these bytes.
pub fn images_fill_their_tables()
    ensures { (m : Description) (finals : List Final) (bytes : List ℕ) → CanBeImaged m finals
        → Spells (image_in m finals) bytes → FillTables bytes finals }
{
    an_image_has_one_spelling();
}
