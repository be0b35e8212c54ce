// Where the table of each chip stands in an image.
ghost use Rattle.std.specs.Prelude.{◌≡◌, ◌*◌, ◌<◌, length};
ghost use Rattle.std.proofs.Props.{props};
ghost use Rattle.plan_check.specs.ImageProps.{IsChipBefore-prop};
ghost use Rattle.table_load.specs.Images.{IsValid};
ghost use Rattle.table_load.specs.Memories.{rows_of_index};
ghost use Rattle.plan_check.specs.Boards.{TellsTables};

use machine_desc::Machine;
use spin_base::{ChipTable, Entry};
use table_load::Image;

/// A valid image of a machine's grid.
#[derive(Clone, Copy)]
pub struct GridImage<'a> {
    pub machine: &'a Machine,
    pub image: &'a Image,
    pub ghost valid: { IsValid image.now } by { Prim.hlevel (props, IsChipBefore-prop) },
    pub ghost width: { image.now.width ≡ machine.now.width },
    pub ghost height: { image.now.height ≡ machine.now.height },
}

// A valid image of a machine's grid, with the place of each chip's table in it, by the chip's index.
#[derive(Drop)]
pub struct PlacedTables<'a> {
    pub grid: GridImage<'a>,
    pub places: &'a [u16],
    pub ghost long: { length places.now ≡ grid.machine.now.width * grid.machine.now.height },
    pub ghost told: { TellsTables grid.image.now.height grid.image.now.chips
        places.now } by { Prim.hlevel props },
}

// Writes, for each chip by its index, the place of the chip's table in the image, and the number of tables where it has none.
pub(crate) fn set_places(grid: GridImage, places: &mut [u16])
    requires { length places.old ≡ grid.image.now.width * grid.image.now.height }
    ensures long { length places.new ≡ length places.old }
    ensures told { TellsTables grid.entry.image.now.height grid.entry.image.now.chips places.new }
{
    let image = grid.image;
    let tables = image.chips.as_slice();
    let mut at = tables.len() as u16;
    places.fill(at);
    while at > 0 {
        at -= 1;
        let chip = tables[usize::from(at)].chip;
        let index = usize::from(chip.x) * usize::from(image.height) + usize::from(chip.y);
        places[index] = at;
    }
}

// The rows of the chip of an index, and none where it has no table.
pub(crate) fn rows_of<'a>(tables: &PlacedTables<'a>, index: usize) -> &'a [Entry]
    requires { index < length tables.now.places.now }
    ensures { result.now ≡
        rows_of_index tables.now.grid.image.now.height tables.now.grid.image.now.chips index }
{
    let place = tables.places[index];
    match tables.grid.image.chips.as_slice().get(usize::from(place)) {
        Some(table) => table.entries.as_slice(),
        None => &[],
    }
}
