// The text of a plan that is not run.
ghost use Rattle.std.specs.Prelude.{◌≡◌, IfOk};
ghost use Rattle.table_load.specs.Images.{IsValid};
ghost use Rattle.run_report.specs.ReportText.{plan_text};

use crate::lists::{keys_of, placed_of};
use crate::planned::PlannedGraph;
use crate::texts::{CountedTables, listed_text};
use spin_base::{Memory, Seq};
use std::alloc::Global;
use table_load::Image;

/// The text of a plan that is not run: the lines `place`, `keys` and `table` of `text_of`, and as the last line `end rows R`
/// with the number of rows of all tables. The plan has a spot for each vertex, and the image has the tables that are loaded.
///
/// # Errors
///
/// `Memory` where memory runs out.
pub fn plan_text(
    alloc: Global,
    planned: &PlannedGraph<'_>,
    image: &Image,
) -> Result<Seq<u8>, Memory>
    requires image { IsValid image.now }
    ensures { IfOk result (λ text. text ≡ plan_text planned.now.graph.now planned.now.spots.now
        planned.now.nets.now image.now.chips) }
{
    let placed = placed_of(alloc, planned)?;
    let keys = keys_of(alloc, planned)?;
    let chips = image.chips.as_slice();
    let tables = CountedTables { tables: chips };
    listed_text(alloc, placed.as_slice(), keys.as_slice(), tables)
}
