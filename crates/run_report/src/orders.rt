// Dump records in the order of a report.
ghost use Rattle.std.specs.Prelude.{IfOk};
ghost use Rattle.run_report.specs.Orders.{IsSortedStably};
ghost use Rattle.run_report.specs.RunReport.{dump_key};

use mesh_core::Mesh;
use spin_base::{DumpRec, Memory, Seq};
use std::alloc::Global;

/// The dump records, by packet, chip and output.
pub fn dumped_of(alloc: Global, mesh: &Mesh) -> Result<Seq<DumpRec>, Memory>
    ensures { IfOk result (λ dumped. IsSortedStably dump_key mesh.now.dumped dumped) }
{
    let mut sorted = Vec::from_slice(alloc, mesh.dumped())?;
    sorted.sort_by_key(|record| {
        (
            record.copy.packet,
            record.chip.x,
            record.chip.y,
            record.out.number(),
        )
    })?;
    Ok(Seq::from_vec(sorted))
}
