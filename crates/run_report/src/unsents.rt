// The packets that no core has sent.
ghost use Rattle.std.specs.Prelude.{◌≡◌, ◌+◌, ◌-◌, ◌^◌, min};
ghost use Rattle.run_report.specs.RunReport.{unsent_total};

use crate::planned::NumberedMesh;

// The number of copies that no vertex has sent. It stands still at 4,294,967,295.
pub(crate) fn unsent_of(numbered: NumberedMesh) -> u32
    ensures { result ≡ min (unsent_total numbered.entry.mesh.now) (2 ^ 32 - 1) }
{
    let mesh = numbered.mesh;
    let mut unsent: u32 = 0;
    for vertex in 0..mesh.spots().len() {
        unsent = saturating_sum(unsent, mesh.unsent(vertex as u32).len());
    }
    unsent
}

// The sum, or the greatest number where the sum is above it.
fn saturating_sum(unsent: u32, more: usize) -> u32
    ensures { result ≡ min (unsent + more) (2 ^ 32 - 1) }
{
    unsent.saturating_add(u32::try_from(more).unwrap_or(u32::MAX))
}
