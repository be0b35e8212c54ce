// What became of a job.
ghost use Rattle.std.specs.Prelude.{◌≡◌, IfOk};
ghost use Rattle.app_graph.specs.ValidGraph.{IsValidGraph};
ghost use Rattle.run_report.specs.RunReport.{IsReportOf};

use crate::lists::{keys_of, placed_of};
use crate::named::NamedDeliveries;
use crate::orders::dumped_of;
use crate::planned::{NumberedMesh, PlannedGraph};
use crate::unsents::unsent_of;
use crate::waits::waiting_of;
use mesh_core::{Did, Mesh, Place};
use spin_base::{Block, ChipTable, DumpRec, Memory, Name, Seq, Spot};
use std::alloc::Global;

/// What a report says.
#[derive(Drop)]
pub struct Report {
    /// Where each vertex stands.
    pub placed: Seq<(Name, Spot)>,
    /// The keys of each net.
    pub keys: Seq<(Name, Block)>,
    /// The rows of each router that has any.
    pub tables: Seq<ChipTable>,
    /// The answers to the events of a trace, in their order; none where the job was run.
    pub did: Seq<Did>,
    /// The copies that arrived, by packet, then by the position of the vertex.
    pub delivered: NamedDeliveries,
    /// The copies that were dropped, by packet, chip and output.
    pub dumped: Seq<DumpRec>,
    /// The numbers of the packets of which a copy waits, with its place, by packet and place.
    pub waiting: Seq<(u32, Place)>,
    /// The number of packets that no core has sent. It stands still at 4,294,967,295.
    pub unsent: u32,
}

/// The report of a graph's plan and of a mesh: a line for each vertex, each net, and each of the tables, which are those of the
/// image that was loaded; the answers to the events that were traced; and what the mesh delivered, dumped and still holds.
/// The plan's spots are those of the mesh.
///
/// # Errors
///
/// `Memory` where memory runs out.
pub fn report_of(
    alloc: Global,
    planned: &PlannedGraph<'_>,
    tables: Seq<ChipTable>,
    mesh: &Mesh,
    did: Seq<Did>,
) -> Result<Report, Memory>
    requires graph { IsValidGraph planned.now.graph.now }
    requires mesh { mesh.now.setup.spots ≡ planned.now.spots.now }
    ensures { IfOk result (λ report. IsReportOf planned.now.graph.now planned.now.spots.now
        planned.now.nets.now tables mesh.now did report) }
{
    let placed = placed_of(alloc, planned)?;
    let keys = keys_of(alloc, planned)?;
    let named = placed_of(alloc, planned)?;
    let mut sorted = Vec::from_slice(alloc, mesh.delivered())?;
    sorted.sort_by_key(|delivery| (delivery.copy.packet, delivery.vertex))?;
    let dumped = dumped_of(alloc, mesh)?;
    let numbered = NumberedMesh { mesh };
    let waiting = waiting_of(alloc, numbered)?;
    let unsent = unsent_of(numbered);
    Ok(Report {
        placed,
        keys,
        tables,
        did,
        delivered: NamedDeliveries {
            placed: named,
            deliveries: sorted,
        },
        dumped,
        waiting,
        unsent,
    })
}
