// What came of a word.
use job_readers::Job;
use mesh_core::Mesh;
use par_compile::Plan;
use run_report::Report;
use spin_base::Seq;

/// What a word made of a job, each part where the word asks for it: `run`, `reinject`, `trace` and `gen N` all four, `compile`
/// and `tables` the first two.
#[derive(Drop)]
pub struct Parts {
    /// The job that was read or generated.
    pub job: Option<Job>,
    /// Its plan.
    pub plan: Option<Plan>,
    /// The mesh after its packets, or after its events.
    pub mesh: Option<Mesh>,
    /// The report of plan and mesh.
    pub report: Option<Report>,
}

/// The parts that were made, and the whole text that is to be written.
#[derive(Drop)]
pub struct Made {
    pub parts: Parts,
    pub text: Seq<u8>,
}

// What a word makes of a job and its plan, which stay with the caller: the mesh and the report where the word asks for them, and
// the whole text.
#[derive(Drop)]
pub(crate) struct WordOutput {
    pub(crate) mesh: Option<Mesh>,
    pub(crate) report: Option<Report>,
    pub(crate) text: Seq<u8>,
}
