// What came of a call.
use run_report::Refusal;
use spin_base::Seq;
use table_text::ShortTable;

/// What came of a call: the status, why there are no tables, and the tables. They are given where the whole text was made, also
/// where writing it failed.
#[derive(Drop)]
pub struct Outcome {
    pub status: u8,
    pub refusal: Option<Refusal>,
    pub tables: Option<Seq<ShortTable>>,
}
