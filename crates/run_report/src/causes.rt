// The refusals, and their statuses.
ghost use Rattle.std.specs.Prelude.{◌≡◌};

use default_routes::Final;
use job_text::JobFault;
use spin_base::{Chip, Name};

/// Why a call gives no text of its own.
#[derive(Drop)]
pub enum Refusal {
    /// The words spell no command. Status 1.
    Usage,
    /// Reading failed. Status 2.
    ReadFault,
    /// Writing failed. Status 3.
    WriteFault,
    /// The source gave more than 16,777,216 bytes. Status 4.
    TooLong,
    /// The bytes are no JSON. Status 4.
    NotJson,
    /// The first fault of the job, of the request, or of the steps. Status 4.
    Job(JobFault),
    /// The name of the first vertex without room. Status 5.
    NoRoom(Name),
    /// The name of the first net without keys. Status 6.
    KeysOut(Name),
    /// The name of the first net with a target that is cut off, and the chip of its first such target. Status 7.
    CutOff(Name, Chip),
    /// The first chip, by its index, whose final table has more entries than a router, and that table. Status 8.
    TableLong(Chip, Final),
    /// There was not enough memory. Status 9.
    Memory,
}

impl Refusal {
    ghost use Rattle.run_report.specs.Refusals.{status_of};

    /// The status that a call with this refusal ends with.
    pub fn status(&self) -> u8
        ensures { result ≡ status_of self.now }
    {
        match self {
            Refusal::Usage => 1,
            Refusal::ReadFault => 2,
            Refusal::WriteFault => 3,
            Refusal::TooLong => 4,
            Refusal::NotJson => 4,
            Refusal::Job(_) => 4,
            Refusal::NoRoom(_) => 5,
            Refusal::KeysOut(_) => 6,
            Refusal::CutOff(_, _) => 7,
            Refusal::TableLong(_, _) => 8,
            Refusal::Memory => 9,
        }
    }
}
