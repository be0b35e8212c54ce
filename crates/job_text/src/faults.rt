// What a job's text may have wrong.
ghost use Rattle.std.specs.Prelude.{◌≡◌};
ghost use Rattle.job_text.specs.declared.faults.TextErr.TheVariants.{Memory};

use spin_base::Name;
use std::alloc::{AllocError, AllocFailed};

/// A fault of a job's text, with the path of the part that has it: `job`, then `.name` for a member and `[i]` for an
/// item of a list, counted from 0.
#[derive(Drop)]
pub enum JobFault {
    /// The part is absent and has no default, or is of another JSON type.
    Shape(Name),
    /// The part is of the right type, and its value is not allowed.
    Range(Name),
    /// No vertex or net has that name.
    UnknownName(Name),
    /// The name stands earlier in the same list.
    DoubleName(Name),
    /// So many are too many.
    TooMany(Name, u64),
    /// An earlier item of the same list has what this part asks for: a device, or a key of a fixed block.
    Clash(Name),
}

/// Why a part of a job was not read.
#[derive(Drop)]
pub enum TextErr {
    /// The part's first fault.
    Fault(JobFault),
    /// There was not enough memory.
    Memory,
}

impl From<AllocError> for TextErr {
    ghost from_gives = { λ _ e. e ≡ Memory };

    fn from(_: AllocError) -> Self {
        TextErr::Memory
    }
}

impl<T: Drop> From<AllocFailed<T>> for TextErr {
    ghost from_gives = { λ _ e. e ≡ Memory };

    fn from(_: AllocFailed<T>) -> Self {
        TextErr::Memory
    }
}

impl From<spin_base::Memory> for TextErr {
    ghost from_gives = { λ _ e. e ≡ Memory };

    fn from(_: spin_base::Memory) -> Self {
        TextErr::Memory
    }
}
