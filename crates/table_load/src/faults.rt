// Why bytes are not read as an image.
ghost use Rattle.std.specs.Prelude.{◌≡◌};
ghost use Rattle.table_load.specs.declared.faults.Stop.TheVariants.{Memory};

use std::alloc::{AllocError, AllocFailed};

/// Why bytes were not decoded.
#[derive(Clone, Copy, PartialEq, Eq)]
pub enum ImageErr {
    /// The bytes spell no image: at this place, counted from 0, stands the first byte of the first field that is not
    /// there whole or is not allowed.
    Fault { at: u64 },
    /// There was not enough memory. No clause says when that comes.
    Memory,
}

/// Why reading ended early.
#[derive(Clone, Copy)]
pub(crate) enum Stop {
    /// There was not enough memory.
    Memory,
    /// A fault: so many bytes are left from the first byte of its field on.
    Left(usize),
}

impl From<AllocError> for Stop {
    ghost from_gives = { λ _ e. e ≡ Memory };

    fn from(_: AllocError) -> Self {
        Stop::Memory
    }
}

impl<T: Drop> From<AllocFailed<T>> for Stop {
    ghost from_gives = { λ _ e. e ≡ Memory };

    fn from(_: AllocFailed<T>) -> Self {
        Stop::Memory
    }
}
