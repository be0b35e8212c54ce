// All the bytes of a source.
ghost use Rattle.std.specs.Prelude.{◌≡◌, ◌<◌, ◌≤◌, ◌⊎◌, ℕ, length, vec_len, IfOk, OnOk, OnErr, IsErrOf};
ghost use Rattle.spin_base.specs.Outside.{FaultsRose, LosesFront, LosesMoreThan, LosesAtMost, GivesAll, HasMoreThan};
ghost use Rattle.spin_base.specs.declared.reading.ReadErr.TheVariants.{OutOfMemory};

use crate::lists::Seq;
use crate::outside::Source;
use crate::wants::Failed;
use std::alloc::{AllocError, Global};

/// Why not all bytes of a source were read.
#[derive(Clone, Copy, PartialEq, Eq)]
pub enum ReadErr {
    /// A read failed.
    Fault,
    /// The source gave more bytes than the limit.
    TooLong,
    OutOfMemory,
}

impl From<AllocError> for ReadErr {
    ghost from_gives = { λ _ e. e ≡ OutOfMemory };

    fn from(_: AllocError) -> Self {
        ReadErr::OutOfMemory
    }
}

// So many bytes are asked for at once.
const PIECE: usize = 65536;

/// The bytes up to the end of input, at most `limit` of them. It is `TooLong` exactly where the source gave more, and
/// those are not read into memory. A source has lost just the bytes that it gave, and counts a fault only where the answer is
/// one.
pub fn read_all<S: Source>(alloc: Global, src: &mut S, limit: u64) -> Result<Seq<u8>, ReadErr>
    ensures all { IfOk result (λ bytes. GivesAll (S.left src.old) bytes (S.left src.new)) }
    ensures within { IfOk result (λ bytes. length bytes ≤ limit) }
    ensures too_long { IsErrOf result ReadErr.TooLong → HasMoreThan limit (S.left src.old) }
    ensures fault { IsErrOf result ReadErr.Fault
        → FaultsRose (S.faults src.old) (S.faults src.new) }
    ensures past_limit { IsErrOf result ReadErr.TooLong
        → LosesMoreThan limit (S.left src.old) (S.left src.new) }
    ensures up_to_limit { IsErrOf result ReadErr.TooLong
        ⊎ LosesAtMost limit (S.left src.old) (S.left src.new) }
    ensures lost { LosesFront (S.left src.old) (S.left src.new) }
    ensures counted { S.faults src.old ≤ S.faults src.new }
    ensures no_fault { IsErrOf result ReadErr.Fault ⊎ (S.faults src.new ≡ S.faults src.old) }
{
    let mut buffer = make_buffer(alloc)?;
    let piece: &mut [u8] = &mut buffer;
    let mut bytes: Vec<u8> = Vec::new(alloc);
    loop {
        let count = match src.read(piece) {
            Ok(count) => count,
            Err(Failed) => return Err(ReadErr::Fault),
        };
        if count == 0 {
            return Ok(Seq::from_vec(bytes));
        }
        if count as u64 > limit - bytes.len() as u64 {
            return Err(ReadErr::TooLong);
        }
        bytes.extend_from_slice(&piece[..count])?;
    }
}

// A buffer for one piece.
fn make_buffer(alloc: Global) -> Result<Vec<u8>, AllocError>
    ensures { IfOk result (λ buffer. vec_len buffer ≡ PIECE) }
{
    vec![in alloc; 0u8; PIECE]
}
