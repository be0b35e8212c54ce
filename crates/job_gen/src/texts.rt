// The text of a generated job.
ghost use Rattle.std.specs.Prelude.{◌≡◌, ◌≤◌, length, Some, IfOk};
ghost use Rattle.job_text.specs.Json.{json_of};
ghost use Rattle.job_gen.specs.Values.{gen_value, gen_text_of};

use crate::draws::draw_job;
use crate::values::job_value;
use spin_base::{Memory, Seq};
use std::alloc::Global;

/// The text of the job of a number: JSON without spaces and without a line feed, whose members stand in the order of their
/// names.
///
/// # Errors
///
/// `Memory` where memory runs out.
pub fn gen_text(alloc: Global, n: u64) -> Result<Seq<u8>, Memory>
    ensures text { IfOk result (λ bytes. bytes ≡ gen_text_of n) }
    ensures few { IfOk result (λ bytes. length bytes ≤ 16777216) }
    ensures reads_back { IfOk result (λ bytes. json_of bytes ≡ Some (gen_value n)) }
{
    let job = draw_job(alloc, n)?;
    let value = job_value(alloc, &job)?;
    let bytes = value.to_vec(alloc)?;
    Ok(Seq::from_vec(bytes))
}
