// Bytes to a JSON value.
ghost use Rattle.std.specs.Prelude.{◌≡◌, Some, None, Ok, Err, IfOk};
ghost use Rattle.serde_json.specs.View.{view};
ghost use Rattle.job_text.specs.Json.{json_of};

use serde_json::Value;
use std::alloc::Global;

/// Why bytes gave no value.
#[derive(Clone, Copy)]
pub enum ParseErr {
    /// The bytes are no JSON: not UTF-8, not by the grammar, or nested more than 127 deep.
    NotJson,
    /// There was not enough memory.
    Memory,
}

/// The value that `serde_json` reads from the bytes.
///
/// # Errors
///
/// `NotJson` only where the bytes are no JSON text; `Memory` where memory runs out.
pub fn parse(alloc: Global, bytes: &[u8]) -> Result<Value, ParseErr>
    ensures value { IfOk result (λ v. json_of bytes.now ≡ Some (view v)) }
    ensures not_json { result ≡ Err ParseErr.NotJson → json_of bytes.now ≡ None }
{
    let Ok(text) = simdutf8::compat::from_utf8(bytes) else {
        return Err(ParseErr::NotJson);
    };
    match Value::from_str(alloc, text) {
        Ok(value) => Ok(value),
        Err(error) => {
            if error.is_memory() {
                return Err(ParseErr::Memory);
            }
            Err(ParseErr::NotJson)
        }
    }
}
