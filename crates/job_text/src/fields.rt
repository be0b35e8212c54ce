// Reads single fields. A field that is absent is `None`.
ghost use Rattle.std.specs.Prelude.{◌≡◌, ◌≤◌, map, option_map, IfOk, IfSome};
ghost use Rattle.std.specs.List.{list_all};
ghost use Rattle.serde_json.specs.View.{view};
ghost use Rattle.job_text.specs.Members.{member_of};
ghost use Rattle.job_text.specs.Reading.{GivesOrFaults, IsFirstFault};
ghost use Rattle.job_text.specs.Fields.{object_faults, object_value, number_faults, number_value, text_faults, text_value, flag_faults, flag_value, list_faults, list_value, count_faults, is_name, is_printable_byte};
ghost use Rattle.std.specs.Prelude.{[], ◌∷◌, Ok, Err};
ghost use Rattle.job_text.specs.declared.faults.JobFault.TheVariants.{Shape, Range};
ghost use Rattle.job_text.specs.Paths.{path_text};

use crate::faults::{JobFault, TextErr};
use crate::members::member;
use crate::paths::Path;
use serde_json::Value;
use spin_base::Name;
use std::alloc::Global;

/// The error of a part with a Shape fault: that fault, or want of memory.
pub fn shape(alloc: Global, path: &Path<'_>) -> TextErr
    ensures { IsFirstFault result (Shape (path_text path.now) ∷ []) }
{
    match path.text(alloc) {
        Ok(path) => TextErr::Fault(JobFault::Shape(path)),
        Err(_) => TextErr::Memory,
    }
}

/// The error of a part with a Range fault: that fault, or want of memory.
pub fn range(alloc: Global, path: &Path<'_>) -> TextErr
    ensures { IsFirstFault result (Range (path_text path.now) ∷ []) }
{
    match path.text(alloc) {
        Ok(path) => TextErr::Fault(JobFault::Range(path)),
        Err(_) => TextErr::Memory,
    }
}

/// The object that must stand at a path.
///
/// # Errors
///
/// `Shape` of the path exactly where it is absent or no object; `Memory`.
pub fn object<'a>(
    alloc: Global,
    v: Option<&'a Value>,
    path: &Path<'_>,
) -> Result<&'a Value, TextErr>
    ensures { GivesOrFaults (λ d. view d.now) result
        (object_faults (path_text path.now) (option_map (λ d.
        view d.now) v.entry)) (object_value (option_map (λ d. view d.now) v.entry)) }
{
    match v {
        Some(found) => {
            if found.is_object() {
                Ok(found)
            } else {
                Err(shape(alloc, path))
            }
        }
        None => Err(shape(alloc, path)),
    }
}

/// The member of that name of the object at a path. `None` exactly where it is absent or null.
///
/// # Errors
///
/// `Shape` of the object's path exactly where it is no object; `Memory`.
pub fn field<'a>(
    alloc: Global,
    v: &'a Value,
    path: &Path<'_>,
    name: &str,
) -> Result<Option<&'a Value>, TextErr>
    ensures { GivesOrFaults (option_map (λ d. view d.now)) result
        (object_faults (path_text path.now) (Some
        (view v.now))) (member_of name.now (view v.now)) }
{
    if !v.is_object() {
        return Err(shape(alloc, path));
    }
    Ok(member(v, name))
}

/// The whole number at a path. Absent gives the default.
///
/// # Errors
///
/// `Shape` exactly where it is absent without default, or no whole number; `Range` exactly where it is a whole number
/// below `low` or above `high`; `Memory`.
pub fn number_in(
    alloc: Global,
    v: Option<&Value>,
    path: &Path<'_>,
    low: u64,
    high: u64,
    default: Option<u64>,
) -> Result<u64, TextErr>
    ensures number { GivesOrFaults (λ n. n) result
        (number_faults (path_text path.now) low high default
        (option_map (λ d. view d.now) v.entry)) (number_value default (option_map (λ d.
        view d.now) v.entry)) }
    ensures within { IfOk result (λ n. IfSome default (λ d. (low ≤ d) × (d ≤ high))
        → (low ≤ n) × (n ≤ high)) }
{
    let Some(found) = v else {
        return match default {
            Some(n) => Ok(n),
            None => Err(shape(alloc, path)),
        };
    };
    let Some(n) = found.as_u64() else {
        return Err(shape(alloc, path));
    };
    if n < low || n > high {
        return Err(range(alloc, path));
    }
    Ok(n)
}

/// Whether a text is a name: 1 to 64 bytes, each from 21 to 7e hexadecimal.
pub fn may_name(text: &str) -> bool
    ensures { result ≡ is_name text.now }
{
    !text.is_empty() && text.len() <= 64 && is_printable(text.as_bytes())
}

// Whether each byte is printable ASCII and no blank.
fn is_printable(bytes: &[u8]) -> bool
    ensures { result ≡ list_all is_printable_byte bytes.now }
{
    // No way out at the first that is not, so that many bytes are compared at once.
    let mut printable = true;
    for byte in bytes {
        printable &= 0x21 <= *byte && *byte <= 0x7e;
    }
    printable
}

/// The name at a path, as it stands in the value.
///
/// # Errors
///
/// `Shape` exactly where it is absent or no text; `Range` exactly where it is a text and no name; `Memory`.
pub fn text_in<'a>(alloc: Global, v: Option<&'a Value>, path: &Path<'_>) -> Result<&'a str, TextErr>
    ensures { GivesOrFaults (λ s. s.now) result (text_faults (path_text path.now) (option_map (λ d.
        view d.now) v.entry)) (text_value (option_map (λ d. view d.now) v.entry)) }
{
    let Some(found) = v else {
        return Err(shape(alloc, path));
    };
    let Some(said) = found.as_str() else {
        return Err(shape(alloc, path));
    };
    if !may_name(said) {
        return Err(range(alloc, path));
    }
    Ok(said)
}

/// The name at a path.
///
/// # Errors
///
/// Those of `text_in`.
pub fn text(alloc: Global, v: Option<&Value>, path: &Path<'_>) -> Result<Name, TextErr>
    ensures { GivesOrFaults (λ s. s) result (text_faults (path_text path.now) (option_map (λ d.
        view d.now) v.entry)) (text_value (option_map (λ d. view d.now) v.entry)) }
{
    let said = text_in(alloc, v, path)?;
    Ok(Name::of(alloc, said)?)
}

/// The truth value at a path. Absent gives the default.
///
/// # Errors
///
/// `Shape` exactly where it is present and no truth value; `Memory`.
pub fn flag(
    alloc: Global,
    v: Option<&Value>,
    path: &Path<'_>,
    default: bool,
) -> Result<bool, TextErr>
    ensures { GivesOrFaults (λ b. b) result (flag_faults (path_text path.now) (option_map (λ d.
        view d.now) v.entry)) (flag_value default (option_map (λ d. view d.now) v.entry)) }
{
    let Some(found) = v else {
        return Ok(default);
    };
    match found.as_bool() {
        Some(said) => Ok(said),
        None => Err(shape(alloc, path)),
    }
}

/// The list at a path. Absent gives the empty list where it is not needed.
///
/// # Errors
///
/// `Shape` exactly where it is no list, or absent and needed; `Memory`.
pub fn list<'a>(
    alloc: Global,
    v: Option<&'a Value>,
    path: &Path<'_>,
    needed: bool,
) -> Result<&'a [Value], TextErr>
    ensures { GivesOrFaults (λ items. map view items.now) result
        (list_faults (path_text path.now) needed
        (option_map (λ d. view d.now) v.entry)) (list_value (option_map (λ d.
        view d.now) v.entry)) }
{
    let Some(found) = v else {
        if needed {
            return Err(shape(alloc, path));
        }
        return Ok(&[]);
    };
    match found.as_array() {
        Some(items) => Ok(items.as_slice()),
        None => Err(shape(alloc, path)),
    }
}

/// Tests the number of items of a list.
///
/// # Errors
///
/// `TooMany` with the number exactly where it is above `limit`; `Memory`.
pub fn count_to(alloc: Global, path: &Path<'_>, limit: u64, count: u64) -> Result<(), TextErr>
    ensures faults { GivesOrFaults (λ u. u) result
        (count_faults (path_text path.now) limit count) tt }
    ensures within { IfOk result (λ _. count ≤ limit) }
{
    if count > limit {
        let path = path.text(alloc)?;
        return Err(TextErr::Fault(JobFault::TooMany(path, count)));
    }
    Ok(())
}
