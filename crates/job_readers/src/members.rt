// Reads members of an object. Each has the path of the object, then its own name.
ghost use Rattle.std.specs.Prelude.{◌≡◌, ◌≤◌, length, map, option_map, IfOk, IfSome};
ghost use Rattle.serde_json.specs.View.{view};
ghost use Rattle.job_text.specs.Reading.{GivesOrFaults};
ghost use Rattle.job_readers.specs.Members.{number_member_faults, number_member, flag_member_faults, flag_member, list_member_faults, long_list_member_faults, list_member, member_since};
ghost use Rattle.job_text.specs.Paths.{path_text};

use job_text::{Path, TextErr, count_to, flag, list, member, number_in};
use serde_json::Value;
use std::alloc::Global;

// The member of that name, which is read from version `since` on.
#[tactic(auto, unfolding(crate::specs::Members::member_since))]
pub(crate) fn member_from<'a>(
    object: &'a Value,
    name: &str,
    since: u32,
    version: u32,
) -> Option<&'a Value>
    ensures { option_map (λ v. view v.now) result ≡ member_since since name.now version
        (view object.now) }
{
    if version < since {
        return None;
    }
    member(object, name)
}

// A number within bounds, which are the least and the greatest.
#[tactic(auto, unfolding(crate::specs::Members::number_member_faults, crate::specs::Members::number_member))]
pub(crate) fn number_of(
    alloc: Global,
    object: &Value,
    path: &Path<'_>,
    name: &str,
    bounds: (u64, u64),
    default: Option<u64>,
) -> Result<u64, TextErr>
    ensures read { GivesOrFaults (λ n. n) result
        (number_member_faults (path_text path.now) name.now bounds.0 bounds.1 default
        (view object.now))
        (number_member name.now default (view object.now)) }
    ensures within { IfOk result (λ n. IfSome default (λ d. (bounds.0 ≤ d) × (d ≤ bounds.1))
        → (bounds.0 ≤ n) × (n ≤ bounds.1)) }
{
    let path = Path::Member(path, name);
    number_in(
        alloc,
        member(object, name),
        &path,
        bounds.0,
        bounds.1,
        default,
    )
}

// A truth value.
#[tactic(auto, unfolding(crate::specs::Members::flag_member_faults, crate::specs::Members::flag_member))]
pub(crate) fn flag_of(
    alloc: Global,
    object: &Value,
    path: &Path<'_>,
    name: &str,
    default: bool,
) -> Result<bool, TextErr>
    ensures { GivesOrFaults (λ b. b) result
        (flag_member_faults (path_text path.now) name.now (view object.now))
        (flag_member name.now default (view object.now)) }
{
    let path = Path::Member(path, name);
    flag(alloc, member(object, name), &path, default)
}

// A list of at most `limit` items, whose path is given.
#[tactic(auto, using(crate::proofs::Firsts::firsts), unfolding(crate::specs::Members::list_member_faults, crate::specs::Members::list_member))]
pub(crate) fn list_of<'a>(
    alloc: Global,
    object: &'a Value,
    path: &Path<'_>,
    name: &str,
    needed: bool,
    limit: u64,
) -> Result<&'a [Value], TextErr>
    ensures read { GivesOrFaults (λ items. map view items.now) result
        (list_member_faults (path_text path.now) name.now needed limit (view object.now))
        (list_member name.now (view object.now)) }
    ensures within { IfOk result (λ items. length items.now ≤ limit) }
{
    let path = Path::Member(path, name);
    let items = list(alloc, member(object, name), &path, needed)?;
    count_to(alloc, &path, limit, items.len() as u64)?;
    Ok(items)
}

// A list of any number of items.
#[tactic(auto, unfolding(crate::specs::Members::long_list_member_faults, crate::specs::Members::list_member))]
pub(crate) fn long_list_of<'a>(
    alloc: Global,
    object: &'a Value,
    path: &Path<'_>,
    name: &str,
    needed: bool,
) -> Result<&'a [Value], TextErr>
    ensures { GivesOrFaults (λ items. map view items.now) result
        (long_list_member_faults (path_text path.now) name.now needed (view object.now))
        (list_member name.now (view object.now)) }
{
    let path = Path::Member(path, name);
    list(alloc, member(object, name), &path, needed)
}
