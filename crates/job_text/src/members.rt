// Looks into a JSON value. A null member counts as absent.
ghost use Rattle.std.specs.Prelude.{◌≡◌, option_map};
ghost use Rattle.serde_json.specs.View.{view};
ghost use Rattle.job_text.specs.Members.{member_of};

use serde_json::Value;

/// The member of that name. `None` exactly where the value has no such member, or it is null.
pub fn member<'a>(value: &'a Value, name: &str) -> Option<&'a Value>
    ensures { option_map (λ v. view v.now) result ≡ member_of name.now (view value.now) }
{
    match value.get(name) {
        Some(found) => { if found.is_null() { None } else { Some(found) } }
        None => None,
    }
}
