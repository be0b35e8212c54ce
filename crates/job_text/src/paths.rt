// Paths of parts.
ghost use Rattle.std.specs.Prelude.{◌≡◌, ◌++◌, IfOk, OnOk, string_bytes};
ghost use Rattle.job_text.specs.Paths.{item_at, member_at, path_text};

use spin_base::{Memory, Name};
use std::alloc::Global;

/// The path of a part, as a chain of what leads to it. It takes no memory: its text is made where a fault is told.
#[derive(Clone, Copy)]
pub enum Path<'a> {
    /// The whole, under its name.
    Whole(&'a str),
    /// The member of that name of the part at a path.
    Member(&'a Path<'a>, &'a str),
    /// The item of the list at a path, counted from 0.
    Item(&'a Path<'a>, u64),
}

impl<'a> Path<'a> {
    /// The text of the path: `NAME` of the whole, `PATH.NAME` of a member, `PATH[I]` of an item.
    pub fn text(&self, alloc: Global) -> Result<Name, Memory>
        ensures { IfOk result (λ text. text ≡ path_text self.now) }
    {
        match self {
            Path::Whole(name) => whole_path(alloc, name),
            Path::Member(above, name) => member_path(alloc, above, name),
            Path::Item(above, i) => item_path(alloc, above, *i),
        }
    }
}

// The text of the path of the whole.
fn whole_path(alloc: Global, name: &str) -> Result<Name, Memory>
    ensures { IfOk result (λ text. text ≡ name.now) }
{
    let mut text = String::new(alloc);
    text.push_str(name)?;
    Ok(Name::from_string(text))
}

/// The text of the path of a member: `PATH.NAME`.
pub fn member_path(alloc: Global, path: &Path<'_>, name: &str) -> Result<Name, Memory>
    ensures { IfOk result (λ text. text ≡ member_at (path_text path.now) name.now) }
{
    let mut text = String::new(alloc);
    put_path(&mut text, path)?;
    write!(text, ".{name}")?;
    Ok(Name::from_string(text))
}

/// The text of the path of an item of a list, counted from 0: `PATH[I]`.
pub fn item_path(alloc: Global, path: &Path<'_>, i: u64) -> Result<Name, Memory>
    ensures { IfOk result (λ text. text ≡ item_at (path_text path.now) i) }
{
    let mut text = String::new(alloc);
    put_path(&mut text, path)?;
    write!(text, "[{i}]")?;
    Ok(Name::from_string(text))
}

// Puts the text of a path at the end.
fn put_path(text: &mut String, path: &Path<'_>) -> Result<(), Memory>
    ensures { OnOk result (string_bytes text.new ≡ string_bytes text.old ++ path_text path.now) }
{
    match path {
        Path::Whole(name) => {
            text.push_str(name)?;
            Ok(())
        }
        Path::Member(above, name) => {
            put_path(text, above)?;
            write!(text, ".{name}")?;
            Ok(())
        }
        Path::Item(above, i) => {
            put_path(text, above)?;
            write!(text, "[{i}]")?;
            Ok(())
        }
    }
}
