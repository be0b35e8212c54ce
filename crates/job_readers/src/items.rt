// Reads the items of lists.
ghost use Rattle.std.specs.Prelude.{◌≡◌, ℕ, List, length, map, IfOk, All};
ghost use Rattle.serde_json.specs.View.{view};
ghost use Rattle.serde_json.specs.Data.{Data};
ghost use Rattle.job_text.specs.declared.faults.JobFault.{JobFault};
ghost use Rattle.job_text.specs.Reading.{GivesOrFaults};
ghost use Rattle.job_readers.specs.Items.{items_faults};
ghost use Rattle.job_text.specs.Paths.{path_text};

use job_text::{Path, TextErr};
use serde_json::Value;
use spin_base::Seq;
use std::alloc::Global;

/// What reads items of one kind: the faults of an item at a path, what the item is, and what holds of each that is read.
pub trait ItemReader {
    type Item: Drop;

    ghost faults: { Self → List ℕ → Data → List JobFault };

    ghost value: { Self → Data → Self.Item };

    ghost Holds: { Self → Self.Item → Type 0 };

    /// What an item is, which stands at a path.
    fn read(&self, alloc: Global, item: &Value, path: &Path<'_>) -> Result<Self::Item, TextErr>
        ensures read { GivesOrFaults (λ x. x) result
            (faults self.now (path_text path.now) (view item.now))
            (value self.now (view item.now)) }
        ensures holds { IfOk result (Holds self.now) };
}

/// What the items of a list are, which stands at a path.
///
/// # Errors
///
/// `Fault` with the first fault of the first item that has one; `Memory`.
pub fn each_item<R: ItemReader>(
    alloc: Global,
    items: &[Value],
    path: &Path<'_>,
    reader: &R,
) -> Result<Seq<R::Item>, TextErr>
    ensures read { GivesOrFaults (λ xs. xs) result
        (items_faults (R.faults reader.now) (path_text path.now) 0
        (map view items.now)) (map (R.value reader.now) (map view items.now)) }
    ensures holds { IfOk result (λ xs. All (R.Holds reader.now) xs) }
    ensures count { IfOk result (λ xs. length xs ≡ length items.now) }
{
    let mut found = Seq::new(alloc);
    for (i, item) in items.iter().enumerate() {
        let path = Path::Item(&*path, i as u64);
        let next = reader.read(alloc, item, &path)?;
        found.push(next)?;
    }
    Ok(found)
}
