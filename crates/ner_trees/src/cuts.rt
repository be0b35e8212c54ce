// Walks from a tree to a target, and what of them is added.
ghost use Rattle.std.specs.Prelude.{◌≡◌, IfOk, OnOk, All};
ghost use Rattle.machine_desc.specs.Live.{IsInside};
ghost use Rattle.ner_trees.specs.Growth.{next_of};
ghost use Rattle.ner_trees.specs.Search.{IsCutAt, IsMarkedBy};

use crate::marks::{MarkedChip, Marks};
use machine_desc::{Edge, Machine};
use spin_base::{Chip, Dir, Memory};

// The chip where a step leads, and the same chip where the link leads nowhere.
fn next(machine: &Machine, at: Chip, dir: Dir) -> Chip
    requires { IsInside machine.now at }
    ensures value { result ≡ next_of machine.now at dir }
    ensures inside { IsInside machine.now result }
{
    match machine.far(at, dir) {
        Some(chip) => chip,
        None => at,
    }
}

// The part of a walk from a chip of the tree after the last of its chips that is in the tree: its links are put in place of those of
// a list, and the chip where it starts is the result.
pub(crate) fn new_branch(
    near: MarkedChip<'_, '_>,
    walk: &[Dir],
    links: &mut Vec<Edge>,
) -> Result<Chip, Memory>
    ensures { IfOk result (λ start. IsCutAt near.entry.on.now.machine.now
        near.entry.on.now.items.items near.entry.chip walk.now start links.new.items) }
{
    let on = near.on;
    let machine = on.machine();
    let mut at = near.chip;
    let mut start = near.chip;
    links.clear();
    for dir in walk {
        links.push(Edge {
            chip: at,
            dir: *dir,
        })?;
        at = next(machine, at, *dir);
        if on.at(at) {
            start = at;
            links.clear();
        }
    }
    Ok(start)
}

// Notes in the table the chips where links lead.
pub(crate) fn mark(on: &mut Marks, links: &[Edge]) -> Result<(), Memory>
    requires { All (λ e. IsInside on.old.machine.now e.chip) links.now }
    ensures machine { on.new.machine.now ≡ on.old.machine.now }
    ensures marked { OnOk result (IsMarkedBy on.old.machine.now on.old.items.items
        on.new.items.items links.now) }
{
    let machine = on.machine();
    for link in links {
        if let Some(chip) = machine.far(link.chip, link.dir) {
            on.set(chip)?;
        }
    }
    Ok(())
}
