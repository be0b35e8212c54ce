// Reads the machine of a job.
ghost use Rattle.std.specs.Prelude.{map, IfOk, All};
ghost use Rattle.serde_json.specs.View.{view};
ghost use Rattle.job_text.specs.Reading.{GivesOrFaults, ◌▹◌};
ghost use Rattle.job_readers.specs.MachinePart.{machine_members_faults, machine_members, entries_faults, machine_faults, machine_value};
ghost use Rattle.job_readers.specs.Members.{list_member};
ghost use Rattle.job_readers.specs.Job.{job_own_faults};
ghost use Rattle.job_text.specs.Paths.{path_text};

use crate::entries::{chip_in, core_in, link_in};
use crate::items::{ItemReader, each_item};
use crate::members::{flag_of, long_list_of, number_of};
use job_text::{Path, TextErr, field, object};
use machine_desc::{Edge, Machine, MachineParts};
use serde_json::Value;
use spin_base::{Chip, Seq, Spot};
use std::alloc::Global;

// A grid, whose chips are read.
#[derive(Clone, Copy)]
struct Chips {
    width: u8,
    height: u8,
}

impl ItemReader for Chips {
    ghost use Rattle.std.specs.Prelude.{◌<◌};
    ghost use Rattle.job_readers.specs.Entries.{chip_faults, chip_value};

    type Item = Chip;

    ghost faults = { λ grid. chip_faults grid.width grid.height };

    ghost value = { λ _. chip_value };

    ghost Holds = { λ grid c. (c.x < grid.width) × (c.y < grid.height) };

    fn read(&self, alloc: Global, item: &Value, path: &Path<'_>) -> Result<Chip, TextErr> {
        chip_in(alloc, item, path, self.width, self.height)
    }
}

// A grid, whose cores are read.
#[derive(Clone, Copy)]
struct Cores {
    width: u8,
    height: u8,
}

impl ItemReader for Cores {
    ghost use Rattle.std.specs.Prelude.{◌<◌};
    ghost use Rattle.job_readers.specs.Entries.{core_faults, core_value};

    type Item = Spot;

    ghost faults = { λ grid. core_faults grid.width grid.height };

    ghost value = { λ _. core_value };

    ghost Holds = { λ grid s. (s.chip.x < grid.width) × (s.chip.y < grid.height) };

    fn read(&self, alloc: Global, item: &Value, path: &Path<'_>) -> Result<Spot, TextErr> {
        core_in(alloc, item, path, self.width, self.height)
    }
}

/// A grid, whose links are read: each is `[x,y,d]`, with a chip of the grid and `d` from 0 (East) anticlockwise.
#[derive(Clone, Copy)]
pub struct Links {
    pub width: u8,
    pub height: u8,
}

impl ItemReader for Links {
    ghost use Rattle.std.specs.Prelude.{◌<◌};
    ghost use Rattle.job_readers.specs.Entries.{link_faults, link_value};

    type Item = Edge;

    ghost faults = { λ grid. link_faults grid.width grid.height };

    ghost value = { λ _. link_value };

    ghost Holds = { λ grid e. (e.chip.x < grid.width) × (e.chip.y < grid.height) };

    fn read(&self, alloc: Global, item: &Value, path: &Path<'_>) -> Result<Edge, TextErr> {
        link_in(alloc, item, path, self.width, self.height)
    }
}

// The parts that a machine lists under a name.
#[tactic(auto, using(crate::proofs::Firsts::firsts), unfolding(crate::specs::MachinePart::entries_faults))]
fn listed<R: ItemReader>(
    alloc: Global,
    machine: &Value,
    path: &Path<'_>,
    name: &str,
    reader: &R,
) -> Result<Seq<R::Item>, TextErr>
    ensures read { GivesOrFaults (λ ps. ps) result (entries_faults
        (R.faults reader.now) (path_text path.now) name.now
        (view machine.now)) (map (R.value reader.now) (list_member name.now (view machine.now))) }
    ensures holds { IfOk result (λ ps. All (R.Holds reader.now) ps) }
{
    let items = long_list_of(alloc, machine, path, name, false)?;
    let path = Path::Member(path, name);
    each_item(alloc, items, &path, reader)
}

/// Bytes of shared memory of a chip (SpiNNaker datasheet).
const CHIP_MEMORY: u64 = 134217728;

#[tactic(auto, using(crate::proofs::Firsts::firsts), unfolding(crate::specs::MachinePart::machine_members_faults, crate::specs::MachinePart::machine_members))]
fn machine_members(alloc: Global, machine: &Value, path: &Path<'_>) -> Result<Machine, TextErr>
    ensures { GivesOrFaults (λ m. m) result
        (machine_members_faults (path_text path.now) (view machine.now))
        (machine_members (view machine.now)) }
{
    let width = number_of(alloc, machine, path, "width", (1, 64), None)? as u8;
    let height = number_of(alloc, machine, path, "height", (1, 64), None)? as u8;
    let wrap = flag_of(alloc, machine, path, "wrap", false)?;
    let sdram = number_of(
        alloc,
        machine,
        path,
        "sdram",
        (0, CHIP_MEMORY),
        Some(CHIP_MEMORY),
    )? as u32;
    let dead_chips = listed(alloc, machine, path, "dead_chips", &Chips { width, height })?;
    let dead_cores = listed(alloc, machine, path, "dead_cores", &Cores { width, height })?;
    let dead_links = listed(alloc, machine, path, "dead_links", &Links { width, height })?;
    let parts = MachineParts {
        width,
        height,
        wrap,
        sdram,
        dead_chips,
        dead_cores,
        dead_links,
    };
    Ok(Machine::new(alloc, parts)?)
}

/// The machine of the job at a path.
///
/// # Errors
///
/// `Fault` with the first fault of the job's own shape and of its machine; `Memory`.
#[tactic(auto, using(crate::proofs::Firsts::firsts), unfolding(crate::specs::Job::job_own_faults, crate::specs::MachinePart::machine_faults, crate::specs::MachinePart::machine_value))]
pub fn machine_of(alloc: Global, job: &Value, path: &Path<'_>) -> Result<Machine, TextErr>
    ensures { GivesOrFaults (λ m. m) result (job_own_faults (path_text path.now)
        (view job.now) ▹ machine_faults (path_text path.now)
        (view job.now)) (machine_value (view job.now)) }
{
    let found = field(alloc, job, path, "machine")?;
    let path = Path::Member(path, "machine");
    let machine = object(alloc, found, &path)?;
    machine_members(alloc, machine, &path)
}
