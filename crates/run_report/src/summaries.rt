// The text of a generated job that was run.
ghost use Rattle.std.specs.Prelude.{◌≡◌, ◌<◌, ◌^◌, ◌++◌, ◌∷◌, [], OnOk, IfOk, decimal, length};
ghost use Rattle.machine_desc.specs.Live.{live_count_of};
ghost use Rattle.run_report.specs.ReportText.{number_line, parts_line, rows_line, counts_line, row_total, summary_text};

use crate::reports::Report;
use crate::texts::{CountedTables, put, put_number, row_total};
use app_graph::{Graph, RunPart};
use machine_desc::Machine;
use spin_base::{Memory, Seq};
use std::alloc::Global;

/// The text of a generated job that was run, four lines: `gen N` with the job's number; `chips C vertices V nets N packets P`
/// with the numbers of its live chips, vertices, nets and packets; `rows R` with the number of rows of all tables that were
/// loaded; and `delivered D dumped U` with the numbers of deliveries and dump records.
///
/// # Errors
///
/// `Memory` where memory runs out.
pub fn summary_text(
    alloc: Global,
    number: u64,
    machine: &Machine,
    graph: &Graph,
    run: &RunPart,
    report: &Report,
) -> Result<Seq<u8>, Memory>
    requires { row_total report.now.tables < 2 ^ 64 }
    ensures { IfOk result (λ text. text
        ≡ summary_text number machine.now graph.now run.now report.now) }
{
    let mut text = Vec::new(alloc);
    put_job(&mut text, number)?;
    put_parts(&mut text, machine, graph, run)?;
    let tables = report.tables.as_slice();
    let counted = CountedTables { tables };
    put_rows(&mut text, row_total(counted))?;
    put_counts(&mut text, report)?;
    Ok(Seq::from_vec(text))
}

fn put_job(text: &mut Vec<u8>, number: u64) -> Result<(), Memory>
    ensures { OnOk result (text.new.items ≡ text.old.items ++ number_line number) }
{
    put_count(text, "gen ", number, b'\n')
}

fn put_parts(
    text: &mut Vec<u8>,
    machine: &Machine,
    graph: &Graph,
    run: &RunPart,
) -> Result<(), Memory>
    ensures { OnOk result (text.new.items
        ≡ text.old.items
        ++ parts_line (live_count_of machine.now) (length graph.now.vertices)
        (length graph.now.nets) (length run.now.packets)) }
{
    put_count(text, "chips ", u64::from(machine.live_count()), b' ')?;
    put_count(text, "vertices ", graph.vertices.len() as u64, b' ')?;
    put_count(text, "nets ", graph.nets.len() as u64, b' ')?;
    put_count(text, "packets ", run.packets.len() as u64, b'\n')
}

// What is counted, how many there are, and a byte after them.
fn put_count(text: &mut Vec<u8>, what: &str, count: u64, after: u8) -> Result<(), Memory>
    ensures { OnOk result (text.new.items
        ≡ text.old.items ++ (what.now ++ (decimal count ++ after ∷ []))) }
{
    put(text, what)?;
    put_number(text, count, after)
}

fn put_rows(text: &mut Vec<u8>, rows: u64) -> Result<(), Memory>
    ensures { OnOk result (text.new.items ≡ text.old.items ++ rows_line rows) }
{
    put_count(text, "rows ", rows, b'\n')
}

fn put_counts(text: &mut Vec<u8>, report: &Report) -> Result<(), Memory>
    ensures { OnOk result (text.new.items
        ≡ text.old.items
        ++ counts_line (length report.now.delivered) (length report.now.dumped)) }
{
    put_count(text, "delivered ", report.delivered.len() as u64, b' ')?;
    put_count(text, "dumped ", report.dumped.len() as u64, b'\n')
}
