// The lines of refusals.
ghost use Rattle.std.specs.Prelude.{◌≡◌, ◌++◌, ◌∷◌, [], IfOk, OnOk, codes, decimal};
ghost use Rattle.run_report.specs.ReportText.{line};
ghost use Rattle.run_report.specs.Refusals.{fault_line as line_of_fault, line_of as line_of_refusal};

use crate::causes::Refusal;
use crate::texts::{put, put_chip_and_count, put_number};
use job_text::JobFault;
use spin_base::{Chip, Memory, Seq};
use std::alloc::Global;

/// The line where memory runs out.
pub const OUT_OF_MEMORY: &str = "out of memory\n";

/// The line that a refusal writes, ended by a line feed; nothing where writing failed.
///
/// # Errors
///
/// `Memory` where memory runs out.
pub fn line_of(alloc: Global, refusal: &Refusal) -> Result<Seq<u8>, Memory>
    ensures { IfOk result (λ line. line ≡ line_of_refusal refusal.now) }
{
    let mut text = Vec::new(alloc);
    put_refusal(&mut text, refusal)?;
    Ok(Seq::from_vec(text))
}

fn put_refusal(text: &mut Vec<u8>, refusal: &Refusal) -> Result<(), Memory>
    ensures { OnOk result (text.new.items ≡ text.old.items ++ line_of_refusal refusal.now) }
{
    match refusal {
        Refusal::Usage => put(
            text,
            "usage: run, trace, compile, tables, gen N, apps, reinject or check\n",
        ),
        Refusal::ReadFault => put(text, "read fault\n"),
        Refusal::WriteFault => Ok(()),
        Refusal::TooLong => put(text, "bad job: too long\n"),
        Refusal::NotJson => put(text, "bad job: not json\n"),
        Refusal::Job(fault) => put_fault(text, fault),
        Refusal::NoRoom(vertex) => put_about(text, "no room: ", vertex.as_str()),
        Refusal::KeysOut(net) => put_about(text, "keys out: ", net.as_str()),
        Refusal::CutOff(net, target) => put_cut_off(text, net.as_str(), *target),
        Refusal::TableLong(chip, table) => put_table_long(text, *chip, table.entries.len()),
        Refusal::Memory => put(text, OUT_OF_MEMORY),
    }
}

// The kind of the fault, its path, and the count where there are too many.
fn put_fault(text: &mut Vec<u8>, fault: &JobFault) -> Result<(), Memory>
    ensures { OnOk result (text.new.items ≡ text.old.items ++ line_of_fault fault.now) }
{
    match fault {
        JobFault::Shape(path) => put_about(text, "bad job: shape ", path.as_str()),
        JobFault::Range(path) => put_about(text, "bad job: range ", path.as_str()),
        JobFault::UnknownName(path) => put_about(text, "bad job: unknown name ", path.as_str()),
        JobFault::DoubleName(path) => put_about(text, "bad job: double name ", path.as_str()),
        JobFault::TooMany(path, count) => put_too_many(text, path.as_str(), *count),
        JobFault::Clash(path) => put_about(text, "bad job: clash ", path.as_str()),
    }
}

// What is wrong, with a space behind it, and the path or the name of what is wrong.
fn put_about(text: &mut Vec<u8>, what: &str, name: &str) -> Result<(), Memory>
    ensures { OnOk result (text.new.items
        ≡ text.old.items ++ (what.now ++ (name.now ++ 10 ∷ []))) }
{
    put(text, what)?;
    put(text, name)?;
    put(text, "\n")
}

fn put_too_many(text: &mut Vec<u8>, path: &str, count: u64) -> Result<(), Memory>
    ensures { OnOk result (text.new.items
        ≡ text.old.items ++ line (codes "bad" ∷ codes "job:" ∷ codes "too" ∷ codes "many"
        ∷ path.now ∷ decimal count ∷ [])) }
{
    put(text, "bad job: too many ")?;
    put(text, path)?;
    put(text, " ")?;
    put_number(text, count, b'\n')
}

fn put_cut_off(text: &mut Vec<u8>, net: &str, target: Chip) -> Result<(), Memory>
    ensures { OnOk result (text.new.items
        ≡ text.old.items ++ line (codes "cut" ∷ codes "off:" ∷ net.now ∷ decimal target.x
        ∷ decimal target.y ∷ [])) }
{
    put(text, "cut off: ")?;
    put(text, net)?;
    put(text, " ")?;
    put_number(text, u64::from(target.x), b' ')?;
    put_number(text, u64::from(target.y), b'\n')
}

fn put_table_long(text: &mut Vec<u8>, chip: Chip, rows: usize) -> Result<(), Memory>
    ensures { OnOk result (text.new.items
        ≡ text.old.items ++ line (codes "table" ∷ codes "long:" ∷ decimal chip.x
        ∷ decimal chip.y ∷ decimal rows ∷ [])) }
{
    put(text, "table long: ")?;
    put_chip_and_count(text, chip, rows as u64)
}
