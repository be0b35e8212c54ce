// The lines that tell what is found.
ghost use Rattle.std.specs.Prelude.{◌≡◌, ◌++◌, IfOk, OnOk, string_bytes};
ghost use Rattle.run_report.specs.ReportText.{word};
ghost use Rattle.spin_checks.specs.Findings.{name_at, finding_line, bad_tree_line, bad_image_line, wrong_line, split_line};

use crate::findings::Finding;
use app_graph::Net;
use plan_check::Verdict;
use spin_base::{Chip, Memory, Seq};
use std::alloc::Global;

// The line that tells a finding, ended by a line feed.
pub(crate) fn line_of(alloc: Global, nets: &Seq<Net>, finding: Finding) -> Result<Seq<u8>, Memory>
    ensures { IfOk result (λ text. text ≡ finding_line nets.now finding) }
{
    match finding {
        Finding::BadTree { net } => bad_tree_line(alloc, name_at(nets, net)),
        Finding::BadImage { at } => bad_image_line(alloc, at),
        Finding::OtherMachine => fixed(alloc, "other machine\n"),
        Finding::Judged(Verdict::Right) => fixed(alloc, "right\n"),
        Finding::Judged(Verdict::Wrong { net, chip, key }) => {
            wrong_line(alloc, name_at(nets, net), chip, key)
        }
        Finding::Judged(Verdict::Split { net, chip, row }) => {
            split_line(alloc, name_at(nets, net), chip, row)
        }
    }
}

// The name of the net at this place, and no letter where there is no such net.
pub(crate) fn name_at(nets: &Seq<Net>, net: u32) -> &str
    ensures { result.now ≡ name_at nets.now net }
{
    match nets.as_slice().get(net as usize) {
        Some(net) => net.name.as_str(),
        None => "",
    }
}

fn fixed(alloc: Global, text: &str) -> Result<Seq<u8>, Memory>
    ensures { IfOk result (λ line. line ≡ text.now) }
{
    Ok(Seq::from_vec(Vec::from_slice(alloc, text.as_bytes())?))
}

fn bad_tree_line(alloc: Global, name: &str) -> Result<Seq<u8>, Memory>
    ensures { IfOk result (λ text. text ≡ bad_tree_line name.now) }
{
    let mut text = String::new(alloc);
    writeln!(text, "bad tree {name}")?;
    Ok(Seq::from_vec(text.into_bytes()))
}

fn bad_image_line(alloc: Global, at: u64) -> Result<Seq<u8>, Memory>
    ensures { IfOk result (λ text. text ≡ bad_image_line at) }
{
    let mut text = String::new(alloc);
    writeln!(text, "bad image {at}")?;
    Ok(Seq::from_vec(text.into_bytes()))
}

fn wrong_line(alloc: Global, name: &str, chip: Chip, key: u32) -> Result<Seq<u8>, Memory>
    ensures { IfOk result (λ text. text ≡ wrong_line name.now chip key) }
{
    let x = chip.x;
    let y = chip.y;
    let mut text = String::new(alloc);
    write!(text, "wrong {name} {x} {y} ")?;
    put_word(&mut text, key)?;
    text.push_str("\n")?;
    Ok(Seq::from_vec(text.into_bytes()))
}

// Puts eight hexadecimal digits at the end.
fn put_word(text: &mut String, number: u32) -> Result<(), Memory>
    ensures { OnOk result (string_bytes text.new ≡ string_bytes text.old ++ word number) }
{
    write!(text, "{number:08x}")?;
    Ok(())
}

fn split_line(alloc: Global, name: &str, chip: Chip, row: u32) -> Result<Seq<u8>, Memory>
    ensures { IfOk result (λ text. text ≡ split_line name.now chip row) }
{
    let x = chip.x;
    let y = chip.y;
    let mut text = String::new(alloc);
    writeln!(text, "split {name} {x} {y} {row}")?;
    Ok(Seq::from_vec(text.into_bytes()))
}
