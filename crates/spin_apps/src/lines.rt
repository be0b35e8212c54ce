// The lines of answers.
ghost use Rattle.std.specs.Prelude.{◌≡◌, ◌++◌, ◌∷◌, [], OnOk, codes, decimal, string_bytes};
ghost use Rattle.run_report.specs.ReportText.{line};
ghost use Rattle.spin_apps.specs.Lines.{load_line, net_name_at, refusal_words, run_line, unload_line, vertex_name_at};

use crate::hosts::{LoadAnswer, UnloadAnswer};
use app_graph::Graph;
use app_loads::LoadRefusal;
use spin_base::{Chip, Memory};

// Puts the line of a load at the end.
pub(crate) fn put_load(
    text: &mut String,
    number: u32,
    graph: &Graph,
    answer: LoadAnswer,
) -> Result<(), Memory>
    ensures { OnOk result (string_bytes text.new
        ≡ string_bytes text.old ++ load_line number graph.now answer) }
{
    match answer {
        LoadAnswer::Done => put_word(text, number, "ok"),
        LoadAnswer::NoRoom { vertex } => put_no_room(text, number, vertex_name(graph, vertex)),
        LoadAnswer::CutOff { net, target } => {
            put_cut_off(text, number, net_name(graph, net), target)
        }
        LoadAnswer::Refused(refusal) => put_refusal(text, number, graph, refusal),
    }
}

// Puts the line of a load that was refused at the end.
fn put_refusal(
    text: &mut String,
    number: u32,
    graph: &Graph,
    refusal: LoadRefusal,
) -> Result<(), Memory>
    ensures { OnOk result (string_bytes text.new
        ≡ string_bytes text.old
        ++ line (codes "load" ∷ decimal number ∷ refusal_words graph.now refusal)) }
{
    match refusal {
        LoadRefusal::Loaded => put_word(text, number, "loaded"),
        LoadRefusal::MemoryOut { vertex } => put_memory_out(
            text,
            number,
            vertex_name(graph, vertex),
        ),
        LoadRefusal::KeysOut { net } => put_keys_out(text, number, net_name(graph, net)),
        LoadRefusal::RowsOut { chip } => put_rows_out(text, number, chip),
    }
}

// The name of the vertex at this place.
fn vertex_name(graph: &Graph, vertex: u32) -> &str
    ensures { result.now ≡ vertex_name_at graph.now vertex }
{
    match graph.vertices.as_slice().get(vertex as usize) {
        Some(vertex) => vertex.name.as_str(),
        None => "",
    }
}

// The name of the net at this place.
fn net_name(graph: &Graph, net: u32) -> &str
    ensures { result.now ≡ net_name_at graph.now net }
{
    match graph.nets.as_slice().get(net as usize) {
        Some(net) => net.name.as_str(),
        None => "",
    }
}

fn put_word(text: &mut String, number: u32, word: &str) -> Result<(), Memory>
    ensures { OnOk result (string_bytes text.new
        ≡ string_bytes text.old ++ line (codes "load" ∷ decimal number ∷ word.now ∷ [])) }
{
    writeln!(text, "load {number} {word}")?;
    Ok(())
}

fn put_no_room(text: &mut String, number: u32, vertex: &str) -> Result<(), Memory>
    ensures { OnOk result (string_bytes text.new
        ≡ string_bytes text.old
        ++ line (codes "load" ∷ decimal number ∷ codes "no" ∷ codes "room" ∷ vertex.now ∷ [])) }
{
    writeln!(text, "load {number} no room {vertex}")?;
    Ok(())
}

fn put_cut_off(text: &mut String, number: u32, net: &str, target: Chip) -> Result<(), Memory>
    ensures { OnOk result (string_bytes text.new ≡ string_bytes text.old
        ++ line
        (codes "load" ∷ decimal number ∷ codes "cut" ∷ codes "off" ∷ net.now ∷ decimal target.x ∷
        decimal target.y ∷ [])) }
{
    let x = target.x;
    let y = target.y;
    writeln!(text, "load {number} cut off {net} {x} {y}")?;
    Ok(())
}

fn put_memory_out(text: &mut String, number: u32, vertex: &str) -> Result<(), Memory>
    ensures { OnOk result (string_bytes text.new
        ≡ string_bytes text.old
        ++ line (codes "load" ∷ decimal number ∷ codes "memory" ∷ codes "out" ∷ vertex.now ∷ [])) }
{
    writeln!(text, "load {number} memory out {vertex}")?;
    Ok(())
}

fn put_keys_out(text: &mut String, number: u32, net: &str) -> Result<(), Memory>
    ensures { OnOk result (string_bytes text.new
        ≡ string_bytes text.old
        ++ line (codes "load" ∷ decimal number ∷ codes "keys" ∷ codes "out" ∷ net.now ∷ [])) }
{
    writeln!(text, "load {number} keys out {net}")?;
    Ok(())
}

fn put_rows_out(text: &mut String, number: u32, chip: Chip) -> Result<(), Memory>
    ensures { OnOk result (string_bytes text.new ≡ string_bytes text.old
        ++ line
        (codes "load" ∷ decimal number ∷ codes "rows" ∷ codes "out" ∷ decimal chip.x ∷ decimal
        chip.y ∷ [])) }
{
    let x = chip.x;
    let y = chip.y;
    writeln!(text, "load {number} rows out {x} {y}")?;
    Ok(())
}

// Puts the line of an unload at the end.
pub(crate) fn put_unload(text: &mut String, number: u32, answer: UnloadAnswer) -> Result<(), Memory>
    ensures { OnOk result (string_bytes text.new
        ≡ string_bytes text.old ++ unload_line number answer) }
{
    match answer {
        UnloadAnswer::Got { delivered, dumped } => {
            writeln!(text, "unload {number} got {delivered} dumped {dumped}")?;
        }
        UnloadAnswer::NotLoaded => writeln!(text, "unload {number} not loaded")?,
        UnloadAnswer::Waiting { packet } => writeln!(text, "unload {number} waiting {packet}")?,
    }
    Ok(())
}

// Puts the line of a run at the end.
pub(crate) fn put_run(text: &mut String) -> Result<(), Memory>
    ensures { OnOk result (string_bytes text.new ≡ string_bytes text.old ++ run_line) }
{
    text.push_str("run\n")?;
    Ok(())
}
