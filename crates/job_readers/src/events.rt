// Reads the events of a job.
ghost use Rattle.std.specs.Prelude.{◌≡◌, ◌<◌, ◌≤◌, ℕ, List, [], length, map, codes, IfOk, IfSome, All, Option, Some, option_map};
ghost use Rattle.serde_json.specs.View.{view};
ghost use Rattle.spin_base.specs.Outputs.{IsOutput};
ghost use Rattle.job_text.specs.Reading.{GivesOrFaults};
ghost use Rattle.app_graph.specs.RunPart.{IsEventOf};
ghost use Rattle.job_readers.specs.RunPart.{link_named, core_named, port_named, out_named, one_text, chip_and_text, items_in, at_vertex_faults, at_vertex, at_chip_faults, chip_of_event, word_of_event, event_word_faults, worded_event, events_faults, events_value};
ghost use Rattle.job_readers.specs.Verbs.{verb_named};
ghost use Rattle.job_text.specs.Paths.{path_text};

use crate::graph_parts::names_of_vertices;
use crate::items::{ItemReader, each_item};
use crate::members::long_list_of;
use crate::names::{Names, unknown};
use crate::valid_graphs::ValidGraph;
use job_text::{Path, TextErr, may_name, range, shape};
use serde_json::Value;
use spin_base::{Chip, Dir, Event, Out, Port, Seq};
use std::alloc::Global;

// The link that a word names.
#[tactic(auto, unfolding(crate::specs::RunPart::link_named, crate::specs::RunPart::link_words))]
fn link_named(word: &str) -> Option<Dir>
    ensures { result ≡ link_named word.now }
{
    match word.as_bytes() {
        b"E" => Some(Dir::East),
        b"NE" => Some(Dir::NorthEast),
        b"N" => Some(Dir::North),
        b"W" => Some(Dir::West),
        b"SW" => Some(Dir::SouthWest),
        b"S" => Some(Dir::South),
        _ => None,
    }
}

// The core that a word names.
#[tactic(auto, unfolding(crate::specs::RunPart::core_named, crate::specs::RunPart::core_words))]
fn core_named(word: &str) -> Option<u8>
    ensures value { result ≡ core_named word.now }
    ensures core { IfSome result (λ p. p < 18) }
{
    match word.as_bytes() {
        [b'c', one @ b'0'..=b'9'] => Some(one - b'0'),
        [b'c', b'1', one @ b'0'..=b'7'] => Some(one - b'0' + 10),
        _ => None,
    }
}

#[tactic(auto, unfolding(crate::specs::RunPart::port_named))]
fn port_named(word: &str) -> Option<Port>
    ensures { result ≡ port_named word.now }
{
    if let b"L" = word.as_bytes() {
        return Some(Port::Local);
    }
    match link_named(word) {
        Some(link) => Some(Port::Link(link)),
        None => None,
    }
}

#[tactic(auto, unfolding(crate::specs::RunPart::out_named))]
fn out_named(word: &str) -> Option<Out>
    ensures value { result ≡ out_named word.now }
    ensures output { IfSome result IsOutput }
{
    if let Some(link) = link_named(word) {
        return Some(Out::Link(link));
    }
    match core_named(word) {
        Some(core) => Some(Out::Core(core)),
        None => None,
    }
}

// The vertex of an event, by its name.
#[tactic(auto, using(crate::proofs::Firsts::firsts, crate::proofs::PlaceSteps::bounds), unfolding(crate::specs::RunPart::at_vertex_faults, crate::specs::RunPart::at_vertex))]
fn vertex_of(
    alloc: Global,
    rest: &[Value],
    path: &Path<'_>,
    vertices: &Names,
) -> Result<u32, TextErr>
    ensures read { GivesOrFaults (λ v. v) result
        (at_vertex_faults vertices.now (path_text path.now) (map view rest.now))
        (at_vertex vertices.now (map view rest.now)) }
    ensures below { IfOk result (λ v. v < length vertices.now) }
{
    let Some(said) = one_text(rest) else {
        return Err(shape(alloc, path));
    };
    if !may_name(said) {
        return Err(range(alloc, path));
    }
    match vertices.place(said) {
        Some(v) => Ok(v),
        None => Err(unknown(alloc, path)),
    }
}

// Exactly one text.
fn one_text<'a>(rest: &'a [Value]) -> Option<&'a str>
    ensures { option_map (λ s. s.now) result ≡ one_text (map view rest.now) }
{
    match rest {
        [said] => said.as_str(),
        _ => None,
    }
}

// Exactly two whole numbers and a text.
fn chip_and_text<'a>(rest: &'a [Value]) -> Option<(u64, u64, &'a str)>
    ensures { option_map (λ t. (t.0, t.1, t.2.now)) result ≡ chip_and_text (map view rest.now) }
{
    match rest {
        [x, y, word] => {
            match (x.as_u64(), y.as_u64(), word.as_str()) {
                (Some(x), Some(y), Some(word)) => Some((x, y, word)),
                _ => None,
            }
        }
        _ => None,
    }
}

// What a word of an event may name: which it is, and what holds of each that a word names.
trait EventWord: Copy {
    ghost named: { List ℕ → Option Self };

    ghost IsRight: { Self → Type 0 };

    // What a word names.
    fn of_word(word: &str) -> Option<Self>
        ensures value { result ≡ named word.now }
        ensures right { IfSome result IsRight };
}

impl EventWord for Port {
    ghost use Rattle.std.specs.Prelude.{⊤};
    ghost use Rattle.job_readers.specs.RunPart.{port_named};

    ghost named = { port_named };

    ghost IsRight = { λ _. ⊤ };

    fn of_word(word: &str) -> Option<Port> {
        port_named(word)
    }
}

impl EventWord for Out {
    ghost use Rattle.spin_base.specs.Outputs.{IsOutput};
    ghost use Rattle.job_readers.specs.RunPart.{out_named};

    ghost named = { out_named };

    ghost IsRight = { IsOutput };

    fn of_word(word: &str) -> Option<Out> {
        out_named(word)
    }
}

// The chip of an event, and what its word names.
#[tactic(auto, unfolding(crate::specs::RunPart::at_chip_faults, crate::specs::RunPart::chip_of_event))]
fn chip_and_named<W: EventWord>(
    alloc: Global,
    rest: &[Value],
    path: &Path<'_>,
) -> Result<(Chip, W), TextErr>
    ensures chip { GivesOrFaults (λ t. t.0) result
        (at_chip_faults W.named (path_text path.now) (map view rest.now))
        (chip_of_event (map view rest.now)) }
    ensures named { IfOk result
        (λ t. W.named (word_of_event (map view rest.now)) ≡ Some t.1) }
    ensures right { IfOk result (λ t. W.IsRight t.1) }
{
    let Some((x, y, word)) = chip_and_text(rest) else {
        return Err(shape(alloc, path));
    };
    if x > 63 {
        return Err(range(alloc, path));
    }
    if y > 63 {
        return Err(range(alloc, path));
    }
    let Some(named) = W::of_word(word) else {
        return Err(range(alloc, path));
    };
    let chip = Chip {
        x: x as u8,
        y: y as u8,
    };
    Ok((chip, named))
}

// What an event does.
#[derive(Clone, Copy)]
enum Verb {
    Inject,
    Take,
    Send,
    Dump,
    Collect,
}

// What an event does that begins with a word. The words of events at a chip come first, since most events are.
#[tactic(auto, unfolding(crate::specs::Verbs::verb_named))]
fn verb_named(word: &str) -> Option<Verb>
    ensures { result ≡ verb_named word.now }
{
    match word.as_bytes() {
        b"take" => Some(Verb::Take),
        b"send" => Some(Verb::Send),
        b"dump" => Some(Verb::Dump),
        _ => {
            match word {
                "inject" => Some(Verb::Inject),
                "collect" => Some(Verb::Collect),
                _ => None,
            }
        }
    }
}

// The event that begins with a word.
#[tactic(auto, unfolding(crate::specs::RunPart::event_word_faults, crate::specs::RunPart::worded_event, crate::specs::RunPart::port_of_event, crate::specs::RunPart::out_of_event))]
fn worded(
    alloc: Global,
    word: &str,
    rest: &[Value],
    path: &Path<'_>,
    vertices: &Names,
) -> Result<Event, TextErr>
    ensures read { GivesOrFaults (λ e. e) result
        (event_word_faults vertices.now (path_text path.now) word.now
        (map view rest.now)) (worded_event vertices.now word.now (map view rest.now)) }
    ensures valid { IfOk result (IsEventOf (length vertices.now)) }
{
    match verb_named(word) {
        Some(Verb::Inject) => Ok(Event::Inject(vertex_of(alloc, rest, path, vertices)?)),
        Some(Verb::Take) => {
            let (chip, port) = chip_and_named(alloc, rest, path)?;
            Ok(Event::Take(chip, port))
        }
        Some(Verb::Send) => {
            let (chip, out) = chip_and_named(alloc, rest, path)?;
            Ok(Event::Send(chip, out))
        }
        Some(Verb::Dump) => {
            let (chip, out) = chip_and_named(alloc, rest, path)?;
            Ok(Event::Dump(chip, out))
        }
        Some(Verb::Collect) => Ok(Event::Collect(vertex_of(alloc, rest, path, vertices)?)),
        None => Err(range(alloc, path)),
    }
}

/// The items of a value that is a list, and none of any other.
pub fn items_in<'a>(item: &'a Value) -> &'a [Value]
    ensures { map view result.now ≡ items_in (view item.now) }
{
    match item.as_array() {
        Some(items) => items.as_slice(),
        None => &[],
    }
}

// The vertices, by whose names events are read.
#[derive(Clone, Copy)]
struct Listed<'a, 'b> {
    vertices: &'a Names<'b>,
}

impl<'a, 'b> ItemReader for Listed<'a, 'b> {
    ghost use Rattle.std.specs.Prelude.{length};
    ghost use Rattle.app_graph.specs.RunPart.{IsEventOf};
    ghost use Rattle.job_readers.specs.RunPart.{event_faults, event_value};

    type Item = Event;

    ghost faults = { λ among. event_faults among.vertices.now };

    ghost value = { λ among. event_value among.vertices.now };

    ghost Holds = { λ among. IsEventOf (length among.vertices.now) };

    #[tactic(auto, unfolding(crate::specs::RunPart::event_faults, crate::specs::RunPart::event_value))]
    fn read(&self, alloc: Global, item: &Value, path: &Path<'_>) -> Result<Event, TextErr> {
        let [head, rest @ ..] = items_in(item) else {
            return Err(shape(alloc, path));
        };
        let Some(word) = head.as_str() else {
            return Err(shape(alloc, path));
        };
        worded(alloc, word, rest, path, self.vertices)
    }
}

// The events of a run part.
#[tactic(auto, using(crate::proofs::Firsts::firsts), unfolding(crate::specs::RunPart::events_faults, crate::specs::RunPart::events_value, crate::specs::GraphPart::vertex_names_of))]
pub(crate) fn events(
    alloc: Global,
    run: &Value,
    path: &Path<'_>,
    valid: &ValidGraph<'_>,
) -> Result<Seq<Event>, TextErr>
    ensures read { GivesOrFaults (λ e. e) result
        (events_faults valid.now.graph.now.vertices (path_text path.now)
        (view run.now))
        (events_value valid.now.graph.now.vertices (view run.now)) }
    ensures valid { IfOk result (λ es. All (IsEventOf (length valid.now.graph.now.vertices)) es) }
{
    let items = long_list_of(alloc, run, path, "events", false)?;
    // The names of vertices are for events alone.
    if items.is_empty() {
        return Ok(Seq::new(alloc));
    }
    let path = Path::Member(path, "events");
    let names = names_of_vertices(alloc, valid.graph.vertices.as_slice())?;
    let listed = Listed { vertices: &names };
    each_item(alloc, items, &path, &listed)
}
