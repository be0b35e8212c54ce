// The program's own call, from bytes to bytes: under gates that its workers enter, and over ends whose calls fail.
ghost use Rattle.std.specs.Prelude.{◌<◌};

use crate::gates::{Greatest, InOrder};
use spin_base::{FreeGate, Gate, MemSink, MemSource, Room, Seq};
use spin_top::spin;
use std::alloc::Global;
use std::mem;
use std::sync::Wait;
use std::thread::Threads;

/// A net from a vertex on the first of two chips to one on the second, three packets, queues of one copy, no patience, and two
/// workers of four turns.
pub const THREE_PACKETS: &str =
    "{\"version\":1,\"machine\":{\"width\":2,\"height\":1},\"graph\":{\"vertices\":[{\"name\":\"a\",\"at\":[0,0]},{\"name\":\"b\",\"at\":[1,0]}],\"nets\":[{\"name\":\"n\",\"source\":\"a\",\"targets\":[\"b\"]}]},\"run\":{\"packets\":[{\"net\":\"n\",\"index\":0},{\"net\":\"n\",\"index\":0},{\"net\":\"n\",\"index\":0}],\"queue\":1,\"patience\":1,\"workers\":2,\"turns\":4}}";

/// What `run` writes of them where the second chip's turns come after the first chip's.
const ONE_ARRIVES: &str =
    "place a 0 0 1\nplace b 1 0 1\nkeys n 00000000 ffffffff\ntable 0 0 1\n00000000 ffffffff 000001\ntable 1 0 1\n00000000 ffffffff 000080\ngot b 0 00000000 -\ndump 0 0 E 1\ndump 0 0 E 2\nend delivered 1 dumped 2 waiting 0 unsent 0\n";

/// What it writes where they come between.
const ALL_ARRIVE: &str =
    "place a 0 0 1\nplace b 1 0 1\nkeys n 00000000 ffffffff\ntable 0 0 1\n00000000 ffffffff 000001\ntable 1 0 1\n00000000 ffffffff 000080\ngot b 0 00000000 -\ngot b 1 00000000 -\ngot b 2 00000000 -\nend delivered 3 dumped 0 waiting 0 unsent 0\n";

/// Two vertices on a chip, and a packet: 188 bytes.
const ONE_CHIP: &str =
    "{\"version\":1,\"machine\":{\"width\":1,\"height\":1},\"graph\":{\"vertices\":[{\"name\":\"a\"},{\"name\":\"b\"}],\"nets\":[{\"name\":\"n\",\"source\":\"a\",\"targets\":[\"b\"]}]},\"run\":{\"packets\":[{\"net\":\"n\",\"index\":0}]}}";

/// What `run` writes of it: 153 bytes.
const ONE_CHIP_TEXT: &str =
    "place a 0 0 1\nplace b 0 0 2\nkeys n 00000000 ffffffff\ntable 0 0 1\n00000000 ffffffff 000100\ngot b 0 00000000 -\nend delivered 1 dumped 0 waiting 0 unsent 0\n";

/// The same job up to its packets, with two workers of one turn.
const BEFORE_PACKETS: &str =
    "{\"version\":1,\"machine\":{\"width\":1,\"height\":1},\"graph\":{\"vertices\":[{\"name\":\"a\"},{\"name\":\"b\"}],\"nets\":[{\"name\":\"n\",\"source\":\"a\",\"targets\":[\"b\"]}]},\"run\":{\"workers\":2,\"turns\":1,\"packets\":[";

/// More bytes than any text here has.
const AMPLE: u32 = 4096;

/// One end of a call: how many bytes it moves at a time, and which of its calls fails, counted from 1; none where that is 0.
#[derive(Clone, Copy)]
struct End {
    piece: u32,
    failing: u64,
    ghost some: { 0 < piece },
}

/// An end that does not fail.
fn ample() -> End {
    End {
        piece: AMPLE,
        failing: 0,
    }
}

fn source_of(alloc: Global, job: &str, end: End) -> Option<MemSource> {
    let bytes = job.as_bytes().to_vec(alloc).ok()?;
    let failing = vec![in alloc; end.failing].ok()?;
    Some(MemSource::new(Seq::from_vec(bytes), end.piece, Seq::from_vec(failing)))
}

fn sink_of(alloc: Global, end: End) -> Option<MemSink> {
    let failing = vec![in alloc; end.failing].ok()?;
    let room = Room::over(Seq::new(alloc), u64::from(AMPLE)).ok()?;
    Some(MemSink::new(room, end.piece, Seq::from_vec(failing)))
}

// The status of `run`, which leaves its text in the sink. What came of the call is forgotten, so that the tests owe no proof of
// taking it apart.
fn status<R: Threads + Wait + Sync, G: Gate>(
    rt: &R,
    alloc: Global,
    words: &[String],
    source: &mut MemSource,
    sink: &mut MemSink,
    gate: &G,
) -> u8 {
    let outcome = spin(rt, alloc, words, source, sink, gate);
    let status = outcome.status;
    mem::forget(outcome);
    status
}

// The status of `run` of a job over these ends, under this gate, and the sink with its text.
fn ran<R: Threads + Wait + Sync, G: Gate>(
    rt: &R,
    alloc: Global,
    job: &str,
    ends: (End, End),
    gate: &G,
) -> Option<(u8, MemSink)> {
    let word = String::from_str(alloc, "run").ok()?;
    let words = vec![in alloc; word].ok()?;
    let mut source = source_of(alloc, job, ends.0)?;
    let mut sink = sink_of(alloc, ends.1)?;
    let status = status(rt, alloc, words.as_slice(), &mut source, &mut sink, gate);
    Some((status, sink))
}

// Whether that status and that text are these.
fn answers<R: Threads + Wait + Sync, G: Gate>(
    rt: &R,
    alloc: Global,
    job: &str,
    ends: (End, End),
    gate: &G,
    wanted: (u8, &[u8]),
) -> bool {
    match ran(rt, alloc, job, ends, gate) {
        Some((status, sink)) => status == wanted.0 && sink.as_slice() == wanted.1,
        None => false,
    }
}

// Whether the three packets give this text under a gate that held its order.
fn tells<R: Threads + Wait + Sync>(
    rt: &R,
    alloc: Global,
    waits: [[u64; 5]; 2],
    text: &str,
) -> bool {
    let gate = InOrder::new(waits);
    let ends = (ample(), ample());
    answers(rt, alloc, THREE_PACKETS, ends, &gate, (0, text.as_bytes())) && gate.held()
}

// The second chip's turns come after the first chip's; then they come between, where each worker waits for the other.
#[test]
fn a_run_goes_in_the_order_of_its_gate(rt: HostRuntime) {
    assert!(rt;
        tells(
            &rt,
            rt.alloc(),
            [[0, 0, 0, 0, 0], [5, 0, 0, 0, 0]],
            ONE_ARRIVES
        )
    );
    assert!(rt;
        tells(
            &rt,
            rt.alloc(),
            [[0, 2, 3, 4, 5], [2, 3, 4, 5, 0]],
            ALL_ARRIVE
        )
    );
}

// A job of forty packets on one chip.
fn forty_packets(alloc: Global) -> Option<String> {
    let mut text = String::from_str(alloc, BEFORE_PACKETS).ok()?;
    text.push_str("{\"net\":\"n\",\"index\":0}").ok()?;
    for _ in 0..39 {
        text.push_str(",{\"net\":\"n\",\"index\":0}").ok()?;
    }
    text.push_str("]}}").ok()?;
    Some(text)
}

// The greatest phase of the run of such a job, where it ends well.
fn phases<R: Threads + Wait + Sync>(rt: &R, alloc: Global) -> Option<u64> {
    let job = forty_packets(alloc)?;
    let gate = Greatest::new();
    let (status, _sink) = ran(rt, alloc, job.as_str(), (ample(), ample()), &gate)?;
    if status == 0 {
        Some(gate.phase())
    } else {
        None
    }
}

// A router takes one copy a turn, and all forty pass the one router.
#[test]
fn each_round_has_a_phase_of_its_own(rt: HostRuntime) {
    assert!(rt; phases(&rt, rt.alloc()).is_some_and(|phase| phase >= 40));
}

// Of a job of 188 bytes in pieces of 16 there are twelve reads, and one that finds the end.
fn breaks_at_each_read<R: Threads + Wait + Sync>(rt: &R, alloc: Global) -> bool {
    for failing in 1..=14 {
        let from = End { piece: 16, failing };
        let wanted = if failing < 14 {
            (2, "read fault\n")
        } else {
            (0, ONE_CHIP_TEXT)
        };
        let wanted = (wanted.0, wanted.1.as_bytes());
        if !answers(rt, alloc, ONE_CHIP, (from, ample()), &FreeGate, wanted) {
            return false;
        }
    }
    true
}

// Of a text of 153 bytes in pieces of 10 there are sixteen writes.
fn breaks_at_each_write<R: Threads + Wait + Sync>(rt: &R, alloc: Global) -> bool {
    let text = ONE_CHIP_TEXT.as_bytes();
    for failing in 1..=17 {
        let to = End {
            piece: 10,
            failing: failing as u64,
        };
        let wanted = if failing < 17 {
            (3, &text[..10 * (failing - 1)])
        } else {
            (0, text)
        };
        if !answers(rt, alloc, ONE_CHIP, (ample(), to), &FreeGate, wanted) {
            return false;
        }
    }
    true
}

#[test]
fn a_read_or_a_write_that_fails_ends_the_call(rt: HostRuntime) {
    assert!(rt; breaks_at_each_read(&rt, rt.alloc()));
    assert!(rt; breaks_at_each_write(&rt, rt.alloc()));
}
