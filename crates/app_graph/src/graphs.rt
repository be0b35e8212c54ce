// Vertices, nets, and the run part of a job.
use machine_desc::Edge;
use spin_base::{Block, Chip, Event, Name, Packet, Seq, Shared};

/// A vertex: its name, the bytes of its chip's shared memory that it needs, and the chip on which it must stand where the
/// job says one. A vertex with a device is no program: it is what hangs on that link of that chip, and takes packets; its
/// memory and its chip are not used.
#[derive(Drop)]
pub struct Vertex {
    pub name: Name,
    pub sdram: u32,
    pub at: Option<Chip>,
    pub device: Option<Edge>,
}

/// A net: its name, the positions of its source and targets in the list of vertices, how many keys it needs, and the block
/// of keys that it must have where the job says one.
#[derive(Drop)]
pub struct Net {
    pub name: Name,
    pub source: u32,
    pub targets: Seq<u32>,
    pub keys: u64,
    pub fixed: Option<Block>,
}

/// Vertices and nets, in the order of the job.
#[derive(Drop)]
pub struct Graph {
    pub vertices: Seq<Vertex>,
    pub nets: Seq<Net>,
}

impl Shared for Graph {}

/// How a job is to run: how many copies a queue holds at most, after how many refusals a router drops a copy, for how many
/// workers chips are shared, how many turns an actor takes in a round at most, how many rows a table may have before rows are
/// merged, the packets, and the events of a trace.
#[derive(Drop)]
pub struct RunPart {
    pub queue: u32,
    pub patience: u32,
    pub workers: u32,
    pub turns: u32,
    pub target: u32,
    pub packets: Seq<Packet>,
    pub events: Seq<Event>,
}
