// A source and a sink in memory, whose calls can be made to fail by their numbers.
ghost use Rattle.std.specs.Prelude.{◌≡◌, ◌<◌, ◌≤◌, ◌+◌, ◌↔◌, ◌⊎◌, [], Some, length, take, min, IfOk, OnOk, OnErr, Contains, IsErr};
ghost use Rattle.spin_base.specs.Outside.{FaultsRose, Reads, Takes, one_more};

use crate::lists::Seq;
use crate::outside::{Sink, Source};
use crate::rooms::Room;
use crate::wants::Failed;

/// Bytes in memory, as a source that tells what is left.
#[derive(Drop)]
pub struct MemSource {
    bytes: Seq<u8>,
    place: usize,
    piece: u32,
    failing: Seq<u64>,
    calls: u64,
    faults: u64,
    ghost within: { place ≤ length bytes },
    ghost some: { 0 < piece },
}

impl MemSource {
    ghost use Rattle.spin_base.specs.MemoryEnds.{source_left, source_piece, source_fault_count, source_calls, source_failing};

    /// A source of these bytes, which gives at most `piece` of them in one call. Its calls whose numbers, from 1,
    /// stand in `failing` fail.
    pub fn new(bytes: Seq<u8>, piece: u32, failing: Seq<u64>) -> MemSource
        requires { 0 < piece }
        ensures left { source_left result ≡ bytes }
        ensures piece { source_piece result ≡ piece }
        ensures faults { source_fault_count result ≡ 0 }
        ensures calls { source_calls result ≡ 0 }
        ensures failing { source_failing result ≡ failing }
    {
        MemSource {
            bytes,
            place: 0,
            piece,
            failing,
            calls: 0,
            faults: 0,
        }
    }
}

impl Source for MemSource {
    ghost use Rattle.spin_base.specs.MemoryEnds.{source_left, source_piece, source_fault_count, source_calls, source_failing};

    ghost left = { λ s. Some (source_left s) };

    ghost faults = { source_fault_count };

    fn read(&mut self, buffer: &mut [u8]) -> Result<usize, Failed>
        requires { 0 < length buffer.old }
        ensures count { IfOk result (λ n. n ≤ length buffer.old) }
        ensures reads { IfOk result (λ n. Reads (Some (source_left self.old)) n buffer.new (Some
            (source_left self.new))) }
        ensures failed { OnErr result (FaultsRose (source_fault_count self.old)
            (source_fault_count self.new)) }
        ensures kept { OnErr result (Some (source_left self.new) ≡ Some (source_left self.old)) }
        ensures counted { source_fault_count self.old ≤ source_fault_count self.new }

        // A call gives as much as it can, and counts a fault exactly where it fails.
        ensures gives { IfOk result (λ n. n
            ≡ min (source_piece self.old) (min (length buffer.old) (length
            (source_left self.old)))) }
        ensures no_fault { OnOk result (source_fault_count self.new ≡ source_fault_count self.old) }
        ensures one_fault { OnErr result (source_fault_count self.new
            ≡ one_more (source_fault_count self.old)) }

        // A call fails exactly where its number is listed.
        ensures piece { source_piece self.new ≡ source_piece self.old }
        ensures calls { source_calls self.new ≡ one_more (source_calls self.old) }
        ensures listed { source_failing self.new ≡ source_failing self.old }
        ensures fails { IsErr result ↔ Contains (source_failing self.old) (source_calls self.new) }
    {
        self.calls = self.calls.saturating_add(1);
        if self.failing.as_slice().contains(&self.calls) {
            self.faults = self.faults.saturating_add(1);
            return Err(Failed);
        }
        let rest = &self.bytes.as_slice()[self.place..];
        let count = buffer.len().min(rest.len()).min(self.piece as usize);
        buffer[..count].copy_from_slice(&rest[..count]);
        self.place += count;
        Ok(count)
    }
}

/// A list in memory with room, as a sink that tells what it took.
#[derive(Drop)]
pub struct MemSink {
    room: Room<u8>,
    piece: u32,
    failing: Seq<u64>,
    calls: u64,
    faults: u64,
    ghost some: { 0 < piece },
}

impl MemSink {
    ghost use Rattle.spin_base.specs.MemoryEnds.{sink_written, sink_spare, sink_piece, sink_fault_count, sink_calls, sink_failing};

    /// A sink into this room, which takes at most `piece` bytes in one call. Its calls whose numbers, from 1, stand
    /// in `failing` fail, and so do all calls once the room has no spare.
    pub fn new(room: Room<u8>, piece: u32, failing: Seq<u64>) -> MemSink
        requires some { 0 < piece }
        requires empty { room.items ≡ [] }
        ensures written { sink_written result ≡ [] }
        ensures spare { sink_spare result ≡ room.spare }
        ensures piece { sink_piece result ≡ piece }
        ensures faults { sink_fault_count result ≡ 0 }
        ensures calls { sink_calls result ≡ 0 }
        ensures failing { sink_failing result ≡ failing }
    {
        MemSink {
            room,
            piece,
            failing,
            calls: 0,
            faults: 0,
        }
    }

    /// What was written.
    pub fn as_slice(&self) -> &[u8]
        ensures { result.now ≡ sink_written self.now }
    {
        self.room.as_slice()
    }
}

impl Sink for MemSink {
    ghost use Rattle.spin_base.specs.MemoryEnds.{sink_written, sink_spare, sink_piece, sink_fault_count, sink_calls, sink_failing};

    ghost written = { λ s. Some (sink_written s) };

    ghost faults = { sink_fault_count };

    fn write(&mut self, piece: &[u8]) -> Result<usize, Failed>
        requires { 0 < length piece.now }
        ensures some { IfOk result (λ n. 0 < n) }
        ensures count { IfOk result (λ n. n ≤ length piece.now) }
        ensures takes { IfOk result (λ n. Takes (Some (sink_written self.old)) (take n piece.now)
            (Some (sink_written self.new))) }
        ensures failed { OnErr result (FaultsRose (sink_fault_count self.old)
            (sink_fault_count self.new)) }
        ensures kept { OnErr result (Some (sink_written self.new) ≡ Some (sink_written self.old)) }
        ensures counted { sink_fault_count self.old ≤ sink_fault_count self.new }

        // A call takes as much as it can, and counts a fault exactly where it fails.
        ensures gets { IfOk result (λ n. n
            ≡ min (sink_piece self.old) (min (length piece.now) (sink_spare self.old))) }
        ensures spare { IfOk result (λ n. sink_spare self.new + n ≡ sink_spare self.old) }
        ensures same_spare { OnErr result (sink_spare self.new ≡ sink_spare self.old) }
        ensures no_fault { OnOk result (sink_fault_count self.new ≡ sink_fault_count self.old) }
        ensures one_fault { OnErr result (sink_fault_count self.new
            ≡ one_more (sink_fault_count self.old)) }

        // A call fails exactly where its number is listed or there is no spare.
        ensures most { sink_piece self.new ≡ sink_piece self.old }
        ensures calls { sink_calls self.new ≡ one_more (sink_calls self.old) }
        ensures listed { sink_failing self.new ≡ sink_failing self.old }
        ensures fails { IsErr result
            ↔ (Contains (sink_failing self.old) (sink_calls self.new) ⊎ (sink_spare self.old ≡ 0)) }
    {
        self.calls = self.calls.saturating_add(1);
        if self.failing.as_slice().contains(&self.calls) || self.room.spare() == 0 {
            self.faults = self.faults.saturating_add(1);
            return Err(Failed);
        }
        let count = piece.len().min(self.piece as usize).min(self.room.spare());
        for byte in &piece[..count] {
            self.room.put(*byte);
        }
        Ok(count)
    }
}
