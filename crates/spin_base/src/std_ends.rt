// Adapters over std's readers and writers. As a source and a sink they tell nothing of content: what the reader or the
// writer tells of it, it tells through the adapter.
ghost use Rattle.std.specs.Prelude.{◌≡◌, ◌<◌, ◌≤◌, ℕ, length, take, IfOk, OnOk, OnErr};
ghost use Rattle.std.specs.Io.KnownBytes.{ReadConsumes, WriteAppends};
ghost use Rattle.spin_base.specs.Outside.{FaultsRose, Reads, Takes, one_more};

use crate::outside::{Sink, Source};
use crate::wants::Failed;
use std::io::{Read, Write};

/// A reader of std as a source. It counts the reads that failed.
#[derive(Drop)]
pub struct StdSource<R: Read> {
    reader: R,
    faults: u64,
}

impl<R: Read> StdSource<R> {
    ghost use Rattle.spin_base.specs.StdEnds.{std_source_reader, std_source_faults};

    /// A source over the reader, with no fault so far.
    pub fn new(reader: R) -> StdSource<R>
        ensures reader { std_source_reader result ≡ reader }
        ensures faults { std_source_faults result ≡ 0 }
    {
        StdSource { reader, faults: 0 }
    }
}

impl<R: Read> Source for StdSource<R> {
    ghost use Rattle.spin_base.specs.StdEnds.{std_source_reader, std_source_faults, untold};

    ghost left = { untold };

    ghost faults = { std_source_faults };

    fn read(&mut self, buffer: &mut [u8]) -> Result<usize, Failed>
        requires { 0 < length buffer.old }
        ensures count { IfOk result (λ n. n ≤ length buffer.old) }
        ensures reads { IfOk result (λ n. Reads (untold self.old) n buffer.new (untold self.new)) }
        ensures failed { OnErr result (FaultsRose (std_source_faults self.old)
            (std_source_faults self.new)) }
        ensures kept { OnErr result (untold self.new ≡ untold self.old) }
        ensures counted { std_source_faults self.old ≤ std_source_faults self.new }

        // The call is the reader's, and counts a fault exactly where it fails.
        ensures bytes { ReadConsumes (R.remaining (std_source_reader self.old)) (R.remaining
            (std_source_reader self.new)) result buffer.new }
        ensures no_fault { OnOk result (std_source_faults self.new ≡ std_source_faults self.old) }
        ensures one_fault { OnErr result (std_source_faults self.new
            ≡ one_more (std_source_faults self.old)) }
    {
        match self.reader.read(buffer) {
            Ok(count) => Ok(count),
            Err(_) => {
                self.faults = self.faults.saturating_add(1);
                Err(Failed)
            }
        }
    }
}

/// A writer of std as a sink. It counts the writes that failed, or took nothing.
#[derive(Drop)]
pub struct StdSink<W: Write> {
    writer: W,
    faults: u64,
}

impl<W: Write> StdSink<W> {
    ghost use Rattle.spin_base.specs.StdEnds.{std_sink_writer, std_sink_faults};

    /// A sink over the writer, with no fault so far.
    pub fn new(writer: W) -> StdSink<W>
        ensures writer { std_sink_writer result ≡ writer }
        ensures faults { std_sink_faults result ≡ 0 }
    {
        StdSink { writer, faults: 0 }
    }
}

impl<W: Write> Sink for StdSink<W> {
    ghost use Rattle.spin_base.specs.StdEnds.{std_sink_writer, std_sink_faults, untold};

    ghost written = { untold };

    ghost faults = { std_sink_faults };

    fn write(&mut self, piece: &[u8]) -> Result<usize, Failed>
        requires { 0 < length piece.now }
        ensures some { IfOk result (λ n. 0 < n) }
        ensures count { IfOk result (λ n. n ≤ length piece.now) }
        ensures takes { IfOk result (λ n. Takes (untold self.old) (take n piece.now)
            (untold self.new)) }
        ensures failed { OnErr result (FaultsRose (std_sink_faults self.old)
            (std_sink_faults self.new)) }
        ensures kept { OnErr result (untold self.new ≡ untold self.old) }
        ensures counted { std_sink_faults self.old ≤ std_sink_faults self.new }

        // The call is the writer's, and counts a fault exactly where it fails.
        ensures bytes { WriteAppends (W.contents (std_sink_writer self.old)) (W.contents
            (std_sink_writer self.new)) result piece.now }
        ensures no_fault { OnOk result (std_sink_faults self.new ≡ std_sink_faults self.old) }
        ensures one_fault { OnErr result (std_sink_faults self.new
            ≡ one_more (std_sink_faults self.old)) }
    {
        match self.writer.write(piece) {
            Ok(count) if count > 0 => Ok(count),
            _ => {
                self.faults = self.faults.saturating_add(1);
                Err(Failed)
            }
        }
    }
}
