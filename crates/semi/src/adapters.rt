// Streams of the outside as sources and sinks. They tell no content.
ghost use Rattle.std.specs.Prelude.{◌≡◌, ◌≤◌, [], None, IfErr, OnErr, OnOk};
ghost use Rattle.std.specs.Io.Buffered.{writer_buffer};
ghost use Rattle.ports.specs.Bytes.{Rose};

use ports::{Failed, Sink, Source, WriteFault};
use std::io::{BufWriter, Read, Write};

/// A reader as a source. It counts the reads that fail.
#[derive(Drop)]
pub struct InputSource<R> {
    reader: R,
    faults: u64,
}

impl<R: Read> InputSource<R> {
    /// No read has failed yet.
    pub fn new(reader: R) -> InputSource<R>
        ensures { result.faults ≡ 0 }
    {
        InputSource { reader, faults: 0 }
    }
}

impl<R: Read> Source for InputSource<R> {
    ghost left = { λ _. None };

    ghost faults = { λ s. s.faults };

    fn read(&mut self, buf: &mut [u8]) -> Result<usize, Failed> {
        match self.reader.read(buf) {
            Ok(count) => Ok(count),
            Err(_) => {
                self.faults = self.faults.saturating_add(1);
                Err(Failed)
            }
        }
    }
}

/// A writer as a sink. It counts the writes that fail; to take nothing of a piece is such a
/// failure. It never finds memory wanting.
#[derive(Drop)]
pub struct OutputSink<W> {
    writer: W,
    faults: u64,
}

impl<W: Write> OutputSink<W> {
    /// No write has failed yet.
    pub fn new(writer: W) -> OutputSink<W>
        ensures { result.faults ≡ 0 }
    {
        OutputSink { writer, faults: 0 }
    }
}

impl<W: Write + Drop> OutputSink<BufWriter<W>> {
    /// Passes on all that the writer keeps back. A failure counts as that of a write.
    pub fn flush(&mut self) -> Result<(), WriteFault>
        ensures passed { OnOk result (writer_buffer self.new.writer ≡ []) }
        ensures kept { OnOk result (self.new.faults ≡ self.old.faults) }
        ensures counted { self.old.faults ≤ self.new.faults }
        ensures failed { OnErr result (Rose self.old.faults self.new.faults) }
        ensures fault { IfErr result (λ fault. fault ≡ WriteFault.Failed) }
    {
        match self.writer.flush() {
            Ok(()) => Ok(()),
            Err(_) => {
                self.faults = self.faults.saturating_add(1);
                Err(WriteFault::Failed)
            }
        }
    }
}

impl<W: Write> Sink for OutputSink<W> {
    ghost taken = { λ _. None };

    ghost faults = { λ s. s.faults };

    ghost refusals = { λ _. 0 };

    fn write(&mut self, bytes: &[u8]) -> Result<usize, WriteFault> {
        if bytes.is_empty() {
            return Ok(0);
        }
        match self.writer.write(bytes) {
            Ok(count) if count > 0 => Ok(count),
            _ => {
                self.faults = self.faults.saturating_add(1);
                Err(WriteFault::Failed)
            }
        }
    }
}
