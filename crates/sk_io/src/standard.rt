//! Sources and sinks over the readers and writers of std.
ghost use Rattle.std.specs.Prelude.{◌≡◌, ◌<◌, ℕ, Bool, false, List, None, Option, IfOk, length};
ghost use Rattle.std.specs.Io.{ReadsAtMost, WritesAtMost};
ghost use Rattle.std.specs.Io.KnownBytes.{Keeps, ReadConsumes, WriteAppends};
ghost use Rattle.sk_io.specs.Standard.{source_reader, source_faults, sink_writer, sink_faults, sink_finishes, sink_settled};

use crate::{Failed, Sink, Source};
use std::io::{ErrorKind, Read, Write};

/// How often a call that was interrupted is tried before it counts as a fault.
const TRIES: u32 = 64;

/// A source over a reader of std. It tells what the reader tells, and its faults.
#[derive(Debug, Drop)]
pub struct StdSource<T: Drop> {
    reader: T,
    failed: u64,
}

impl<T: Read + Drop> StdSource<T> {
    /// A source that has not failed.
    pub fn new(reader: T) -> StdSource<T>
        ensures reader { source_reader result ≡ reader }
        ensures faults { source_faults result ≡ 0 }
    {
        StdSource { reader, failed: 0 }
    }
}

/// One read, tried again where it was interrupted.
pub(crate) fn read_some<T: Read>(reader: &mut T, buf: &mut [u8]) -> Result<usize, Failed>
    ensures bound { ReadsAtMost result buf.new }
    ensures bytes { ReadConsumes (T.remaining reader.old) (T.remaining reader.new) result buf.new }
{
    'tries: for _ in 0..TRIES {
        match reader.read(buf) {
            Ok(n) => return Ok(n),
            Err(error) => {
                if error.kind() != ErrorKind::Interrupted {
                    return Err(Failed);
                }
            }
        }
    }
    Err(Failed)
}

impl<T: Read + Drop> Source for StdSource<T> {
    ghost seen = { λ s. record { left = T.remaining (source_reader s); faults = source_faults s } };

    fn take(&mut self, buf: &mut [u8]) -> Result<usize, Failed> {
        let result = read_some(&mut self.reader, buf);
        if result.is_err() {
            self.failed = self.failed.saturating_add(1);
        }
        result
    }
}

/// A sink over a writer of std. It tells what the writer tells, its faults, and whether it is settled.
#[derive(Debug, Drop)]
pub struct StdSink<T: Drop> {
    writer: T,
    failed: u64,
    done: bool,
    finished: u64,
}

impl<T: Write + Drop> StdSink<T> {
    /// A sink that has not failed.
    pub fn new(writer: T) -> StdSink<T>
        ensures writer { sink_writer result ≡ writer }
        ensures faults { sink_faults result ≡ 0 }
        ensures settled { sink_settled result ≡ false }
        ensures finishes { sink_finishes result ≡ 0 }
    {
        StdSink {
            writer,
            failed: 0,
            done: false,
            finished: 0,
        }
    }
}

/// One write, tried again where it was interrupted.
fn write_some<T: Write>(writer: &mut T, piece: &[u8]) -> Result<usize, Failed>
    ensures bound { WritesAtMost result piece.now }
    ensures some { IfOk result (λ n. 0 < length piece.now → 0 < n) }
    ensures bytes { WriteAppends (T.contents writer.old) (T.contents writer.new) result piece.now }
{
    'tries: for _ in 0..TRIES {
        match writer.write(piece) {
            Ok(n) => {
                if n == 0 && !piece.is_empty() {
                    return Err(Failed);
                }
                return Ok(n);
            }
            Err(error) => {
                if error.kind() != ErrorKind::Interrupted {
                    return Err(Failed);
                }
            }
        }
    }
    Err(Failed)
}

impl<T: Write + Drop> Sink for StdSink<T> {
    ghost seen = { λ s. record { held = T.contents (sink_writer s); faults = sink_faults s; finishes = sink_finishes s; settled = sink_settled s } };

    fn put(&mut self, piece: &[u8]) -> Result<usize, Failed> {
        self.done = false;
        let result = write_some(&mut self.writer, piece);
        if result.is_err() {
            self.failed = self.failed.saturating_add(1);
        }
        result
    }

    /// Flushes the writer.
    fn finish(&mut self) -> Result<(), Failed> {
        self.finished = self.finished.saturating_add(1);
        match self.writer.flush() {
            Ok(()) => {
                self.done = true;
                Ok(())
            }
            Err(_) => {
                self.done = false;
                self.failed = self.failed.saturating_add(1);
                Err(Failed)
            }
        }
    }
}
