//! What readers of lines answer, and what sinks hold, in memory and over std.
ghost use Rattle.std.specs.Prelude.{◌≤◌};

use sk_io::*;
use std::alloc::{AllocError, Global};
use std::fs;
use std::io::{self, Cursor, ErrorKind, Read, Write};
use std::test::Fail;

/// More bytes than any source here gives.
const FAR: u64 = 1_099_511_627_776;

/// A line as answers show it: one of 1,048,576 bytes as `most`.
fn shown(line: &[u8]) -> &[u8] {
    if line.len() == 1_048_576 {
        b"most"
    } else {
        line
    }
}

/// The first four answers of a reader, each with a bar behind it: a line, `long`, `end`, `fault` or `full`.
fn answers<S: Source>(alloc: Global, source: &mut S, limit: u64) -> Result<Vec<u8>, AllocError>
    requires { 1 ≤ limit }
{
    let mut lines = Lines::new(alloc, limit)?;
    let mut said = Vec::new(alloc);
    for _ in 0..4 {
        let answer = match lines.next(source) {
            Ok(Some(Line::Whole(line))) => shown(line),
            Ok(Some(Line::TooLong)) => b"long",
            Ok(None) => b"end",
            Err(LineStop::Failed) => b"fault",
            Err(LineStop::TooMuch) => b"full",
        };
        said.extend_from_slice(answer)?;
        said.push(b'|')?;
    }
    Ok(said)
}

/// Whether these are the answers over a text that comes in pieces, from a source whose call of this number fails.
fn are_told(
    alloc: Global,
    text: &[u8],
    piece: usize,
    limit: u64,
    failing: u64,
    wanted: &str,
) -> Result<bool, AllocError>
    requires piece { 1 ≤ piece }
    requires limit { 1 ≤ limit }
{
    let text = text.to_vec(alloc)?;
    let failing = vec![in alloc; failing; 1]?;
    let mut source = MemorySource::new(text, piece, failing);
    let said = answers(alloc, &mut source, limit)?;
    Ok(said.as_slice() == wanted.as_bytes())
}

/// The same over so many bytes with a text behind them.
fn are_told_behind(
    alloc: Global,
    length: usize,
    behind: &str,
    piece: usize,
    wanted: &str,
) -> Result<bool, AllocError>
    requires { 1 ≤ piece }
{
    let mut text = vec![in alloc; b'x'; length]?;
    text.extend_from_slice(behind.as_bytes())?;
    are_told(alloc, text.as_slice(), piece, FAR, 0, wanted)
}

#[test]
fn texts_are_cut_into_lines(rt: HostRuntime) -> Result<(), Fail> {
    for (text, wanted) in [
        ("", "end|end|end|end|"),
        ("\n", "|end|end|end|"),
        ("a\nb", "a|b|end|end|"),
        ("a\n\n", "a||end|end|"),
        ("\n\na", "||a|end|"),
        ("a\r\nb\0c\n", "a\r|b\0c|end|end|"),
    ] {
        for piece in [1, 3, 1000] {
            let are = are_told(rt.alloc(), text.as_bytes(), piece, FAR, 0, wanted)?;
            assert!(rt; are, "{text} in pieces of {piece}");
        }
    }
    Ok(())
}

#[test]
fn long_lines_are_passed_over(rt: HostRuntime) -> Result<(), Fail> {
    for (length, behind, wanted) in [
        (1_048_576, "", "most|end|end|end|"),
        (1_048_576, "\na\n", "most|a|end|end|"),
        (1_048_577, "", "long|end|end|end|"),
        (1_048_577, "\nb", "long|b|end|end|"),
        (4_194_304, "", "long|end|end|end|"),
        (4_194_304, "\nb", "long|b|end|end|"),
    ] {
        for piece in [1, 3, 1000, 100_000] {
            let are = are_told_behind(rt.alloc(), length, behind, piece, wanted)?;
            assert!(rt; are, "{length} in pieces of {piece}");
        }
    }
    Ok(())
}

/// A fault before the first byte, in a line, behind a line that is held, and one that is not come to, as nothing is
/// asked for behind the end; a limit in a line, and behind one.
#[test]
fn readers_stop(rt: HostRuntime) -> Result<(), Fail> {
    for (text, piece, limit, failing, wanted) in [
        ("abc\nd\n", 2, FAR, 1, "fault|fault|fault|fault|"),
        ("abc\nd\n", 2, FAR, 2, "fault|fault|fault|fault|"),
        ("a\nb\nc", 4, FAR, 2, "a|b|fault|fault|"),
        ("a\nbc", 1000, FAR, 3, "a|bc|end|end|"),
        ("0123456789a", 4, 10, 0, "full|full|full|full|"),
        ("012345678\n", 4, 10, 0, "012345678|full|full|full|"),
    ] {
        let are = are_told(rt.alloc(), text.as_bytes(), piece, limit, failing, wanted)?;
        assert!(rt; are, "{text} in pieces of {piece}");
    }
    Ok(())
}

/// Whether a sink that takes a byte a call, has so much room, and fails at the call of this number, holds these bytes, and
/// whether the piece was put whole.
fn holds(
    alloc: Global,
    room: usize,
    failing: u64,
    wanted: &str,
) -> Result<(bool, bool), AllocError> {
    let failing = vec![in alloc; failing; 1]?;
    let mut sink = MemorySink::new(alloc, 1, room, failing)?;
    let put = put_all(&mut sink, b"abcd");
    Ok((sink.bytes() == wanted.as_bytes(), put.is_ok()))
}

#[test]
fn a_piece_is_put_whole_or_in_part(rt: HostRuntime) -> Result<(), Fail> {
    for (room, failing, wanted, whole) in [
        (10, 0, "abcd", true),
        (4, 0, "abcd", true),
        (3, 0, "abc", false),
        (10, 3, "ab", false),
        (10, 1, "", false),
    ] {
        let held = holds(rt.alloc(), room, failing, wanted)?;
        assert_eq!(rt; held, (true, whole), "room {room}, call {failing}");
    }
    Ok(())
}

#[test]
fn std_streams_are_read(rt: HostRuntime) -> Result<(), Fail> {
    let mut source = StdSource::new(Cursor::new(b"a\nbc".as_slice()));
    let said = answers(rt.alloc(), &mut source, FAR)?;
    assert_eq!(rt; said.as_slice(), b"a|bc|end|end|".as_slice());
    Ok(())
}

/// A sink over std takes a piece, is settled, and fails where its writer is full.
#[test]
fn std_streams_are_written(rt: HostRuntime) {
    let mut small = [0u8; 4];
    let mut sink = StdSink::new(Cursor::new(small.as_mut_slice()));
    let told = (
        put_all(&mut sink, b"abc"),
        sink.finish(),
        put_all(&mut sink, b"de"),
    );
    drop(sink);
    assert_eq!(rt; told, (Ok(()), Ok(()), Err(Failed)));
    assert_eq!(rt; small, *b"abcd");
}

/// A stream whose first calls are interrupted, and that then gives nothing and takes all.
#[derive(Debug, Drop)]
struct Interrupted {
    times: u32,
}

impl Interrupted {
    fn turn(&mut self) -> io::Result<()> {
        match self.times.checked_sub(1) {
            Some(left) => {
                self.times = left;
                Err(ErrorKind::Interrupted.into())
            }
            None => Ok(()),
        }
    }
}

impl Read for Interrupted {
    fn read(&mut self, _buf: &mut [u8]) -> io::Result<usize> {
        self.turn()?;
        Ok(0)
    }
}

impl Write for Interrupted {
    fn write(&mut self, piece: &[u8]) -> io::Result<usize> {
        self.turn()?;
        Ok(piece.len())
    }

    fn flush(&mut self) -> io::Result<()> {
        Ok(())
    }
}

/// What a source over a stream answers that is interrupted so often.
fn taken(times: u32) -> Result<usize, Failed> {
    let mut source = StdSource::new(Interrupted { times });
    let mut buf = [0u8; 4];
    source.take(&mut buf)
}

/// What a sink over it answers.
fn put(times: u32) -> Result<usize, Failed> {
    let mut sink = StdSink::new(Interrupted { times });
    sink.put(b"")
}

#[test]
fn an_interrupted_call_is_tried_64_times(rt: HostRuntime) -> Result<(), Fail> {
    for (times, wanted) in [(0, Ok(0)), (63, Ok(0)), (64, Err(Failed))] {
        assert_eq!(rt; taken(times), wanted, "{times} times");
        assert_eq!(rt; put(times), wanted, "{times} times");
    }
    Ok(())
}

/// A writer that holds what it takes until it is flushed, which it first refuses so often.
#[derive(Debug, Drop)]
struct Holding<'a> {
    held: Vec<u8>,
    moved: &'a mut Vec<u8>,
    refusals: u32,
}

impl<'a> Write for Holding<'a> {
    fn write(&mut self, piece: &[u8]) -> io::Result<usize> {
        self.held.extend_from_slice(piece)?;
        Ok(piece.len())
    }

    fn flush(&mut self) -> io::Result<()> {
        if let Some(left) = self.refusals.checked_sub(1) {
            self.refusals = left;
            return Err(ErrorKind::WriteZero.into());
        }
        self.moved.append(&mut self.held)?;
        Ok(())
    }
}

/// What the last of so many calls to finish answers, and whether these bytes have come out then, where three were put.
fn finished(alloc: Global, refusals: u32, calls: u32, moved: &str) -> (Result<(), Failed>, bool) {
    let mut place = Vec::new(alloc);
    let mut sink = StdSink::new(Holding {
        held: Vec::new(alloc),
        moved: &mut place,
        refusals,
    });
    let mut last = put_all(&mut sink, b"abc");
    for _ in 0..calls {
        last = sink.finish();
    }
    drop(sink);
    (last, place.as_slice() == moved.as_bytes())
}

/// A sink that is to finish flushes its writer each time, and answers where that fails.
#[test]
fn to_finish_flushes(rt: HostRuntime) -> Result<(), Fail> {
    for (refusals, calls, wanted, moved) in [
        (0, 0, Ok(()), ""),
        (0, 1, Ok(()), "abc"),
        (1, 1, Err(Failed), ""),
        (1, 2, Ok(()), "abc"),
    ] {
        let told = finished(rt.alloc(), refusals, calls, moved);
        assert_eq!(rt; told, (wanted, true), "{calls} calls, {refusals} refused");
    }
    Ok(())
}

/// What a source answers, and four bytes that it was lent.
fn read<S: Source>(source: &mut S) -> (Result<usize, Failed>, [u8; 4]) {
    let mut buf = *b"....";
    (source.take(&mut buf), buf)
}

/// A file that is written behind its source: it is read on, and then it ends.
#[test]
fn a_file_is_read_on(rt: HostRuntime) -> Result<(), Fail> {
    let path = "written.txt";
    let mut source = LazyFile::new(&rt, String::from_str(rt.alloc(), path)?);
    fs::write(&rt, path, "abcdefg")?;
    let told = (read(&mut source), read(&mut source), read(&mut source));
    drop(source);
    fs::remove_file(&rt, path)?;
    assert_eq!(rt;
        told,
        ((Ok(4), *b"abcd"), (Ok(3), *b"efg."), (Ok(0), *b"...."))
    );
    Ok(())
}

#[test]
fn a_file_is_opened_when_it_is_read(rt: HostRuntime) -> Result<(), Fail> {
    for (path, wanted) in [
        ("/dev/null", Ok(0)),
        ("/no/such/file", Err(Failed)),
        ("", Err(Failed)),
        ("/", Err(Failed)),
    ] {
        let mut source = LazyFile::new(&rt, String::from_str(rt.alloc(), path)?);
        let told = (read(&mut source).0, read(&mut source).0);
        drop(source);
        assert_eq!(rt; told, (wanted, wanted), "{path}");
    }
    Ok(())
}
