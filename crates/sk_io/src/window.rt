//! The bytes that a reader of lines holds: a part of one buffer.
ghost use Rattle.std.specs.Prelude.{◌≡◌, ◌<◌, ◌≤◌, ◌+◌, ◌-◌, ◌*◌, List, [], IfOk, OnErr, MatchOption, position, ◌==◌, length, take, drop};
ghost use Rattle.std.specs.Io.KnownBytes.{Keeps};
ghost use Rattle.sk_io.specs.Causes.{HasCause};
ghost use Rattle.sk_io.specs.LineText.{NoLineEnd};
ghost use Rattle.sk_io.specs.Steps.{EndsAt, WritesBehind, TakesMore};

use crate::line::MAX_LINE;
use crate::{Failed, Source};
use std::alloc::{AllocError, Global};
use std::marker::Model;

/// How many bytes a window can hold: more than two lines, so that a line is moved to the front only
/// once more than it was dropped there.
pub(crate) const WINDOW_LEN: usize = 2 * MAX_LINE + 2;

/// The bytes that were taken and not dropped.
#[derive(Drop)]
pub(crate) struct Window {
    buffer: Vec<u8>,
    start: usize,
    end: usize,
}

impl Model for Window {
    ghost use Rattle.std.specs.Prelude.{◌≡◌, ◌≤◌, ℕ, List, length, take, drop};
    ghost use Rattle.sk_io.specs.declared.window.TheConstants.{WINDOW_LEN};

    ghost Value = { List ℕ };

    ghost view = { λ w. drop w.start (take w.end w.buffer.items) };

    ghost invariant = { λ w. (w.start ≤ w.end) × (w.end ≤ length w.buffer.items) × (length w.buffer.items ≡ WINDOW_LEN) };
}

impl Window {
    pub(crate) fn new(alloc: Global) -> Result<Window, AllocError>
        ensures { IfOk result (λ window. window ≡ []) }
    {
        let buffer = vec![in alloc; 0u8; WINDOW_LEN]?;
        Ok(Window {
            buffer,
            start: 0,
            end: 0,
        })
    }

    pub(crate) fn bytes(&self) -> &[u8]
        ensures { result.now ≡ self.now }
    {
        &self.buffer[self.start..self.end]
    }

    /// Drops the first `n` bytes.
    pub(crate) fn consume(&mut self, n: usize)
        requires { n ≤ length self.old }
        ensures { self.new ≡ drop n self.old }
    {
        self.start += n;
    }

    /// Takes at most `most` bytes of the source, and answers how many.
    pub(crate) fn fill<S: Source>(&mut self, source: &mut S, most: usize) -> Result<usize, Failed>
        requires some { 0 < most }
        requires space { length self.old ≤ MAX_LINE }
        ensures ok { IfOk result (TakesMore self.old self.new (S.seen source.old).left (S.seen source.new).left most) }
        ensures err { OnErr result (self.new ≡ self.old) }
        ensures keeps { OnErr result (Keeps (S.seen source.old).left (S.seen source.new).left) }
        ensures cause { HasCause (S.seen source.old).faults (S.seen source.new).faults result }
    {
        let (start, end) = make_room(&mut self.buffer, self.start, self.end);
        self.start = start;
        self.end = end;
        let here = most.min(self.buffer.len() - end);
        let n = take_behind(source, &mut self.buffer, end, here)?;
        self.end = end + n;
        Ok(n)
    }
}

/// Where the held bytes end at the buffer's end, moves them to the front.
fn make_room(buffer: &mut [u8], start: usize, end: usize) -> (usize, usize)
    requires ordered { start ≤ end }
    requires inside { end ≤ length buffer.old }
    requires half { 2 * (end - start) < length buffer.old }
    ensures same { drop result.0 (take result.1 buffer.new) ≡ drop start (take end buffer.old) }
    ensures ordered { result.0 ≤ result.1 }
    ensures space { result.1 < length buffer.new }
{
    if start == end {
        return (0, 0);
    }
    if end < buffer.len() {
        return (start, end);
    }
    move_to_front(buffer, start);
    (0, end - start)
}

/// Moves the bytes from `start` on to the front.
fn move_to_front(buffer: &mut [u8], start: usize)
    requires inside { start ≤ length buffer.old }
    requires apart { length buffer.old ≤ 2 * start }
    ensures { take (length buffer.old - start) buffer.new ≡ drop start buffer.old }
{
    let len = buffer.len() - start;
    let (front, back) = buffer.split_at_mut(start);
    front[..len].copy_from_slice(back);
}

/// Takes bytes of the source into the buffer, from `end` on.
fn take_behind<S: Source>(
    source: &mut S,
    buffer: &mut [u8],
    end: usize,
    most: usize,
) -> Result<usize, Failed>
    requires some { 0 < most }
    requires fits { end + most ≤ length buffer.old }
    ensures ok { IfOk result (WritesBehind buffer.old buffer.new (S.seen source.old).left (S.seen source.new).left end most) }
    ensures err { OnErr result (take end buffer.new ≡ take end buffer.old) }
    ensures keeps { OnErr result (Keeps (S.seen source.old).left (S.seen source.new).left) }
    ensures cause { HasCause (S.seen source.old).faults (S.seen source.new).faults result }
{
    let n = source.take(&mut buffer[end..end + most])?;
    Ok(n)
}

/// The place of the first line's end.
fn first_end(bytes: &[u8]) -> Option<usize>
    ensures { result ≡ position (λ b. b == 10) bytes.now }
{
    bytes.iter().position(|b| *b == b'\n')
}

/// The place of the first line's end, which is not among the first `seen` bytes.
pub(crate) fn end_from(bytes: &[u8], seen: usize) -> Option<usize>
    requires inside { seen ≤ length bytes.now }
    requires no_end { NoLineEnd (take seen bytes.now) }
    ensures { MatchOption result (NoLineEnd bytes.now) (EndsAt bytes.now) }
{
    match first_end(&bytes[seen..]) {
        Some(at) => Some(seen + at),
        None => None,
    }
}
