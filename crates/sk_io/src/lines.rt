//! A source cut into lines.
ghost use Rattle.std.specs.Prelude.{◌≡◌, ◌<◌, ◌≤◌, ◌+◌, ◌↔◌, true, false, List, [], None, Some, Ok, IfOk, IfErr, OnOk, IsOk, IsSome, IsTrue, length, drop};
ghost use Rattle.std.specs.Borrow.{sem};
ghost use Rattle.std.specs.Io.BufRead.{Rests};
ghost use Rattle.sk_io.specs.contracts.lines.Lines.{the_row};
ghost use Rattle.sk_io.specs.LineText.{NoLineEnd, HasLineEnd};
ghost use Rattle.sk_io.specs.Reading.{pending, line_outcome};
ghost use Rattle.sk_io.specs.Answers.{Reads, ReadsOn, StopHasCause, IsShort, IsGiven};
ghost use Rattle.sk_io.specs.Steps.{IsOpen, Fills, Halts, Halted, Sought, Skips, FailHasCause, found_outcome, IsWithin, EndIsFound, LineIsFound};

use crate::found::{Found, LineEnd};
use crate::line::{Line, LineStop, MAX_LINE};
use crate::window::{Window, end_from};
use crate::{Failed, Source};
use std::alloc::{AllocError, Global};
use std::marker::Model;

/// Cuts what a source gives into lines. `specs/Answers.antt` says what each answer means.
#[derive(Drop)]
pub struct Lines {
    window: Window,
    given: usize,
    room: u64,
    stopped: Option<LineStop>,
    ended: bool,
}

impl Model for Lines {
    ghost use Rattle.std.specs.Prelude.{◌≡◌, ◌<◌, ◌≤◌, true, length};
    ghost use Rattle.sk_io.specs.Reading.{Reader};

    ghost Value = { Reader };

    ghost view = { λ l. record { held = l.window; given = l.given; room = l.room; stopped = l.stopped; ended = l.ended } };

    ghost invariant = { λ l. (l.given ≤ length l.window) × (l.ended ≡ true → 0 < l.room) };
}

impl Lines {
    /// A reader that takes at most `limit` bytes. All the memory that it needs, some two lines, is
    /// taken here.
    pub fn new(alloc: Global, limit: u64) -> Result<Lines, AllocError>
        requires { 1 ≤ limit }
        ensures { IfOk result (λ lines. lines ≡ record { held = []; given = 0; room = limit; stopped = None; ended = false }) }
    {
        let window = Window::new(alloc)?;
        Ok(Lines {
            window,
            given: 0,
            room: limit,
            stopped: None,
            ended: false,
        })
    }

    /// The next line, or `None` where the source is at its end. What is held is searched before the
    /// source is asked, which is never asked for more than is left of the limit. After a stop each
    /// call answers the same stop. Once the source gave 0 bytes it is not asked again.
    pub fn next<S: Source>(&mut self, source: &mut S) -> Result<Option<Line<'_>>, LineStop>
        ensures short { IfOk result IsShort }
        ensures untouched { IsSome self.old.stopped → source.new ≡ source.old }
        ensures prompt { HasLineEnd (pending self.old) → source.new ≡ source.old }
        ensures given { HasLineEnd (pending self.old) → self.old.stopped ≡ None → IsGiven result }
        ensures ended { self.old.ended ≡ true → source.new ≡ source.old }
        ensures no_stop { self.old.ended ≡ true → self.old.stopped ≡ None → IsOk result }
        ensures cause { StopHasCause self.old.stopped (S.seen source.old).faults (S.seen source.new).faults result }
        ensures* after { sem 𝓛 (Rests the_row self.entry (λ new. Reads self.old (S.seen source.old).left new (S.seen source.new).left (line_outcome result))) }
    {
        match self.advance(source) {
            Ok(Found::End) => Ok(None),
            Ok(Found::Whole(len)) => Ok(Some(Line::Whole(&self.held()[..len]))),
            Ok(Found::TooLong) => Ok(Some(Line::TooLong)),
            Err(why) => Err(why),
        }
    }

    /// Whether the line that comes next is held with its end, so that `next` gives it and does not ask the source.
    pub fn waits(&self) -> bool
        ensures { IsTrue result ↔ HasLineEnd (pending self.now) }
    {
        end_from(self.pending(), 0).is_some()
    }

    fn pending(&self) -> &[u8]
        ensures { result.now ≡ pending self.now }
    {
        &self.held()[self.given..]
    }

    fn held(&self) -> &[u8]
        ensures { result.now ≡ self.now.held }
    {
        self.window.bytes()
    }

    fn advance<S: Source>(&mut self, source: &mut S) -> Result<Found, LineStop>
        ensures reads { Reads self.old (S.seen source.old).left self.new (S.seen source.new).left (found_outcome self.new result) }
        ensures within { IfOk result (IsWithin self.new) }
        ensures untouched { IsSome self.old.stopped → source.new ≡ source.old }
        ensures prompt { HasLineEnd (pending self.old) → source.new ≡ source.old }
        ensures given { HasLineEnd (pending self.old) → self.old.stopped ≡ None → LineIsFound result }
        ensures ended { self.old.ended ≡ true → source.new ≡ source.old }
        ensures no_stop { self.old.ended ≡ true → self.old.stopped ≡ None → IsOk result }
        ensures cause { StopHasCause self.old.stopped (S.seen source.old).faults (S.seen source.new).faults result }
    {
        if let Some(why) = self.stopped {
            return Err(why);
        }
        let found = self.find_line(source)?;
        Ok(found)
    }

    fn find_line<S: Source>(&mut self, source: &mut S) -> Result<Found, LineStop>
        requires { self.old.stopped ≡ None }
        ensures reads { ReadsOn self.old (S.seen source.old).left self.new (S.seen source.new).left (found_outcome self.new result) }
        ensures within { IfOk result (IsWithin self.new) }
        ensures prompt { HasLineEnd (pending self.old) → (source.new ≡ source.old) × LineIsFound result }
        ensures ended { self.old.ended ≡ true → (self.new.ended ≡ true) × (source.new ≡ source.old) × IsOk result }
        ensures cause { FailHasCause (S.seen source.old).faults (S.seen source.new).faults result }
    {
        self.drop_given();
        match self.read_end(source) {
            Ok(LineEnd::At(at)) => {
                self.give(at + 1);
                if at > MAX_LINE {
                    return Ok(Found::TooLong);
                }
                Ok(Found::Whole(at))
            }
            Ok(LineEnd::Far) => {
                self.skip_line(source)?;
                Ok(Found::TooLong)
            }
            Ok(LineEnd::Nowhere) => {
                let len = self.held().len();
                if len == 0 {
                    return Ok(Found::End);
                }
                self.give(len);
                Ok(Found::Whole(len))
            }
            Err(why) => Err(why),
        }
    }

    /// Drops the line that was given last.
    fn drop_given(&mut self)
        ensures { self.new ≡ record self.old { held = pending self.old; given = 0 } }
    {
        self.window.consume(self.given);
        self.given = 0;
    }

    /// Drops all that is held.
    fn drop_held(&mut self)
        ensures { self.new ≡ record self.old { held = []; given = 0 } }
    {
        let len = self.window.bytes().len();
        self.window.consume(len);
        self.given = 0;
    }

    /// Marks the first bytes as given.
    fn give(&mut self, n: usize)
        requires { n ≤ length self.old.held }
        ensures { self.new ≡ record self.old { given = n } }
    {
        self.given = n;
    }

    /// Takes some bytes more, or none at the source's end.
    fn fill<S: Source>(&mut self, source: &mut S) -> Result<usize, LineStop>
        requires is_open { IsOpen self.old }
        requires space { length self.old.held ≤ MAX_LINE }
        ensures ok { IfOk result (Fills self.old (S.seen source.old).left self.new (S.seen source.new).left) }
        ensures err { IfErr result (Halts self.old (S.seen source.old).left self.new (S.seen source.new).left) }
        ensures ended { self.old.ended ≡ true → (self.new ≡ self.old) × (source.new ≡ source.old) × (result ≡ Ok 0) }
        ensures cause { FailHasCause (S.seen source.old).faults (S.seen source.new).faults result }
    {
        if self.ended {
            return Ok(0);
        }
        if self.room == 0 {
            self.stopped = Some(LineStop::TooMuch);
            return Err(LineStop::TooMuch);
        }
        match self.window.fill(source, self.room as usize) {
            Ok(n) => {
                self.room -= n as u64;
                self.ended = n == 0;
                Ok(n)
            }
            Err(Failed) => {
                self.stopped = Some(LineStop::Failed);
                Err(LineStop::Failed)
            }
        }
    }

    /// Takes bytes until the first line's end is held, or the line is too long, or none is left.
    fn read_end<S: Source>(&mut self, source: &mut S) -> Result<LineEnd, LineStop>
        requires { IsOpen self.old }
        ensures ok { IfOk result (Sought self.old (S.seen source.old).left self.new (S.seen source.new).left) }
        ensures prompt { HasLineEnd self.old.held → (source.new ≡ source.old) × EndIsFound result }
        ensures err { IfErr result (Halted self.old (S.seen source.old).left self.new (S.seen source.new).left) }
        ensures ended { self.old.ended ≡ true → (self.new ≡ self.old) × (source.new ≡ source.old) × IsOk result }
        ensures cause { FailHasCause (S.seen source.old).faults (S.seen source.new).faults result }
    {
        let mut seen = 0;
        'search: loop {
            if let Some(at) = end_from(self.held(), seen) {
                return Ok(LineEnd::At(at));
            }
            seen = self.held().len();
            if seen > MAX_LINE {
                return Ok(LineEnd::Far);
            }
            let n = self.fill(source)?;
            if n == 0 {
                return Ok(LineEnd::Nowhere);
            }
        }
    }

    /// Passes over the rest of a line, of which no end is held.
    fn skip_line<S: Source>(&mut self, source: &mut S) -> Result<(), LineStop>
        requires is_open { IsOpen self.old }
        requires no_end { NoLineEnd self.old.held }
        ensures ok { OnOk result (Skips self.old (S.seen source.old).left self.new (S.seen source.new).left) }
        ensures err { IfErr result (Halted self.old (S.seen source.old).left self.new (S.seen source.new).left) }
        ensures ended { self.old.ended ≡ true → (self.new.ended ≡ true) × (source.new ≡ source.old) × IsOk result }
        ensures cause { FailHasCause (S.seen source.old).faults (S.seen source.new).faults result }
    {
        'skip: loop {
            self.drop_held();
            let n = self.fill(source)?;
            if n == 0 {
                return Ok(());
            }
            if let Some(place) = end_from(self.held(), 0) {
                self.give(place + 1);
                return Ok(());
            }
        }
    }
}
