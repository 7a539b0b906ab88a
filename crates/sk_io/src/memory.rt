//! A source and a sink in memory, which fail where they are told to.
ghost use Rattle.std.specs.Prelude.{◌≡◌, ℕ, ◌<◌, ◌≤◌, ◌||◌, Bool, false, List, [], Option, Some, IfOk, MatchResult, is_ok, is_err, length, take};
ghost use Rattle.std.specs.Io.{ReadsAtMost, WritesAtMost};
ghost use Rattle.std.specs.Io.KnownBytes.{Keeps, ReadConsumes, WriteAppends};
ghost use Rattle.sk_io.specs.Causes.{counted, HasCause};
ghost use Rattle.sk_io.specs.Memory.{Feed, feed_fails, portion, fed, starved, Tray, tray_fails, is_over, share, served, spilt, closed, unclosed};

use crate::{Failed, Sink, Source};
use std::alloc::{AllocError, Global};
use std::marker::Model;

/// A source that gives the bytes of a `Vec`. `specs/Memory.antt` says what each call does.
#[derive(Debug, Drop)]
pub struct MemorySource {
    bytes: Vec<u8>,
    at: usize,
    most: usize,
    failing_calls: Vec<u64>,
    made: u64,
    failed: u64,
}

impl Model for MemorySource {
    ghost use Rattle.std.specs.Prelude.{◌≤◌, length, drop};
    ghost use Rattle.sk_io.specs.Memory.{Feed};

    ghost Value = { Feed };

    ghost view = { λ s. record { left = drop s.at s.bytes.items; piece = s.most; failing = s.failing_calls.items; calls = s.made; faults = s.failed } };

    ghost invariant = { λ s. (s.at ≤ length s.bytes.items) × (1 ≤ s.most) };
}

impl MemorySource {
    /// A source of `bytes` that gives at most `piece` of them a call, and fails exactly at the calls
    /// whose numbers, counted from 1, stand in `failing`.
    pub fn new(bytes: Vec<u8>, piece: usize, failing: Vec<u64>) -> MemorySource
        requires { 1 ≤ piece }
        ensures { result ≡ record { left = bytes.items; piece = piece; failing = failing.items; calls = 0; faults = 0 } }
    {
        MemorySource {
            bytes,
            at: 0,
            most: piece,
            failing_calls: failing,
            made: 0,
            failed: 0,
        }
    }
}

impl Source for MemorySource {
    ghost seen = { λ s. record { left = Some s.left; faults = s.faults } };

    fn take(&mut self, buf: &mut [u8]) -> Result<usize, Failed>
        requires { 0 < length buf.old }
        ensures bound { ReadsAtMost result buf.new }
        ensures bytes { ReadConsumes (Some self.old.left) (Some self.new.left) result buf.new }
        ensures cause { HasCause self.old.faults self.new.faults result }
        ensures fails { is_err result ≡ feed_fails self.old }
        ensures gives { IfOk result (λ n. n ≡ portion self.old (length buf.old)) }
        ensures after { MatchResult result (λ n. self.new ≡ fed self.old n) (λ _. self.new ≡ starved self.old) }
    {
        self.made = self.made.saturating_add(1);
        let call = self.made;
        if self.failing_calls.contains(&call) {
            self.failed = self.failed.saturating_add(1);
            return Err(Failed);
        }
        let n = buf.len().min(self.most).min(self.bytes.len() - self.at);
        buf[..n].copy_from_slice(&self.bytes[self.at..self.at + n]);
        self.at += n;
        Ok(n)
    }
}

/// A sink that keeps what it takes. `specs/Memory.antt` says what each call does.
#[derive(Debug, Drop)]
pub struct MemorySink {
    taken: Vec<u8>,
    most: usize,
    limit: usize,
    failing_calls: Vec<u64>,
    made: u64,
    failed: u64,
    done: bool,
    finished: u64,
}

impl Model for MemorySink {
    ghost use Rattle.std.specs.Prelude.{◌≤◌, vec_len, vec_capacity};
    ghost use Rattle.sk_io.specs.Memory.{Tray};

    ghost Value = { Tray };

    ghost view = { λ s. record { held = s.taken.items; piece = s.most; room = s.limit; failing = s.failing_calls.items; calls = s.made; faults = s.failed; settled = s.done; finishes = s.finished } };

    ghost invariant = { λ s. (vec_len s.taken ≤ s.limit) × (s.limit ≤ vec_capacity s.taken) × (1 ≤ s.most) };
}

impl MemorySink {
    /// A sink with memory for `room` bytes that takes at most `piece` of them a call. Calls are
    /// counted from 1, `put` and `finish` together, and those whose numbers stand in `failing` fail.
    pub fn new(
        alloc: Global,
        piece: usize,
        room: usize,
        failing: Vec<u64>,
    ) -> Result<MemorySink, AllocError>
        requires { 1 ≤ piece }
        ensures { IfOk result (λ sink. sink ≡ record { held = []; piece = piece; room = room; failing = failing.items; calls = 0; faults = 0; settled = false; finishes = 0 }) }
    {
        let taken = Vec::with_capacity(alloc, room)?;
        Ok(MemorySink {
            taken,
            most: piece,
            limit: room,
            failing_calls: failing,
            made: 0,
            failed: 0,
            done: false,
            finished: 0,
        })
    }

    /// The bytes that were taken.
    pub fn bytes(&self) -> &[u8]
        ensures { result.now ≡ self.now.held }
    {
        self.taken.as_slice()
    }
}

impl Sink for MemorySink {
    ghost seen = { λ s. record { held = Some s.held; faults = s.faults; finishes = s.finishes; settled = s.settled } };

    fn put(&mut self, piece: &[u8]) -> Result<usize, Failed>
        ensures bound { WritesAtMost result piece.now }
        ensures some { IfOk result (λ n. 0 < length piece.now → 0 < n) }
        ensures bytes { WriteAppends (Some self.old.held) (Some self.new.held) result piece.now }
        ensures settled { self.new.settled ≡ false }
        ensures finishes { self.new.finishes ≡ self.old.finishes }
        ensures cause { HasCause self.old.faults self.new.faults result }
        ensures fails { is_err result ≡ (tray_fails self.old || is_over self.old piece.now) }
        ensures takes { IfOk result (λ n. n ≡ share self.old piece.now) }
        ensures after { MatchResult result (λ n. self.new ≡ served self.old (take n piece.now)) (λ _. self.new ≡ spilt self.old) }
    {
        self.done = false;
        self.made = self.made.saturating_add(1);
        let call = self.made;
        let full = !piece.is_empty() && self.taken.len() == self.limit;
        if full || self.failing_calls.contains(&call) {
            self.failed = self.failed.saturating_add(1);
            return Err(Failed);
        }
        let n = piece
            .len()
            .min(self.most)
            .min(self.limit - self.taken.len());
        match self.taken.extend_from_slice(&piece[..n]) {
            Ok(()) => Ok(n),
            Err(_) => unreachable!(),
        }
    }

    fn finish(&mut self) -> Result<(), Failed>
        ensures bytes { Keeps (Some self.old.held) (Some self.new.held) }
        ensures settled { self.new.settled ≡ is_ok result }
        ensures finishes { self.new.finishes ≡ counted self.old.finishes }
        ensures cause { HasCause self.old.faults self.new.faults result }
        ensures fails { is_err result ≡ tray_fails self.old }
        ensures after { MatchResult result (λ _. self.new ≡ closed self.old) (λ _. self.new ≡ unclosed self.old) }
    {
        self.made = self.made.saturating_add(1);
        self.finished = self.finished.saturating_add(1);
        let call = self.made;
        if self.failing_calls.contains(&call) {
            self.failed = self.failed.saturating_add(1);
            self.done = false;
            return Err(Failed);
        }
        self.done = true;
        Ok(())
    }
}
