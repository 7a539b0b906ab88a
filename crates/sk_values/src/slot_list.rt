//! The values of one slot, in order of the documents' ids, in pieces.
ghost use Rattle.std.specs.Prelude.{◌≡◌, ◌+◌, ◌-◌, ◌≤◌, ◌<◌, ◌^◌, [], length, drop, get_or, true, IfOk, IsOk, OnOk, OnErr};
ghost use Rattle.std.specs.Option.{option_map};
ghost use Rattle.sk_sorted.specs.Entries.{put, without, found, has};
ghost use Rattle.sk_sorted.specs.Places.{id_at};
ghost use Rattle.sk_sorted.specs.Runs.{flat, AreRuns, IsPlace};
ghost use Rattle.sk_values.specs.SlotValues.{AreSlotValues, found_value, value_at_place};
ghost use Rattle.sk_values.specs.RangeCursor.{in_range};
ghost use Rattle.sk_values.specs.Behind.{greatest_in};
ghost use Rattle.sk_values.specs.Zones.{AreAmong};

use crate::bounds::Bounds;
use crate::range_cursor::entry;
use crate::span::Span;
use crate::value::Value;
use crate::zones::{Zone, lie_among, lie_outside, widen};
use sk_base::DocId;
use sk_pieces::{Copier, Piece, Pieces};
use sk_steps::Steps;
use std::alloc::{AllocError, Global};
use std::fmt::{Debug, Error, Formatter, Write};
use std::marker::Model;
use std::sync::ledger::Ledger;

/// The documents that have a value in one slot, with their values, in pieces of up to 128. Only `get` and `entry` show
/// a value.
#[derive(Drop)]
pub struct SlotList {
    entries: Pieces<Value>,
    zones: Vec<Zone>,
}

impl Model for SlotList {
    ghost use Rattle.sk_sorted.specs.Runs.{flat};
    ghost use Rattle.sk_values.specs.SlotValues.{SlotRuns, HaveValues};
    ghost use Rattle.sk_values.specs.Zones.{AreZoned};

    ghost Value = { SlotRuns };

    ghost view = { λ l. l.entries };

    ghost invariant = { λ l. HaveValues (flat l.entries) × AreZoned l.zones.items (flat l.entries) };
}

impl SlotList {
    /// A list in which no document has a value. It takes no memory.
    pub fn new(alloc: Global) -> SlotList
        ensures { result ≡ [] }
    {
        SlotList {
            entries: Pieces::new(alloc),
            zones: Vec::new(alloc),
        }
    }

    /// The same values in the same pieces, in memory of their own. It is no reading: it shows none of them.
    pub fn copy(&self, alloc: Global) -> Result<SlotList, AllocError>
        ensures { IfOk result (λ copy. copy ≡ self.now) }
    {
        let entries = self.entries.copy(&ValueCopier { alloc })?;
        let zones = self.zones.as_slice().to_vec(alloc)?;
        Ok(SlotList { entries, zones })
    }

    /// Gives the document this value. Only a new entry takes memory, and only entries of a few pieces move.
    pub fn set(&mut self, id: DocId, value: Value) -> Result<(), AllocError>
        requires begun { 1 ≤ id }
        requires some { 1 ≤ length value }
        ensures ok { OnOk result (flat self.new ≡ put id value (flat self.old)) }
        ensures err { OnErr result (self.new ≡ self.old) }
        ensures succeeds { has id (flat self.old) ≡ true → IsOk result }
    {
        widen(&mut self.zones, id, &value)?;
        self.entries.put(id, value)
    }

    /// Takes the document's value out, and answers whether there was one. It takes no memory.
    pub fn clear(&mut self, id: DocId) -> bool
        ensures after { flat self.new ≡ without id (flat self.old) }
        ensures there { result ≡ has id (flat self.old) }
    {
        self.entries.take(id).is_some()
    }

    /// How many documents have a value.
    pub fn length(&self) -> u32
        ensures value { result ≡ length (flat self.now) }
        ensures sound { AreSlotValues (flat self.now) }
        ensures runs { AreRuns self.now }
    {
        self.entries.length()
    }

    /// The document's value, empty where it has none. Either answer is one reading.
    pub fn get<L: Ledger>(&self, id: DocId, steps: &mut Steps<L>) -> &[u8]
        ensures value { result.now ≡ found_value id (flat self.now) }
        ensures cost { steps.new ≡ steps.old + 1 }
    {
        steps.tick();
        match self.entries.get(id) {
            Some(value) => value.as_slice(),
            None => &[],
        }
    }

    /// The entry at the place, counted from 0, for one reading. The pieces before its own are only asked how many entries
    /// they have.
    pub fn entry<L: Ledger>(&self, i: u32, steps: &mut Steps<L>) -> (DocId, &[u8])
        requires { i < length (flat self.now) }
        ensures id { result.0 ≡ id_at (flat self.now) i }
        ensures value { result.1.now ≡ value_at_place (flat self.now) i }
        ensures cost { steps.new ≡ steps.old + 1 }
    {
        let pieces = self.pieces();
        let (at, passed) = piece_at(pieces, i);
        let (id, value) = entry(&pieces[at], i - passed, steps);
        (id, value.as_slice())
    }

    /// The pieces.
    pub(crate) fn pieces(&self) -> &[Piece<Value>]
        ensures value { result.now ≡ self.now }
        ensures sound { AreRuns self.now }
    {
        self.entries.pieces()
    }

    /// Whether the zones tell that of the piece at the place no value from an entry on lies between the ends. It reads none.
    pub(crate) fn lies_outside(&self, at: usize, place: u32, bounds: &Bounds) -> bool
        requires there { at < length self.now }
        requires within { place ≤ length (get_or self.now at []) }
        ensures { result ≡ true → in_range bounds.now.lo bounds.now.hi (drop place (get_or self.now at [])) ≡ [] }
    {
        lie_outside(&self.zones, &self.entries.pieces()[at], place, bounds)
    }

    /// Whether they tell that of the piece at the place each value from an entry on is a number of the span. It reads none.
    pub(crate) fn lies_among(&self, at: usize, place: u32, span: &Span) -> bool
        requires there { at < length self.now }
        requires within { place ≤ length (get_or self.now at []) }
        requires fits { greatest_in span.now < 2 ^ 64 }
        requires few { span.now.width < 2 ^ 64 - 1 }
        ensures { result ≡ true → AreAmong span.now (drop place (get_or self.now at [])) }
    {
        lie_among(&self.zones, &self.entries.pieces()[at], place, span)
    }
}

/// The piece that has the entry at the place, and how many entries stand before that piece.
fn piece_at(pieces: &[Piece<Value>], i: u32) -> (usize, u32)
    requires { i < length (flat pieces.now) }
    ensures there { result.0 < length pieces.now }
    ensures place { IsPlace pieces.now result.0 0 result.1 }
    ensures before { result.1 ≤ i }
    ensures within { i < result.1 + length (get_or pieces.now result.0 []) }
{
    let mut at = 0usize;
    let mut passed = 0u32;
    'pieces: while i - passed >= pieces[at].count() {
        passed += pieces[at].count();
        at += 1;
    }
    (at, passed)
}

/// Copies values.
#[derive(Drop)]
struct ValueCopier {
    alloc: Global,
}

impl Copier<Value> for ValueCopier {
    fn copy(&self, x: &Value) -> Result<Value, AllocError> {
        x.copy(self.alloc)
    }
}

impl Debug for SlotList {
    fn fmt<W: Write>(&self, f: &mut Formatter<W>) -> Result<(), Error> {
        write!(f, "SlotList of {}", self.length())
    }
}
