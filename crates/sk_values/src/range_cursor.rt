//! A place in a slot's list, which only moves on, and stops only at values in a range.
ghost use Rattle.std.specs.Prelude.{◌≡◌, ◌≢◌, ◌+◌, ◌-◌, ◌≤◌, ◌<◌, ◌^◌, ◌⊎◌, [], ℕ, List, true, length, drop, get_or, Some, IfSome, IfNone};
ghost use Rattle.sk_sorted.specs.Entries.{from, first_id};
ghost use Rattle.sk_sorted.specs.Places.{id_at};
ghost use Rattle.sk_sorted.specs.Runs.{flat};
ghost use Rattle.sk_values.specs.SlotValues.{SlotRuns, value_at_place};
ghost use Rattle.sk_values.specs.Numbers.{IsNumber};
ghost use Rattle.sk_values.specs.Behind.{Skips, SkipsOn, greatest_in};
ghost use Rattle.sk_values.specs.Zones.{AreAmong};
ghost use Rattle.sk_values.specs.declared.span.Span.{Span};
ghost use Rattle.sk_values.specs.RangeCursor.{in_range, unread, readings, ahead, left, IsEndOf, IsHeadAt, IsPlaceIn, IsOn, is_head_below};

use crate::SlotList;
use crate::bounds::Bounds;
use crate::edge::{Edge, sift};
use crate::span::Span;
use crate::value::Value;
use sk_base::{Bytes, DocId};
use sk_pieces::Piece;
use sk_sorted::first_reaching;
use sk_steps::Steps;
use std::sync::ledger::Ledger;

/// A place in a list and the id there, its head. It holds no reference: `seek` is given the list that it is on.
#[derive(Debug, Drop)]
pub struct RangeCursor {
    place: Place,
    head: Option<DocId>,
    bounds: Bounds,
}

/// A place in a list, behind so many entries of a piece. It keeps how many of all entries it is behind, and how many of these
/// were read.
#[derive(Clone, Copy, Debug)]
struct Place {
    piece: usize,
    read: u32,
    passed: u32,
    readings: u32,
}

impl RangeCursor {
    /// A cursor on the first entry whose value lies between the ends. It passes over pieces of which their zones tell that
    /// they have no such value, and reads the others up to that entry.
    pub fn open<L: Ledger>(
        list: &SlotList,
        lo: Option<Bytes>,
        hi: Option<Bytes>,
        steps: &mut Steps<L>,
    ) -> RangeCursor
        ensures on { IsOn result list.now }
        ensures left { left result (flat list.now) ≡ in_range lo hi (flat list.now) }

        // What it read is none of the unread.
        ensures cost { steps.new ≡ steps.old + readings result }
        ensures once { readings result + length (unread result (flat list.now)) ≤ length (flat list.now) }
    {
        let front = Place {
            piece: 0,
            read: 0,
            passed: 0,
            readings: 0,
        };
        let bounds = Bounds::new(lo, hi);
        let (place, head) = stop_from(list, front, None, &bounds, steps);
        RangeCursor {
            place,
            head,
            bounds,
        }
    }

    /// Moves on to the first entry in the range whose id is at least `target`, and answers how many entries it read. It
    /// passes over whole pieces without a reading.
    pub fn seek<L: Ledger>(&mut self, list: &SlotList, target: DocId, steps: &mut Steps<L>) -> u32
        requires on { IsOn self.old list.now }
        ensures on { IsOn self.new list.now }

        // It passes over what is below the target at the front, and over nothing else in the range.
        ensures left { left self.new (flat list.now) ≡ from target (left self.old (flat list.now)) }

        // What it reads is some of the next entries from the target on, each once: none below that, and it never goes back.
        ensures unread { IsEndOf (unread self.new (flat list.now)) (from target (unread self.old (flat list.now))) }
        ensures within { result + length (unread self.new (flat list.now)) ≤ length (from target (unread self.old (flat list.now))) }
        ensures read { result + length (unread self.new (flat list.now)) ≤ length (unread self.old (flat list.now)) }
        ensures cost { steps.new ≡ steps.old + result }

        // It reads no entry without need.
        ensures stays { IfSome (first_id (left self.old (flat list.now))) (λ id. target ≤ id)
            → (result ≡ 0) × (self.new ≡ self.old) }
    {
        let _sound = list.length();
        if !self.is_below(target) {
            return 0;
        }
        let met = Some(self.place.piece);
        let place = place_from(list, self.place, target);
        let (stop, head) = stop_from(list, place, met, &self.bounds, steps);
        self.place = stop;
        self.head = head;
        stop.readings - place.readings
    }

    /// Moves past the head, and past the values in the range behind it as long as they are numbers that come behind another
    /// one: above it, or in reverse below it. Answers how many it passed over so, the head not counted; where it has ended, or
    /// the other is no number, `None`, and then it stays.
    pub fn skip_behind<L: Ledger>(
        &mut self,
        list: &SlotList,
        last: &[u8],
        reverse: bool,
        steps: &mut Steps<L>,
    ) -> Option<u32>
        requires on { IsOn self.old list.now }
        ensures on { IsOn self.new list.now }
        ensures none { IfNone result (self.new ≡ self.old) }
        ensures when { IfNone result ((left self.old (flat list.now) ≡ []) ⊎ (length last.now ≢ 8)) }
        ensures some { IfSome result (λ count. SkipsOn reverse last.now count (left self.old (flat list.now)) (left self.new (flat list.now))) }

        // What it read is some of what was unread, each once.
        ensures cost { steps.new + readings self.old ≡ steps.old + readings self.new }
        ensures once { readings self.new + length (unread self.new (flat list.now)) ≤ readings self.old + length (unread self.old (flat list.now)) }
        ensures later { readings self.old ≤ readings self.new }
    {
        let _head = self.head?;
        let edge = Edge::new(last, reverse)?;
        let met = Some(self.place.piece);
        let (place, head, count) = skip_from(list, self.place, met, &self.bounds, &edge, steps);
        self.place = place;
        self.head = head;
        Some(count)
    }

    /// The head's id; none where the cursor has ended.
    pub fn head(&self) -> Option<DocId>
        ensures { (list : SlotRuns) → IsOn self.now list → result ≡ first_id (left self.now (flat list)) }
    {
        self.head
    }

    /// How many entries it has read.
    pub fn readings(&self) -> u32
        ensures { result ≡ readings self.now }
    {
        self.place.readings
    }

    fn is_below(&self, target: DocId) -> bool
        ensures { result ≡ is_head_below target self.now.head }
    {
        match self.head {
            Some(id) => id < target,
            None => false,
        }
    }
}

/// The place of the first entry from a place on whose id is at least the target. Mostly that is the place itself. Else
/// its piece is found by last ids, and the pieces before that are only asked how many entries they have.
fn place_from(list: &SlotList, start: Place, target: DocId) -> Place
    requires { IsPlaceIn start list.now }
    ensures at { IsPlaceIn result list.now }
    ensures left { drop result.passed (flat list.now) ≡ from target (drop start.passed (flat list.now)) }
    ensures behind { start.passed ≤ result.passed }
    ensures unread { result.readings ≡ start.readings }
{
    let _sound = list.length();
    let pieces = list.pieces();
    if stands_at(pieces, start, target) {
        return start;
    }
    let at = first_reaching(pieces, start.piece, target);
    let mut place = start;
    'pieces: while place.piece < at {
        place.passed += pieces[place.piece].count() - place.read;
        place.piece += 1;
        place.read = 0;
    }
    if at < pieces.len() {
        let read = pieces[at].place_from(place.read, target);
        place.passed += read - place.read;
        place.read = read;
    }
    place
}

/// Whether the next entry of the piece has an id that is at least the target. It looks at the id alone.
fn stands_at(pieces: &[Piece<Value>], place: Place, target: DocId) -> bool
    requires { IsPlaceIn place pieces.now }
    ensures { result ≡ true → drop place.passed (flat pieces.now) ≡ from target (drop place.passed (flat pieces.now)) }
{
    if place.piece == pieces.len() {
        return false;
    }
    let entries = pieces[place.piece].as_slice();
    let next = place.read as usize;
    next < entries.len() && target <= entries[next].0
}

/// Where the zones tell that the rest of a place's piece has no value between the ends, the front of the next piece. A piece
/// of which it is known that it has one is not asked.
fn pass_outside(list: &SlotList, place: Place, met: Option<usize>, bounds: &Bounds) -> Option<Place>
    requires at { IsPlaceIn place list.now }
    requires there { place.piece < length list.now }
    ensures at { IfSome result (λ next. IsPlaceIn next list.now) }
    ensures next { IfSome result (λ next. next.piece ≡ place.piece + 1) }
    ensures left { IfSome result (λ next. in_range bounds.now.lo bounds.now.hi (drop next.passed (flat list.now)) ≡ in_range bounds.now.lo bounds.now.hi (drop place.passed (flat list.now))) }
    ensures behind { IfSome result (λ next. place.passed ≤ next.passed) }
    ensures unread { IfSome result (λ next. next.readings ≡ place.readings) }
{
    if met == Some(place.piece) || !list.lies_outside(place.piece, place.read, bounds) {
        return None;
    }
    Some(next_front(list, place))
}

/// Where the zones tell that all values of the rest of a place's piece lie between the ends and come behind the edge, the front
/// of the next piece. The span has such numbers.
fn pass_behind(list: &SlotList, place: Place, span: &Option<Span>) -> Option<Place>
    requires at { IsPlaceIn place list.now }
    requires there { place.piece < length list.now }
    requires span { IfSome span.now (λ s. (greatest_in s < 2 ^ 64) × (s.width < 2 ^ 64 - 1)) }
    ensures at { IfSome result (λ next. IsPlaceIn next list.now) }
    ensures next { IfSome result (λ next. next.piece ≡ place.piece + 1) }
    ensures among { IfSome result (λ next. (s : Span) × (span.now ≡ Some s) × AreAmong s (drop place.read (get_or list.now place.piece []))) }
    ensures behind { IfSome result (λ next. next.passed ≡ place.passed + (length (get_or list.now place.piece []) - place.read)) }
    ensures unread { IfSome result (λ next. next.readings ≡ place.readings) }
{
    let span = span.as_ref()?;
    if !list.lies_among(place.piece, place.read, span) {
        return None;
    }
    Some(next_front(list, place))
}

/// The front of the next piece.
fn next_front(list: &SlotList, place: Place) -> Place
    requires at { IsPlaceIn place list.now }
    requires there { place.piece < length list.now }
    ensures at { IsPlaceIn result list.now }
    ensures next { result.piece ≡ place.piece + 1 }
    ensures behind { result.passed ≡ place.passed + (length (get_or list.now place.piece []) - place.read) }
    ensures unread { result.readings ≡ place.readings }
{
    let count = list.pieces()[place.piece].count();
    Place {
        piece: place.piece + 1,
        read: 0,
        passed: place.passed + (count - place.read),
        readings: place.readings,
    }
}

/// Goes on from a place to the first value between the ends, and gives the place behind it with its id, or the end. Pieces in
/// which it cannot stand are passed over, and the others read.
fn stop_from<L: Ledger>(
    list: &SlotList,
    start: Place,
    met: Option<usize>,
    bounds: &Bounds,
    steps: &mut Steps<L>,
) -> (Place, Option<DocId>)
    requires at { IsPlaceIn start list.now }
    requires counted { start.readings ≤ start.passed }
    ensures at { IsPlaceIn result.0 list.now }
    ensures head { IsHeadAt bounds.now.lo bounds.now.hi result.1 result.0.passed (flat list.now) }
    ensures left { in_range bounds.now.lo bounds.now.hi (ahead result.1 result.0.passed (flat list.now))
        ≡ in_range bounds.now.lo bounds.now.hi (drop start.passed (flat list.now)) }
    ensures behind { start.passed ≤ result.0.passed }
    ensures cost { steps.new + start.readings ≡ steps.old + result.0.readings }
    ensures once { result.0.readings + start.passed ≤ start.readings + result.0.passed }
    ensures later { start.readings ≤ result.0.readings }
{
    let _sound = list.length();
    let pieces = list.pieces();
    let mut place = start;
    'pieces: while place.piece < pieces.len() {
        if let Some(next) = pass_outside(list, place, met, bounds) {
            place = next;
            continue;
        }
        let (read, head) = stop_in(&pieces[place.piece], place.read, bounds, steps);
        place.passed += read - place.read;
        place.readings += read - place.read;
        place.read = read;
        if head.is_some() {
            return (place, head);
        }
        place.piece += 1;
        place.read = 0;
    }
    (place, None)
}

/// The same within a piece.
fn stop_in<L: Ledger>(
    piece: &Piece<Value>,
    place: u32,
    bounds: &Bounds,
    steps: &mut Steps<L>,
) -> (u32, Option<DocId>)
    requires { place ≤ length piece.now }
    ensures head { IsHeadAt bounds.now.lo bounds.now.hi result.1 result.0 piece.now }
    ensures left { in_range bounds.now.lo bounds.now.hi (ahead result.1 result.0 piece.now)
        ≡ in_range bounds.now.lo bounds.now.hi (drop place piece.now) }
    ensures behind { place ≤ result.0 }
    ensures cost { steps.new + place ≡ steps.old + result.0 }
{
    let end = piece.count();
    let mut read = place;
    'entries: while read < end {
        let (id, value) = entry(piece, read, steps);
        read += 1;
        if bounds.contains(value) {
            return (read, Some(id));
        }
    }
    (end, None)
}

/// Goes on from a place to the first value between the ends that is not told to come behind the edge, and gives the place
/// behind it with its id, or the end; and how many values between the ends were passed over. Pieces of which the zones tell
/// that it cannot stand there are passed over unread.
fn skip_from<L: Ledger>(
    list: &SlotList,
    start: Place,
    met: Option<usize>,
    bounds: &Bounds,
    edge: &Edge,
    steps: &mut Steps<L>,
) -> (Place, Option<DocId>, u32)
    requires at { IsPlaceIn start list.now }
    requires counted { start.readings ≤ start.passed }
    ensures at { IsPlaceIn result.0 list.now }
    ensures head { IsHeadAt bounds.now.lo bounds.now.hi result.1 result.0.passed (flat list.now) }
    ensures skips { (last : List ℕ) → IsNumber edge.now.number last → Skips edge.now.reverse last result.2
        (in_range bounds.now.lo bounds.now.hi (drop start.passed (flat list.now)))
        (in_range bounds.now.lo bounds.now.hi (ahead result.1 result.0.passed (flat list.now))) }
    ensures behind { start.passed ≤ result.0.passed }
    ensures cost { steps.new + start.readings ≡ steps.old + result.0.readings }
    ensures once { result.0.readings + start.passed ≤ start.readings + result.0.passed }
    ensures later { start.readings ≤ result.0.readings }
{
    let _sound = list.length();
    let pieces = list.pieces();
    let mut place = start;
    let mut count = 0u32;
    let behind = edge.behind(bounds);
    'pieces: while place.piece < pieces.len() {
        if let Some(next) = pass_outside(list, place, met, bounds) {
            place = next;
            continue;
        }
        if let Some(next) = pass_behind(list, place, &behind) {
            count += next.passed - place.passed;
            place = next;
            continue;
        }
        let (read, head, few) = skip_in(&pieces[place.piece], place.read, bounds, edge, steps);
        place.passed += read - place.read;
        place.readings += read - place.read;
        place.read = read;
        count += few;
        if head.is_some() {
            return (place, head, count);
        }
        place.piece += 1;
        place.read = 0;
    }
    (place, None, count)
}

/// The same within a piece.
fn skip_in<L: Ledger>(
    piece: &Piece<Value>,
    place: u32,
    bounds: &Bounds,
    edge: &Edge,
    steps: &mut Steps<L>,
) -> (u32, Option<DocId>, u32)
    requires { place ≤ length piece.now }
    ensures head { IsHeadAt bounds.now.lo bounds.now.hi result.1 result.0 piece.now }
    ensures skips { (last : List ℕ) → IsNumber edge.now.number last → Skips edge.now.reverse last result.2
        (in_range bounds.now.lo bounds.now.hi (drop place piece.now))
        (in_range bounds.now.lo bounds.now.hi (ahead result.1 result.0 piece.now)) }
    ensures few { place + result.2 ≤ result.0 }
    ensures cost { steps.new + place ≡ steps.old + result.0 }
{
    let spans = edge.spans(bounds);
    let end = piece.count();
    let mut read = place;
    let mut count = 0u32;
    'entries: while read < end {
        let (id, value) = entry(piece, read, steps);
        read += 1;
        let (is_in, is_wanted) = sift(value, bounds, edge, &spans);
        if is_wanted {
            return (read, Some(id), count);
        }
        count += u32::from(is_in);
    }
    (end, None, count)
}

/// Reads the entry at this place of a piece, counted from 0. All that a cursor reads it reads by this.
pub(crate) fn entry<'a, L: Ledger>(
    piece: &'a Piece<Value>,
    i: u32,
    steps: &mut Steps<L>,
) -> (DocId, &'a Value)
    requires { i < length piece.now }
    ensures id { result.0 ≡ id_at piece.now i }
    ensures value { result.1.now ≡ value_at_place piece.now i }
    ensures cost { steps.new ≡ steps.old + 1 }
{
    let entry = &piece.as_slice()[i as usize];
    steps.tick();
    (entry.0, &entry.1)
}
