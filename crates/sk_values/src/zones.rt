//! What the values of some ids in a row have in common: zones, by which a cursor passes over values unread.
ghost use Rattle.std.specs.Prelude.{◌≡◌, ◌≤◌, ◌<◌, ◌-◌, ◌^◌, ℕ, List, Option, [], true, false, not, length, drop, IfSome, IsOk, OnOk};
ghost use Rattle.sk_sorted.specs.Entries.{top_id};
ghost use Rattle.sk_values.specs.Numbers.{IsLeast, IsGreatest};
ghost use Rattle.sk_values.specs.RangeCursor.{in_range};
ghost use Rattle.sk_values.specs.declared.zones.Zone.{Zone};
ghost use Rattle.sk_values.specs.Behind.{greatest_in};
ghost use Rattle.sk_values.specs.Zones.{zone_of, zone_at, meets, lies_in, TellsOf, IsWider, AreWider, IsToldAt, AreZoned, IsPart, AreAmong};

use crate::bounds::Bounds;
use crate::span::Span;
use crate::value::Value;
use sk_base::DocId;
use sk_pieces::Piece;
use std::alloc::AllocError;

/// So many ids lie in a zone, as many as a piece has entries at most: where each document has a value, pieces are zones.
const IDS: u32 = 128;

/// Where the ids of a piece lie in more zones than so many, its values are far from each other, and it is read.
const MOST_ZONES: usize = 8;

/// Some ids in a row: no value that a document of them has is a number below the least, or above the greatest. Where one is
/// no number, these are all numbers. A value that went, or was replaced, leaves its zone as wide as it was.
#[derive(Clone, Copy)]
pub(crate) struct Zone {
    least: u64,
    greatest: u64,
}

impl Zone {
    /// No value.
    const EMPTY: Zone = Zone {
        least: u64::MAX,
        greatest: 0,
    };

    /// Makes it so wide that it tells of this value too.
    fn widen(&mut self, value: &Value)
        ensures tells { TellsOf value.now self.new }
        ensures wider { IsWider self.old self.new }
    {
        let (least, greatest) = ends_of(value);
        self.least = self.least.min(least);
        self.greatest = self.greatest.max(greatest);
    }

    /// Whether none of these numbers is one of its own.
    fn misses(&self, least: u64, greatest: u64) -> bool
        ensures { result ≡ not (meets self.now least greatest) }
    {
        self.greatest < least || greatest < self.least
    }

    /// Whether each of its numbers is one of the span.
    fn lies_in(&self, span: &Span) -> bool
        requires { greatest_in span.now < 2 ^ 64 }
        ensures { result ≡ lies_in span.now self.now }
    {
        span.has(self.least) && span.has(self.greatest)
    }
}

/// The least number of a zone of one value, and the greatest.
fn ends_of(value: &Value) -> (u64, u64)
    ensures { (z : Zone) → z.least ≤ result.0 → result.1 ≤ z.greatest → TellsOf value.now z }
{
    match value.number() {
        Some(n) => (n, n),
        None => (0, u64::MAX),
    }
}

/// The place of the zone in which the id lies.
fn zone_of(id: DocId) -> usize
    ensures { result ≡ zone_of id }
{
    (id.saturating_sub(1) / IDS) as usize
}

/// Makes the id's zone so wide that it tells of this value. Only a zone that is not there takes memory.
pub(crate) fn widen(zones: &mut Vec<Zone>, id: DocId, value: &Value) -> Result<(), AllocError>
    ensures told { OnOk result (IsToldAt zones.new.items id value.now) }
    ensures wider { AreWider zones.old.items zones.new.items }
    ensures succeeds { zone_of id < length zones.old.items → IsOk result }
{
    let at = zone_of(id);
    'zones: while zones.len() <= at {
        zones.push(Zone::EMPTY)?;
    }
    zones[at].widen(value);
    Ok(())
}

/// Whether the zones tell that of a piece no value from a place on lies between the ends.
pub(crate) fn lie_outside(zones: &[Zone], piece: &Piece<Value>, place: u32, bounds: &Bounds) -> bool
    requires within { place ≤ length piece.now }
    requires zoned { AreZoned zones.now piece.now }
    ensures { result ≡ true → in_range bounds.now.lo bounds.now.hi (drop place piece.now) ≡ [] }
{
    match bounds.numbers() {
        Some((least, greatest)) => lie_apart(zones, piece, place, least, greatest),
        None => false,
    }
}

/// The same where the range has the numbers from the least on to the greatest.
fn lie_apart(zones: &[Zone], piece: &Piece<Value>, place: u32, least: u64, greatest: u64) -> bool
    requires within { place ≤ length piece.now }
    requires zoned { AreZoned zones.now piece.now }
    ensures { result ≡ true → (lo hi : Option (List ℕ)) → IsLeast lo least → IsGreatest hi greatest → in_range lo hi (drop place piece.now) ≡ [] }
{
    let Some(first) = piece.as_slice().get(place as usize) else {
        return true;
    };
    let from = zone_of(first.0);
    if !misses_at(zones, from, least, greatest) {
        return false;
    }
    match zones_from(zones, from, piece) {
        Some(zones) => all_miss(zones, least, greatest),
        None => false,
    }
}

/// Whether the zones tell that each value of a piece from a place on is a number of the span.
pub(crate) fn lie_among(zones: &[Zone], piece: &Piece<Value>, place: u32, span: &Span) -> bool
    requires within { place ≤ length piece.now }
    requires zoned { AreZoned zones.now piece.now }
    requires fits { greatest_in span.now < 2 ^ 64 }
    requires few { span.now.width < 2 ^ 64 - 1 }
    ensures { result ≡ true → AreAmong span.now (drop place piece.now) }
{
    let Some(first) = piece.as_slice().get(place as usize) else {
        return true;
    };
    let from = zone_of(first.0);
    if !lies_at(zones, from, span) {
        return false;
    }
    match zones_from(zones, from, piece) {
        Some(zones) => all_lie_in(zones, span),
        None => false,
    }
}

/// The zones from a place on to that of a piece's last id; none where these are many.
fn zones_from<'a>(zones: &'a [Zone], from: usize, piece: &Piece<Value>) -> Option<&'a [Zone]>
    requires { from ≤ zone_of (top_id 0 piece.now) }
    ensures { IfSome result (λ part. IsPart zones.now part.now from (zone_of (top_id 0 piece.now))) }
{
    let to = zone_of(piece.last());
    if to - from >= MOST_ZONES {
        return None;
    }
    zones.get(from..to + 1)
}

/// Whether the zone at a place has none of these numbers. Mostly it has some, and then no other zone is asked.
fn misses_at(zones: &[Zone], at: usize, least: u64, greatest: u64) -> bool
    ensures { result ≡ true → meets (zone_at zones.now at) least greatest ≡ false }
{
    match zones.get(at) {
        Some(zone) => zone.misses(least, greatest),
        None => false,
    }
}

/// Whether the zone at a place lies in the span. Mostly it does not, and then no other zone is asked.
fn lies_at(zones: &[Zone], at: usize, span: &Span) -> bool
    requires { greatest_in span.now < 2 ^ 64 }
{
    match zones.get(at) {
        Some(zone) => zone.lies_in(span),
        None => false,
    }
}

/// Whether none of these numbers is one of the zones'.
fn all_miss(zones: &[Zone], least: u64, greatest: u64) -> bool
    ensures { result ≡ true → (k : ℕ) → k < length zones.now → meets (zone_at zones.now k) least greatest ≡ false }
{
    zones.iter().all(|zone| zone.misses(least, greatest))
}

/// Whether each of the zones lies in the span.
fn all_lie_in(zones: &[Zone], span: &Span) -> bool
    requires { greatest_in span.now < 2 ^ 64 }
    ensures { result ≡ true → (k : ℕ) → k < length zones.now → lies_in span.now (zone_at zones.now k) ≡ true }
{
    zones.iter().all(|zone| zone.lies_in(span))
}
