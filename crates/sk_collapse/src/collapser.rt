//! The kept matches of each key.
ghost use Rattle.std.specs.Prelude.{◌≡◌, ◌≢◌, ◌<◌, ◌≤◌, ◌+◌, ◌-◌, ◌^◌, ℕ, List, [], ◌∷◌, length, bytes_eq, false, None, All, IfOk, OnOk, OnErr, option_to_list};
ghost use Rattle.std.specs.Ordering.{nat_cmp};
ghost use Rattle.std.specs.Cmp.Lexicographic.{slice_cmp};
ghost use Rattle.std.specs.Map.{lookup, values_of};
ghost use Rattle.std.specs.BTreeMap.{is_at};
ghost use Rattle.sk_base.specs.declared.rank.Rank.{Rank};
ghost use Rattle.sk_collapse.specs.Collapsed.{Knows, group_of};
ghost use Rattle.sk_collapse.specs.Verdicts.{KnowsMore, verdict_of};
ghost use Rattle.sk_collapse.specs.Groups.{groups_of, fallen, group_with, AreAlike};
ghost use Rattle.sk_heap.specs.Held.{ranks_of};

use crate::group::KeyGroup;
use crate::verdict::Verdict;
use sk_base::{Bytes, DocId, Order, Rank};
use sk_heap::Hit;
use std::alloc::{AllocError, Global};
use std::collections::BTreeMap;
use std::marker::Model;

/// The kept matches of each key that was seen, and how many were dropped. Matches of the empty key are all kept, and
/// only counted.
#[derive(Drop)]
pub struct Collapser {
    alloc: Global,
    order: Order,
    most: u32,
    seen: u32,
    kept: u32,
    groups: BTreeMap<Vec<u8>, KeyGroup>,
}

impl Model for Collapser {
    ghost use Rattle.std.specs.Prelude.{◌≤◌};
    ghost use Rattle.std.specs.Map.{values_of};
    ghost use Rattle.sk_collapse.specs.Collapsed.{Collapsed};
    ghost use Rattle.sk_collapse.specs.Groups.{groups_of, AreAlike};

    ghost Value = { Collapsed };

    ghost invariant = { λ c. (c.kept ≤ c.seen) × AreAlike c.order c.most c.seen (values_of c.groups.entries) };

    ghost view = { λ c. record { order = c.order; most = c.most; seen = c.seen; kept = c.kept; groups = groups_of c.groups.entries } };
}

impl Collapser {
    /// Nothing seen. It takes no memory.
    pub fn new(alloc: Global, most: u32, order: Order) -> Collapser
        requires { 1 ≤ most }
        ensures value { (result.order ≡ order) × (result.most ≡ most) × (result.seen ≡ 0) }
        ensures knows { (key : Rank → List ℕ) → Knows result key [] }
    {
        Collapser {
            alloc,
            order,
            most,
            seen: 0,
            kept: 0,
            groups: BTreeMap::new(alloc),
        }
    }

    /// Sees a match under its key. Without memory nothing changes.
    pub fn see(&mut self, key: &[u8], rank: &Rank) -> Result<Verdict, AllocError>
        requires few { self.old.seen + 1 < 2 ^ 32 }
        requires light { rank.now.weight < 2 ^ 127 }
        requires differs { (k : List ℕ) → 0 < length k → All (λ r. r.id ≢ rank.now.id) (group_of k self.old.groups).kept }
        ensures same { IfOk result (λ verdict. (self.new.order ≡ self.old.order) × (self.new.most ≡ self.old.most) × (self.new.seen ≡ self.old.seen + 1)) }
        ensures knows { IfOk result (λ verdict. KnowsMore self.old self.new verdict key.now rank.now) }
        ensures err { OnErr result (self.new ≡ self.old) }
    {
        if key.is_empty() {
            self.seen += 1;
            self.kept += 1;
            return Ok(Verdict::Keep);
        }
        let hit = Hit {
            rank: copy_of(self.alloc, rank)?,
            key: Bytes::empty(self.alloc),
        };
        let gone = put(
            self.alloc,
            &mut self.groups,
            self.most,
            self.order,
            key,
            hit,
        )?;
        self.seen += 1;
        if gone.is_none() {
            self.kept += 1;
        }
        Ok(verdict_of(rank.id, gone))
    }

    /// How many matches are kept of those that were seen.
    pub fn kept(&self) -> u32
        ensures { result ≡ self.now.kept }
    {
        self.kept
    }

    /// How many are not.
    pub fn duplicates(&self) -> u32
        ensures { result ≡ self.now.seen - self.now.kept }
    {
        self.seen - self.kept
    }

    /// How many of this key are not, 0 where the key is empty.
    pub fn dropped(&self, key: &[u8]) -> u32
        ensures { result ≡ (group_of key.now self.now.groups).dropped }
    {
        match self.groups.get(key) {
            Some(group) => group.dropped,
            None => 0,
        }
    }
}

/// What becomes of the match with this id, where this falls out of the best of its key.
fn verdict_of(id: DocId, gone: Option<Hit>) -> Verdict
    ensures { result ≡ verdict_of id (ranks_of (option_to_list gone)) }
{
    match gone {
        None => Verdict::Keep,
        Some(hit) => {
            if hit.rank.id == id {
                Verdict::Drop
            } else {
                Verdict::KeepFor(hit.rank.id)
            }
        }
    }
}

fn copy_of(alloc: Global, rank: &Rank) -> Result<Rank, AllocError>
    ensures { IfOk result (λ copy. copy ≡ rank.now) }
{
    let value = Bytes::new(alloc, rank.value.as_slice())?;
    Ok(Rank {
        weight: rank.weight,
        value,
        id: rank.id,
    })
}

/// Shows the match to the group of its key, and hands back what falls out. Without memory the groups stay.
fn put(
    alloc: Global,
    groups: &mut BTreeMap<Vec<u8>, KeyGroup>,
    most: u32,
    order: Order,
    key: &[u8],
    hit: Hit,
) -> Result<Option<Hit>, AllocError>
    requires alike { AreAlike order most (2 ^ 32 - 2) (values_of groups.old.entries) }
    requires light { hit.rank.weight < 2 ^ 127 }
    requires differs { All (λ r. r.id ≢ hit.rank.id) (group_of key.now (groups_of groups.old.entries)).kept }
    ensures here { OnOk result (group_of key.now (groups_of groups.new.entries) ≡ group_with order most hit.rank (group_of key.now (groups_of groups.old.entries))) }
    ensures others { OnOk result ((k : List ℕ) → bytes_eq key.now k ≡ false → group_of k (groups_of groups.new.entries) ≡ group_of k (groups_of groups.old.entries)) }
    ensures alike { OnOk result ((seen : ℕ) → AreAlike order most seen (values_of groups.old.entries) → AreAlike order most (seen + 1) (values_of groups.new.entries)) }
    ensures gone { IfOk result (λ gone. ranks_of (option_to_list gone) ≡ fallen order most hit.rank (group_of key.now (groups_of groups.old.entries)).kept) }
    ensures err { OnErr result (groups.new.entries ≡ groups.old.entries) }
{
    match groups.get_mut(key) {
        Some(group) => group.put(hit),
        None => put_new(alloc, groups, most, order, key, hit),
    }
}

/// The same for the first match of a key.
fn put_new(
    alloc: Global,
    groups: &mut BTreeMap<Vec<u8>, KeyGroup>,
    most: u32,
    order: Order,
    key: &[u8],
    hit: Hit,
) -> Result<Option<Hit>, AllocError>
    requires none { lookup (is_at (λ k. slice_cmp nat_cmp key.now k.items)) groups.old.entries ≡ None }
    requires light { hit.rank.weight < 2 ^ 127 }
    ensures here { OnOk result (group_of key.now (groups_of groups.new.entries) ≡ group_with order most hit.rank (group_of key.now (groups_of groups.old.entries))) }
    ensures others { OnOk result ((k : List ℕ) → bytes_eq key.now k ≡ false → group_of k (groups_of groups.new.entries) ≡ group_of k (groups_of groups.old.entries)) }
    ensures alike { OnOk result ((seen : ℕ) → AreAlike order most seen (values_of groups.old.entries) → AreAlike order most (seen + 1) (values_of groups.new.entries)) }
    ensures gone { IfOk result (λ gone. ranks_of (option_to_list gone) ≡ fallen order most hit.rank (group_of key.now (groups_of groups.old.entries)).kept) }
    ensures err { OnErr result (groups.new.entries ≡ groups.old.entries) }
{
    let key = key.to_vec(alloc)?;
    let mut group = KeyGroup::new(alloc, most, order);
    let gone = group.put(hit)?;
    groups.insert(key, group)?;
    Ok(gone)
}
