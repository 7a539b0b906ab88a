//! A bucket queue of lists.
ghost use Rattle.std.specs.Prelude.{◌≡◌, ◌≤◌, ◌<◌, ◌^◌, length, set, slice_index_or, IfOk};
ghost use Rattle.sk_buckets.specs.declared.mark.Mark.{Mark};
ghost use Rattle.sk_buckets.specs.Marks.{first_head, weight_at, greatest_of, IsMark, AreMarks};

use crate::bucket::Bucket;
use crate::deal::{advance, deal, enter, greatest, least_head, leave};
use crate::mark::{END, First, Mark};
use std::alloc::{AllocError, Global};
use std::marker::Model;

/// There are so many buckets at least.
const LEAST_BUCKETS: usize = 128;

/// Up to so many there are several for each list, so that all lists are seldom dealt out anew.
const SEVERAL_BUCKETS: usize = 2048;

const FOR_EACH_LIST: usize = 4;

/// Lists by the id at which each stands: a bucket queue. Contracts see the marks alone, in the order in which they were
/// given; a list goes by its place among them.
#[derive(Drop)]
pub struct Buckets {
    marks: Vec<Mark>,
    greatest: u64,
    // A window of ids, the first of which is `base`, has a bucket for each. The buckets before `at` are empty. A list
    // that stands behind the window is in no bucket.
    base: u64,
    at: usize,
    buckets: Vec<Bucket>,
    // By a list's number, the list that follows it in its bucket.
    next: Vec<u32>,
}

impl Model for Buckets {
    ghost use Rattle.std.specs.Prelude.{List};
    ghost use Rattle.sk_buckets.specs.declared.mark.Mark.{Mark};

    ghost Value = { List Mark };

    ghost use Rattle.sk_buckets.specs.Dealt.{AreBuckets};

    ghost view = { λ b. b.marks.items };

    ghost invariant = { λ b. AreBuckets b.marks.items b.greatest b.base b.at b.buckets.items b.next.items };
}

impl Buckets {
    /// The lists, each at its mark. All memory is taken here.
    pub fn new(alloc: Global, marks: Vec<Mark>) -> Result<Buckets, AllocError>
        requires { AreMarks marks.items }
        ensures { IfOk result (λ b. b ≡ marks.items) }
    {
        let count = marks.len();
        let mut buckets = vec![in alloc; Bucket::EMPTY; room_for(count)]?;
        let mut next = vec![in alloc; 0u32; count]?;
        let greatest = greatest(&marks);
        let base = least_head(&marks);
        deal(&marks, base, &mut buckets, &mut next);
        Ok(Buckets {
            marks,
            greatest,
            base,
            at: 0,
            buckets,
            next,
        })
    }

    /// Where each list stands.
    pub fn marks(&self) -> &[Mark]
        ensures value { result.now ≡ self.now }
        ensures sound { AreMarks self.now }
    {
        self.marks.as_slice()
    }

    /// The first id at which lists stand, what they weigh there together, and one of them; where all have ended `END`, and
    /// then the rest means nothing.
    pub fn first(&mut self) -> First
        ensures same { self.new ≡ self.old }
        ensures head { result.head ≡ first_head self.old }
        ensures weight { result.head < 2 ^ 32 → result.weight ≡ weight_at result.head self.old }
        ensures there { result.head < 2 ^ 32 → result.which < length self.old }
        ensures which { result.head < 2 ^ 32 → (d : Mark) → (slice_index_or self.old result.which d).head ≡ result.head }
    {
        if self.marks.is_empty() {
            return First {
                head: END,
                weight: 0,
                which: 0,
            };
        }
        (self.base, self.at) = advance(
            &self.marks,
            self.base,
            self.at,
            &mut self.buckets,
            &mut self.next,
        );
        let bucket = &self.buckets[self.at];
        First {
            head: self.base + self.at as u64,
            weight: bucket.weight,
            which: bucket.first as usize,
        }
    }

    /// Moves the list on. It takes constant time for the list that `first` tells.
    pub fn set(&mut self, which: usize, mark: Mark)
        requires there { which < length self.old }
        requires is { IsMark mark }
        requires later { (slice_index_or self.old which mark).head ≤ mark.head }
        requires falls { mark.greatest ≤ (slice_index_or self.old which mark).greatest }
        ensures { self.new ≡ set self.old which mark }
    {
        leave(
            &self.marks,
            self.base,
            &mut self.buckets,
            &mut self.next,
            which,
        );
        self.greatest -= u64::from(self.marks[which].greatest - mark.greatest);
        self.marks[which] = mark;
        enter(
            &self.marks,
            self.base,
            &mut self.buckets,
            &mut self.next,
            which,
        );
    }

    /// What all can weigh together. It is kept, and not counted.
    pub fn greatest(&self) -> u64
        ensures { result ≡ greatest_of self.now }
    {
        self.greatest
    }
}

/// How many buckets so many lists have.
fn room_for(count: usize) -> usize
    ensures { 0 < result }
{
    let several = count.saturating_mul(FOR_EACH_LIST).min(SEVERAL_BUCKETS);
    several.max(count).max(LEAST_BUCKETS)
}
