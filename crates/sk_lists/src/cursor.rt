//! A place in a posting list, which only moves on.
ghost use Rattle.std.specs.Prelude.{◌≡◌, ◌+◌, ◌<◌, ◌≤◌, ℕ, length, drop, get_or, min, [], true, false, Option, Some};
ghost use Rattle.sk_sorted.specs.Entries.{first_id, top_id};
ghost use Rattle.sk_sorted.specs.Runs.{flat};
ghost use Rattle.sk_chunks.specs.Postings.{first_wdf, is_below};
ghost use Rattle.sk_lists.specs.Lists.{Runs};
ghost use Rattle.sk_lists.specs.Seeks.{PassesPostings, ReadsPostings, count_below, IsSkipped, AreWithin};
ghost use Rattle.sk_lists.specs.Cursor.{unread, left, IsOn, IsReadTo};

use crate::{BlockMax, List};
use sk_chunks::Chunk;
use sk_sorted::first_reaching;
use sk_steps::Steps;
use std::sync::ledger::Ledger;

/// A place in a list and the entry there, its head. It holds no reference: `seek` is given the list that it is on.
#[derive(Debug, Drop)]
pub struct Cursor {
    run: usize,
    read: u32,
    head: Option<(u32, u32)>,
}

impl Cursor {
    /// A cursor on the list's first entry, which is read if there is one.
    pub fn open<L: Ledger>(list: &List, steps: &mut Steps<L>) -> Cursor
        ensures on { IsOn result list.now }

        ensures left { left result list.now ≡ flat list.now }
        ensures unread { unread result list.now ≡ drop 1 (flat list.now) }

        ensures cost { steps.new ≡ steps.old + min 1 (length (flat list.now)) }
    {
        if list.chunks() == 0 {
            return Cursor {
                run: 0,
                read: 0,
                head: None,
            };
        }
        let head = list.chunk(0).entry(0, steps);
        Cursor {
            run: 0,
            read: 1,
            head: Some(head),
        }
    }

    /// Moves on to an entry whose id is at least `target`, and answers how many entries it read. It may pass over entries
    /// from the target on whose wdf is below `need_wdf`. It finds its chunk without a reading, and reads in that.
    #[inline(always)]
    pub fn seek<L: Ledger>(
        &mut self,
        list: &List,
        target: u32,
        need_wdf: u32,
        steps: &mut Steps<L>,
    ) -> u32
        requires on { IsOn self.old list.now }
        ensures on { IsOn self.new list.now }

        // It passes over what lies below the target, or is lighter than what is needed, and over nothing else.
        ensures passes { PassesPostings target need_wdf (left self.old list.now) (left self.new list.now) }

        // What it reads stands together, none of it was read before, and one at most lies at the target or behind it.
        ensures reads { ReadsPostings target result (unread self.old list.now) (unread self.new list.now) }
        ensures once { result + length (unread self.new list.now) ≤ length (unread self.old list.now) }
        ensures most { result ≤ 128 }
        ensures cost { steps.new ≡ steps.old + result }

        // It reads no more than goes, counted up to the target or to any later id.
        ensures moves { (id : ℕ) → target ≤ id → result + count_below id (left self.new list.now) ≤ count_below id (left self.old list.now) }

        // It reads no entry without need.
        ensures stays { is_below target (left self.old list.now) ≡ false → (result ≡ 0) × (self.new ≡ self.old) }
    {
        if !self.is_below(target) {
            return 0;
        }
        self.advance(list, target, need_wdf, steps)
    }

    /// The same from a head that lies below the target, for one who keeps the head.
    #[inline(always)]
    pub fn advance<L: Ledger>(
        &mut self,
        list: &List,
        target: u32,
        need_wdf: u32,
        steps: &mut Steps<L>,
    ) -> u32
        requires on { IsOn self.old list.now }
        requires below { is_below target (left self.old list.now) ≡ true }
        ensures on { IsOn self.new list.now }
        ensures passes { PassesPostings target need_wdf (left self.old list.now) (left self.new list.now) }
        ensures reads { ReadsPostings target result (unread self.old list.now) (unread self.new list.now) }
        ensures once { result + length (unread self.new list.now) ≤ length (unread self.old list.now) }
        ensures most { result ≤ 128 }
        ensures cost { steps.new ≡ steps.old + result }
        ensures moves { (id : ℕ) → target ≤ id → result + count_below id (left self.new list.now) ≤ count_below id (left self.old list.now) }
    {
        let here = &list.as_slice()[self.run];
        if stops_in(here, target, need_wdf) {
            return self.read_on(here, target, steps);
        }
        let at = find(list, self.run + 1, target, need_wdf);
        self.run = at;
        if at == list.chunks() {
            self.head = None;
            return 0;
        }
        self.read = 0;
        self.read_on(list.chunk(at), target, steps)
    }

    /// The head's id; none where the cursor has ended.
    pub fn head(&self) -> Option<u32>
        ensures { (runs : Runs) → IsOn self.now runs → result ≡ first_id (left self.now runs) }
    {
        let head = self.head?;
        Some(head.0)
    }

    /// The head's wdf; 0 where the cursor has ended.
    pub fn wdf(&self) -> u32
        ensures { (runs : Runs) → IsOn self.now runs → result ≡ first_wdf (left self.now runs) }
    {
        match self.head {
            Some(head) => head.1,
            None => 0,
        }
    }

    fn is_below(&self, target: u32) -> bool
        ensures { (runs : Runs) → result ≡ is_below target (left self.now runs) }
    {
        match self.head {
            Some(head) => head.0 < target,
            None => false,
        }
    }

    /// How heavy the entries from the target on can be, as far as the heads of chunks tell: up to the end of the chunk that
    /// the target falls into. It reads none.
    #[inline(always)]
    pub fn block_max(&self, list: &List, target: u32) -> BlockMax
        requires on { IsOn self.now list.now }
        ensures reached { target ≤ result.last }
        ensures within { AreWithin target result.last result.greatest (left self.now list.now) }
    {
        if self.head.is_none() {
            return BlockMax::ended();
        }
        let here = &list.as_slice()[self.run];
        if target <= here.last() {
            return BlockMax::of(here);
        }
        let at = first_reaching(list.as_slice(), self.run + 1, target);
        if at == list.chunks() {
            return BlockMax::ended();
        }
        BlockMax::of(list.chunk(at))
    }

    /// Reads on in the chunk, up to the first entry at the target or behind it.
    fn read_on<L: Ledger>(&mut self, chunk: &Chunk, target: u32, steps: &mut Steps<L>) -> u32
        requires begins { self.old.read < length chunk.now }
        requires reaches { target ≤ top_id 0 chunk.now }
        ensures run { self.new.run ≡ self.old.run }
        ensures reads { IsReadTo target self.old.read self.new.read result self.new.head chunk.now }
        ensures most { result ≤ 128 }
        ensures cost { steps.new ≡ steps.old + result }
    {
        let _few = chunk.count();
        let mut read = self.read;
        'seek: loop {
            let entry = chunk.entry(read, steps);
            read += 1;
            if entry.0 >= target {
                let count = read - self.read;
                self.read = read;
                self.head = Some(entry);
                return count;
            }
        }
    }
}

/// Whether a seek reads in this chunk; where not, it may pass over it.
fn stops_in(chunk: &Chunk, target: u32, need_wdf: u32) -> bool
    ensures skips { result ≡ false → IsSkipped target need_wdf chunk.now }
    ensures stops { result ≡ true → target ≤ top_id 0 chunk.now }
{
    target <= chunk.last() && need_wdf <= chunk.greatest()
}

/// The first chunk from this one on that a seek may not pass over; their number where there is none.
#[inline(never)]
fn find(list: &List, run: usize, target: u32, need_wdf: u32) -> usize
    requires { run ≤ length list.now }
    ensures bound { (run ≤ result) × (result ≤ length list.now) }
    ensures skips { (k : ℕ) → run ≤ k → k < result → IsSkipped target need_wdf (get_or list.now k []) }
    ensures stops { result < length list.now → target ≤ top_id 0 (get_or list.now result []) }
{
    let count = list.chunks();
    let mut at = first_reaching(list.as_slice(), run, target);
    'chunks: while at < count {
        if need_wdf <= list.chunk(at).greatest() {
            return at;
        }
        at += 1;
    }
    count
}
