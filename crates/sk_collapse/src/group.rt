//! The kept matches of one key.
ghost use Rattle.std.specs.Prelude.{◌≡◌, ◌≢◌, ◌<◌, ◌≤◌, ◌+◌, ◌^◌, [], All, IfOk, OnOk, OnErr, option_to_list};
ghost use Rattle.sk_heap.specs.Held.{ranks_of};
ghost use Rattle.sk_collapse.specs.Groups.{group_in, fallen, group_with};

use sk_base::Order;
use sk_heap::{Hit, ResultHeap};
use std::alloc::{AllocError, Global};

/// The best matches of a key, and how many others it had.
#[derive(Drop)]
pub struct KeyGroup {
    pub best: ResultHeap,
    pub dropped: u32,
}

impl KeyGroup {
    /// No match. It takes no memory.
    pub fn new(alloc: Global, most: u32, order: Order) -> KeyGroup
        ensures alike { (result.best.order ≡ order) × (result.best.most ≡ most) }
        ensures none { group_in result ≡ record { kept = []; dropped = 0 } }
    {
        KeyGroup {
            best: ResultHeap::new(alloc, most, order),
            dropped: 0,
        }
    }

    /// Sees one match more, and hands back what falls out. Without memory nothing changes.
    pub fn put(&mut self, hit: Hit) -> Result<Option<Hit>, AllocError>
        requires few { self.old.dropped + 1 < 2 ^ 32 }
        requires differs { All (λ r. r.id ≢ hit.rank.id) (group_in self.old).kept }
        requires light { hit.rank.weight < 2 ^ 127 }
        ensures alike { (self.new.best.order ≡ self.old.best.order) × (self.new.best.most ≡ self.old.best.most) }
        ensures held { OnOk result (group_in self.new ≡ group_with self.old.best.order self.old.best.most hit.rank (group_in self.old)) }
        ensures gone { IfOk result (λ gone. ranks_of (option_to_list gone) ≡ fallen self.old.best.order self.old.best.most hit.rank (group_in self.old).kept) }
        ensures few { self.new.dropped ≤ self.old.dropped + 1 }
        ensures err { OnErr result (self.new ≡ self.old) }
    {
        self.best.grow()?;
        let gone = self.best.offer(hit);
        if gone.is_some() {
            self.dropped += 1;
        }
        Ok(gone)
    }
}
