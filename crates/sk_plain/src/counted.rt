//! Documents that tell the numbers of the index by counting.
ghost use Rattle.std.specs.Prelude.{◌≡◌, ◌<◌, ◌^◌, length};

use crate::numbers::{greatest_of, length_of, live_of, slot_length_of};
use crate::wilds::{wild_greatest_of, wild_length_of};
use sk_base::{Doc, DocId, Stats};
use std::collections::BTreeMap;

/// Documents, no more than there are ids.
#[derive(Clone, Copy, Debug)]
pub struct Counted<'a> {
    docs: &'a BTreeMap<DocId, Doc>,
    ghost few: { length docs.now.entries < 2 ^ 32 },
}

impl<'a> Counted<'a> {
    pub fn new(docs: &'a BTreeMap<DocId, Doc>) -> Counted<'a>
        requires { length docs.now.entries < 2 ^ 32 }
        ensures { result.docs.now.entries ≡ docs.now.entries }
    {
        Counted { docs }
    }
}

impl Stats for Counted<'_> {
    ghost documents = { λ c. c.docs.now.entries };

    fn live(&self) -> u32 {
        live_of(self.docs) as u32
    }

    fn length(&self, term: &[u8]) -> u32 {
        length_of(term, self.docs) as u32
    }

    fn greatest(&self, term: &[u8]) -> u32 {
        greatest_of(term, self.docs)
    }

    fn wild_length(&self, prefix: &[u8]) -> u32 {
        wild_length_of(prefix, self.docs) as u32
    }

    fn wild_greatest(&self, prefix: &[u8]) -> u32 {
        wild_greatest_of(prefix, self.docs) as u32
    }

    fn slot_length(&self, slot: u32) -> u32 {
        slot_length_of(slot, self.docs) as u32
    }
}
