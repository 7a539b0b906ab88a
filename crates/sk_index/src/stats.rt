//! The numbers of an index that are known without a reading.
ghost use Rattle.std.specs.Prelude.{◌≡◌};
ghost use Rattle.sk_base.specs.Numbers.{live_of, length_of, greatest_of, wild_length_of, wild_greatest_of, slot_length_of};

use crate::Index;
use sk_base::{MOST_WDF, Stats};
use sk_terms::Figure;

impl Stats for Index {
    ghost documents = { λ i. i.live.documents };

    fn live(&self) -> u32 {
        self.all().length()
    }

    fn length(&self, term: &[u8]) -> u32 {
        self.term_lists().figure(term, Figure::Length)
    }

    fn greatest(&self, term: &[u8]) -> u32 {
        self.term_lists().figure(term, Figure::Greatest)
    }

    fn wild_length(&self, prefix: &[u8]) -> u32 {
        self.term_lists()
            .sum(prefix, Figure::Length, self.all().length())
    }

    fn wild_greatest(&self, prefix: &[u8]) -> u32 {
        self.term_lists().sum(prefix, Figure::Greatest, MOST_WDF)
    }

    fn slot_length(&self, slot: u32) -> u32 {
        self.slot_lists().list(slot).length()
    }
}
