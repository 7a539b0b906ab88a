//! The numbers that are known without a reading.
ghost use Rattle.std.specs.Prelude.{◌≡◌};
ghost use Rattle.sk_base.specs.Numbers.{Docs, live_of, length_of, greatest_of, wild_length_of, wild_greatest_of, slot_length_of};

/// Six numbers of the live documents of an index, which bounds are made of.
pub trait Stats {
    /// The live documents, by rising id.
    ghost documents: { Self → Docs };

    /// How many documents are live.
    fn live(&self) -> u32
        ensures { result ≡ live_of (documents self.now) };

    /// How many live documents have the term.
    fn length(&self, term: &[u8]) -> u32
        ensures { result ≡ length_of term.now (documents self.now) };

    /// The greatest wdf of the term in any of them, 0 where none has it.
    fn greatest(&self, term: &[u8]) -> u32
        ensures { result ≡ greatest_of term.now (documents self.now) };

    /// The sum of `length` over all terms that begin with the prefix, or `live` where that is less.
    fn wild_length(&self, prefix: &[u8]) -> u32
        ensures { result ≡ wild_length_of prefix.now (documents self.now) };

    /// The sum of `greatest` over the same terms, or 2^29 - 1 where that is less.
    fn wild_greatest(&self, prefix: &[u8]) -> u32
        ensures { result ≡ wild_greatest_of prefix.now (documents self.now) };

    /// How many live documents have a value in the slot.
    fn slot_length(&self, slot: u32) -> u32
        ensures { result ≡ slot_length_of slot (documents self.now) };
}
