//! What stands near: operands, each with its positions.
ghost use Rattle.std.specs.Prelude.{◌≡◌, ◌<◌, ℕ, List, [], length, slice_index_or};
ghost use Rattle.std.specs.List.{AllPairs};

/// Operands with the places where each stands in a document.
pub trait Operands {
    /// The positions of each operand, in the order of the operands.
    ghost places: { Self → List (List ℕ) };

    /// How many operands there are.
    fn count(&self) -> usize
        ensures { result ≡ length (places self.now) };

    /// The positions of the operand.
    fn positions(&self, i: usize) -> &[u32]
        requires { i < length (places self.now) }
        ensures value { result.now ≡ slice_index_or (places self.now) i [] }
        ensures rising { AllPairs (λ a b. a < b) result.now };
}
