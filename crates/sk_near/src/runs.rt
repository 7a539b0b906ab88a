//! Operands of which equal ones are known.
ghost use Rattle.std.specs.Prelude.{◌≡◌, ◌<◌, ◌≤◌, ℕ, [], length, slice_index_or};

use sk_base::Operands;

/// Operands of which it is known where equal ones stand one behind another.
pub trait Runs: Operands {
    /// Where a run of equal operands ends that begins with this one. A run may be told shorter than it is.
    fn run_end(&self, i: usize) -> usize
        requires { i < length (Self.places self.now) }
        ensures behind { i < result }
        ensures within { result ≤ length (Self.places self.now) }
        ensures equal { (j : ℕ) → i ≤ j → j < result → slice_index_or (Self.places self.now) j [] ≡ slice_index_or (Self.places self.now) i [] };
}
