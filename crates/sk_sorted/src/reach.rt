//! The first that reaches an id, among what ends at rising ids.
ghost use Rattle.std.specs.Prelude.{◌≡◌, ◌≤◌, ◌<◌, ℕ, length, get_or};
ghost use Rattle.sk_sorted.specs.Ends.{EndsRise};

/// What ends at an id: an entry at its own, and entries in order at the last one's.
pub trait Ends {
    /// That id.
    ghost end: { Self → ℕ };

    fn end(&self) -> u32
        ensures { result ≡ end self.now };
}

impl<T> Ends for (u32, T) {
    ghost end = { λ e. e.0 };

    fn end(&self) -> u32 {
        self.0
    }
}

/// The first from this one on that ends at the target or behind it; their number where there is none. It looks about twice
/// as far each time and then halves what is left, so it looks at some two ends for each bit of the distance.
pub fn first_reaching<R: Ends>(runs: &[R], start: usize, target: u32) -> usize
    requires rise { EndsRise R.end 0 runs.now }
    requires there { start ≤ length runs.now }
    ensures bound { (start ≤ result) × (result ≤ length runs.now) }
    ensures before { (r : R) (k : ℕ) → start ≤ k → k < result → R.end (get_or runs.now k r) < target }
    ensures reaches { (r : R) → result < length runs.now → target ≤ R.end (get_or runs.now result r) }
{
    let mut from = start;
    'gallop: while from - start < runs.len() - from {
        let at = from + (from - start);
        if target <= runs[at].end() {
            return first_between(runs, from, at, target);
        }
        from = at + 1;
    }
    first_between(runs, from, runs.len(), target)
}

/// The first between two places that ends at the target or behind it; the later place where there is none.
fn first_between<R: Ends>(runs: &[R], start: usize, end: usize, target: u32) -> usize
    requires rise { EndsRise R.end 0 runs.now }
    requires order { start ≤ end }
    requires within { end ≤ length runs.now }
    ensures bound { (start ≤ result) × (result ≤ end) }
    ensures before { (r : R) (k : ℕ) → start ≤ k → k < result → R.end (get_or runs.now k r) < target }
    ensures reaches { (r : R) → result < end → target ≤ R.end (get_or runs.now result r) }
{
    let mut low = start;
    let mut high = end;
    'halve: while low < high {
        let middle = low + (high - low) / 2;
        if runs[middle].end() < target {
            low = middle + 1;
        } else {
            high = middle;
        }
    }
    low
}
