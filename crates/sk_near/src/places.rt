//! Where a bound stands among positions.
ghost use Rattle.std.specs.Prelude.{◌≡◌, ◌<◌, ◌≤◌, true, length};
ghost use Rattle.std.specs.List.{AllPairs};
ghost use Rattle.sk_near.specs.Places.{IsPassed, IsParted};

/// Whether all positions before the place lie below the bound.
fn is_passed(positions: &[u32], place: usize, bound: u64) -> bool
    requires { AllPairs (λ a b. a < b) positions.now }
    ensures { result ≡ true → IsPassed bound positions.now place }
{
    place == 0 || (place <= positions.len() && u64::from(positions[place - 1]) < bound)
}

/// The place of the bound, which lies between these two.
fn place_between(positions: &[u32], mut low: usize, mut high: usize, bound: u64) -> usize
    requires rising { AllPairs (λ a b. a < b) positions.now }
    requires parted { IsParted bound positions.now low high }
    ensures { IsParted bound positions.now result result }
{
    'halves: while low < high {
        let middle = low + (high - low) / 2;
        if u64::from(positions[middle]) < bound {
            low = middle + 1;
        } else {
            high = middle;
        }
    }
    low
}

/// The place of the bound. The mark may be any number: where nothing from it on lies below the bound, the search begins
/// at the front. It goes on in steps that double, so a place that is near behind the mark is found in a few.
pub(crate) fn place_of(positions: &[u32], mark: usize, bound: u64) -> usize
    requires { AllPairs (λ a b. a < b) positions.now }
    ensures { IsParted bound positions.now result result }
{
    let mut low = 0;
    if is_passed(positions, mark, bound) {
        low = mark;
    }
    let mut step = 1usize;
    'steps: while step <= positions.len() - low {
        let next = low + step;
        if u64::from(positions[next - 1]) >= bound {
            return place_between(positions, low, next - 1, bound);
        }
        low = next;
        step = step.saturating_mul(2);
    }
    place_between(positions, low, positions.len(), bound)
}
