//! The bounds of parts, taken together.
ghost use Rattle.std.specs.Prelude.{◌≡◌};
ghost use Rattle.sk_weight.specs.Together.{nothing_yet, least_with, with_bound};

/// What is made of bounds, one after the other.
#[derive(Clone, Copy, Debug)]
pub struct Together {
    pub first: Option<u128>,
    pub least: Option<u128>,
    pub greatest: u128,
    /// Their sum, as far as 128 bits go.
    pub sum: u128,
}

impl Together {
    pub fn new() -> Together
        ensures { result ≡ nothing_yet }
    {
        Together {
            first: None,
            least: None,
            greatest: 0,
            sum: 0,
        }
    }

    pub fn add(&mut self, bound: u128)
        ensures { self.new ≡ with_bound self.old bound }
    {
        *self = Together {
            first: self.first.or(Some(bound)),
            least: Some(least_with(self.least, bound)),
            greatest: self.greatest.max(bound),
            sum: self.sum.saturating_add(bound),
        };
    }
}

fn least_with(least: Option<u128>, bound: u128) -> u128
    ensures { result ≡ least_with least bound }
{
    match least {
        None => bound,
        Some(least) => least.min(bound),
    }
}
