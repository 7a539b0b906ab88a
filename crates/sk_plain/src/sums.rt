//! The scores of parts, put together.
ghost use Rattle.std.specs.Prelude.{◌≡◌, ◌<◌, ◌-◌, ◌^◌};
ghost use Rattle.sk_model.specs.Combining.{greater, where_so};
ghost use Rattle.sk_plain.specs.Sums.{capped_both, capped_either, nothing_yet, with_score, made_by};

use sk_base::Weight;
use sk_query::Form;

/// What is made of scores, one after the other. Sums go as far as 128 bits do.
#[derive(Clone, Copy, Debug)]
pub struct Sums {
    begun: bool,
    first: Option<Weight>,
    all: Option<Weight>,
    any: Option<Weight>,
    greatest: Option<Weight>,
    pub matching: usize,
}

impl Sums {
    pub fn new() -> Sums
        ensures { result ≡ nothing_yet }
    {
        Sums {
            begun: false,
            first: None,
            all: Some(0),
            any: None,
            greatest: None,
            matching: 0,
        }
    }

    pub fn add(&mut self, score: Option<Weight>)
        requires { self.old.matching < 2 ^ 64 - 1 }
        ensures { self.new ≡ with_score self.old score }
    {
        *self = Sums {
            begun: true,
            first: if self.begun { self.first } else { score },
            all: both(self.all, score),
            any: either(self.any, score),
            greatest: greater(self.greatest, score),
            matching: if score.is_some() {
                self.matching + 1
            } else {
                self.matching
            },
        };
    }

    /// What the form makes of the scores.
    pub fn made_by(&self, form: Form) -> Option<Weight>
        ensures { result ≡ made_by form self.now }
    {
        match form {
            Form::And => self.all,
            Form::Or => self.any,
            Form::Xor => where_so(self.matching % 2 == 1, self.any),
            Form::Max => self.greatest,
            Form::AndNot => where_so(self.matching == 1, self.first),
            Form::AndMaybe => where_so(self.first.is_some(), self.any),
            Form::Filter => where_so(self.all.is_some(), self.first),
        }
    }
}

/// Two scores that must both be there, added.
fn both(a: Option<Weight>, b: Option<Weight>) -> Option<Weight>
    ensures { result ≡ capped_both a b }
{
    match (a, b) {
        (Some(v), Some(w)) => Some(v.saturating_add(w)),
        _ => None,
    }
}

/// Two scores, at least one of which must be there, added.
fn either(a: Option<Weight>, b: Option<Weight>) -> Option<Weight>
    ensures { result ≡ capped_either a b }
{
    match (a, b) {
        (None, b) => b,
        (a, None) => a,
        (Some(v), Some(w)) => Some(v.saturating_add(w)),
    }
}

/// The greater of two scores, at least one of which must be there.
fn greater(a: Option<Weight>, b: Option<Weight>) -> Option<Weight>
    ensures { result ≡ greater a b }
{
    match (a, b) {
        (None, b) => b,
        (a, None) => a,
        (Some(v), Some(w)) => Some(v.max(w)),
    }
}

/// The score, where the test holds.
pub fn where_so(test: bool, score: Option<Weight>) -> Option<Weight>
    ensures { result ≡ where_so test score }
{
    if test { score } else { None }
}
