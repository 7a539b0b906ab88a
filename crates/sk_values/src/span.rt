//! Numbers that lie between two.
ghost use Rattle.std.specs.Prelude.{◌≡◌, ◌<◌, ◌^◌, IfSome};
ghost use Rattle.sk_values.specs.Behind.{greatest_in, in_span};

/// The numbers from `least` on to one that is `width` above it.
#[derive(Clone, Copy)]
pub(crate) struct Span {
    least: u64,
    width: u64,
}

impl Span {
    /// None where the greatest is below the least.
    pub fn new(least: u64, greatest: u64) -> Option<Span>
        ensures { IfSome result (λ s. (s.least ≡ least) × (greatest_in s ≡ greatest)) }
    {
        let width = greatest.checked_sub(least)?;
        Some(Span { least, width })
    }

    /// Whether the number is among them. It is one compare, as two would be two branches: of numbers that come in any order
    /// half are guessed wrong.
    #[inline]
    pub fn has(&self, n: u64) -> bool
        requires { greatest_in self.now < 2 ^ 64 }
        ensures { result ≡ in_span self.now n }
    {
        n.wrapping_sub(self.least) <= self.width
    }
}
