//! What a wdf weighs.
ghost use Rattle.std.specs.Prelude.{◌≡◌, ◌≤◌, ◌<◌, ◌*◌, ◌^◌, ℕ, IfSome, IsSomeAnd};
ghost use Rattle.sk_model.specs.Weights.{weigh, weigh_by};

use sk_base::{MOST_WDF, Scheme, Weight};

/// The weight of a wdf, or of a sum of wdfs, under a factor.
#[tactic(auto, using(crate::proofs::WeightLemmas::square_small, crate::proofs::WeightLemmas::times_small, crate::proofs::WeightLemmas::weigh_by_small))]
#[inline(always)]
pub fn weigh_by(factor: u64, scheme: Scheme, wdf: u64) -> Weight
    requires factor { factor ≤ 65536 }
    requires wdf { wdf < 2 ^ 40 }
    ensures value { result ≡ weigh_by factor scheme wdf }
    ensures bound { result < 2 ^ 96 }
{
    match scheme {
        Scheme::Bool => 0,
        Scheme::Coord => Weight::from(factor),
        Scheme::Nnn => Weight::from(wdf) * Weight::from(factor),
        Scheme::Bnn => Weight::from(wdf.min(1) * factor),
        Scheme::Snn => Weight::from(wdf) * Weight::from(wdf) * Weight::from(factor),
    }
}

/// The least wdf that weighs at least what is needed, and none where no wdf does. Each wdf is below 2^29.
#[tactic(auto, using(crate::proofs::WeightLemmas::enough_by, crate::proofs::WeightLemmas::least_by))]
pub fn need_wdf(scheme: Scheme, factor: u64, need: Weight) -> Option<u32>
    requires { factor ≤ 65536 }
    ensures wdf { IfSome result (λ n. n < 2 ^ 29) }
    ensures enough { IfSome result (λ n. need ≤ weigh_by factor scheme n) }
    ensures least { (wdf : ℕ) → wdf < 2 ^ 29 → need ≤ weigh_by factor scheme wdf → IsSomeAnd result (λ n. n ≤ wdf) }
{
    if need == 0 {
        return Some(0);
    }
    if factor == 0 {
        return None;
    }
    let least = need.div_ceil(Weight::from(factor));
    least_wdf(scheme, least)
}

/// The least wdf that weighs at least so much without a factor.
fn least_wdf(scheme: Scheme, weight: Weight) -> Option<u32>
    requires { 0 < weight }
    ensures wdf { IfSome result (λ n. n < 2 ^ 29) }
    ensures enough { IfSome result (λ n. weight ≤ weigh scheme n) }
    ensures least { (wdf : ℕ) → wdf < 2 ^ 29 → weight ≤ weigh scheme wdf → IsSomeAnd result (λ n. n ≤ wdf) }
{
    match scheme {
        Scheme::Bool => None,
        Scheme::Coord => if weight == 1 { Some(0) } else { None },
        Scheme::Nnn => whole(weight),
        Scheme::Bnn => if weight == 1 { Some(1) } else { None },
        Scheme::Snn => root(weight),
    }
}

/// The least wdf that is at least this.
fn whole(least: Weight) -> Option<u32>
    ensures wdf { IfSome result (λ n. n < 2 ^ 29) }
    ensures enough { IfSome result (λ n. least ≤ n) }
    ensures least { (wdf : ℕ) → wdf < 2 ^ 29 → least ≤ wdf → IsSomeAnd result (λ n. n ≤ wdf) }
{
    if least <= Weight::from(MOST_WDF) {
        Some(least as u32)
    } else {
        None
    }
}

/// The least wdf whose square is at least this.
fn root(square: Weight) -> Option<u32>
    requires { 0 < square }
    ensures wdf { IfSome result (λ n. n < 2 ^ 29) }
    ensures enough { IfSome result (λ n. square ≤ n * n) }
    ensures least { (wdf : ℕ) → wdf < 2 ^ 29 → square ≤ wdf * wdf → IsSomeAnd result (λ n. n ≤ wdf) }
{
    let most = Weight::from(MOST_WDF);
    if square > most * most {
        return None;
    }
    let below = (square as u64 - 1).isqrt();
    Some(below as u32 + 1)
}
