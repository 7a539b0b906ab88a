//! What a document says of a term, a prefix or a slot.
ghost use Rattle.std.specs.Prelude.{◌≡◌, ◌≤◌, ◌<◌};
ghost use Rattle.std.specs.List.{list_any};
ghost use Rattle.sk_base.specs.Documents.{has_term, wdf_of, positions_of, value_in, begins_with};
ghost use Rattle.sk_model.specs.Scores.{wild_wdf};
ghost use Rattle.sk_base.specs.Loads.{AreLight, load_of};

use sk_base::{DocTerm, SlotValue};

/// Whether the term is there.
pub fn has_term(term: &[u8], terms: &[DocTerm]) -> bool
    ensures { result ≡ has_term term.now terms.now }
{
    terms.iter().any(|one| one.term.as_str().as_bytes() == term)
}

/// The wdf of a term, and 0 where it is not there.
pub fn wdf_of(term: &[u8], terms: &[DocTerm]) -> u32
    ensures value { result ≡ wdf_of term.now terms.now }
    ensures bound { result ≤ load_of terms.now }
{
    'terms: for one in terms {
        if one.term.as_str().as_bytes() == term {
            return one.wdf;
        }
    }
    0
}

/// The places of a term, and none where it is not there.
pub fn positions_of<'a>(term: &[u8], terms: &'a [DocTerm]) -> &'a [u32]
    ensures { result.now ≡ positions_of term.now terms.now }
{
    'terms: for one in terms {
        if one.term.as_str().as_bytes() == term {
            return one.positions.as_slice();
        }
    }
    &[]
}

/// Whether a term begins with the prefix.
pub fn has_prefix(prefix: &[u8], terms: &[DocTerm]) -> bool
    ensures { result ≡ list_any (λ one. begins_with one.term prefix.now) terms.now }
{
    terms.iter().any(|one| begins_with(one, prefix))
}

/// The wdfs of the terms that begin with the prefix, added.
pub fn wild_wdf(prefix: &[u8], terms: &[DocTerm]) -> u64
    requires { AreLight terms.now }
    ensures value { result ≡ wild_wdf prefix.now terms.now }
    ensures bound { result ≤ load_of terms.now }
{
    let mut sum = 0u64;
    'terms: for one in terms {
        if begins_with(one, prefix) {
            sum += u64::from(one.wdf);
        }
    }
    sum
}

pub fn begins_with(one: &DocTerm, prefix: &[u8]) -> bool
    ensures { result ≡ begins_with one.now.term prefix.now }
{
    one.term.as_str().as_bytes().starts_with(prefix)
}

/// The value in a slot, and the empty one where there is none.
pub fn value_in(slot: u32, values: &[SlotValue]) -> &[u8]
    ensures { result.now ≡ value_in slot values.now }
{
    'values: for one in values {
        if one.slot == slot {
            return one.value.as_slice();
        }
    }
    &[]
}
