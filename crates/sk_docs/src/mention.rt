//! A mention of a term in a record.
ghost use Rattle.std.specs.Prelude.{◌≡◌, ◌<◌, ◌+◌, ◌^◌, [], ◌∷◌, ◌++◌, All, IfOk, OnOk, bytes_eq};
ghost use Rattle.std.specs.Option.{option_to_list};
ghost use Rattle.std.specs.Ordering.{nat_cmp};
ghost use Rattle.std.specs.Cmp.Lexicographic.{slice_cmp};
ghost use Rattle.sk_model.specs.Documents.{merged};
ghost use Rattle.sk_docs.specs.Joined.{LieBefore};

use sk_base::{DocTerm, Positions, Term};
use std::alloc::{AllocError, Global};
use std::cmp::Ordering;
use std::marker::Model;

/// A mention of a term: a word of a text, which has a place, or a word's stem or a text of a filter, which have none.
/// Contracts see it as the term that a document with this mention alone has.
#[derive(Debug, Drop)]
pub struct Mention {
    term: Term,
    wdf: u32,
    place: Option<u32>,
}

impl Model for Mention {
    ghost use Rattle.std.specs.Option.{option_to_list};
    ghost use Rattle.sk_base.specs.declared.doc_entry.DocTerm.{DocTerm};

    ghost Value = { DocTerm };

    ghost view = { λ m. record { term = m.term; wdf = m.wdf; positions = option_to_list m.place } };
}

impl Mention {
    /// A word of a field with this step.
    pub fn word(term: Term, step: u32, place: u32) -> Mention
        ensures { result ≡ record { term = term; wdf = step; positions = place ∷ [] } }
    {
        Mention {
            term,
            wdf: step,
            place: Some(place),
        }
    }

    /// The stem of a word of a field with this step.
    pub fn stem(term: Term, step: u32) -> Mention
        ensures { result ≡ record { term = term; wdf = step; positions = [] } }
    {
        Mention {
            term,
            wdf: step,
            place: None,
        }
    }

    /// A text of a filter.
    pub fn filter(term: Term) -> Mention
        ensures { result ≡ record { term = term; wdf = 0; positions = [] } }
    {
        Mention {
            term,
            wdf: 0,
            place: None,
        }
    }

    /// The order of the terms.
    pub fn compare(&self, other: &Mention) -> Ordering
        ensures { result ≡ slice_cmp nat_cmp self.now.term other.now.term }
    {
        self.term.as_str().cmp(other.term.as_str())
    }

    /// Whether it is one of this term.
    pub fn is_of(&self, term: &DocTerm) -> bool
        ensures { result ≡ bytes_eq self.now.term term.now.term }
    {
        self.term.as_str() == term.term.as_str()
    }

    /// The term, with this mention alone.
    pub fn into_term(self, alloc: Global) -> Result<DocTerm, AllocError>
        ensures { IfOk result (λ term. term ≡ self) }
    {
        let mut positions = Positions::new(alloc);
        put(&mut positions, self.place)?;
        Ok(DocTerm {
            term: self.term,
            wdf: self.wdf,
            positions,
        })
    }

    /// Joins it to earlier mentions of its term.
    pub fn join(self, term: &mut DocTerm) -> Result<(), AllocError>
        requires behind { LieBefore term.old self }
        requires light { term.old.wdf + self.wdf < 2 ^ 29 }
        ensures { OnOk result (term.new ≡ merged term.old self) }
    {
        put(&mut term.positions, self.place)?;
        term.wdf += self.wdf;
        Ok(())
    }
}

/// Puts the place behind the others, if there is one.
fn put(positions: &mut Positions, place: Option<u32>) -> Result<(), AllocError>
    requires behind { All (λ q. All (λ p. p < q) positions.old) (option_to_list place) }
    ensures { OnOk result (positions.new ≡ positions.old ++ option_to_list place) }
{
    match place {
        Some(place) => positions.push(place),
        None => Ok(()),
    }
}
