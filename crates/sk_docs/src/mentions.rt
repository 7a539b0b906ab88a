//! The mentions of a record, in the order in which they are met, and the terms that they make.
ghost use Rattle.std.specs.Prelude.{◌≡◌, ◌<◌, ◌+◌, [], ◌∷◌, ◌++◌, AllPairs, IfOk, OnOk, string_bytes};
ghost use Rattle.sk_base.specs.Loads.{AreLight, load_of};
ghost use Rattle.sk_model.specs.Documents.{noted, terms_of};
ghost use Rattle.sk_docs.specs.Gathered.{CanGather, after};
ghost use Rattle.sk_docs.specs.Joined.{AreMentions, CanJoin, Follows};

use crate::mention::Mention;
use sk_base::{DocTerm, DocTerms, Term, Text, into_prefixed};
use sk_stem::stem_term;
use std::alloc::{AllocError, Global};
use std::marker::Model;

/// The mentions that were met, which indexed word comes next, and whether the stems of words are asked for.
#[derive(Debug, Drop)]
pub struct Mentions {
    items: Vec<Mention>,
    next: u32,
    stems: bool,
}

impl Model for Mentions {
    ghost use Rattle.sk_docs.specs.Gathered.{Gathered};

    ghost Value = { Gathered };

    ghost view = { λ m. record { mentions = m.items.items; next = m.next; stems = m.stems } };
}

impl Mentions {
    /// No mention yet. It takes no memory.
    pub fn new(alloc: Global, stems: bool) -> Mentions
        ensures { result ≡ record { mentions = []; next = 1; stems = stems } }
    {
        Mentions {
            items: Vec::new(alloc),
            next: 1,
            stems,
        }
    }

    /// Notes the next indexed word, by its term, which stands in a field of this prefix and step, behind so many text
    /// fields; and its stem, where that is asked for.
    pub fn note_word(
        &mut self,
        alloc: Global,
        prefix: &str,
        term: String,
        step: u32,
        before: u32,
    ) -> Result<(), AllocError>
        requires room { CanGather self.old before 2 }
        ensures { OnOk result (self.new ≡ after self.old (record { prefix = prefix.now; term = string_bytes term; step = step; before = before } ∷ [])) }
    {
        let place = self.next + 100 * before;
        self.next += 1;
        if self.stems {
            let stem = stem_term(alloc, prefix, term.as_str())?;
            let own = into_prefixed(alloc, prefix, term)?;
            self.items
                .push(Mention::word(Text::from_string(own), step, place))?;
            self.items.push(Mention::stem(stem, step))?;
            return Ok(());
        }
        let own = into_prefixed(alloc, prefix, term)?;
        self.items
            .push(Mention::word(Text::from_string(own), step, place))?;
        Ok(())
    }

    /// Notes a term that a filter gives.
    pub fn note_filter(&mut self, term: Term) -> Result<(), AllocError>
        ensures { OnOk result (self.new ≡ record self.old { mentions = self.old.mentions ++ record { term = term; wdf = 0; positions = [] } ∷ [] }) }
    {
        self.items.push(Mention::filter(term))?;
        Ok(())
    }

    /// The terms that are mentioned, in order. Those of one term stay in the order in which they were met.
    pub fn into_terms(self, alloc: Global) -> Result<DocTerms, AllocError>
        requires all { AreMentions self.mentions }
        ensures { IfOk result (λ terms. terms ≡ terms_of self.mentions) }
    {
        let mut mentions = self.items;
        sort(&mut mentions)?;
        join_all(alloc, mentions)
    }
}

/// Sorts the mentions by their terms; those of one term keep their order.
fn sort(mentions: &mut Vec<Mention>) -> Result<(), AllocError>
    requires all { AreMentions mentions.old.items }
    ensures same { OnOk result (terms_of mentions.new.items ≡ terms_of mentions.old.items) }
    ensures load { OnOk result (load_of mentions.new.items ≡ load_of mentions.old.items) }
    ensures follow { OnOk result (AllPairs Follows mentions.new.items) }
{
    mentions.sort_by(|a, b| a.compare(b))?;
    Ok(())
}

/// Joins neighbours of one term.
fn join_all(alloc: Global, mentions: Vec<Mention>) -> Result<DocTerms, AllocError>
    requires follow { AllPairs Follows mentions.items }
    requires light { AreLight mentions.items }
    ensures { IfOk result (λ terms. terms ≡ terms_of mentions.items) }
{
    let mut terms = Vec::new(alloc);
    'mentions: for mention in mentions {
        join(alloc, &mut terms, mention)?;
    }
    Ok(DocTerms::from_vec(terms))
}

/// Joins the mention to the last term, if it is one of that, or puts it last.
fn join(alloc: Global, terms: &mut Vec<DocTerm>, mention: Mention) -> Result<(), AllocError>
    requires can { CanJoin terms.old.items mention }
    ensures { OnOk result (terms.new.items ≡ noted terms.old.items mention) }
{
    if let Some(last) = terms.last_mut() {
        if mention.is_of(last) {
            return mention.join(last);
        }
    }
    terms.push(mention.into_term(alloc)?)?;
    Ok(())
}
