//! The index: the live documents, with a list for each term and each slot.
ghost use Rattle.std.specs.Prelude.{◌≡◌, ◌<◌, ◌≤◌, ◌+◌, [], length, map, true, false, All, IfOk, IfSome, MatchOption, IsSome, Some, None, slice_index};
ghost use Rattle.std.specs.List.{AllByRecursion};
ghost use Rattle.std.specs.Option.{option_map};
ghost use Rattle.sk_sorted.specs.Entries.{RiseAbove};
ghost use Rattle.sk_base.specs.Records.{FitsEdit};
ghost use Rattle.sk_base.specs.Documents.{AreTerms};
ghost use Rattle.sk_base.specs.Loads.{IsLight};
ghost use Rattle.sk_base.specs.Numbers.{some_has};
ghost use Rattle.sk_base.specs.Order.{ArePositions};
ghost use Rattle.sk_dict.specs.Terms.{term_at, number_of};
ghost use Rattle.sk_sorted.specs.Runs.{flat};
ghost use Rattle.sk_model.specs.Documents.{keeps_slot, has_slot};
ghost use Rattle.sk_model.specs.Edits.{nothing_live, edited, reply_to, document_at, IsLive};
ghost use Rattle.sk_documents.specs.Documented.{HasTerms};
ghost use Rattle.sk_packed.specs.Apart.{AreApart};
ghost use Rattle.sk_packed.specs.Packed.{AreKnown};
ghost use Rattle.sk_terms.specs.Named.{named_all};
ghost use Rattle.sk_index.specs.Indexed.{Indexed, list_runs, pieces_in, postings, all_postings, slot_values, slot_value, term_positions, HavePositions, AreNumbered, AreAllWith};
ghost use Rattle.sk_index.specs.Stands.{AreListsOf, AreSlotsOf};

use crate::all_places::AllPlaces;
use crate::lists::Lists;
use crate::places::{Places, TermPlace, positions_in};
use sk_base::{Doc, DocId, Edit, Field, FieldKind, Reply, Schema};
use sk_documents::{Documents, Keeper};
use sk_lists::List;
use sk_packed::PackedTerms;
use sk_slots::SlotLists;
use sk_steps::Steps;
use sk_terms::TermLists;
use sk_values::SlotList;
use std::alloc::{AllocError, Global};
use std::fmt::{Debug, Error, Formatter, Write};
use std::marker::Model;
use std::sync::ledger::Ledger;

/// Documents under one schema. Contracts see it as what it holds; `Debug` tells how many there are, and shows none.
#[derive(Drop)]
pub struct Index {
    pub(crate) documents: Documents<Lists>,
}

impl Model for Index {
    ghost use Rattle.sk_index.specs.Indexed.{Indexed};

    ghost Value = { Indexed };

    ghost view = { λ i. record { schema = i.documents.schema; live = i.documents.live; terms = i.documents.keeper.listed.terms; all = i.documents.keeper.all; lists = i.documents.keeper.listed.lists; slots = i.documents.keeper.slots } };
}

impl Index {
    /// An index without documents.
    pub fn new(alloc: Global, schema: Schema) -> Result<Index, AllocError>
        ensures { IfOk result (λ index. index ≡ record { schema = schema; live = nothing_live; terms = []; all = []; lists = []; slots = [] }) }
    {
        let lists = Lists::new(alloc, schema.fields().len())?;
        Ok(Index {
            documents: Documents::new(alloc, schema, lists),
        })
    }

    /// The same documents under the same schema, in memory of their own. It is no reading.
    pub fn copy(&self) -> Result<Index, AllocError>
        ensures { IfOk result (λ copy. copy ≡ self.now) }
    {
        let lists = self.documents.keeper().copy(self.allocator())?;
        let documents = self.documents.copy_over(lists)?;
        Ok(Index { documents })
    }

    pub fn schema(&self) -> &Schema
        ensures { result.now ≡ self.now.schema }
    {
        self.documents.schema()
    }

    /// The allocator that it keeps.
    pub fn allocator(&self) -> Global {
        self.documents.allocator()
    }

    /// The highest id that was ever used, 0 at first.
    pub fn highest(&self) -> DocId
        ensures value { result ≡ self.now.live.highest }
        ensures sound { IsLive self.now.live }
        ensures light { All IsLight self.now.live.documents }

        // No live document has a term without a number.
        ensures complete { AreNumbered self.now }
    {
        let _lists = self.term_lists();
        self.documents.highest()
    }

    /// Changes the documents. Where memory runs out the index is given up.
    pub fn apply(self, edit: Edit) -> Result<(Index, Reply), AllocError>
        requires fits { FitsEdit self.schema edit }
        ensures live { IfOk result (λ p. p.0.live ≡ edited self.schema self.live edit) }
        ensures reply { IfOk result (λ p. p.1 ≡ reply_to self.live edit) }
        ensures schema { IfOk result (λ p. p.0.schema ≡ self.schema) }
    {
        let Index { documents } = self;
        let (documents, reply) = documents.apply(edit)?;
        Ok((Index { documents }, reply))
    }

    /// The number of the term. Where there is none, no live document has the term. It takes no memory.
    pub fn number_of(&self, term: &[u8]) -> Option<usize>
        ensures value { result ≡ number_of term.now self.now.terms }
        ensures found { MatchOption result (some_has term.now self.now.live.documents ≡ false) (λ n. (n < length self.now.terms) × (term_at self.now.terms n ≡ term.now)) }
    {
        self.term_lists().find(term)
    }

    /// The numbers of terms that begin with the prefix, none left out that a live document has, in byte order of the terms. One search finds the first.
    pub fn with_prefix(&self, prefix: &[u8]) -> Result<Vec<usize>, AllocError>
        ensures { IfOk result (λ ns. AreAllWith prefix.now self.now.terms self.now.live.documents ns.items) }
    {
        let numbers = self.term_lists().with_prefix(prefix)?;
        Ok(numbers)
    }

    /// The live documents that have the term with this number, with its wdf in each.
    pub fn list(&self, number: usize) -> &List
        requires there { number < length self.now.terms }
        ensures runs { result.now ≡ list_runs self.now (Some number) }
        ensures entries { flat result.now ≡ postings (term_at self.now.terms number) self.now.live.documents }
    {
        self.term_lists().list(number)
    }

    /// All live documents.
    pub fn all(&self) -> &List
        ensures runs { result.now ≡ list_runs self.now None }
        ensures entries { flat result.now ≡ all_postings self.now.live.documents }
    {
        self.documents.keeper().all()
    }

    /// The values of a slot of the schema.
    pub fn slot(&self, slot: u32) -> Option<&SlotList>
        ensures value { MatchOption result (has_slot slot self.now.schema.fields ≡ false) (λ list. flat list.now ≡ slot_values slot self.now.live.documents) }
        ensures found { has_slot slot self.now.schema.fields ≡ true → IsSome result }
    {
        if has_slot(self.schema().fields(), slot) {
            Some(self.values(slot))
        } else {
            None
        }
    }

    /// The values of a slot. No document has one in a slot that the schema has not.
    pub fn values(&self, slot: u32) -> &SlotList
        ensures pieces { result.now ≡ pieces_in self.now slot }
        ensures entries { flat result.now ≡ slot_values slot self.now.live.documents }
    {
        self.slot_lists().list(slot)
    }

    /// The document's value in the slot, empty where it has none. It is one reading.
    pub fn value<L: Ledger>(&self, slot: u32, id: DocId, steps: &mut Steps<L>) -> &[u8]
        ensures value { result.now ≡ slot_value slot (document_at id self.now.live.documents) }
        ensures cost { steps.new ≡ steps.old + 1 }
    {
        self.slot_lists().list(slot).get(id, steps)
    }

    /// The places of the term with this number in the document. It is one reading.
    pub fn places<L: Ledger>(&self, number: usize, id: DocId, steps: &mut Steps<L>) -> Places
        requires there { number < length self.now.terms }
        ensures value { result ≡ (number, id) }
        ensures cost { steps.new ≡ steps.old + 1 }
    {
        Places::read(number, id, steps)
    }

    /// The positions of the term there, none where the document is not live or has not the term. It is no reading.
    pub fn positions(&self, places: &Places) -> &[u32]
        requires there { places.now.0 < length self.now.terms }
        ensures value { result.now
            ≡ term_positions (term_at self.now.terms places.now.0) (document_at places.now.1 self.now.live.documents) }
        ensures rising { ArePositions result.now }
    {
        let lists = self.term_lists();
        positions_in(self.terms_of(places.id), lists, lists.term(places.number))
    }

    /// The places of the terms with these numbers in the document, in memory that the caller lends: with what is there
    /// of other documents they are found sooner. It is one reading for each.
    pub fn all_places<'a, L: Ledger>(
        &'a self,
        numbers: &[usize],
        id: DocId,
        places: &'a mut [TermPlace],
        steps: &mut Steps<L>,
    ) -> AllPlaces<'a>
        requires there { All (λ n. n < length self.now.terms) numbers.now }
        requires room { length numbers.now ≤ length places.old }
        ensures value { result
            ≡ map (λ n. term_positions (term_at self.now.terms n) (document_at id self.now.live.documents)) numbers.now }
        ensures cost { steps.new ≡ steps.old + length numbers.now }
    {
        AllPlaces::read(self.term_lists(), self.terms_of(id), numbers, places, steps)
    }

    /// The same; or nothing, where no position of the term behind the one at `at` stands behind one of that by less than the
    /// width. Then no other term is looked up. It counts as one reading for each number all the same.
    pub fn all_places_unless_apart<'a, L: Ledger>(
        &'a self,
        numbers: &[usize],
        at: usize,
        width: u32,
        id: DocId,
        places: &'a mut [TermPlace],
        steps: &mut Steps<L>,
    ) -> Option<AllPlaces<'a>>
        requires two { at + 1 < length numbers.now }
        requires there { All (λ n. n < length self.now.terms) numbers.now }
        requires room { length numbers.now ≤ length places.old }
        ensures value { IfSome result (λ all. all
            ≡ map (λ n. term_positions (term_at self.now.terms n) (document_at id self.now.live.documents)) numbers.now) }
        ensures apart { result ≡ None → AreApart width
            (term_positions (term_at self.now.terms (slice_index numbers.now at)) (document_at id self.now.live.documents))
            (term_positions (term_at self.now.terms (slice_index numbers.now (at + 1))) (document_at id self.now.live.documents)) }
        ensures cost { steps.new ≡ steps.old + length numbers.now }
    {
        let lists = self.term_lists();
        let packed = self.terms_of(id);
        let all = AllPlaces::read_unless_apart(lists, packed, numbers, at, width, places, steps)?;
        Some(all)
    }

    /// The terms of the document, none where it is not live.
    fn terms_of(&self, id: DocId) -> &PackedTerms
        ensures value { HavePositions (named_all self.now.terms result.now) (document_at id self.now.live.documents) }
        ensures rising { AreTerms (named_all self.now.terms result.now) }
        ensures known { AreKnown (length self.now.terms) result.now }
    {
        self.documents.keeper().terms_of(id)
    }

    /// The lists of the terms.
    pub(crate) fn term_lists(&self) -> &TermLists
        ensures value { result.now ≡ record { terms = self.now.terms; lists = self.now.lists } }
        ensures entries { AreListsOf self.now.live.documents result.now }
        ensures ordered { AllByRecursion HasTerms self.now.live.documents }
    {
        self.documents.keeper().terms()
    }

    /// The lists of the slots.
    pub(crate) fn slot_lists(&self) -> &SlotLists
        ensures value { result.now ≡ self.now.slots }
        ensures entries { AreSlotsOf self.now.live.documents result.now }
        ensures rising { RiseAbove 0 self.now.live.documents }
    {
        self.documents.keeper().slots()
    }

    /// The document's payload, none where it is not live. It is one reading.
    pub fn payload<L: Ledger>(&self, id: DocId, steps: &mut Steps<L>) -> Option<&str>
        ensures value { option_map (λ s. s.now) result ≡ option_map (λ d. d.payload) (document_at id self.now.live.documents) }
        ensures cost { steps.new ≡ steps.old + 1 }
    {
        steps.tick();
        self.documents.keeper().payload(id)
    }
}

impl Keeper for Index {
    ghost documents = { λ i. i.live.documents };

    fn count(&self) -> usize {
        self.all().length() as usize
    }

    fn put(self, id: DocId, doc: Doc) -> Result<Index, AllocError> {
        let Index { documents } = self;
        let documents = documents.insert(id, doc)?;
        Ok(Index { documents })
    }

    fn remove(&mut self, id: DocId) -> bool {
        self.documents.remove(id)
    }

    fn ids_with(&mut self, term: &[u8]) -> Result<Vec<DocId>, AllocError> {
        self.documents.ids_with(term)
    }
}

impl Debug for Index {
    fn fmt<W: Write>(&self, f: &mut Formatter<W>) -> Result<(), Error> {
        write!(f, "Index of {}", self.all().length())
    }
}

fn has_slot(fields: &[Field], slot: u32) -> bool
    ensures { result ≡ has_slot slot fields.now }
{
    fields.iter().any(|field| keeps_slot(&field.kind, slot))
}

fn keeps_slot(kind: &FieldKind, slot: u32) -> bool
    ensures { result ≡ keeps_slot slot kind.now }
{
    match kind.slot() {
        None => false,
        Some(own) => own == slot,
    }
}
