//! How documents are changed.
ghost use Rattle.std.specs.Prelude.{◌≡◌, ◌≤◌, ◌<◌, ◌^◌, ℕ, IfOk, is_some, length, Some, None};
ghost use Rattle.sk_base.specs.Records.{FitsEdit, FitsValues};
ghost use Rattle.sk_base.specs.Loads.{IsLight};
ghost use Rattle.sk_base.specs.declared.record.Edit.TheVariants as Edit;
ghost use Rattle.sk_model.specs.Documents.{Document};
ghost use Rattle.sk_model.specs.Edits.{edited, reply_to, document_at, put_document, without_id, without_term, with_next, next_reply, with_document, with_first, first_reply, first_with};
ghost use Rattle.sk_documents.specs.Removing.{ids_with, without_ids};

use crate::{Documents, Keeper};
use sk_base::{Doc, DocId, Edit, Record, Reply};
use std::alloc::AllocError;

impl<K: Keeper> Documents<K> {
    /// Changes the documents. Where memory runs out they are given up.
    pub fn apply(self, edit: Edit) -> Result<(Documents<K>, Reply), AllocError>
        requires fits { FitsEdit self.schema edit }
        ensures live { IfOk result (λ p. p.0.live ≡ edited self.schema self.live edit) }
        ensures reply { IfOk result (λ p. p.1 ≡ reply_to self.live edit) }
        ensures schema { IfOk result (λ p. p.0.schema ≡ self.schema) }
        ensures parts { IfOk result (λ p. K.parts p.0.keeper ≡ K.parts self.keeper) }
    {
        match edit {
            Edit::Add(given) => self.add(given),
            Edit::Replace(id, given) => self.replace(id, given),
            Edit::ReplaceBy(term, given) => self.replace_by(term.as_str().as_bytes(), given),
            Edit::Delete(id) => Ok(self.delete(id)),
            Edit::DeleteBy(term) => self.delete_by(term.as_str().as_bytes()),
        }
    }

    fn add(self, given: Record) -> Result<(Documents<K>, Reply), AllocError>
        requires fits { FitsValues self.schema.fields given.values }
        ensures live { IfOk result (λ p. p.0.live ≡ edited self.schema self.live (Edit.Add given)) }
        ensures reply { IfOk result (λ p. p.1 ≡ reply_to self.live (Edit.Add given)) }
        ensures schema { IfOk result (λ p. p.0.schema ≡ self.schema) }
        ensures parts { IfOk result (λ p. K.parts p.0.keeper ≡ K.parts self.keeper) }
    {
        let doc = sk_docs::build(self.alloc, &self.schema, given)?;
        self.put_next(doc)
    }

    fn replace(self, id: DocId, given: Record) -> Result<(Documents<K>, Reply), AllocError>
        requires id { 1 ≤ id }
        requires fits { FitsValues self.schema.fields given.values }
        ensures live { IfOk result (λ p. p.0.live ≡ edited self.schema self.live (Edit.Replace id given)) }
        ensures reply { IfOk result (λ p. p.1 ≡ reply_to self.live (Edit.Replace id given)) }
        ensures schema { IfOk result (λ p. p.0.schema ≡ self.schema) }
        ensures parts { IfOk result (λ p. K.parts p.0.keeper ≡ K.parts self.keeper) }
    {
        let doc = sk_docs::build(self.alloc, &self.schema, given)?;
        let documents = self.put(id, doc)?;
        Ok((documents, Reply::Id(id)))
    }

    fn replace_by(self, term: &[u8], given: Record) -> Result<(Documents<K>, Reply), AllocError>
        requires fits { FitsValues self.schema.fields given.values }
        ensures live { IfOk result (λ p. p.0.live ≡ edited self.schema self.live (Edit.ReplaceBy term.now given)) }
        ensures reply { IfOk result (λ p. p.1 ≡ reply_to self.live (Edit.ReplaceBy term.now given)) }
        ensures schema { IfOk result (λ p. p.0.schema ≡ self.schema) }
        ensures parts { IfOk result (λ p. K.parts p.0.keeper ≡ K.parts self.keeper) }
    {
        let doc = sk_docs::build(self.alloc, &self.schema, given)?;
        self.put_first(term, doc)
    }

    fn delete(self, id: DocId) -> (Documents<K>, Reply)
        ensures live { result.0.live ≡ edited self.schema self.live (Edit.Delete id) }
        ensures reply { result.1 ≡ reply_to self.live (Edit.Delete id) }
        ensures schema { result.0.schema ≡ self.schema }
        ensures parts { K.parts result.0.keeper ≡ K.parts self.keeper }
    {
        let mut documents = self;
        if documents.remove(id) {
            (documents, Reply::Done(1))
        } else {
            (documents, Reply::NotFound)
        }
    }

    fn delete_by(self, term: &[u8]) -> Result<(Documents<K>, Reply), AllocError>
        ensures live { IfOk result (λ p. p.0.live ≡ edited self.schema self.live (Edit.DeleteBy term.now)) }
        ensures reply { IfOk result (λ p. p.1 ≡ reply_to self.live (Edit.DeleteBy term.now)) }
        ensures schema { IfOk result (λ p. p.0.schema ≡ self.schema) }
        ensures parts { IfOk result (λ p. K.parts p.0.keeper ≡ K.parts self.keeper) }
    {
        let mut documents = self;
        let ids = documents.remove_all(term)?;
        Ok((documents, Reply::Done(ids.len() as u32)))
    }

    /// The document under the next id, where one is left.
    fn put_next(self, doc: Doc) -> Result<(Documents<K>, Reply), AllocError>
        requires light { (id : ℕ) → IsLight (id, doc) }
        ensures live { IfOk result (λ p. p.0.live ≡ with_next self.live doc) }
        ensures reply { IfOk result (λ p. p.1 ≡ next_reply self.live) }
        ensures schema { IfOk result (λ p. p.0.schema ≡ self.schema) }
        ensures parts { IfOk result (λ p. K.parts p.0.keeper ≡ K.parts self.keeper) }
    {
        if self.highest == DocId::MAX {
            return Ok((self, Reply::NoIdLeft));
        }
        let id = self.highest + 1;
        let documents = self.insert(id, doc)?;
        Ok((documents, Reply::Id(id)))
    }

    /// The document in the place of the first that has the term, and of all others that have it.
    fn put_first(self, term: &[u8], doc: Doc) -> Result<(Documents<K>, Reply), AllocError>
        requires light { (id : ℕ) → IsLight (id, doc) }
        ensures live { IfOk result (λ p. p.0.live ≡ with_first self.live doc term.now (first_with term.now self.live.documents)) }
        ensures reply { IfOk result (λ p. p.1 ≡ first_reply self.live (first_with term.now self.live.documents)) }
        ensures schema { IfOk result (λ p. p.0.schema ≡ self.schema) }
        ensures parts { IfOk result (λ p. K.parts p.0.keeper ≡ K.parts self.keeper) }
    {
        let mut documents = self;
        let ids = documents.remove_all(term)?;
        let Some(first) = ids.first() else {
            return documents.put_next(doc);
        };
        let id = *first;
        let documents = documents.put(id, doc)?;
        Ok((documents, Reply::Id(id)))
    }

    /// The document in the place of the one with the id, or as a new one.
    fn put(self, id: DocId, doc: Doc) -> Result<Documents<K>, AllocError>
        requires id { 1 ≤ id }
        requires light { (id : ℕ) → IsLight (id, doc) }
        ensures live { IfOk result (λ documents. documents.live ≡ with_document self.live id doc) }
        ensures schema { IfOk result (λ documents. documents.schema ≡ self.schema) }
        ensures parts { IfOk result (λ documents. K.parts documents.keeper ≡ K.parts self.keeper) }
    {
        let mut documents = self;
        documents.remove(id);
        documents.insert(id, doc)
    }

    /// The document under an id that no document has. Where memory runs out all are given up.
    pub fn insert(self, id: DocId, doc: Doc) -> Result<Documents<K>, AllocError>
        requires id { 1 ≤ id }
        requires free { document_at id self.live.documents ≡ None }
        requires light { (id : ℕ) → IsLight (id, doc) }
        ensures live { IfOk result (λ documents. documents.live ≡ with_document self.live id doc) }
        ensures schema { IfOk result (λ documents. documents.schema ≡ self.schema) }
        ensures parts { IfOk result (λ documents. K.parts documents.keeper ≡ K.parts self.keeper) }
    {
        let Documents {
            alloc,
            schema,
            highest,
            keeper,
        } = self;
        let _terms = doc.terms.as_slice();
        let keeper = keeper.put(id, doc)?;
        Ok(Documents {
            alloc,
            schema,
            highest: highest.max(id),
            keeper,
        })
    }

    /// Removes the document with the id, and answers whether there was one. Want of memory stops nothing.
    pub fn remove(&mut self, id: DocId) -> bool
        ensures live { self.new.live ≡ record { documents = without_id id self.old.live.documents; highest = self.old.live.highest } }
        ensures there { result ≡ is_some (document_at id self.old.live.documents) }
        ensures free { document_at id self.new.live.documents ≡ None }
        ensures put_again { (document : Document) → put_document id document self.new.live.documents ≡ put_document id document self.old.live.documents }
        ensures schema { self.new.schema ≡ self.old.schema }
        ensures parts { K.parts self.new.keeper ≡ K.parts self.old.keeper }
    {
        self.keeper.remove(id)
    }

    /// The ids of the documents that have the term, by rising id.
    pub fn ids_with(&mut self, term: &[u8]) -> Result<Vec<DocId>, AllocError>
        ensures ids { IfOk result (λ ids. ids.items ≡ ids_with term.now self.old.live.documents) }
        ensures same { self.new ≡ self.old }
    {
        self.keeper.ids_with(term)
    }

    /// Removes the documents that have the term, the last first, so that little of a list of the keeper's moves, and
    /// answers their ids.
    fn remove_all(&mut self, term: &[u8]) -> Result<Vec<DocId>, AllocError>
        ensures live { IfOk result (λ ids. self.new.live ≡ record { documents = without_term term.now self.old.live.documents; highest = self.old.live.highest }) }
        ensures ids { IfOk result (λ ids. ids.items ≡ ids_with term.now self.old.live.documents) }
        ensures first { IfOk result (λ ids. (id : ℕ) → first_with term.now self.old.live.documents ≡ Some id → (1 ≤ id) × (id ≤ self.old.live.highest)) }
        ensures few { IfOk result (λ ids. length ids.items < 2 ^ 32) }
        ensures schema { self.new.schema ≡ self.old.schema }
        ensures parts { K.parts self.new.keeper ≡ K.parts self.old.keeper }
    {
        let ids = self.keeper.ids_with(term)?;
        self.remove_each(ids.as_slice());
        Ok(ids)
    }

    /// Removes the documents with these ids, the last first.
    fn remove_each(&mut self, ids: &[DocId])
        ensures live { self.new.live ≡ record { documents = without_ids ids.now self.old.live.documents; highest = self.old.live.highest } }
        ensures schema { self.new.schema ≡ self.old.schema }
        ensures parts { K.parts self.new.keeper ≡ K.parts self.old.keeper }
    {
        let mut i = ids.len();
        'ids: while i > 0 {
            i -= 1;
            self.remove(ids[i]);
        }
    }
}
