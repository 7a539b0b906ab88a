//! What holds documents.
ghost use Rattle.std.specs.Prelude.{◌≡◌, ◌≤◌, ℕ, is_some, length, None, IfOk};
ghost use Rattle.sk_base.specs.Loads.{IsLight};
ghost use Rattle.sk_base.specs.Numbers.{Docs};
ghost use Rattle.sk_model.specs.Edits.{document_at, put_document, without_id};
ghost use Rattle.sk_documents.specs.Removing.{ids_with};

use sk_base::{Doc, DocId};
use std::alloc::AllocError;

/// What holds documents under their ids, in a form of its own: as they are, say, or packed beside lists.
pub trait Keeper: Drop {
    /// The documents that it holds, by rising id.
    ghost documents: { Self → Docs };

    /// In how many parts they stand, which no edit changes.
    ghost parts: { Self → ℕ } = { λ _. 1 };

    fn count(&self) -> usize
        ensures { result ≡ length (documents self.now) };

    /// Takes in a document under an id that no document has. Where memory runs out all are given up.
    fn put(self, id: DocId, doc: Doc) -> Result<Self, AllocError>
        requires id { 1 ≤ id }
        requires free { document_at id (documents self) ≡ None }
        requires light { (id : ℕ) → IsLight (id, doc) }
        ensures documents { IfOk result (λ kept. documents kept ≡ put_document id doc (documents self)) }
        ensures parts { IfOk result (λ kept. parts kept ≡ parts self) };

    /// Lets the document go, and answers whether there was one. Want of memory stops nothing.
    fn remove(&mut self, id: DocId) -> bool
        ensures left { documents self.new ≡ without_id id (documents self.old) }
        ensures there { result ≡ is_some (document_at id (documents self.old)) }
        ensures parts { parts self.new ≡ parts self.old };

    /// The ids of the documents that have the term, by rising id.
    fn ids_with(&mut self, term: &[u8]) -> Result<Vec<DocId>, AllocError>
        ensures ids { IfOk result (λ ids. ids.items ≡ ids_with term.now (documents self.old)) }
        ensures same { self.new ≡ self.old };
}
