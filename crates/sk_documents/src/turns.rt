//! Keepers that take turns.
ghost use Rattle.std.specs.Prelude.{◌≡◌, ◌≤◌, ℕ, [], map, length, All, IfOk, is_some, None};
ghost use Rattle.sk_base.specs.Loads.{IsLight};
ghost use Rattle.sk_model.specs.Edits.{document_at, put_document, without_id};
ghost use Rattle.sk_sorted.specs.Joined.{joined};
ghost use Rattle.sk_documents.specs.Turned.{AreTurns};

use crate::Keeper;
use crate::gather::{count_all, gather};
use sk_base::{Doc, DocId};
use sk_sorted::{own_id, part_of};
use std::alloc::{AllocError, Global};
use std::marker::Model;

/// Keepers that take turns: a document stands in the one whose turn its id is, under an id of its own there.
#[derive(Drop)]
pub struct Turns<K: Keeper> {
    alloc: Global,
    parts: Vec<K>,
}

impl<K: Keeper> Model for Turns<K> {
    ghost use Rattle.sk_documents.specs.Turned.{Turned, AreTurns};

    ghost Value = { Turned K };

    ghost view = { λ t. record { parts = t.parts.items } };

    ghost invariant = { λ t. AreTurns K.documents t.parts.items };
}

impl<K: Keeper> Turns<K> {
    /// These keepers, in the order of their turns. None has a document.
    pub fn new(alloc: Global, parts: Vec<K>) -> Turns<K>
        requires some { 1 ≤ length parts.items }
        requires few { length parts.items ≤ 16 }
        requires empty { All (λ part. K.documents part ≡ []) parts.items }
        ensures parts { result.parts ≡ parts.items }
        ensures empty { joined (map K.documents result.parts) ≡ [] }
    {
        Turns { alloc, parts }
    }

    /// The keepers, in the order of their turns.
    pub fn parts(&self) -> &[K]
        ensures value { result.now ≡ self.now.parts }
        ensures sound { AreTurns K.documents self.now.parts }
    {
        self.parts.as_slice()
    }

    /// Puts the document into its part. Where memory runs out all are given up.
    fn put_in(self, id: DocId, doc: Doc) -> Result<Turns<K>, AllocError>
        requires id { 1 ≤ id }
        requires free { document_at id (joined (map K.documents self.parts)) ≡ None }
        requires light { (id : ℕ) → IsLight (id, doc) }
        ensures documents { IfOk result (λ turns. joined (map K.documents turns.parts) ≡ put_document id doc (joined (map K.documents self.parts))) }
        ensures parts { IfOk result (λ turns. length turns.parts ≡ length self.parts) }
    {
        let Turns { alloc, mut parts } = self;
        let count = parts.len() as u32;
        let at = part_of(count, id) as usize;
        let part = parts.remove(at).put(own_id(count, id), doc)?;
        parts.insert(at, part)?;
        Ok(Turns { alloc, parts })
    }

    /// Removes the document from its part, and answers whether there was one.
    fn remove_from(&mut self, id: DocId) -> bool
        requires id { 1 ≤ id }
        ensures left { joined (map K.documents self.new.parts) ≡ without_id id (joined (map K.documents self.old.parts)) }
        ensures there { result ≡ is_some (document_at id (joined (map K.documents self.old.parts))) }
        ensures parts { length self.new.parts ≡ length self.old.parts }
    {
        let count = self.parts.len() as u32;
        self.parts[part_of(count, id) as usize].remove(own_id(count, id))
    }
}

impl<K: Keeper> Keeper for Turns<K> {
    ghost use Rattle.std.specs.Prelude.{map, length};
    ghost use Rattle.sk_sorted.specs.Joined.{joined};

    ghost documents = { λ t. joined (map K.documents t.parts) };

    ghost parts = { λ t. length t.parts };

    fn count(&self) -> usize {
        count_all(self.parts.as_slice())
    }

    fn put(self, id: DocId, doc: Doc) -> Result<Turns<K>, AllocError> {
        self.put_in(id, doc)
    }

    fn remove(&mut self, id: DocId) -> bool {
        if id == 0 {
            return false;
        }
        self.remove_from(id)
    }

    fn ids_with(&mut self, term: &[u8]) -> Result<Vec<DocId>, AllocError> {
        let mut ids = Vec::new(self.alloc);
        let count = self.parts.len() as u32;
        gather(self.parts.as_mut_slice(), count, 0, term, &mut ids)?;
        ids.sort_unstable();
        Ok(ids)
    }
}
