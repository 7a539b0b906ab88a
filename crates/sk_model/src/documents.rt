//! Laws of documents.
ghost use Rattle.std.specs.Prelude.{◌≡◌, ℕ, true, List, [], ◌++◌, fold, sum_by};
ghost use Rattle.sk_base.specs.declared.doc_entry.DocTerm.{DocTerm};
ghost use Rattle.sk_base.specs.declared.record.Record.{Record};
ghost use Rattle.sk_base.specs.declared.schema.Schema.{Schema};
ghost use Rattle.sk_base.specs.Documents.{AreTerms, has_term, wdf_of, positions_of, has_value};
ghost use Rattle.sk_model.specs.Documents.{document_of, terms_of, mentions_of, has_slot};

/// A law: each value of a document stands in a slot that a field of the schema keeps.
pub fn slots_of_schema()
    ensures { (slot : ℕ) (schema : Schema) (given : Record)
        → has_value slot (document_of schema given).values ≡ true → has_slot slot schema.fields ≡ true }
{}

/// Laws: a document has the terms that are mentioned, in byte order, each once. The wdf of a term is the sum of the
/// wdfs of its mentions, and its positions are theirs, one after the other.
pub fn terms_of_mentions()
    ensures rising { (ms : List DocTerm) → AreTerms (terms_of ms) }
    ensures all { (t : List ℕ) (ms : List DocTerm) → has_term t (terms_of ms) ≡ has_term t ms }
    ensures wdf { (t : List ℕ) (ms : List DocTerm) → wdf_of t (terms_of ms) ≡ sum_by (λ m. m.wdf) (mentions_of t ms) }
    ensures positions { (t : List ℕ) (ms : List DocTerm)
        → positions_of t (terms_of ms) ≡ fold (λ places m. places ++ m.positions) [] (mentions_of t ms) }
{}
