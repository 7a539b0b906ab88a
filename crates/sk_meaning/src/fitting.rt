//! The query of a text keeps the limits of queries.
ghost use Rattle.std.specs.Prelude.{◌≡◌, ℕ, List, Ok, true};
ghost use Rattle.sk_base.specs.declared.schema.Schema.{Schema};
ghost use Rattle.sk_base.specs.declared.find.Join.{Join};
ghost use Rattle.sk_base.specs.Fields.{IsSchema};
ghost use Rattle.sk_query.specs.Trees.{Tree};
ghost use Rattle.sk_query.specs.Fits.{fits_tree};
ghost use Rattle.sk_grammar.specs.Meaning.{query_meant};

/// A law: the query of a text under a schema fits.
pub fn meant_fits()
    ensures { (schema : Schema) (join : Join) (text : List ℕ) (t : Tree) → IsSchema schema → query_meant schema join text ≡ Ok t → fits_tree t ≡ true }
{}
