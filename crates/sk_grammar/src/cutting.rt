//! Laws of the cutting of a text.
ghost use Rattle.std.specs.Prelude.{◌≡◌, ℕ, List};
ghost use Rattle.sk_base.specs.declared.schema.Schema.{Schema};
ghost use Rattle.sk_grammar.specs.Pieces.{Piece};
ghost use Rattle.sk_grammar.specs.Cutting.{IsCut, pieces_of};

/// A law: under each schema each text has one cutting, and no other.
pub fn one_cutting()
    ensures some { (schema : Schema) (cs : List ℕ) → IsCut schema cs (pieces_of schema cs) }
    ensures one { (schema : Schema) (cs : List ℕ) (pieces : List Piece) → IsCut schema cs pieces → pieces ≡ pieces_of schema cs }
{}
