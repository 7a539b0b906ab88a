//! Laws of what covers what was left.
ghost use Rattle.std.specs.Prelude.{◌≡◌, ◌≤◌, ℕ, [], ◌∷◌, Option, is_some, is_none, unwrap_or};
ghost use Rattle.sk_query.specs.declared.form.Form.{Form};
ghost use Rattle.sk_query.specs.declared.form.Form.TheVariants as Form;
ghost use Rattle.sk_model.specs.Combining.{both, either, greater, where_so, with_more, combined};
ghost use Rattle.sk_model.specs.Covers.{Covers, CoversAt, first_need, second_need};
ghost use Rattle.sk_model.specs.Laws.{one_of};

/// Laws: whatever is left covers itself; what covers under a need covers under a greater one; one cover after another,
/// where the need does not fall, is a cover; and without a need nothing is passed over.
pub fn covers_follow()
    ensures itself { (old : ℕ → Option ℕ) (need : ℕ) → Covers old old need }
    ensures weaker { (old new : ℕ → Option ℕ) (m n : ℕ) → m ≤ n → Covers old new m → Covers old new n }
    ensures then { (old new last : ℕ → Option ℕ) (m n : ℕ) → m ≤ n → Covers old new m → Covers new last n → Covers old last n }
    ensures exact { (old new : ℕ → Option ℕ) → Covers old new 0 → (id : ℕ) → new id ≡ old id }
{}

/// Laws: what a form makes of two sides.
pub fn two_sides()
    ensures all { (a b : Option ℕ) → combined Form.And (a ∷ b ∷ []) ≡ both a b }
    ensures any { (a b : Option ℕ) → combined Form.Or (a ∷ b ∷ []) ≡ either a b }
    ensures one { (a b : Option ℕ) → combined Form.Xor (a ∷ b ∷ []) ≡ one_of a b }
    ensures greatest { (a b : Option ℕ) → combined Form.Max (a ∷ b ∷ []) ≡ greater a b }
    ensures not { (a b : Option ℕ) → combined Form.AndNot (a ∷ b ∷ []) ≡ where_so (is_none b) a }
    ensures maybe { (a b : Option ℕ) → combined Form.AndMaybe (a ∷ b ∷ []) ≡ with_more a b }
    ensures filter { (a b : Option ℕ) → combined Form.Filter (a ∷ b ∷ []) ≡ where_so (is_some b) a }
{}

/// A law: two sides that cover what they had make what covers what they made, where each is asked for the need that the
/// form leaves it: the first by the most that the second gives, and then the second by the most that the first still
/// gives.
pub fn sides_cover()
    ensures { (form : Form) (a b a2 b2 : Option ℕ) (ga gb need : ℕ) → unwrap_or b 0 ≤ gb → unwrap_or a2 0 ≤ ga
        → CoversAt a a2 (first_need form need gb) → CoversAt b b2 (second_need form need ga)
        → CoversAt (combined form (a ∷ b ∷ [])) (combined form (a2 ∷ b2 ∷ [])) need }
{}
