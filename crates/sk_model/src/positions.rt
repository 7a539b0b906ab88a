//! A law of words that stand near.
ghost use Rattle.std.specs.Prelude.{◌≡◌, ◌≤◌, ℕ, true, List, length};
ghost use Rattle.sk_model.specs.Positions.{is_near};
ghost use Rattle.sk_model.specs.Laws.{stand_within};

/// Laws: near holds exactly where some window holds a position of each operand. The window is one position wide at
/// least, and there is an operand.
pub fn near_is_a_window()
    ensures found { (window : ℕ) (places : List (List ℕ)) → 1 ≤ window → is_near window places ≡ true
        → (p : ℕ) × (stand_within window p places ≡ true) }
    ensures holds { (window p : ℕ) (places : List (List ℕ)) → 1 ≤ window → 1 ≤ length places → stand_within window p places ≡ true
        → is_near window places ≡ true }
{}
