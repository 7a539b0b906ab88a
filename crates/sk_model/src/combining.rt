//! Laws of scores that are put together.
ghost use Rattle.std.specs.Prelude.{◌≡◌, ◌+◌, ◌==◌, ℕ, List, [], ◌∷◌, ◌++◌, filter, count_by, IsPermutation, Option, is_some, is_none};
ghost use Rattle.std.specs.List.{list_all};
ghost use Rattle.sk_query.specs.declared.form.Form.{Form};
ghost use Rattle.sk_query.specs.declared.form.Form.TheVariants as Form;
ghost use Rattle.sk_model.specs.Combining.{both, either, greater, sum_of_all, sum_of_any, greatest_score, number_matching, where_so, with_more, combined};

/// Laws: what two lists of scores make, one behind the other, is made of what each makes.
pub fn scores_in_pieces()
    ensures all { (xs ys : List (Option ℕ)) → sum_of_all (xs ++ ys) ≡ both (sum_of_all xs) (sum_of_all ys) }
    ensures any { (xs ys : List (Option ℕ)) → sum_of_any (xs ++ ys) ≡ either (sum_of_any xs) (sum_of_any ys) }
    ensures greatest { (xs ys : List (Option ℕ)) → greatest_score (xs ++ ys) ≡ greater (greatest_score xs) (greatest_score ys) }
    ensures number { (xs ys : List (Option ℕ)) → number_matching (xs ++ ys) ≡ number_matching xs + number_matching ys }
{}

/// Laws: the order of scores does not matter, but for which is the first.
pub fn scores_in_any_order()
    ensures all { (xs ys : List (Option ℕ)) → IsPermutation xs ys → sum_of_all ys ≡ sum_of_all xs }
    ensures any { (xs ys : List (Option ℕ)) → IsPermutation xs ys → sum_of_any ys ≡ sum_of_any xs }
    ensures greatest { (xs ys : List (Option ℕ)) → IsPermutation xs ys → greatest_score ys ≡ greatest_score xs }
    ensures number { (xs ys : List (Option ℕ)) → IsPermutation xs ys → number_matching ys ≡ number_matching xs }
    ensures behind { (form : Form) (s : Option ℕ) (xs ys : List (Option ℕ)) → IsPermutation xs ys → combined form (s ∷ ys) ≡ combined form (s ∷ xs) }
{}

/// Laws: a score that is not there adds nothing, where one need be there. None is there exactly where the sum over
/// any is none, and all are there exactly where the sum over all is one; it is then the sum over any, if there is a
/// score at all.
pub fn scores_that_are_there()
    ensures any { (xs : List (Option ℕ)) → sum_of_any (filter is_some xs) ≡ sum_of_any xs }
    ensures greatest { (xs : List (Option ℕ)) → greatest_score (filter is_some xs) ≡ greatest_score xs }
    ensures number { (xs : List (Option ℕ)) → number_matching (filter is_some xs) ≡ number_matching xs }
    ensures counted { (xs : List (Option ℕ)) → number_matching xs ≡ count_by is_some xs }
    ensures none_there { (xs : List (Option ℕ)) → (number_matching xs == 0) ≡ is_none (sum_of_any xs) }
    ensures greatest_there { (xs : List (Option ℕ)) → is_some (greatest_score xs) ≡ is_some (sum_of_any xs) }
    ensures all_there { (xs : List (Option ℕ)) → is_some (sum_of_all xs) ≡ list_all is_some xs }
    ensures as_any { (s : Option ℕ) (xs : List (Option ℕ)) → sum_of_all (s ∷ xs) ≡ where_so (list_all is_some (s ∷ xs)) (sum_of_any (s ∷ xs)) }
{}

/// Laws: a query of a first part and others is made of the first and one query of the others: none of them, any, or
/// all.
pub fn first_and_others()
    ensures not { (s : Option ℕ) (xs : List (Option ℕ)) → combined Form.AndNot (s ∷ xs) ≡ where_so (is_none (combined Form.Or xs)) s }
    ensures maybe { (s : Option ℕ) (xs : List (Option ℕ)) → combined Form.AndMaybe (s ∷ xs) ≡ with_more s (combined Form.Or xs) }
    ensures filter { (s : Option ℕ) (xs : List (Option ℕ)) → combined Form.Filter (s ∷ xs) ≡ where_so (is_some (combined Form.And xs)) s }
{}
