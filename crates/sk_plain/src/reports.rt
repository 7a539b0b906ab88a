//! Laws of the exact report.
ghost use Rattle.std.specs.Prelude.{◌≡◌, ◌≤◌, ℕ, true, length, Some};
ghost use Rattle.sk_base.specs.declared.find.Paging.{Paging};
ghost use Rattle.sk_base.specs.Numbers.{Docs};
ghost use Rattle.sk_query.specs.Trees.{Tree};
ghost use Rattle.sk_query.specs.Fits.{is_sound};
ghost use Rattle.sk_model.specs.Allowance.{allowance};
ghost use Rattle.sk_model.specs.Matches.{found_by};
ghost use Rattle.sk_report.specs.Reports.{ReportsFor};
ghost use Rattle.sk_model.specs.Sharp.{stop_number, rare_number, decay_number};
ghost use Rattle.sk_plain.specs.Pages.{hits_of, report_for};

/// A law: the exact report of a sound query is one that the find may have, whatever documents there are.
pub fn plain_reports()
    ensures { (query : Tree) (paging : Paging) (above : ℕ) (docs : Docs)
        → is_sound above query ≡ true → ReportsFor query paging docs (report_for query paging docs) }
{}

/// Laws: the steps of the exact report are no fewer than its hits, and no more than the allowance or than any of the
/// numbers that apply, whatever documents there are.
pub fn plain_steps()
    ensures hits { (query : Tree) (paging : Paging) (docs : Docs) → length (hits_of query paging docs) ≤ (report_for query paging docs).steps }
    ensures allowed { (query : Tree) (paging : Paging) (docs : Docs)
        → (report_for query paging docs).steps ≤ allowance query paging docs (length (found_by query paging docs)) (length (hits_of query paging docs)) }
    ensures stop { (query : Tree) (paging : Paging) (docs : Docs) (n : ℕ)
        → stop_number query paging docs (length (hits_of query paging docs)) ≡ Some n → (report_for query paging docs).steps ≤ n }
    ensures rare { (query : Tree) (paging : Paging) (docs : Docs) (n : ℕ)
        → rare_number query paging docs (length (found_by query paging docs)) (length (hits_of query paging docs)) ≡ Some n
        → (report_for query paging docs).steps ≤ n }
    ensures decay { (query : Tree) (paging : Paging) (docs : Docs) (n : ℕ)
        → decay_number query paging docs (length (hits_of query paging docs)) ≡ Some n → (report_for query paging docs).steps ≤ n }
{}
