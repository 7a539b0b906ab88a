//! A law of reports.
ghost use Rattle.std.specs.Prelude.{◌≡◌, ◌<◌, ℕ, true};
ghost use Rattle.sk_sorted.specs.Entries.{RiseAbove};
ghost use Rattle.sk_base.specs.declared.find.Paging.{Paging};
ghost use Rattle.sk_base.specs.declared.report.Report.{Report};
ghost use Rattle.sk_base.specs.Numbers.{Docs};
ghost use Rattle.sk_query.specs.Trees.{Tree};
ghost use Rattle.sk_query.specs.Fits.{is_sound};
ghost use Rattle.sk_report.specs.Reports.{ReportsFor, ReportsOver};

/// Laws: whatever a sound query finds, there is a report that it may have, over the documents of one index and over
/// those of several parts. So the conditions on a report never contradict each other.
pub fn reports_are_there()
    ensures whole { (query : Tree) (paging : Paging) (above : ℕ) (docs : Docs) → is_sound above query ≡ true
        → (report : Report) × ReportsFor query paging docs report }
    ensures parts { (n : ℕ) (query : Tree) (paging : Paging) (above : ℕ) (docs : Docs) → 0 < n → RiseAbove 0 docs → is_sound above query ≡ true
        → (report : Report) × ReportsOver n query paging docs report }
{}
