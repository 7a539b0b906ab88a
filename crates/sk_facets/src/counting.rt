//! Counting: the matches of a query, one by one.
ghost use Rattle.std.specs.Prelude.{◌≡◌, ◌≤◌, ◌+◌, true, Some, IfOk};
ghost use Rattle.sk_base.specs.declared.find.Scheme.{Scheme};
ghost use Rattle.sk_query.specs.Trees as QueryTree;
ghost use Rattle.sk_query.specs.Trees.{query_view};
ghost use Rattle.sk_query.specs.Fits.{fits_tree};
ghost use Rattle.sk_sorted.specs.Entries.{first_id};
ghost use Rattle.sk_tree.specs.Built.{left, IsTree, Built};
ghost use Rattle.sk_report.specs.Facets.{FacetsFor};
ghost use Rattle.sk_facets.specs.Counts.{behind_first};

use crate::tally::Tally;
use sk_base::{DocId, Facets, Scheme};
use sk_index::Index;
use sk_query::Query;
use sk_steps::Steps;
use sk_tree::Tree;
use std::alloc::{AllocError, Global};
use std::sync::ledger::Ledger;

/// How often each value in the slot stands among all matches of a query: the first `size` values, and what is known of
/// all. The value of each match is one reading.
pub fn count<L: Ledger>(
    alloc: Global,
    index: &Index,
    query: &Query,
    slot: u32,
    size: u32,
    steps: &mut Steps<L>,
) -> Result<Facets, AllocError>
    requires fits { fits_tree (query_view query.now) ≡ true }
    requires size { size ≤ 100000 }
    ensures facets { IfOk result (λ facets. FacetsFor (query_view query.now) slot size index.now.live.documents facets) }
    ensures cost { IfOk result (λ facets. steps.new ≡ steps.old + facets.steps) }
    ensures later { steps.old ≤ steps.new }
{
    let _many = index.all().length();
    let mut tree = Tree::open(alloc, index, query, Scheme::Bool, steps)?;
    let mut tally = Tally::new(alloc);
    'matches: while let Some(id) = tree.head() {
        let Ok(()) = tally.note(index.value(slot, id, steps)) else {
            drop(tree);
            return Err(AllocError);
        };
        pass(&mut tree, index, id, steps);
    }
    let spent = tree.spent();
    drop(tree);
    tally.finish(size, spent)
}

/// Moves past the document at the head, which has this id.
fn pass<L: Ledger>(tree: &mut Tree, index: &Index, id: DocId, steps: &mut Steps<L>)
    requires tree { IsTree index.now tree.old }
    requires need { tree.old.need ≡ 0 }
    requires head { first_id (left index.now tree.old) ≡ Some id }
    ensures left { left index.now tree.new ≡ behind_first (left index.now tree.old) }
    ensures built { (query : QueryTree.Tree) (scheme : Scheme) → Built tree.old index.now query scheme → Built tree.new index.now query scheme }
    ensures need { tree.new.need ≡ 0 }
    ensures cost { steps.new + tree.old.spent ≡ steps.old + tree.new.spent }
    ensures later { steps.old ≤ steps.new }
{
    if id == DocId::MAX {
        tree.close();
    } else {
        tree.seek(index, id + 1, 0, steps);
    }
}
