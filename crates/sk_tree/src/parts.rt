//! How the parts of a query come to the sides of nodes.
ghost use Rattle.std.specs.Prelude.{◌≡◌, ◌≤◌, ◌<◌, ◌+◌, ◌*◌, ℕ, true, false, List, IfSome, IfNone, length, None, Some};
ghost use Rattle.sk_base.specs.Numbers.{Docs};
ghost use Rattle.sk_query.specs.declared.form.Form.TheVariants as Form;
ghost use Rattle.sk_query.specs.Trees as QueryTree;
ghost use Rattle.sk_query.specs.Trees.{query_view, queries_view, form_of};
ghost use Rattle.sk_query.specs.Fits.{leaves_in};
ghost use Rattle.sk_model.specs.Sharp.{terms_in};
ghost use Rattle.sk_tree.specs.Parts.{Splits, Halves};
ghost use Rattle.sk_tree.specs.Equal.{IsAsOne, IsAdding, AreEqual, AreAsOne};
ghost use Rattle.sk_tree.specs.OpenedLed.{first_length, last_length, CanLead, SplitsOff, IsOrdered, SplitsLed};
ghost use Rattle.sk_tree.specs.Opened.{part_count, is_nest, others_of, AreParts};

use sk_base::Text;
use sk_index::Index;
use sk_query::{Form, Query, is_factor};
use sk_weight::static_count;

/// So many parts stand one inside another at most, where the first of them leads.
const MOST_NESTED: usize = 1024;

/// So many sides stand in one node at most, where they are gone through one inside another.
const MOST_SIDES: usize = 64;

/// The form and the parts of a query of several.
pub(crate) fn parts_of(query: &Query) -> Option<(Form, &[Query])>
    ensures none { IfNone result (form_of (query_view query.now) ≡ None) }
    ensures is { IfSome result (λ p. query_view query.now ≡ QueryTree.parts p.0 (queries_view p.1.now)) }
{
    match query.parts() {
        Some((form, parts)) => Some((form, parts)),
        None => None,
    }
}

/// The part, where there is one alone.
pub(crate) fn only_part(parts: &[Query]) -> Option<&Query>
    requires { 0 < part_count (queries_view parts.now) }
    ensures many { IfNone result (2 ≤ length parts.now) }
    ensures alone { IfSome result (λ part. queries_view parts.now ≡ QueryTree.tree (query_view part.now) QueryTree.no_trees) }
{
    if parts.len() == 1 {
        Some(&parts[0])
    } else {
        None
    }
}

/// One query as which the parts of a form are opened, and its factor: what filters all documents, under the factor 0, since
/// these weigh nothing, or one of equal parts, under the factor of all.
pub(crate) fn as_one(form: Form, parts: &[Query], factor: u64) -> Option<(&Query, u64)>
    ensures one { IfSome result (λ p. AreParts form factor (queries_view parts.now) → AreAsOne form factor (queries_view parts.now) (query_view p.0.now) p.1) }
    ensures bounded { IfSome result (λ p. p.1 ≤ 65536) }
{
    match form {
        Form::Filter => Some((filter_of_all(parts)?, 0)),
        _ => equal_as_one(form, parts, factor),
    }
}

/// The second of two parts, where the first is all documents.
fn filter_of_all(parts: &[Query]) -> Option<&Query>
    ensures { IfSome result (λ part. queries_view parts.now ≡ QueryTree.tree QueryTree.all (QueryTree.tree (query_view part.now) QueryTree.no_trees)) }
{
    match parts {
        [Query::All, part] => Some(part),
        _ => None,
    }
}

/// One of the parts of an or or an and, and the factor of all of them, where all are the same wildcard or the same synonym.
fn equal_as_one(form: Form, parts: &[Query], factor: u64) -> Option<(&Query, u64)>
    ensures form { IfSome result (λ p. IsAdding form) }
    ensures equal { IfSome result (λ p. AreEqual (query_view p.0.now) (queries_view parts.now)) }
    ensures factor { IfSome result (λ p. p.1 ≡ factor * length parts.now) }
    ensures bounded { IfSome result (λ p. p.1 ≤ 65536) }
{
    let part = match form {
        Form::And | Form::Or => equal_part(parts)?,
        Form::Xor | Form::Max | Form::AndNot | Form::AndMaybe | Form::Filter => return None,
    };
    let all = factor.checked_mul(parts.len() as u64)?;
    if is_factor(all) {
        Some((part, all))
    } else {
        None
    }
}

/// The first part, where all are the same wildcard or the same synonym.
fn equal_part(parts: &[Query]) -> Option<&Query>
    ensures { IfSome result (λ part. AreEqual (query_view part.now) (queries_view parts.now)) }
{
    let first = parts.first()?;
    'parts: for part in parts {
        if !is_equal(first, part) {
            return None;
        }
    }
    Some(first)
}

/// Whether both are the same wildcard or the same synonym.
fn is_equal(query: &Query, other: &Query) -> bool
    ensures one { result ≡ true → IsAsOne (query_view query.now) }
    ensures same { result ≡ true → query_view other.now ≡ query_view query.now }
{
    match (query, other) {
        (Query::Wildcard(prefix), Query::Wildcard(other)) => prefix.as_str() == other.as_str(),
        (Query::Synonym(words), Query::Synonym(others)) => {
            are_equal(words.as_slice(), others.as_slice())
        }
        _ => false,
    }
}

/// Whether the words are the same, in order.
fn are_equal(words: &[Text], others: &[Text]) -> bool
    ensures { result ≡ true → others.now ≡ words.now }
{
    if words.len() != others.len() {
        return false;
    }
    'words: for i in 0..words.len() {
        if words[i].as_str() != others[i].as_str() {
            return false;
        }
    }
    true
}

/// Whether the parts make a nest of nodes of two sides.
#[tactic(auto, using(crate::proofs::CountLaws::counted))]
pub(crate) fn is_nest(form: Form, parts: &[Query]) -> bool
    ensures { result ≡ is_nest form (part_count (queries_view parts.now)) }
{
    match form {
        Form::Xor => parts.len() <= 2,
        Form::And | Form::Or | Form::Max | Form::AndNot | Form::AndMaybe | Form::Filter => true,
    }
}

/// Whether parts of a form stand in one node: in an or, where two are a node of two sides, and no run of equal parts is opened as one.
pub(crate) fn is_many(form: Form, parts: &[Query]) -> bool
    ensures form { result ≡ true → form ≡ Form.Or }
    ensures many { result ≡ true → 3 ≤ length parts.now }
{
    let count = parts.len();
    match form {
        Form::Or => 3 <= count && count <= MOST_SIDES && border_of(parts).is_none(),
        _ => false,
    }
}

/// Where the first run of equal parts begins or, where it comes first, ends; none where all parts are equal.
fn border_of(parts: &[Query]) -> Option<usize>
    ensures begun { IfSome result (λ n. 0 < n) }
    ensures within { IfSome result (λ n. n < length parts.now) }
{
    'parts: for i in 1..parts.len() {
        if is_equal(&parts[i - 1], &parts[i]) {
            if i > 1 {
                return Some(i - 1);
            }
            let run = run_from(parts, 0);
            return (run > 1).then_some(run);
        }
    }
    None
}

/// How many parts at this end are the same wildcard or the same synonym, and one where all are.
fn run_from(parts: &[Query], end: usize) -> usize
    requires { end < length parts.now }
    ensures some { 1 ≤ result }
    ensures within { 2 ≤ length parts.now → result < length parts.now }
    ensures others { 1 < result → terms_in (queries_view parts.now) ≡ None }
{
    let part = &parts[end];
    'parts: for n in 1..parts.len() {
        if !is_equal(part, &parts[end.abs_diff(n)]) {
            return n;
        }
    }
    1
}

/// The two halves of the parts of an xor, or of an or of many sides.
pub(crate) fn side_halves(parts: &[Query]) -> (&[Query], &[Query])
    requires { 2 ≤ length parts.now }
    ensures { (factor : ℕ) → AreParts Form.Xor factor (queries_view parts.now) → Halves factor (queries_view parts.now) (queries_view result.0.now) (queries_view result.1.now) }
{
    let half = parts.len() / 2;
    parts.split_at(half)
}

/// The parts that are put together first, and the others.
pub(crate) fn split_parts<'a>(
    index: &Index,
    form: Form,
    parts: &'a [Query],
) -> (&'a [Query], &'a [Query])
    requires leaves { leaves_in (queries_view parts.now) ≤ 1024 }
    requires many { 2 ≤ length parts.now }
    requires nest { is_nest form (part_count (queries_view parts.now)) ≡ true }
    ensures splits { (factor : ℕ) → factor ≤ 65536 → AreParts form factor (queries_view parts.now) → Splits form factor (queries_view parts.now) (queries_view result.0.now) (queries_view result.1.now) }
    ensures led { (lists : List (List ℕ)) → CanLead form lists → terms_in (queries_view parts.now) ≡ Some lists → SplitsLed form lists index.now.live.documents (terms_in (queries_view result.0.now)) (terms_in (queries_view result.1.now)) }
{
    match form {
        Form::And => split_and(index, parts),
        Form::Or => split_or(parts),
        Form::Xor => split_in_order(Form::Xor, parts),
        Form::Max => split_in_order(Form::Max, parts),
        Form::AndNot => split_in_order(Form::AndNot, parts),
        Form::AndMaybe => split_in_order(Form::AndMaybe, parts),
        Form::Filter => split_in_order(Form::Filter, parts),
    }
}

/// The parts of an or: a run of equal parts and the others, or two halves.
fn split_or(parts: &[Query]) -> (&[Query], &[Query])
    requires leaves { leaves_in (queries_view parts.now) ≤ 1024 }
    requires many { 2 ≤ length parts.now }
    ensures { (factor : ℕ) → factor ≤ 65536 → AreParts Form.Or factor (queries_view parts.now) → Splits Form.Or factor (queries_view parts.now) (queries_view result.0.now) (queries_view result.1.now) }
{
    if parts.len() > MOST_SIDES {
        return split_in_order(Form::Or, parts);
    }
    match border_of(parts) {
        Some(place) => split_before(Form::Or, parts, place),
        None => split_in_order(Form::Or, parts),
    }
}

/// The parts of an and: the longer one of the first and the last is put behind the others, with those beside it that equal
/// it, so that in the end the shortest part leads.
fn split_and<'a>(index: &Index, parts: &'a [Query]) -> (&'a [Query], &'a [Query])
    requires leaves { leaves_in (queries_view parts.now) ≤ 1024 }
    requires many { 2 ≤ length parts.now }
    ensures splits { (factor : ℕ) → factor ≤ 65536 → AreParts Form.And factor (queries_view parts.now) → Splits Form.And factor (queries_view parts.now) (queries_view result.0.now) (queries_view result.1.now) }
    ensures led { (lists : List (List ℕ)) → terms_in (queries_view parts.now) ≡ Some lists → SplitsLed Form.And lists index.now.live.documents (terms_in (queries_view result.0.now)) (terms_in (queries_view result.1.now)) }
{
    if is_longer(index, parts) {
        let (first, others) = parts.split_at(run_from(parts, 0));
        return (others, first);
    }
    let run = run_from(parts, parts.len() - 1);
    if run > 1 {
        return split_before(Form::And, parts, parts.len() - run);
    }
    split_in_order(Form::And, parts)
}

/// Whether more documents may match the first part than the last.
fn is_longer(index: &Index, parts: &[Query]) -> bool
    requires many { 2 ≤ length parts.now }
    ensures longer { result ≡ true → (lists : List (List ℕ)) → terms_in (queries_view parts.now) ≡ Some lists → last_length lists index.now.live.documents < first_length lists index.now.live.documents }
    ensures ordered { result ≡ false → length parts.now ≤ 1024 → (lists : List (List ℕ)) → terms_in (queries_view parts.now) ≡ Some lists → first_length lists index.now.live.documents ≤ last_length lists index.now.live.documents }
{
    let last = parts.len() - 1;
    last < MOST_NESTED && static_count(index, &parts[last]) < static_count(index, &parts[0])
}

/// The same in the order of the parts.
fn split_in_order(form: Form, parts: &[Query]) -> (&[Query], &[Query])
    requires leaves { leaves_in (queries_view parts.now) ≤ 1024 }
    requires many { 2 ≤ length parts.now }
    requires nest { is_nest form (part_count (queries_view parts.now)) ≡ true }
    ensures splits { (factor : ℕ) → factor ≤ 65536 → AreParts form factor (queries_view parts.now) → Splits form factor (queries_view parts.now) (queries_view result.0.now) (queries_view result.1.now) }
    ensures led { (lists : List (List ℕ)) (docs : Docs) → CanLead form lists → IsOrdered form lists docs → terms_in (queries_view parts.now) ≡ Some lists → SplitsLed form lists docs (terms_in (queries_view result.0.now)) (terms_in (queries_view result.1.now)) }
{
    let count = parts.len();
    parts.split_at(split_of(form, count))
}

/// The parts before this one, and the others.
fn split_before(form: Form, parts: &[Query], place: usize) -> (&[Query], &[Query])
    requires nest { is_nest form (part_count (queries_view parts.now)) ≡ true }
    requires begun { 0 < place }
    requires within { place < length parts.now }
    ensures { (factor : ℕ) → factor ≤ 65536 → AreParts form factor (queries_view parts.now) → Splits form factor (queries_view parts.now) (queries_view result.0.now) (queries_view result.1.now) }
{
    parts.split_at(place)
}

/// How many parts the first of two nodes has: those that lead, and otherwise half of them.
fn split_of(form: Form, count: usize) -> usize
    requires some { 2 ≤ count }
    ensures begun { 1 ≤ result }
    ensures within { result < count }
    ensures off { SplitsOff form count result }
{
    match form {
        Form::Or | Form::Xor | Form::Max => count / 2,
        Form::AndNot | Form::AndMaybe => 1,
        Form::And => if count <= MOST_NESTED {
            count - 1
        } else {
            count / 2
        },
        Form::Filter => if count <= MOST_NESTED { count - 1 } else { 1 },
    }
}

/// The form of the second of two nodes.
pub(crate) fn others_of(form: Form) -> Form
    ensures { result ≡ others_of form }
{
    match form {
        Form::And | Form::Filter => Form::And,
        Form::Or | Form::AndNot | Form::AndMaybe => Form::Or,
        Form::Xor => Form::Xor,
        Form::Max => Form::Max,
    }
}
