//! What is answered where a query is asked for.
ghost use Rattle.std.specs.Prelude.{◌≡◌, ◌≤◌, ◌+◌, false, length, IfOk, OnErr};
ghost use Rattle.serde_json.specs.View.{view};
ghost use Rattle.sk_base.specs.declared.command.Question.TheVariants as Question;
ghost use Rattle.sk_base.specs.Commands.{FitsFacets, FitsQuestion, question_over};
ghost use Rattle.sk_base.specs.Finds.{FitsFind, find_over};
ghost use Rattle.sk_parser.specs.declared.asked.AskError.TheVariants as AskError;
ghost use Rattle.sk_parser.specs.Asked.{text_asked};
ghost use Rattle.sk_run.specs.Responses.{reads_of};
ghost use Rattle.sk_run.specs.Asking.{RefusedFor, AnswersAsk, IsCounted, IsShown};
ghost use Rattle.sk_run.specs.Conducts.{reads, AnswersQuestion};

use crate::{Refusal, Response, Store};
use serde_json::Value;
use sk_base::{FacetQuery, Find, Join, Question, Schema, Text};
use sk_parser::{AskError, text_query};
use sk_query_json::text as compact_text;
use sk_steps::Steps;
use std::alloc::{AllocError, Global};
use std::sync::ledger::Ledger;

/// What is answered where no query was read, with its cause.
pub fn refused(why: AskError) -> Result<Response, AllocError>
    ensures answer { IfOk result (RefusedFor why) }
    ensures fails { OnErr result (why ≡ AskError.NoMemory) }
    ensures free { IfOk result (λ answer. reads_of answer ≡ 0) }
{
    match why {
        AskError::BadQuery(kind, place) => Ok(Response::Refused(Refusal::BadQuery(kind, place))),
        AskError::BadTree => Ok(Response::Refused(Refusal::BadTree)),
        AskError::NoMemory => Err(AllocError),
    }
}

/// What a question is answered over a store.
pub(crate) fn answer_question<M: Store, L: Ledger>(
    alloc: Global,
    store: &M,
    question: &Question<Value>,
    steps: &mut Steps<L>,
) -> Result<Response, AllocError>
    requires { FitsQuestion question.now }
    ensures answer { IfOk result (λ answer. (s : M.State) → M.holds store.now s → AnswersQuestion M.conduct (M.under store.now) (question_over view question.now) s answer) }
    ensures cost { IfOk result (λ answer. steps.new ≡ steps.old + reads_of answer) }
    ensures later { steps.old ≤ steps.new }
    ensures still { reads question.now ≡ false → steps.new ≡ steps.old }
{
    match question {
        Question::Find(find) => found(store, find, steps),
        Question::Show(text, join) => shown(alloc, store.schema(), *join, text.as_str()),
        Question::Facets(wanted) => faceted(store, wanted, steps),
    }
}

/// Whether readings may be counted where a question is answered: a show alone reads nothing.
pub(crate) fn reads(question: &Question<Value>) -> bool
    ensures { result ≡ reads question.now }
{
    match question {
        Question::Find(_) => true,
        Question::Show(_, _) => false,
        Question::Facets(_) => true,
    }
}

/// What a find is answered over a store.
#[tactic(auto, using(crate::proofs::AskLemmas::told, crate::proofs::AskLemmas::not_told))]
fn found<M: Store, L: Ledger>(
    store: &M,
    find: &Find<Value>,
    steps: &mut Steps<L>,
) -> Result<Response, AllocError>
    requires { FitsFind find.now }
    ensures answer { IfOk result (λ answer. (s : M.State) → M.holds store.now s → AnswersQuestion M.conduct (M.under store.now) (Question.Find (find_over view find.now)) s answer) }
    ensures cost { IfOk result (λ answer. steps.new ≡ steps.old + reads_of answer) }
    ensures later { steps.old ≤ steps.new }
{
    match store.find(find, steps) {
        Ok(report) => Ok(Response::Found(find.paging.options.first, report)),
        Err(why) => refused(why),
    }
}

/// What a line is answered that asks for facets: where documents stand in several parts it is refused, whatever its text.
fn faceted<M: Store, L: Ledger>(
    store: &M,
    wanted: &FacetQuery,
    steps: &mut Steps<L>,
) -> Result<Response, AllocError>
    requires { FitsFacets wanted.now }
    ensures answer { IfOk result (λ answer. (s : M.State) → M.holds store.now s → AnswersQuestion M.conduct (M.under store.now) (Question.Facets wanted.now) s answer) }
    ensures cost { IfOk result (λ answer. steps.new ≡ steps.old + reads_of answer) }
    ensures later { steps.old ≤ steps.new }
{
    if store.is_in_parts() {
        return Ok(Response::Refused(Refusal::InParts));
    }
    counted(store, wanted, steps)
}

/// What a line is answered that asks for facets of documents in one part.
#[tactic(auto, using(crate::proofs::AskLemmas::told, crate::proofs::AskLemmas::not_told))]
fn counted<M: Store, L: Ledger>(
    store: &M,
    wanted: &FacetQuery,
    steps: &mut Steps<L>,
) -> Result<Response, AllocError>
    requires fits { FitsFacets wanted.now }
    requires whole { (s : M.State) → M.holds store.now s → M.conduct.in_parts s ≡ false }
    ensures answer { IfOk result (λ answer. (s : M.State) → M.holds store.now s
        → AnswersAsk (λ query found. IsCounted (M.conduct.facets s wanted.now.slot wanted.now.size query) wanted.now.kind found) (text_asked (M.under store.now) wanted.now.join wanted.now.text) answer) }
    ensures cost { IfOk result (λ answer. steps.new ≡ steps.old + reads_of answer) }
    ensures later { steps.old ≤ steps.new }
{
    match store.facets(wanted, steps) {
        Ok(facets) => Ok(Response::Facets(wanted.kind, facets)),
        Err(why) => refused(why),
    }
}

/// What a line is answered that asks to show the query of a text.
#[tactic(auto, using(crate::proofs::AskLemmas::refused_for))]
fn shown(alloc: Global, schema: &Schema, join: Join, text: &str) -> Result<Response, AllocError>
    requires { length text.now ≤ 1048576 }
    ensures answer { IfOk result (AnswersAsk IsShown (text_asked schema.now join text.now)) }
    ensures free { IfOk result (λ answer. reads_of answer ≡ 0) }
{
    match text_query(alloc, schema, join, text) {
        Ok(query) => {
            let text = compact_text(alloc, &query);
            drop(query);
            Ok(Response::Query(Text::from_string(text?)))
        }
        Err(why) => refused(why),
    }
}
