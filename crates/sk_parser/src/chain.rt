//! Puts linked words together.
ghost use Rattle.std.specs.Prelude.{◌≡◌, ◌∷◌, OnOk};
ghost use Rattle.sk_grammar.specs.Parts.{chain, link, linked, with_words, with_part};
ghost use Rattle.sk_parser.specs.Views.{part_view, parts_behind};

use crate::part::Part;
use sk_base::Text;
use std::alloc::AllocError;

/// Adds a part as it is.
#[tactic(auto, using(crate::proofs::ChainLemmas::behind_last))]
fn put(parts: &mut Vec<Part>, part: Part) -> Result<(), AllocError>
    ensures { OnOk result (parts_behind parts.new.items ≡ part_view part ∷ parts_behind parts.old.items) }
{
    parts.push(part)?;
    Ok(())
}

/// Adds a link and words, as they are.
fn put_linked(
    parts: &mut Vec<Part>,
    ordered: bool,
    distance: u32,
    in_order: bool,
    own: u32,
    stem: Option<Text>,
    words: Vec<Text>,
) -> Result<(), AllocError>
    ensures { OnOk result (parts_behind parts.new.items ≡ chain in_order own stem words.items ∷ link ordered distance ∷ parts_behind parts.old.items) }
{
    put(parts, Part::Link(ordered, distance))?;
    put(parts, Part::Chain(in_order, own, stem, words))
}

/// Adds words behind a link, which was taken off.
#[tactic(auto, using(crate::proofs::ChainLemmas::behind_last))]
fn link(
    parts: &mut Vec<Part>,
    ordered: bool,
    distance: u32,
    in_order: bool,
    own: u32,
    stem: Option<Text>,
    words: Vec<Text>,
) -> Result<(), AllocError>
    ensures { OnOk result (parts_behind parts.new.items ≡ linked ordered distance (parts_behind parts.old.items) in_order own stem words.items) }
{
    let mut words = words;
    match parts.pop() {
        Some(Part::Chain(_, greatest, _, before)) => {
            let mut all = before;
            all.append(&mut words)?;
            put(
                parts,
                Part::Chain(ordered, greatest.max(distance), None, all),
            )
        }
        Some(other) => {
            put(parts, other)?;
            put_linked(parts, ordered, distance, in_order, own, stem, words)
        }
        None => put_linked(parts, ordered, distance, in_order, own, stem, words),
    }
}

/// Adds words.
#[tactic(auto, using(crate::proofs::ChainLemmas::behind_last))]
fn add_words(
    parts: &mut Vec<Part>,
    in_order: bool,
    own: u32,
    stem: Option<Text>,
    words: Vec<Text>,
) -> Result<(), AllocError>
    ensures { OnOk result (parts_behind parts.new.items ≡ with_words (parts_behind parts.old.items) in_order own stem words.items) }
{
    match parts.pop() {
        Some(Part::Link(ordered, distance)) => {
            link(parts, ordered, distance, in_order, own, stem, words)
        }
        Some(other) => {
            put(parts, other)?;
            put(parts, Part::Chain(in_order, own, stem, words))
        }
        None => put(parts, Part::Chain(in_order, own, stem, words)),
    }
}

/// Adds a part.
#[tactic(auto, using(crate::proofs::ChainLemmas::behind_last))]
pub(crate) fn add(parts: &mut Vec<Part>, part: Part) -> Result<(), AllocError>
    ensures { OnOk result (parts_behind parts.new.items ≡ with_part (parts_behind parts.old.items) (part_view part)) }
{
    match part {
        Part::Chain(in_order, own, stem, words) => add_words(parts, in_order, own, stem, words),
        other => put(parts, other),
    }
}
