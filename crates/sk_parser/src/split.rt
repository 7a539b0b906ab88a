//! Splits parts at their operators.
ghost use Rattle.std.specs.Prelude.{◌≡◌, [], ◌∷◌, ◌++◌, IfOk, OnOk, map};
ghost use Rattle.sk_grammar.specs.Meaning.{is_and, is_or, is_xor, is_operator, split, runs, xor_runs};
ghost use Rattle.sk_grammar.specs.Faults.{is_not};
ghost use Rattle.std.specs.List.{list_any};
ghost use Rattle.sk_parser.specs.Views.{part_view, parts_view, run_view, run_of, border_test, segments_view, splits};

use crate::part::Part;
use sk_grammar::Kind;
use std::alloc::{AllocError, Global};
use std::mem;

/// The operators at which parts are split.
#[derive(Clone, Copy)]
pub(crate) enum Border {
    Or,
    Xor,
}

/// What stands between AND and NOT, and whether it stands behind NOT.
#[derive(Drop)]
pub(crate) struct Run {
    pub negative: bool,
    pub inside: Vec<Part>,
}

fn is_at(border: Border, part: &Part) -> bool
    ensures { result ≡ is_operator (border_test border) (part_view part.now) }
{
    match part {
        Part::Operator(Kind::Or) => matches!(border, Border::Or),
        Part::Operator(Kind::Xor) => matches!(border, Border::Xor),
        _ => false,
    }
}

fn is_and(part: &Part) -> bool
    ensures { result ≡ is_operator is_and (part_view part.now) }
{
    matches!(part, Part::Operator(Kind::And))
}

fn is_not(part: &Part) -> bool
    ensures { result ≡ is_operator is_not (part_view part.now) }
{
    matches!(part, Part::Operator(Kind::Not))
}

/// Whether a part is an operator at which parts are split.
fn splits(part: &Part) -> bool
    ensures { result ≡ splits (part_view part.now) }
{
    is_at(Border::Or, part) || is_at(Border::Xor, part) || is_and(part) || is_not(part)
}

/// Whether some part is one.
pub(crate) fn has_operator(parts: &[Part]) -> bool
    ensures { result ≡ list_any (λ p. splits (part_view p)) parts.now }
{
    parts.iter().any(|part| splits(part))
}

/// What stands between the operators.
pub(crate) fn split(
    alloc: Global,
    border: Border,
    parts: Vec<Part>,
) -> Result<Vec<Vec<Part>>, AllocError>
    ensures { IfOk result (λ v. segments_view v.items ≡ split (border_test border) (parts_view parts.items)) }
{
    let mut made = Vec::new(alloc);
    let mut held = Vec::new(alloc);
    'parts: for part in parts {
        if is_at(border, &part) {
            drop(part);
            made.push(mem::replace(&mut held, Vec::new(alloc)))?;
            continue;
        }
        held.push(part)?;
    }
    made.push(held)?;
    Ok(made)
}

/// Ends the run that is open.
fn close(
    alloc: Global,
    made: &mut Vec<Run>,
    held: &mut Vec<Part>,
    negative: bool,
) -> Result<(), AllocError>
    ensures made { OnOk result (map run_view made.new.items ≡ map run_view made.old.items ++ run_of negative (parts_view held.old.items) ∷ []) }
    ensures held { OnOk result (parts_view held.new.items ≡ []) }
{
    let inside = mem::replace(held, Vec::new(alloc));
    made.push(Run { negative, inside })?;
    Ok(())
}

/// The runs between AND and NOT.
pub(crate) fn runs_in(alloc: Global, parts: Vec<Part>) -> Result<Vec<Run>, AllocError>
    ensures { IfOk result (λ v. map run_view v.items ≡ xor_runs (parts_view parts.items)) }
{
    let mut made = Vec::new(alloc);
    let mut held = Vec::new(alloc);
    let mut negative = false;
    let mut fresh = true;
    'parts: for part in parts {
        if is_and(&part) {
            drop(part);
            close(alloc, &mut made, &mut held, negative)?;
            negative = false;
            fresh = true;
        } else if !is_not(&part) {
            held.push(part)?;
            fresh = false;
        } else if fresh {
            drop(part);
            negative = true;
            fresh = false;
        } else {
            drop(part);
            close(alloc, &mut made, &mut held, negative)?;
            negative = true;
        }
    }
    close(alloc, &mut made, &mut held, negative)?;
    Ok(made)
}
