//! Why a line is refused.
ghost use Rattle.std.specs.Prelude.{◌≡◌, IfOk, string_bytes};
ghost use Rattle.sk_run.specs.Refusals.{refusal_number, refusal_name, fault_name, detail_of, refusal_line};

use sk_grammar::FaultKind;
use std::alloc::{AllocError, Global};

/// Why a line is refused. The tests are made in this order, but for the last.
#[derive(Clone, Copy, Debug, PartialEq, Eq)]
pub enum Refusal {
    /// The line has more bytes than a line may have.
    TooLong,
    /// The line is read as no JSON value.
    NotJson,
    /// No schema was accepted before, and the line brings none.
    NoSchema,
    /// A schema was accepted before, and the line brings another.
    SchemaAgain,
    /// The value has none of the forms of a command.
    BadShape,
    /// A rule on fields is broken.
    BadField,
    /// The greatest id was used before.
    NoIdLeft,
    /// No live document has the id.
    NotFound,
    /// The text has this first fault, at this byte.
    BadQuery(FaultKind, usize),
    /// The tree is no query.
    BadTree,
    /// What is asked for is not there where documents stand in several parts. It is tested before the query.
    InParts,
    /// As many searches are open as may be.
    TooManyOpen,
    /// No search with this number is open.
    NotOpen,
    /// The last turn of the search was not done, or it had none.
    NotDone,
}

impl Refusal {
    pub fn number(self) -> u32
        ensures { result ≡ refusal_number self }
    {
        match self {
            Refusal::TooLong => 1,
            Refusal::NotJson => 2,
            Refusal::NoSchema => 3,
            Refusal::SchemaAgain => 4,
            Refusal::BadShape => 5,
            Refusal::BadField => 6,
            Refusal::NoIdLeft => 7,
            Refusal::NotFound => 8,
            Refusal::BadQuery(_, _) => 9,
            Refusal::BadTree => 10,
            Refusal::InParts => 11,
            Refusal::TooManyOpen => 12,
            Refusal::NotOpen => 13,
            Refusal::NotDone => 14,
        }
    }

    pub fn name(self) -> &'static str
        ensures { result.now ≡ refusal_name self }
    {
        match self {
            Refusal::TooLong => "TooLong",
            Refusal::NotJson => "NotJson",
            Refusal::NoSchema => "NoSchema",
            Refusal::SchemaAgain => "SchemaAgain",
            Refusal::BadShape => "BadShape",
            Refusal::BadField => "BadField",
            Refusal::NoIdLeft => "NoIdLeft",
            Refusal::NotFound => "NotFound",
            Refusal::BadQuery(_, _) => "BadQuery",
            Refusal::BadTree => "BadTree",
            Refusal::InParts => "InParts",
            Refusal::TooManyOpen => "TooManyOpen",
            Refusal::NotOpen => "NotOpen",
            Refusal::NotDone => "NotDone",
        }
    }

    /// What is printed behind the name: of a query text its fault, and the byte at which it stands.
    fn detail(self, alloc: Global) -> Result<String, AllocError>
        ensures { IfOk result (λ s. string_bytes s ≡ detail_of self) }
    {
        match self {
            Refusal::BadQuery(kind, place) => {
                let name = fault_name(kind);
                format!(in alloc; " {name} at {place}")
            }
            _ => Ok(String::new(alloc)),
        }
    }

    /// The line that is printed.
    pub(crate) fn line(self, alloc: Global) -> Result<String, AllocError>
        ensures { IfOk result (λ s. string_bytes s ≡ refusal_line self) }
    {
        let number = self.number();
        let name = self.name();
        let detail = self.detail(alloc)?;
        let detail = detail.as_str();
        format!(in alloc; "refused {number} {name}{detail}\n")
    }
}

fn fault_name(kind: FaultKind) -> &'static str
    ensures { result.now ≡ fault_name kind }
{
    match kind {
        FaultKind::StrayBracket => "StrayBracket",
        FaultKind::UnclosedBracket => "UnclosedBracket",
        FaultKind::MissingOperand => "MissingOperand",
        FaultKind::BadNear => "BadNear",
        FaultKind::BadRange => "BadRange",
        FaultKind::TooDeep => "TooDeep",
        FaultKind::TooMany => "TooMany",
    }
}
