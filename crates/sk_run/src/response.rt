//! What a line is answered, and its text.
ghost use Rattle.std.specs.Prelude.{◌≡◌, ◌++◌, flat_map, IfOk, string_bytes};
ghost use Rattle.sk_run.specs.Responses.{response_to, open_line};

use crate::facets::facets_lines;
use crate::found::found_lines;
use crate::refusal::Refusal;
use sk_base::{DocId, Facets, Items, Reply, Report, Text, ValueKind};
use std::alloc::{AllocError, Global};
use std::fmt::{Debug, Error, Formatter, Write};

/// What one line is answered.
#[derive(Drop)]
pub enum Response {
    /// A blank line has no answer.
    Skipped,
    Refused(Refusal),
    /// A schema was accepted, of so many fields.
    Schema(usize),
    /// A document has this id.
    Id(DocId),
    /// So many documents were removed.
    Deleted(u32),
    /// The rank of the first hit, and the report.
    Found(u32, Report),
    /// The text of a query.
    Query(Text),
    /// What the values are, and how often each stands.
    Facets(ValueKind, Facets),
    /// A search in flight has this number. Its opening took so many readings.
    Opened(u64, u128),
    /// The search with this number was turned, and is done or not. The turns took so many readings.
    Turned(u64, bool, u128),
    /// The rank of the first hit, and the report of a search that ends here. The end took so many readings.
    Closed(u32, Report, u128),
    /// The search with this number ends here, after so many readings in all.
    Dropped(u64, u128),
    /// At the end of a run: each search that is still open, by its number, with its readings in all.
    StillOpen(Items<(u64, u128)>),
}

/// Which answers are printed.
#[derive(Clone, Copy, Debug, PartialEq, Eq)]
pub enum Printing {
    All,
    /// All but those that say no more than that a line was done.
    WithoutOk,
}

impl Response {
    ghost use Rattle.std.specs.Prelude.{◌≡◌, IfOk, string_bytes};
    ghost use Rattle.sk_run.specs.Responses.{text_of, says_ok, text_under, is_refusal};

    /// Whether it says no more than that its line was done.
    fn says_ok(&self) -> bool
        ensures { result ≡ says_ok self.now }
    {
        matches!(
            self,
            Response::Schema(_)
                | Response::Id(_)
                | Response::Deleted(_)
                | Response::Opened(_, _)
                | Response::Turned(_, _, _)
        )
    }

    /// Whether it refuses its line.
    pub(crate) fn refuses(&self) -> bool
        ensures { result ≡ is_refusal self.now }
    {
        matches!(self, Response::Refused(_))
    }

    /// The lines that are printed, each with its end.
    fn text(&self, alloc: Global) -> Result<String, AllocError>
        ensures { IfOk result (λ s. string_bytes s ≡ text_of self.now) }
    {
        match self {
            Response::Skipped => Ok(String::new(alloc)),
            Response::Refused(why) => why.line(alloc),
            Response::Schema(fields) => format!(in alloc; "ok schema {fields}\n"),
            Response::Id(id) => format!(in alloc; "ok id {id}\n"),
            Response::Deleted(count) => format!(in alloc; "ok deleted {count}\n"),
            Response::Found(first, report) => found_lines(alloc, *first, report),
            Response::Query(text) => {
                let text = text.as_str();
                format!(in alloc; "query {text}\n")
            }
            Response::Facets(kind, facets) => facets_lines(alloc, *kind, facets),
            Response::Opened(number, _) => format!(in alloc; "ok open {number}\n"),
            Response::Turned(number, done, _) => {
                let turn = if *done { "done" } else { "more" };
                format!(in alloc; "ok turn {number} {turn}\n")
            }
            Response::Closed(first, report, _) => found_lines(alloc, *first, report),
            Response::Dropped(number, spent) => {
                format!(in alloc; "dropped {number} steps={spent}\n")
            }
            Response::StillOpen(readings) => open_lines(alloc, readings.as_slice()),
        }
    }

    /// The lines that are printed, where answers are printed so.
    pub(crate) fn text_under(&self, alloc: Global, printing: Printing) -> Result<String, AllocError>
        ensures { IfOk result (λ s. string_bytes s ≡ text_under printing self.now) }
    {
        match printing {
            Printing::All => self.text(alloc),
            Printing::WithoutOk => {
                if self.says_ok() {
                    return Ok(String::new(alloc));
                }
                self.text(alloc)
            }
        }
    }
}

impl Debug for Response {
    fn fmt<W: Write>(&self, f: &mut Formatter<W>) -> Result<(), Error> {
        let kind = if self.refuses() { "refusal" } else { "answer" };
        f.write_str(kind)
    }
}

/// The lines of the searches that are still open.
fn open_lines(alloc: Global, readings: &[(u64, u128)]) -> Result<String, AllocError>
    ensures { IfOk result (λ s. string_bytes s ≡ flat_map open_line readings.now) }
{
    let mut text = String::new(alloc);
    'searches: for (number, spent) in readings {
        write!(text, "open {number} steps={spent}\n")?;
    }
    Ok(text)
}

/// What an edit's reply is answered.
pub fn response_to(reply: Reply) -> Response
    ensures { result ≡ response_to reply }
{
    match reply {
        Reply::Id(id) => Response::Id(id),
        Reply::Done(count) => Response::Deleted(count),
        Reply::NotFound => Response::Refused(Refusal::NotFound),
        Reply::NoIdLeft => Response::Refused(Refusal::NoIdLeft),
    }
}
