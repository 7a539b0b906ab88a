//! Bytes come in through a `Source` and go out through a `Sink`; `Lines` cuts a source into lines.
//! `specs/LineText.antt` says what a line is, `specs/Answers.antt` what each answer of `Lines` means.
#![tactic(auto)]

mod failed;
mod file;
mod found;
mod line;
mod lines;
mod memory;
mod put;
mod sink;
mod source;
mod standard;
mod window;

pub use failed::Failed;
pub use file::LazyFile;
pub use line::{Line, LineStop, MAX_LINE};
pub use lines::Lines;
pub use memory::{MemorySink, MemorySource};
pub use put::put_all;
pub use sink::Sink;
pub use source::Source;
pub use standard::{StdSink, StdSource};
