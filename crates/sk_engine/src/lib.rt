//! The session, and the run over lines.
#![tactic(auto)]

mod flying;
mod program;
mod runs;
mod session;
mod several;
mod store;

pub use program::start;
pub use runs::run;
pub use session::Session;
pub use several::Several;
pub use sk_run::Status;
