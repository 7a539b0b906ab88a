//! Why a value gives no query.
use std::alloc::{AllocError, AllocFailed};
use thiserror::Error;

/// Why a value gives no query.
#[derive(Clone, Copy, Debug, PartialEq, Eq, Error)]
pub enum TreeFault {
    /// It is read as no tree that fits.
    #[error("no query tree")]
    Shape,
    /// Memory ran out.
    #[error("no memory")]
    NoMemory,
}

impl From<AllocError> for TreeFault {
    ghost use Rattle.std.specs.Prelude.{◌≡◌};
    ghost use Rattle.sk_query_json.specs.declared.fault.TreeFault.TheVariants.{NoMemory};

    ghost from_gives = { λ _ e. e ≡ NoMemory };

    fn from(_: AllocError) -> TreeFault {
        TreeFault::NoMemory
    }
}

impl<T: Drop> From<AllocFailed<T>> for TreeFault {
    ghost use Rattle.std.specs.Prelude.{◌≡◌};
    ghost use Rattle.sk_query_json.specs.declared.fault.TreeFault.TheVariants.{NoMemory};

    ghost from_gives = { λ _ e. e ≡ NoMemory };

    fn from(_: AllocFailed<T>) -> TreeFault {
        TreeFault::NoMemory
    }
}
