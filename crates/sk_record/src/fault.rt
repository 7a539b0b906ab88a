//! Why a line is refused.
use std::alloc::AllocError;

/// Why a line gives no command. The faults stand in the order in which they are asked for.
#[derive(Clone, Copy, Debug, PartialEq, Eq)]
pub enum LineFault {
    /// It is read as no JSON value.
    NotJson,
    /// No schema was accepted before, and the line brings none.
    NoSchema,
    /// A schema was accepted before, and the line brings another.
    SchemaAgain,
    /// The value has none of the shapes of a command.
    BadShape,
    /// A rule on fields is broken.
    BadField,
    /// Memory ran out.
    NoMemory,
}

impl From<AllocError> for LineFault {
    ghost use Rattle.std.specs.Prelude.{◌≡◌};
    ghost use Rattle.sk_record.specs.declared.fault.LineFault.TheVariants.{NoMemory};

    ghost from_gives = { λ _ e. e ≡ NoMemory };

    fn from(_: AllocError) -> LineFault {
        LineFault::NoMemory
    }
}
