//! How a run ends.
ghost use Rattle.std.specs.Prelude.{◌≡◌};
ghost use Rattle.std.specs.Option.{option_map};

/// How a run ended.
#[derive(Clone, Copy, Debug, PartialEq, Eq)]
pub enum Status {
    /// The input was read to its end, and no line was refused.
    Done,
    /// The input was read to its end, and a line was refused.
    Refused,
    /// The words are none of the forms.
    Usage,
    /// A source failed.
    ReadFault,
    /// The sink failed.
    WriteFault,
    /// Memory ran out.
    Memory,
    /// As many bytes of a source were taken as a run takes, without its end.
    TooMuch,
}

impl Status {
    ghost use Rattle.sk_run.specs.Statuses.{code_of, message_of};

    /// The number that the process ends with.
    pub fn code(self) -> u8
        ensures { result ≡ code_of self }
    {
        match self {
            Status::Done => 0,
            Status::Refused => 1,
            Status::Usage => 2,
            Status::ReadFault => 3,
            Status::WriteFault => 4,
            Status::Memory => 5,
            Status::TooMuch => 6,
        }
    }

    /// What is printed where the run did not come to its end; `usage` is said of words that are no form.
    pub fn message(self, usage: &'static [u8]) -> Option<&'static [u8]>
        ensures { option_map (λ s. s.now) result ≡ message_of usage.now self }
    {
        match self {
            Status::Done | Status::Refused => None,
            Status::Usage => Some(usage),
            Status::ReadFault => Some(b"read fault"),
            Status::WriteFault => Some(b"write fault"),
            Status::Memory => Some(b"no memory"),
            Status::TooMuch => Some(b"too much input"),
        }
    }
}
