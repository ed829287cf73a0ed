// How a run ends.
ghost use Rattle.std.specs.Prelude.{◌≡◌, option_map};
ghost use Rattle.tl_run.specs.Statuses.{complaint_of, status_number};

/// How a run ends. The exit statuses of the program are 0 to 8, in this order.
#[derive(Clone, Copy, PartialEq, Eq)]
pub enum Status {
    /// A plan, `; valid`, or a finished text.
    Yes,
    /// No plan, or a verdict other than `; valid`.
    No,
    /// A search kept more search nodes than its budget.
    Spent,
    /// A file was refused.
    Refused,
    /// An operation was past the range of 64 bits.
    Range,
    /// A file could not be read.
    ReadFault,
    /// The answer could not be written.
    WriteFault,
    /// Want of memory.
    NoMemory,
    /// The words are no command.
    Usage,
}

impl Status {
    /// The exit status of the program, from 0 to 8.
    pub fn number(self) -> u8
        ensures { result ≡ status_number self }
    {
        match self {
            Status::Yes => 0,
            Status::No => 1,
            Status::Spent => 2,
            Status::Refused => 3,
            Status::Range => 4,
            Status::ReadFault => 5,
            Status::WriteFault => 6,
            Status::NoMemory => 7,
            Status::Usage => 8,
        }
    }
    /// The line on standard error for a status without a whole answer, without its line feed; None
    /// where the answer was written whole.
    pub fn complaint(self) -> Option<&'static str>
        ensures { option_map (λ line. line.now) result ≡ complaint_of self }
    {
        match self {
            Status::ReadFault => Some("tlplan: read fault"),
            Status::WriteFault => Some("tlplan: write fault"),
            Status::NoMemory => Some("tlplan: no memory"),
            Status::Usage => Some("tlplan: usage"),
            _ => None,
        }
    }
}
