ghost use Rattle.std.specs.Prelude.{◌≡◌};
ghost use Rattle.program_meaning.specs.Numbers.{number_of};

/// How the program ends.
#[derive(Clone, Copy, Debug, PartialEq, Eq)]
pub enum Status {
    /// Every statement was answered and none refused.
    Done,
    /// Every statement was answered, and some line is a refusal.
    Refused,
    /// The words are not of the form that the program takes.
    Usage,
    /// A read failed.
    ReadFault,
    /// A write failed.
    WriteFault,
    /// Memory ran out.
    Memory,
    /// The script is too long.
    ScriptLong,
}

impl Status {
    /// The number that the process ends with.
    pub fn number(self) -> u8
        ensures { result ≡ number_of self }
    {
        match self {
            Status::Done => 0,
            Status::Refused => 1,
            Status::Usage => 2,
            Status::ReadFault => 3,
            Status::WriteFault => 4,
            Status::Memory => 5,
            Status::ScriptLong => 6,
        }
    }
}
