ghost use Rattle.std.specs.Prelude.{◌≡◌, codes};
ghost use Rattle.faissb_core.specs.Runs.Statuses.{status_code};

/// How a run ended.
#[derive(Clone, Copy, Debug, PartialEq, Eq)]
pub enum Status {
    /// The input was read to its end, and no command was refused.
    Fine,
    /// The input was read to its end, and some command was refused.
    Refused,
    /// The words ask for nothing that the program does. Nothing was read or written.
    Usage,
    /// A read of the script failed.
    ScriptFault,
    /// A write of a reply failed.
    OutputFault,
    /// The shelf failed.
    ShelfFault,
    /// Memory ran out.
    Memory,
    /// The script has more than 1,073,741,824 bytes.
    TooLong,
}

impl Status {
    /// The exit status of the program, from 0 to 7.
    pub fn code(&self) -> u8
        ensures { result ≡ status_code self.now }
    {
        match self {
            Status::Fine => 0,
            Status::Refused => 1,
            Status::Usage => 2,
            Status::ScriptFault => 3,
            Status::OutputFault => 4,
            Status::ShelfFault => 5,
            Status::Memory => 6,
            Status::TooLong => 7,
        }
    }
}

/// The forms of the program, without a line feed.
pub fn usage() -> &'static str
    ensures { result.now ≡ codes "usage: faissb script | check NAME | sample SEED COUNT" }
{
    "usage: faissb script | check NAME | sample SEED COUNT"
}
