ghost use Rattle.std.specs.Prelude.{◌≡◌};
ghost use Rattle.impactc_core.specs.Status.{status_code};

/// What a call of the compiler came to.
#[derive(Clone, Copy, PartialEq, Eq, Debug)]
pub enum Status {
    Done,
    Usage,
    SourceRefused,
    ProfileRefused,
    CodeRefused,
    HostFault,
    NoMemory,
    TooLarge,
    ProgramFault,
    CyclesSpent,
}

impl Status {
    /// The number with which the process ends.
    pub fn code(&self) -> u8
        ensures { result ≡ status_code self.now }
    {
        match self {
            Status::Done => 0,
            Status::Usage => 2,
            Status::SourceRefused => 3,
            Status::ProfileRefused => 4,
            Status::CodeRefused => 5,
            Status::HostFault => 6,
            Status::NoMemory => 7,
            Status::TooLarge => 8,
            Status::ProgramFault => 10,
            Status::CyclesSpent => 11,
        }
    }
}
