// How a run ends.
ghost use Rattle.std.specs.Prelude.{◌≡◌};
ghost use Rattle.pynguin_job.specs.Status.{code_of};

/// How a run of the program ends.
#[derive(Clone, Copy, Debug, PartialEq, Eq)]
pub enum Status {
    /// The suite and the report are written.
    Done,
    /// The words are refused.
    BadWords,
    /// The module is refused, or longer than its limit.
    Refused,
    /// A call of the desk failed.
    Fault,
    /// Out of memory.
    OutOfMemory,
}

impl Status {
    /// The exit code, from 0 to 6.
    pub fn code(&self) -> u8
        ensures { result ≡ code_of self.now }
    {
        match self {
            Status::Done => 0,
            Status::BadWords => 2,
            Status::Refused => 3,
            Status::Fault => 4,
            Status::OutOfMemory => 5,
        }
    }
}
