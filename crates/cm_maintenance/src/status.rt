//! The result of a run, and the number that it ends with.

ghost use Rattle.std.specs.Prelude.{◌≡◌};

/// The result of all that a run was to do.
#[derive(Clone, Copy, Debug, PartialEq, Eq)]
pub enum Status {
    /// All was done.
    Done,
    /// A line was refused, a file is no cache or damaged, or a name is taken.
    Refused,
    /// The words of the command line request nothing that can be done.
    WrongWords,
    /// The device, an allocation, the input or the output failed.
    Failed,
}

impl Status {
    /// The number that a process ends with.
    pub fn number(self) -> u8
        ensures done { self ≡ Status.Done → result ≡ 0 }
        ensures refused { self ≡ Status.Refused → result ≡ 1 }
        ensures wrong_words { self ≡ Status.WrongWords → result ≡ 2 }
        ensures failed { self ≡ Status.Failed → result ≡ 3 }
    {
        match self {
            Status::Done => 0,
            Status::Refused => 1,
            Status::WrongWords => 2,
            Status::Failed => 3,
        }
    }
}
