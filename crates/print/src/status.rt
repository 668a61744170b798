// How a run of a program ended, by which the launcher exits.
ghost use Rattle.std.specs.Prelude.{◌≡◌, max};
ghost use Rattle.print.specs.Status.{number_of};

use std::io::Write;

// In order: of two, the later counts.
#[derive(Clone, Copy, Debug, PartialEq, Eq, PartialOrd, Ord)]
pub enum Status {
    // With what was asked for: an answer, or the use.
    Done = 0,
    // With a refusal.
    Refused = 1,
    // With arguments that are none, or a file that cannot be read or written.
    Failed = 2,
}

impl Status {
    // The later of two.
    pub fn or_later(self, other: Status) -> Status
        ensures { number_of result ≡ max (number_of self) (number_of other) }
    {
        self.max(other)
    }
}

impl From<Status> for u64 {
    ghost use Rattle.std.specs.Prelude.{◌≡◌};
    ghost use Rattle.print.specs.Status.{number_of};

    ghost from_gives = { λ s n. n ≡ number_of s };

    fn from(status: Status) -> u64 {
        status as u64
    }
}

// The last line of a program. The launcher takes that line off and exits by it.
// Touches the outside alone: no clause can say what that gives or takes.
pub fn put_status(rt: &HostRuntime, status: impl Into<u64>) {
    let number = status.into();
    let _ = println!(rt; "status {number}");
}
