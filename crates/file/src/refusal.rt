// Why a file is sent back.
ghost use Rattle.std.specs.Prelude.{◌≡◌};
ghost use Rattle.file.specs.Numbers.{number_of_refusal, numbered};

/// What sends a file back: the first fault that is met.
#[derive(Clone, Copy, Debug, PartialEq, Eq)]
pub enum Refusal {
    /// Bytes end where a tag, length or body is due.
    EndsEarly = 1,
    /// Tag not the next.
    OtherTag = 2,
    /// Length not a whole count of entries, or over the maximum (field 1: not 4).
    OtherLength = 3,
    /// Bytes after field 5.
    BytesAfter = 4,
    /// Names over 256 or temps over 8.
    ManyNames = 5,
    /// No post 0, or not bits 3F800000, 00000000.
    NoIdentity = 6,
    /// Opcode 0 or above 52.
    NoOpcode = 7,
    /// Choice out of range, or an unused part not 0.
    StrayPart = 8,
    /// Index outside its table.
    OutsideTable = 9,
    /// Opcode 22 in a file for anything but the converter.
    Withdrawn = 14,
    /// The converter meets a count above 1.
    ManyArguments = 15,
}

// Its number.
impl From<Refusal> for u8 {
    ghost from_gives = { λ e n. n ≡ number_of_refusal e };

    fn from(refusal: Refusal) -> u8 {
        refusal as u8
    }
}

/// The number of an answer: 0 where there is no refusal.
pub fn numbered(answer: Result<(), Refusal>) -> u8
    ensures { result ≡ numbered answer }
{
    match answer {
        Ok(()) => 0,
        Err(refusal) => u8::from(refusal),
    }
}
