// What holds of every file that is accepted, of a record, and of a number in bytes.
ghost use Rattle.file_laws.specs.Laws.{Decodes, PostZero, Passing, Joined};

/// Every record of an accepted file is an instruction, and what it names lies inside the file's tables.
pub fn decodes()
    ensures { Decodes }
{}

/// An accepted file has a post 0, and it is the identity.
#[tactic(auto, using(crate::proofs::PostZero::post_zero))]
pub fn post_zero()
    ensures { PostZero }
{}

/// A record of a legal opcode passes just where its choice and its two parts are within one number each, and one of opcode 22 for the converter
/// alone and with a count of at most 1.
#[tactic(auto, using(crate::proofs::Passing::passing))]
pub fn passing()
    ensures { Passing }
{}

/// A number of w + b bytes is one of w bytes and, above it, one of b.
#[tactic(auto, using(endian::proofs::Widths::joined))]
pub fn joined()
    ensures { Joined }
{}
