// The program file: its fields, and the check that accepts it or sends it back by number.
#![tactic(auto)]

pub mod fields;
mod parts_table;
pub mod records;
mod refusal;

ghost use Rattle.std.specs.Prelude.{◌≡◌, ◌≤◌, length, IfOk};
ghost use Rattle.file.specs.Fields.{counts, names_of};
ghost use Rattle.file.specs.Numbers.{numbered, number_of_tag};
ghost use Rattle.file.specs.Records.{when};
ghost use Rattle.file.specs.Refusals.{many_names, no_identity, contents_refusal, field_refusal, Passed, refusal_for, refusal, converter_refusal};

use fields::{Tag, body, length_fits};
use records::{Counts, records};
pub use refusal::{Refusal, numbered};

/// The bytes of a buffer for any legal file: more than the 59,411 of the largest.
pub const ROOM: usize = 65536;

// 5: names over 256 or temps over 8.
fn check_counts(b: &[u8]) -> Result<(), Refusal>
    requires { 4 ≤ length b.now }
    ensures { numbered result ≡ when (many_names b.now) 5 }
{
    if 256 < endian::number_at::<u16>(b, 0) || 8 < endian::number_at::<u16>(b, 2) {
        return Err(Refusal::ManyNames);
    }
    Ok(())
}

// 6: no post 0, or not the identity's bits.
fn check_posts(b: &[u8]) -> Result<(), Refusal>
    ensures { numbered result ≡ when (no_identity b.now) 6 }
{
    if b.len() < 8
        || endian::number_at::<u32>(b, 0) != 0x3F80_0000
        || endian::number_at::<u32>(b, 4) != 0
    {
        return Err(Refusal::NoIdentity);
    }
    Ok(())
}

// Whether the contents of a field pass.
#[tactic(auto, unfolding(crate::specs::Refusals::contents_refusal))]
fn contents(tag: Tag, b: &[u8]) -> Result<(), Refusal>
    requires { number_of_tag tag ≡ 1 → 4 ≤ length b.now }
    ensures { numbered result ≡ contents_refusal (number_of_tag tag) b.now }
{
    match tag {
        Tag::Counts => check_counts(b),
        Tag::Posts => check_posts(b),
        Tag::Consts | Tag::Hashes | Tag::Code => Ok(()),
    }
}

// The body of the field of a tag at the head of `s`, and what follows the field. Called and not written out five times, the check
// of an empty file takes 2 ns more.
#[tactic(auto, unfolding(crate::specs::Refusals::field_refusal))]
#[inline(always)]
fn field(tag: Tag, s: &[u8]) -> Result<(&[u8], &[u8]), Refusal>
    ensures number { numbered result ≡ field_refusal (number_of_tag tag) s.now }
    ensures passed { IfOk result (λ f. Passed (number_of_tag tag) s.now f.0.now f.1.now) }
{
    if s.is_empty() {
        return Err(Refusal::EndsEarly);
    }
    if s[0] != u8::from(tag) {
        return Err(Refusal::OtherTag);
    }
    if s.len() < 3 {
        return Err(Refusal::EndsEarly);
    }
    let n = endian::number_at::<u16>(s, 1) as usize;
    if !length_fits(tag, n) {
        return Err(Refusal::OtherLength);
    }
    let end = 3 + n;
    if s.len() < end {
        return Err(Refusal::EndsEarly);
    }
    let body = &s[3..end];
    contents(tag, body)?;
    Ok((body, &s[end..]))
}

// What sends a file back, if anything does: a check, or the converter's.
fn check_for(file: &[u8], for_converter: bool) -> Result<(), Refusal>
    ensures { numbered result ≡ refusal_for for_converter file.now }
{
    let (counts, s) = field(Tag::Counts, file)?;
    let (consts, s) = field(Tag::Consts, s)?;
    let (posts, s) = field(Tag::Posts, s)?;
    let (hashes, s) = field(Tag::Hashes, s)?;
    let (code, s) = field(Tag::Code, s)?;
    if !s.is_empty() {
        return Err(Refusal::BytesAfter);
    }
    // Without this an empty file makes the tables too, 6 ns of 20.
    if code.is_empty() {
        return Ok(());
    }
    let entries = Counts {
        names: endian::number_at::<u16>(counts, 0) as usize,
        temps: endian::number_at::<u16>(counts, 2) as usize,
        consts: consts.len() / 4,
        posts: posts.len() / 8,
        hashes: hashes.len() / 8,
    };
    records(entries, code, for_converter)
}

/// Bench: what sends a file back, if anything does. Of opcode 22 that is 14.
pub fn check(file: &[u8]) -> Result<(), Refusal>
    ensures { numbered result ≡ refusal file.now }
{
    check_for(file, false)
}

/// The converter's check: opcode 22 passes with a count of 0 or 1.
pub fn check_for_converter(file: &[u8]) -> Result<(), Refusal>
    ensures { numbered result ≡ converter_refusal file.now }
{
    check_for(file, true)
}

// How many names an accepted file has. Asked of any bytes it would test that two are there, and that costs every step its
// registers (docs/SPEED.md).
pub fn names(file: &[u8]) -> usize
    requires { refusal file.now ≡ 0 }
    ensures { result ≡ names_of (counts file.now) }
{
    endian::number_at::<u16>(body(file), 0) as usize
}
