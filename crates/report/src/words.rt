// The arguments, as numbers.
ghost use Rattle.std.specs.Prelude.{◌≡◌, ◌≤◌, ok_or};
ghost use Rattle.report.specs.Words.{number_read, decimal_read, bits_read, limit_read, loop_limit_read, terms_read};

use thiserror::Error;
use vm::Terms;

// The argument that is not what it has to be.
#[derive(Clone, Copy, Debug, PartialEq, Eq, Error)]
pub enum BadArgument {
    #[error("STEPS is 'none' or a number below 2^64, in decimal")]
    Steps,
    #[error("LOOPS is 'none' or a number below 2^32, in decimal")]
    Loops,
    #[error("THIS is a number's bits, as eight hexadecimal digits")]
    This,
    #[error("HOUSE is 'none' or a number below 2^64, in decimal")]
    House,
}

// The terms that STEPS, LOOPS, THIS and HOUSE name, or the first of them that names none.
#[tactic(auto, unfolding(crate::specs::Words::with_steps, crate::specs::Words::with_loops, crate::specs::Words::with_this, crate::specs::Words::with_house))]
pub fn terms_of(steps: &[u8], loops: &[u8], this: &[u8], house: &[u8]) -> Result<Terms, BadArgument>
    ensures { result ≡ terms_read steps.now loops.now this.now house.now }
{
    let step_limit = limit_of(steps, BadArgument::Steps)?;
    let loop_limit = loop_limit_of(loops)?;
    let bits = bits_of(this).ok_or(BadArgument::This)?;
    let house_limit = limit_of(house, BadArgument::House)?;
    Ok(Terms {
        this: bits,
        step_limit,
        loop_limit,
        house_limit,
    })
}

// The limit that a word names: 'none', or a number below 2^64. A word that is neither is this error.
#[tactic(auto, unfolding(crate::specs::Words::limit_read))]
fn limit_of(word: &[u8], otherwise: BadArgument) -> Result<Option<u64>, BadArgument>
    ensures { result ≡ ok_or (limit_read word.now) otherwise }
{
    if word == b"none".as_slice() {
        return Ok(None);
    }
    decimal_of(word).map(Some).ok_or(otherwise)
}

// The limit that LOOPS names, which is below 2^32.
#[tactic(auto, unfolding(crate::specs::Words::narrow))]
fn loop_limit_of(word: &[u8]) -> Result<Option<u32>, BadArgument>
    ensures { result ≡ ok_or (loop_limit_read word.now) BadArgument.Loops }
{
    let limit = limit_of(word, BadArgument::Loops)?;
    limit
        .map(u32::try_from)
        .transpose()
        .map_err(|_| BadArgument::Loops)
}

// A number in decimal.
#[tactic(auto, unfolding(crate::specs::Words::decimal_read))]
fn decimal_of(word: &[u8]) -> Option<u64>
    ensures { result ≡ decimal_read word.now }
{
    if word.is_empty() {
        None
    } else {
        number_of(10, word)
    }
}

// 32 bits, as eight hexadecimal digits.
#[tactic(auto, using(crate::proofs::Readings::bits_small), unfolding(crate::specs::Words::bits_read))]
fn bits_of(word: &[u8]) -> Option<u32>
    ensures { result ≡ bits_read word.now }
{
    if word.len() != 8 {
        return None;
    }
    let n = number_of(16, word)?;
    Some(n as u32)
}

// The number below 2^64 that digits make. By hand: std's `from_str_radix` takes a '+' before them.
#[tactic(auto, using(crate::proofs::Readings::reading))]
fn number_of(base: u32, word: &[u8]) -> Option<u64>
    requires least { 2 ≤ base }
    requires most { base ≤ 36 }
    ensures { result ≡ number_read base word.now }
{
    let mut n = 0u64;
    for &c in word {
        let digit = char::from(c).to_digit(base)?;
        n = n.checked_mul(base as u64)?.checked_add(digit as u64)?;
    }
    Some(n)
}
