// What the programs are given: words, and the bytes of files.
ghost use Rattle.std.specs.Prelude.{◌≡◌, ◌≤◌, ◌<◌, ◌↔◌, min, [], length, take, slice_get};
ghost use Rattle.std.specs.Prelude.{Some, IfOk, IfSome, IsTrue, IsUtf8, MatchResult};
ghost use Rattle.std.specs.IoError.{error_kind};
ghost use Rattle.std.specs.Io.KnownBytes.{Consumes, IsAtEnd};
ghost use Rattle.print.specs.Words.{read_into, bytes_of};

use std::env::{Env, FillError};
use std::fs::File;
use std::io::{Error, ErrorKind, Read};
use std::{io, str};

// The bytes of the longest path.
pub const PATH: usize = 4096;

// The words of a command line, the program's name first.
pub trait Words {
    ghost use Rattle.std.specs.Prelude.{◌≡◌, ℕ, List, Option, None, IfSome, length, slice_get};
    ghost use Rattle.std.specs.Io.{WritesAtMost};
    ghost use Rattle.print.specs.Words.{read_into, bytes_put};

    // The words, where they are known. Those that the system gives are not: of them the clauses below say nothing, but of any words
    // that are known they say what a function makes of them.
    ghost known: { Self → Option (List (List ℕ)) } = { λ _. None };

    // Puts word `i` at the start of `room`, and answers its length; or that there is none, or that it is longer.
    fn word(&self, i: usize, room: &mut [u8]) -> Result<usize, FillError>
        ensures bound { WritesAtMost result room.new }
        ensures word { IfSome (known self.now) (λ all. bytes_put result room.new ≡ read_into (length room.new) (slice_get all i)) };
}

// Touches the outside alone: no clause can say what that gives or takes.
impl Words for HostRuntime {
    fn word(&self, i: usize, room: &mut [u8]) -> Result<usize, FillError> {
        self.arg(i, room)
    }
}

// How many words there are. By number: std's `args` allocates, and has none where one is no text.
pub fn arg_count<W: Words>(words: &W) -> usize
    ensures { IfSome (W.known words.now) (λ all. result ≡ min (length all) usize.MAX) }
{
    (0..usize::MAX).take_while(|i| is_given(words, *i)).count()
}

fn is_given<W: Words>(words: &W, i: usize) -> bool
    ensures { IfSome (W.known words.now) (λ all. IsTrue result ↔ (i < length all)) }
{
    !matches!(words.word(i, &mut []), Err(FillError::NotPresent))
}

// Word `i`, which `room` has room for; or that it is left out, or too long.
pub fn arg<'a, W: Words>(words: &W, i: usize, room: &'a mut [u8]) -> Result<&'a [u8], FillError>
    ensures in_bounds { IfOk result (λ text. length text.now ≤ length room.old) }
    ensures word { IfSome (W.known words.now) (λ all. bytes_of result ≡ read_into (length room.old) (slice_get all i)) }
{
    let n = words.word(i, room)?;
    Ok(&room[..n])
}

// Whether the first word after the program's name is this option. One that has no room is longer.
pub fn is_first<W: Words, const N: usize>(words: &W, option: &[u8; N]) -> bool
    ensures { IfSome (W.known words.now) (λ all. IsTrue result ↔ (slice_get all 1 ≡ Some option.now)) }
{
    let mut room = [0; N];
    match arg(words, 1, &mut room) {
        Ok(text) => text == option.as_slice(),
        Err(_) => false,
    }
}

// A path as text: std opens no other.
pub fn text_of(path: &[u8]) -> io::Result<&str>
    ensures { MatchResult result (λ text. (text.now ≡ path.now) × IsUtf8 path.now)
        (λ e. (IsUtf8 path.now → ⊥) × (error_kind e ≡ ErrorKind.InvalidFilename)) }
{
    str::from_utf8(path).map_err(|_| Error::from(ErrorKind::InvalidFilename))
}

// Opens the file at `path` for reading.
// Touches the outside: beside the clause below nothing can be said of it.
pub fn open(rt: &HostRuntime, path: &[u8]) -> io::Result<File>
    ensures { IfOk result (λ _. IsUtf8 path.now) }
{
    File::open(rt, text_of(path)?)
}

// Reads a file to its end, or until `bytes` is full, and answers how many bytes it put at the start; none where a read
// failed.
pub fn read_whole<R: Read>(file: &mut R, bytes: &mut [u8]) -> Option<usize>
    ensures in_bounds { IfSome result (λ n. n ≤ length bytes.new) }
    ensures taken { IfSome result (λ n. n ≡ length (take n bytes.new)) }
    ensures read { IfSome result (λ n. Consumes (R.remaining file.old) (R.remaining file.new) (take n bytes.new)) }
    ensures ended { IfSome result (λ n. n < length bytes.new → IsAtEnd (R.remaining file.new)) }
{
    let n = read_full(file, bytes);
    if n < bytes.len() && !is_at_end(file) {
        return None;
    }
    Some(n)
}

// Reads until `bytes` is full, the file ends or a read fails, and answers how many bytes it put at the start. By hand: where
// the file is shorter, std's `read_exact` does not say how many came, and `read_to_end` allocates.
pub fn read_full<R: Read>(file: &mut R, bytes: &mut [u8]) -> usize
    ensures in_bounds { result ≤ length bytes.new }
    ensures taken { result ≡ length (take result bytes.new) }
    ensures read { Consumes (R.remaining file.old) (R.remaining file.new) (take result bytes.new) }
{
    let mut done = 0;
    while done < bytes.len() {
        match file.read(&mut bytes[done..]) {
            Ok(0) | Err(_) => break,
            Ok(n) => done += n,
        }
    }
    done
}

// Whether a file that gave no more bytes has ended. Otherwise the read failed.
pub fn is_at_end<R: Read>(file: &mut R) -> bool
    ensures { IsTrue result → Consumes (R.remaining file.old) (R.remaining file.new) [] × IsAtEnd (R.remaining file.new) }
{
    matches!(file.read(&mut [0]), Ok(0))
}
