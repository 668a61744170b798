// The files that the arguments name: read, and replaced.
ghost use Rattle.std.specs.Prelude.{◌≡◌, ◌<◌, length, IfOk, IsOk};
ghost use Rattle.std.specs.Io.KnownBytes.{Consumes, IsAtEnd};

use file::ROOM;
use print::given::{PATH, arg, open, read_whole};
use print::page::Page;
use print::replace::{Reported, replace_target, target};
use std::fs::File;
use std::io::Read;

// Opens argument `i` for reading. In a function of its own, as `target_argument` is: its room for a path is no part of a run's stack.
// Touches the outside alone: no clause can say what that gives or takes.
#[inline(never)]
pub fn open_argument(rt: &HostRuntime, i: usize) -> Result<File, Reported> {
    let mut room = [0u8; PATH];
    open_path(rt, path_argument(rt, i, &mut room)?)
}

// Opens a file for reading.
// Touches the outside alone: no clause can say what that gives or takes.
pub fn open_path(rt: &HostRuntime, path: &[u8]) -> Result<File, Reported> {
    open(rt, path).map_err(|error| Reported::failing(rt, path, &error))
}

// The path of the file that argument `i` names, which is read and replaced.
// Touches the outside alone: no clause can say what that gives or takes.
#[inline(never)]
pub fn target_argument(rt: &HostRuntime, i: usize) -> Result<Page<PATH>, Reported> {
    let mut room = [0u8; PATH];
    Ok(target(rt, path_argument(rt, i, &mut room)?))
}

// Argument `i`, a path.
fn path_argument<'a>(
    rt: &HostRuntime,
    i: usize,
    room: &'a mut [u8; PATH],
) -> Result<&'a [u8], Reported> {
    arg(rt, i, room).map_err(|_| Reported::saying(rt, "an argument is longer than a path can be"))
}

// Reads the program that argument `i` names.
// Touches the outside alone: no clause can say what that gives or takes.
pub fn load_program<'a>(
    rt: &HostRuntime,
    i: usize,
    bytes: &'a mut [u8; ROOM],
) -> Result<&'a [u8], Reported> {
    let mut file = open_argument(rt, i)?;
    read_program(rt, &mut file, bytes)
}

// Reads a program, or its first 65,536 bytes, which are answered by the number of the longer file: the tests of the
// five fields look at 59,411 bytes at most, and where they find nothing, both have bytes after field 5.
fn read_program<'a, R: Read>(
    rt: &HostRuntime,
    file: &mut R,
    bytes: &'a mut [u8; ROOM],
) -> Result<&'a [u8], Reported>
    ensures read { IfOk result (λ program. Consumes (R.remaining file.old) (R.remaining file.new) program.now) }
    ensures ended { IfOk result (λ program. length program.now < ROOM → IsAtEnd (R.remaining file.new)) }
{
    let Some(n) = read_whole(file, bytes) else {
        return Err(Reported::saying(rt, "the program file cannot be read"));
    };
    Ok(&bytes[..n])
}

// Replaces the file at `path`, a target, by these bytes, which are as many as it has. No bytes replace nothing, and the file may be
// /dev/null.
// Touches the outside: beside the clause below nothing can be said of it.
pub fn save(rt: &HostRuntime, path: &[u8], bytes: &[u8]) -> Result<(), Reported>
    ensures { length bytes.now ≡ 0 → IsOk result }
{
    if bytes.is_empty() {
        return Ok(());
    }
    replace_target(rt, path, bytes)
}
