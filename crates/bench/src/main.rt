// Says of each file that it is named whether it is accepted, or the number that sends it back: a line for each.
#![tactic(auto)]

ghost use Rattle.std.specs.Prelude.{◌≡◌, min};
ghost use Rattle.file.specs.Refusals.{refusal};
ghost use Rattle.print.specs.Status.{number_of};

use file::ROOM;
use print::lines::{put_refused, serve};
use print::status::Status;
use print::text::put;

fn main(rt: HostRuntime) {
    serve(&rt, b"bench", put_use, &mut [0; ROOM], answer);
}

fn put_use(rt: &HostRuntime) {
    let put = |text: &[u8]| put(rt, text);
    put(b"Writes a line for each file: 'PATH: accepted', or 'PATH: refused N' where N is\n");
    // tools/answers.py: bench
    put(b"  1  bytes end where a tag, length or body is due\n");
    put(b"  2  tag not the next\n");
    put(b"  3  length not a whole count of entries, or over the maximum (field 1: not 4)\n");
    put(b"  4  bytes after field 5\n");
    put(b"  5  names over 256 or temps over 8\n");
    put(b"  6  no post 0, or not bits 3F800000, 00000000\n");
    put(b"  7  opcode 0 or above 52\n");
    put(b"  8  choice out of range, or an unused part not 0\n");
    put(b"  9  index outside its table\n");
    put(b" 14  opcode 22 in a file for anything but the converter\n");
    // tools/answers.py: end
}

// Says of a file, or of its first 65,536 bytes, what it is answered. For a longer file that is the file's own answer: each
// field passes the test of its length before its body is looked at, so the tests of the five fields look at 59,411 bytes at
// most, which the prefix has, and find in both the same; and where they find nothing, both have bytes after field 5, which
// is 4, before any record is looked at.
fn answer(rt: &HostRuntime, _path: &[u8], bytes: &mut [u8]) -> Status
    ensures { number_of result ≡ min (refusal bytes.old) 1 }
{
    match file::check(bytes) {
        Ok(()) => {
            put(rt, b": accepted\n");
            Status::Done
        }
        Err(refusal) => put_refused(rt, u8::from(refusal)),
    }
}
