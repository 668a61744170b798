// Converts each stored file that it is named, in place: a line for each.
#![tactic(auto)]

ghost use Rattle.std.specs.Prelude.{◌≡◌, ◌<◌};
ghost use Rattle.convert.specs.Convert.{conversion};

use file::ROOM;
use print::lines::{put_refused, serve};
use print::replace::replace;
use print::status::Status;
use print::text::put;

fn main(rt: HostRuntime) {
    serve(&rt, b"converter", put_use, &mut [0; ROOM], answer);
}

fn put_use(rt: &HostRuntime) {
    let put = |text: &[u8]| put(rt, text);
    put(b"Converts each file in place: every record of opcode 22, which is withdrawn, becomes\n");
    put(b"a PointerEnter to the next record. Writes a line for each file: 'PATH: converted N'\n");
    put(b"where N is how many records, 'PATH: nothing to convert', or 'PATH: refused N' where\n");
    put(b"N is\n");
    // tools/answers.py: converter
    put(b"  1  bytes end where a tag, length or body is due\n");
    put(b"  2  tag not the next\n");
    put(b"  3  length not a whole count of entries, or over the maximum (field 1: not 4)\n");
    put(b"  4  bytes after field 5\n");
    put(b"  5  names over 256 or temps over 8\n");
    put(b"  6  no post 0, or not bits 3F800000, 00000000\n");
    put(b"  7  opcode 0 or above 52\n");
    put(b"  8  choice out of range, or an unused part not 0\n");
    put(b"  9  index outside its table\n");
    put(b" 15  the converter meets a count above 1 at opcode 22\n");
    // tools/answers.py: end
}

// Converts a file and replaces it, or says what sends it back. The first 65,536 bytes of a longer file are sent back by the
// file's own number, as they are by bench, so that no part of a file takes its place.
fn answer(rt: &HostRuntime, path: &[u8], bytes: &mut [u8]) -> Status
    ensures refused { 0 < (conversion bytes.old).refusal → result ≡ Status.Refused }
    ensures done { (conversion bytes.old).refusal ≡ 0 → (conversion bytes.old).records ≡ 0 → result ≡ Status.Done }
{
    match convert::convert(bytes) {
        Ok(0) => {
            put(rt, b": nothing to convert\n");
            Status::Done
        }
        Ok(records) => answer_replaced(rt, path, bytes, records),
        Err(refusal) => put_refused(rt, u8::from(refusal)),
    }
}

// Replaces a file by its converted bytes.
fn answer_replaced(rt: &HostRuntime, path: &[u8], bytes: &[u8], records: usize) -> Status {
    if replace(rt, path, bytes).is_err() {
        put(rt, b": cannot be replaced\n");
        return Status::Failed;
    }
    let _ = println!(rt; ": converted {records}");
    Status::Done
}
