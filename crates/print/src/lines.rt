// Programs that are named files and write a line for each: its path, a colon and the answer.
ghost use Rattle.std.specs.Prelude.{◌≡◌, ◌-◌, List};
ghost use Rattle.print.specs.Status.{number_of, highest_of, Answered};

use crate::given::{PATH, arg, arg_count, is_first, open, read_whole};
use crate::status::{Status, put_status};
use crate::text::{put, say};
use std::fs::File;
use std::io::{ErrorKind, Write};

// Runs the program `name`: writes its use where it is asked for, and else a line for each file, which is read into `bytes` as far
// as they have room. `answer` writes what stands after the path.
// Touches the outside alone: no clause can say what that gives or takes.
pub fn serve<U: Fn(&HostRuntime), A: Fn(&HostRuntime, &[u8], &mut [u8]) -> Status>(
    rt: &HostRuntime,
    name: &[u8],
    put_use: U,
    bytes: &mut [u8],
    answer: A,
)
    requires help { U.IsAlwaysCallable put_use }
    requires answer { A.IsAlwaysCallable answer }
{
    let count = arg_count(rt);
    let status = if is_first(rt, b"--help") {
        say_form(&mut rt.stdout(), name);
        put_use(rt);
        Status::Done
    } else if count < 2 {
        say_form(&mut rt.stderr(), name);
        Status::Failed
    } else {
        answer_all(rt, count, bytes, answer)
    };
    put_status(rt, status);
}

// The first line of the use, which is all of it where no file is named.
fn say_form(out: &mut impl Write, name: &[u8]) {
    say(out, b"use: ");
    say(out, name);
    say(out, b" PATH..\n");
}

// Answers for each argument; the highest status of any of them.
fn answer_all<A: Fn(&HostRuntime, &[u8], &mut [u8]) -> Status>(
    rt: &HostRuntime,
    count: usize,
    bytes: &mut [u8],
    answer: A,
) -> Status
    requires { A.IsAlwaysCallable answer }
{
    highest(
        count,
        |i| -> Status
            requires { A.IsAlwaysCallable answer }
        { answer_argument(rt, i, bytes, &answer) },
    )
}

// The highest of the statuses that turns 1, 2, .. below `count` answer, one after the other. By number: std's `args` allocates, and
// has none where one is no text, which here has a line of its own. A `for`, since each turn writes that line.
fn highest<F: FnMut(usize) -> Status>(count: usize, mut turn: F) -> Status
    requires { F.IsAlwaysCallable turn }
    ensures { (statuses : List Status) × Answered F.step turn (count - 1) statuses × (number_of result ≡ highest_of statuses) }
{
    let mut status = Status::Done;
    for i in 1..count {
        status = status.or_later(turn(i));
    }
    status
}

// The line of argument `i`, and its status.
fn answer_argument<A: Fn(&HostRuntime, &[u8], &mut [u8]) -> Status>(
    rt: &HostRuntime,
    i: usize,
    bytes: &mut [u8],
    answer: &A,
) -> Status
    requires { A.IsAlwaysCallable answer.now }
{
    let mut word = [0; PATH];
    let Ok(path) = arg(rt, i, &mut word) else {
        let _ = println!(rt; "argument {i}: longer than a path can be");
        return Status::Failed;
    };
    put(rt, path);
    match open(rt, path) {
        Ok(mut file) => answer_file(rt, path, &mut file, bytes, answer),
        Err(e) => unread(rt, e.kind()),
    }
}

fn answer_file<A: Fn(&HostRuntime, &[u8], &mut [u8]) -> Status>(
    rt: &HostRuntime,
    path: &[u8],
    file: &mut File,
    bytes: &mut [u8],
    answer: &A,
) -> Status
    requires { A.IsAlwaysCallable answer.now }
{
    match read_whole(file, bytes) {
        Some(n) => answer(rt, path, &mut bytes[..n]),
        None => unread(rt, ErrorKind::Other),
    }
}

// The end of a line about a file that cannot be read.
fn unread(rt: &HostRuntime, kind: ErrorKind) -> Status
    ensures { result ≡ Status.Failed }
{
    if kind == ErrorKind::NotFound {
        put(rt, b": no such file\n");
    } else {
        put(rt, b": cannot be read\n");
    }
    Status::Failed
}

// The end of a line about a file that is sent back by this number.
pub fn put_refused(rt: &HostRuntime, number: u8) -> Status
    ensures { result ≡ Status.Refused }
{
    let _ = println!(rt; ": refused {number}");
    Status::Refused
}
