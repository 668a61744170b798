// Studio and House but for the stores that they lend: arguments and files in, one call, the account out.
#![tactic(auto)]

mod account;
mod arguments;
mod bill;
mod cells;
mod files;
mod outcomes;
mod words;

use arguments::{Argument, Arguments};
use cells::CellFile;
use file::ROOM;
use print::page::Page;
use print::replace::Reported;
use print::status::{Status, put_status};
use print::text::{put, say};
use std::io::Write;
use vm::Terms;

// The bytes of the page: an account takes some 11,000 at most (docs/SERVICES.md).
const PAGE: usize = 65536;

// The working stores that a program lends.
#[derive(Drop)]
pub struct Stores<'a> {
    pub stack: &'a mut [u32],
    pub loops: &'a mut [u32],
    pub handlers: &'a mut [u64],
}

// Runs the program `name` over the working stores that it lends.
// Touches the outside alone: no clause can say what that gives or takes.
pub fn serve(rt: &HostRuntime, name: &[u8], stores: Stores<'_>) {
    let status = served(rt, name, stores).unwrap_or(Status::Failed);
    put_status(rt, status);
}

fn served(rt: &HostRuntime, name: &[u8], stores: Stores<'_>) -> Result<Status, Reported> {
    if Arguments::ask_for_help(rt) {
        say_form(&mut rt.stdout(), name);
        put(rt, USE);
        return Ok(Status::Done);
    }
    let arguments = Arguments::given(rt);
    if !arguments.fit_the_form() {
        say_form(&mut rt.stderr(), name);
        return Ok(Status::Failed);
    }
    let terms = arguments
        .terms(rt)
        .map_err(|error| Reported::saying(rt, error))?;
    run(rt, arguments, terms, stores)
}

// Reads the files, makes the call and writes what it leaves. In a function of its own, as `answered` is: what a run keeps is no part
// of the stack of one that only writes its use, and its page none of one whose files cannot be read.
#[inline(never)]
fn run(
    rt: &HostRuntime,
    arguments: Arguments,
    terms: Terms,
    stores: Stores<'_>,
) -> Result<Status, Reported> {
    let mut bytes = [0u8; ROOM];
    let program = files::load_program(rt, arguments.place(Argument::File), &mut bytes)?;
    let target = files::target_argument(rt, arguments.place(Argument::Cells))?;
    let mut cells = CellFile::open(rt, target.used())?;
    let context = arguments.context(&cells, |i| CellFile::load(rt, i))?;
    answered(
        rt,
        program,
        target.used(),
        &mut cells,
        &context,
        terms,
        stores,
    )
}

// Makes the call over what was read; `path` is that of the cells.
#[inline(never)]
fn answered(
    rt: &HostRuntime,
    program: &[u8],
    path: &[u8],
    cells: &mut CellFile,
    context: &CellFile,
    terms: Terms,
    stores: Stores<'_>,
) -> Result<Status, Reported> {
    let mut page = Page::<PAGE>::new();
    let answer = bill::answer(program, cells, context, terms, stores, &mut page);
    if page.is_full() {
        return Err(Reported::saying(
            rt,
            "the page is full, so that a part of the account may be missing",
        ));
    }
    if answer.is_err() {
        put(rt, page.used());
        return Ok(Status::Refused);
    }
    files::save(rt, path, &cells.bytes)?;
    put(rt, page.used());
    Ok(Status::Done)
}

// The first line of the use, which is all of it where the arguments are too few or too many.
fn say_form(out: &mut impl Write, name: &[u8]) {
    say(out, b"use: ");
    say(out, name);
    say(
        out,
        b" [--house HOUSE|none] FILE CELLS [STEPS|none] [LOOPS|none] [THIS] [CONTEXT]\n",
    );
}

// The other lines.
const USE: &[u8] =
    b"Runs the program of FILE and writes its account, a line a field, or 'refused N'.
  HOUSE    how many charges the house still allows, in decimal, beside STEPS;
           the line 'remainders' has what is left of STEPS and of HOUSE
  CELLS    the variables, nine bytes each: the kind (0 missing, 1 float, 2 hash,
           3 other) and the value, the least byte first. Replaced after a run.
  STEPS    how many charges may be made, in decimal
  LOOPS    how many passes a loop may make, in decimal
  THIS     the number `this`: its bits, as eight hexadecimal digits
  CONTEXT  the context's cells, as CELLS; all missing where it is left out
";
