// The line of a case, and the tally: cases, and those that differ.
use crate::code::CaseFile;
use crate::run::{Set, run};
use crate::seen::Seen;
use std::fmt::Display;
use std::io;
use std::io::{BufWriter, Stdout, Write};

// What stands in the working stores at the second run of a case.
const GARBAGE: u32 = 0xA5C3_7FC1;

// The tally, and standard output behind a buffer.
#[derive(Drop)]
pub struct Tally {
    cases: u64,
    differ: u64,
    out: BufWriter<Stdout>,
}

impl Tally {
    pub fn new(rt: HostRuntime) -> io::Result<Tally> {
        let out = BufWriter::new(rt.alloc(), rt.stdout())?;
        Ok(Tally {
            cases: 0,
            differ: 0,
            out,
        })
    }

    pub fn case(&mut self, name: &str, file: &CaseFile, set: Set, want: Seen) {
        self.verdict(name, agrees(file, set, want));
    }

    // A case under the plain set.
    pub fn plain(&mut self, name: &str, file: &CaseFile, want: Seen) {
        self.case(name, file, Set::plain(), want);
    }

    // The line of a case that was run.
    pub fn verdict(&mut self, name: impl Display + Drop, ok: bool) {
        let _ = write!(self.out, "{name}");
        self.conclude(ok);
    }

    // The end of a line.
    pub fn conclude(&mut self, ok: bool) {
        self.cases = self.cases.saturating_add(1);
        if !ok {
            self.differ = self.differ.saturating_add(1);
        }
        self.put(if ok { b": ok\n" } else { b": differs\n" });
    }

    // The last line.
    pub fn total(&mut self) {
        let Tally { cases, differ, out } = self;
        let _ = writeln!(out, "{cases} cases, {differ} differ");
    }

    // Writes a text.
    pub fn put(&mut self, text: &[u8]) {
        let _ = self.out.write_all(text);
    }

    // What stands in the buffer goes out.
    pub fn flush(&mut self) -> io::Result<()> {
        self.out.flush()
    }
}

// Runs a file twice, with zeros and with garbage in the working stores: both must leave what is wanted.
pub fn agrees(file: &CaseFile, set: Set, want: Seen) -> bool {
    [0, GARBAGE]
        .iter()
        .all(|&soil| run(file, set, soil) == Ok(want))
}
