// How many calls ended in which way, and how many differ; and standard output.
use crate::field::Field;
use std::io;
use std::io::{BufWriter, Stdout, Write};

// The words for the outcomes. The list has numbers, and the words stand in the order of them.
// tools/answers.py: vectors
const OUTCOMES: [&str; 6] = [
    "done",
    "stopped for steps",
    "stopped for a missing value",
    "stopped for the stack cap",
    "stopped for a full store",
    "handed over",
];
// tools/answers.py: end

// How many differences are written out.
const SHOWN: u64 = 5;

// The calls by the outcome that the list has, and those that differ; standard output is behind a buffer.
#[derive(Drop)]
pub struct Tally {
    outcomes: [u64; OUTCOMES.len()],
    differ: u64,
    out: BufWriter<Stdout>,
}

impl Tally {
    pub fn new(rt: HostRuntime) -> io::Result<Tally> {
        Ok(Tally {
            outcomes: [0; OUTCOMES.len()],
            differ: 0,
            out: BufWriter::new(rt.alloc(), rt.stdout())?,
        })
    }

    // Counts a call under its outcome, and its difference, if there is one.
    pub fn count(&mut self, number: u64, outcome: u8, compared: Result<(), Field>) {
        if let Some(count) = self.outcomes.get_mut(usize::from(outcome)) {
            *count = count.saturating_add(1);
        }
        if let Err(field) = compared {
            self.differs(number, field);
        }
    }

    // Counts a call that differs, and writes it, if it is one of the first.
    fn differs(&mut self, number: u64, field: Field) {
        if self.differ < SHOWN {
            let call = number.saturating_add(1);
            let field = u64::from(field);
            let _ = writeln!(self.out, "call {call} differs, first in field {field}");
        }
        self.differ = self.differ.saturating_add(1);
    }

    // Writes how many calls ended in which way, and how many of all differ.
    pub fn print(&mut self, calls: u64) {
        for (words, count) in OUTCOMES.iter().zip(&self.outcomes) {
            let _ = writeln!(self.out, "{words} {count}");
        }
        let differ = self.differ;
        let _ = writeln!(self.out, "{calls} calls, {differ} differ");
    }

    // Writes a text.
    pub fn put(&mut self, text: &str) {
        let _ = self.out.write_all(text.as_bytes());
    }

    // What stands in the buffer goes out.
    pub fn flush(&mut self) -> io::Result<()> {
        self.out.flush()
    }
}
