// Holds file::check to the list that tools/file_table.py made by a reader of its own. Writes the first files that
// differ, if any do, and how many files have each answer (docs/FILE_TABLE.md).
#![tactic(auto)]

mod edit;

use edit::{Draft, ROW, Row};
use print::rows::{Rows, Stop};
use std::fs::File;
use std::io;
use std::io::{BufReader, BufWriter, Write};

// The answers: 0 for an accepted file, and numbers up to 14.
const ANSWERS: usize = 15;

// How many differences, and how many rows that cannot be done, are written out.
const SHOWN: u64 = 5;

// How many files have each answer, how many answers differ, and how many rows were left out.
#[derive(Drop)]
struct Tally {
    files: [u64; ANSWERS],
    differ: u64,
    bad: u64,
}

fn main(rt: HostRuntime) -> io::Result<()> {
    let file = match File::open(&rt, "list") {
        Ok(file) => file,
        Err(e) => return eprintln!(rt; "list: {e}"),
    };
    let list = BufReader::new(rt.alloc(), file)?;
    let mut out = BufWriter::new(rt.alloc(), io::writer(&rt))?;
    let mut tally = Tally {
        files: [0; ANSWERS],
        differ: 0,
        bad: 0,
    };
    tally.replay_all(list, &mut out)?;
    tally.print(&mut out)?;
    out.flush()
}

impl Tally {
    // Takes the rows to the end of the list.
    fn replay_all(&mut self, list: BufReader<File>, out: &mut impl Write) -> io::Result<()> {
        let mut draft = Draft::new();
        for (number, row) in Rows::new(list).enumerate() {
            match row {
                Ok(row) => self.replay(number, row, &mut draft, out)?,
                Err(Stop::Cut) => return writeln!(out, "the list ends within a row"),
                Err(Stop::Failed) => break,
            }
        }
        Ok(())
    }

    // Does what a row says, counts the file that it completes by its expected answer, and compares it.
    fn replay(
        &mut self,
        number: usize,
        row: [u8; ROW],
        draft: &mut Draft,
        out: &mut impl Write,
    ) -> io::Result<()> {
        let Some(row) = Row::read(row) else {
            return self.leave_out(number, out);
        };
        let Some(length) = draft.change(row.edit) else {
            return self.leave_out(number, out);
        };
        let Some(expected) = row.answer else {
            draft.set_length(length);
            return Ok(());
        };
        let Some(files) = self.files.get_mut(usize::from(expected)) else {
            return self.leave_out(number, out);
        };
        *files = files.saturating_add(1);
        draft.set_length(length);
        self.compare(number, expected, draft.file(), out)
    }

    // A row that cannot be done, or whose answer is none.
    fn leave_out(&mut self, number: usize, out: &mut impl Write) -> io::Result<()> {
        if self.bad < SHOWN {
            writeln!(out, "row {number}: no such edit or answer")?;
        }
        self.bad = self.bad.saturating_add(1);
        Ok(())
    }

    // Compares a file's expected answer with the one it has. Writes out the first few that differ.
    fn compare(
        &mut self,
        number: usize,
        expected: u8,
        file: &[u8],
        out: &mut impl Write,
    ) -> io::Result<()> {
        let got = file::numbered(file::check(file));
        if got != expected {
            if self.differ < SHOWN {
                let length = file.len();
                writeln!(
                    out,
                    "row {number}: {length} bytes, expected {expected} got {got}"
                )?;
            }
            self.differ = self.differ.saturating_add(1);
        }
        Ok(())
    }

    fn print(&self, out: &mut impl Write) -> io::Result<()> {
        writeln!(out, "accepted: {} files", self.files[0])?;
        for (refusal, &files) in self.files.iter().enumerate().skip(1) {
            if files > 0 {
                writeln!(out, "refused {refusal}: {files} files")?;
            }
        }
        let total = self
            .files
            .iter()
            .fold(0u64, |n, &files| n.saturating_add(files));
        let Tally { differ, bad, .. } = *self;
        writeln!(out, "total {total} files, {differ} differ")?;
        if bad > 0 {
            writeln!(out, "{bad} rows were left out")?;
        }
        Ok(())
    }
}
