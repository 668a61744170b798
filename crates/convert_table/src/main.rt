// Holds convert::convert to the table that tools/convert_table.py made by a converter of its own. Writes the first files that
// differ, if any do, and how many files have each answer (docs/FILE_TABLE.md).
#![tactic(auto)]

mod case;

use case::Head;
use file::ROOM;
use std::fs::File;
use std::io;
use std::io::{BufReader, BufWriter, Write};

// The answers: 0 for a file that is not sent back, and numbers up to 15.
const ANSWERS: usize = 16;

// How many differences are written out.
const SHOWN: u64 = 5;

// How many files have each answer, of how many a record is converted, how many records those are, and how many files differ.
#[derive(Drop)]
struct Tally {
    files: [u64; ANSWERS],
    converted: u64,
    records: u64,
    differ: u64,
}

fn main(rt: HostRuntime) -> io::Result<()> {
    let file = match File::open(&rt, "table") {
        Ok(file) => file,
        Err(e) => return eprintln!(rt; "table: {e}"),
    };
    let mut table = BufReader::new(rt.alloc(), file)?;
    let mut out = BufWriter::new(rt.alloc(), io::writer(&rt))?;
    let mut tally = Tally {
        files: [0; ANSWERS],
        converted: 0,
        records: 0,
        differ: 0,
    };
    tally.convert_all(&mut table, &mut out)?;
    tally.print(&mut out)?;
    out.flush()
}

impl Tally {
    // Takes the files to the end of the table.
    fn convert_all(&mut self, table: &mut BufReader<File>, out: &mut impl Write) -> io::Result<()> {
        let mut file = [0; ROOM];
        let mut wanted = [0; ROOM];
        // No iterator: a file is converted in the buffer that it is read into. A number ends it: nothing says that a table ends.
        for number in 0..u64::MAX {
            let Some(head) = Head::read(table) else {
                break;
            };
            let n = usize::from(head.length);
            if !head.read_file(table, &mut file[..n], &mut wanted[..n]) {
                return writeln!(out, "the table ends within a file");
            }
            self.count(head);
            if !head.agrees(&mut file[..n], &wanted[..n]) {
                self.differs(number, head, out)?;
            }
        }
        Ok(())
    }

    // Counts a file by what it has to give.
    fn count(&mut self, head: Head) {
        if let Some(files) = self.files.get_mut(usize::from(head.refusal)) {
            *files = files.saturating_add(1);
        }
        if head.records > 0 {
            self.converted = self.converted.saturating_add(1);
            self.records = self.records.saturating_add(u64::from(head.records));
        }
    }

    // Writes out the first few that differ.
    fn differs(&mut self, number: u64, head: Head, out: &mut impl Write) -> io::Result<()> {
        if self.differ < SHOWN {
            let Head {
                length,
                refusal,
                records,
            } = head;
            writeln!(
                out,
                "file {number}: {length} bytes, not refusal {refusal}, {records} records, or not the bytes"
            )?;
        }
        self.differ = self.differ.saturating_add(1);
        Ok(())
    }

    fn print(&self, out: &mut impl Write) -> io::Result<()> {
        let Tally {
            converted,
            records,
            differ,
            ..
        } = *self;
        let nothing = self.files[0].saturating_sub(converted);
        writeln!(out, "converted: {converted} files, {records} records")?;
        writeln!(out, "nothing to convert: {nothing} files")?;
        for (refusal, &files) in self.files.iter().enumerate().skip(1) {
            if files > 0 {
                writeln!(out, "refused {refusal}: {files} files")?;
            }
        }
        let total = self
            .files
            .iter()
            .fold(0u64, |n, &files| n.saturating_add(files));
        writeln!(out, "total {total} files, {differ} differ")
    }
}
