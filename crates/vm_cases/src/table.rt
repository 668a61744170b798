// The table of tools/vm_cases.py: each row is a record with the numbers that it meets and what it has to leave
// (docs/VECTORS.md). The rows of a case follow each other; the last one is marked.
use crate::code::CaseFile;
use crate::op::{Op, Record, ToRecord};
use crate::report::Tally;
use crate::run::Set;
use crate::seen::Seen;
use crate::withdrawn::agrees_converted;
use print::rows::{Rows, Stop};
use std::fs::File;
use std::io;
use std::io::BufReader;

// A row: the length of the name, 27 bytes for it, and 23 numbers of four bytes each.
const START: usize = 28;

const ROW: usize = START + 4 * 23;

// The constants that hold a row's numbers.
const A: u8 = 14;

const B: u8 = 15;

// The numbers of a row: the record and the operands that it meets, and what it has to leave.
#[derive(Clone, Copy)]
struct Row {
    record: Record,
    a: u32,
    b: u32,
    outcome: u32,
    position: u32,
    charges: u32,
    accumulator: u32,
    depth: u32,
    low: u32,
    top: u32,
    loops: u32,
    count: u32,
    handlers: u32,
    target: u32,
    marks: u32,
    missing_member: u32,
    access_underflow: u32,
    cell: u32,
    temp: Option<u32>,
    empty_pops: u32,
    is_last: bool,
}

pub fn cases(rt: HostRuntime, tally: &mut Tally) -> io::Result<()> {
    match File::open(&rt, "opcodes") {
        Ok(file) => rows(BufReader::new(rt.alloc(), file)?, tally),
        Err(e) => eprintln!(rt; "opcodes: {e}")?,
    }
    Ok(())
}

// Takes the rows to the end of the table. The last one of a case writes its line.
fn rows(table: BufReader<File>, tally: &mut Tally) {
    let mut ok = true;
    for row in Rows::new(table) {
        let bytes = match row {
            Ok(bytes) => bytes,
            Err(Stop::Cut) => return tally.put(b"the table ends within a row\n"),
            Err(Stop::Failed) => return,
        };
        let row = Row::read(&bytes);
        ok = ok && row.is_met();
        if row.is_last {
            conclude(&bytes, ok, tally);
            ok = true;
        }
    }
}

// The line of a case, whose name starts behind its length.
fn conclude(bytes: &[u8; ROW], ok: bool, tally: &mut Tally) {
    if let Some(name) = bytes.get(1..1 + usize::from(bytes[0])) {
        tally.put(name);
        tally.conclude(ok);
    }
}

impl Row {
    // The numbers in the order in which they stand.
    fn read(bytes: &[u8; ROW]) -> Row {
        let (words, _) = bytes[START..].as_chunks();
        let mut words = words.iter();
        let mut next = || words.next().map_or(0, |&word| u32::from_le_bytes(word));
        Row {
            record: Record::new(next(), next()),
            a: next(),
            b: next(),
            outcome: next(),
            position: next(),
            charges: next(),
            accumulator: next(),
            depth: next(),
            low: next(),
            top: next(),
            loops: next(),
            count: next(),
            handlers: next(),
            target: next(),
            marks: next(),
            missing_member: next(),
            access_underflow: next(),
            cell: next(),
            temp: (next() != 0).then_some(next()),
            empty_pops: next(),
            is_last: next() != 0,
        }
    }

    // Whether the record leaves what it has to. Every file goes through the converter, which changes a HostMath alone.
    fn is_met(self) -> bool {
        agrees_converted(self.file(), Set::plain(), self.wanted())
    }

    // The record under test, after Const a, Push, Const b; behind it End, Post, End.
    fn file(self) -> CaseFile {
        let file = CaseFile::new(&[
            Op::Const.with(u32::from(A)),
            Op::Push.alone(),
            Op::Const.with(u32::from(B)),
            self.record,
            Op::End.alone(),
            Op::Post.alone(),
            Op::End.alone(),
        ]);
        file.constant(A, self.a).constant(B, self.b)
    }

    // What the row has to leave.
    fn wanted(self) -> Seen {
        let mark = u64::from(self.target) * 0x1_0000_0000 + u64::from(self.marks);
        let missing_member = u64::from(self.missing_member);
        let access_underflow = u64::from(self.access_underflow);
        let want = Seen::numbered(self.outcome, u64::from(self.charges), self.accumulator)
            .at(u64::from(self.position))
            .stack(u64::from(self.depth), self.low, self.top)
            .looped(u64::from(self.loops), self.count)
            .handled(u64::from(self.handlers), mark)
            .noticed(missing_member, access_underflow, 0)
            .stored(u64::from(self.cell))
            .popped(u64::from(self.empty_pops));
        self.temp.map_or(want, |temp| want.kept(temp))
    }
}
