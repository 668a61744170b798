// Holds every operation of the crate numeric to the table that tools/arithmetic_table.py made by arithmetic of its own.
// Writes the first rows that differ, if any do, and a line for each result of a row (docs/ARITHMETIC_TABLE.md).
#![tactic(auto)]

mod operation;

use endian::number_at;
use operation::{Operands, Outcome, RESULTS, outcomes};
use print::rows::{Rows, Stop};
use std::fs::File;
use std::io;
use std::io::{BufReader, BufWriter, Write};

// A row is 44 words of four bytes, the least first: four operands, and the results.
const ROW: usize = 4 * (4 + RESULTS);

// How many differences of one result are written out.
const SHOWN: u64 = 3;

// How many rows were compared, and how many differ in each result.
#[derive(Drop)]
struct Tally {
    rows: u64,
    differ: [u64; RESULTS],
}

fn main(rt: HostRuntime) -> io::Result<()> {
    let file = match File::open(&rt, "table") {
        Ok(file) => file,
        Err(e) => return eprintln!(rt; "table: {e}"),
    };
    let table = BufReader::new(rt.alloc(), file)?;
    let mut out = BufWriter::new(rt.alloc(), io::writer(&rt))?;
    let mut tally = Tally {
        rows: 0,
        differ: [0; RESULTS],
    };
    tally.compare_all(table, &mut out)?;
    tally.print(&mut out)?;
    out.flush()
}

impl Tally {
    // Compares the rows to the end of the table.
    fn compare_all(&mut self, table: BufReader<File>, out: &mut impl Write) -> io::Result<()> {
        for row in Rows::new(table) {
            match row {
                Ok(row) => self.compare_row(&row, out)?,
                Err(Stop::Cut) => return writeln!(out, "the table ends within a row"),
                Err(Stop::Failed) => break,
            }
        }
        Ok(())
    }

    // Compares the results of a row.
    fn compare_row(&mut self, row: &[u8; ROW], out: &mut impl Write) -> io::Result<()> {
        let x = Operands {
            a: number_at(row, 0),
            b: number_at(row, 4),
            scale: number_at(row, 8),
            offset: number_at(row, 12),
        };
        let (expected, _) = row[16..].as_chunks();
        let results = outcomes(x);
        if !agree(&results, expected) {
            for ((got, &expected), differ) in results.iter().zip(expected).zip(&mut self.differ) {
                compare(out, x, got, u32::from_le_bytes(expected), differ)?;
            }
        }
        self.rows = self.rows.saturating_add(1);
        Ok(())
    }

    // Writes a line for each result, and how many differ in all.
    fn print(&self, out: &mut impl Write) -> io::Result<()> {
        let rows = self.rows;
        let mut total = 0u64;
        for (result, differ) in outcomes(Operands::default()).iter().zip(&self.differ) {
            writeln!(out, "{} {rows} rows, {differ} differ", result.name)?;
            total = total.saturating_add(*differ);
        }
        writeln!(out, "total {rows} rows, {total} differ")
    }
}

// Whether each result is the one expected, as in nearly every row.
fn agree(results: &[Outcome; RESULTS], expected: &[[u8; 4]]) -> bool {
    results
        .iter()
        .map(|got| got.bits)
        .eq(expected.iter().map(|&word| u32::from_le_bytes(word)))
}

// Compares a result of the operands with the one expected. Counts it where it differs, and writes out the first few.
fn compare(
    out: &mut impl Write,
    x: Operands,
    got: &Outcome,
    expected: u32,
    differ: &mut u64,
) -> io::Result<()> {
    if got.bits == expected {
        return Ok(());
    }
    if *differ < SHOWN {
        let Operands {
            a,
            b,
            scale,
            offset,
        } = x;
        let Outcome { name, bits } = *got;
        write!(
            out,
            "{name} a {a:08x} b {b:08x} scale {scale:08x} offset {offset:08x}"
        )?;
        writeln!(out, " expected {expected:08x} got {bits:08x}")?;
    }
    *differ = differ.saturating_add(1);
    Ok(())
}
