// What a call left, held to the list: the first field that differs is the error.
use crate::field::Field;
use crate::record::{Record, Run};
use endian::number_at;
use eval::slot::FLOAT;
use interp::Lent;
use std::iter;
use vm::account::{End, Temps};

// How the run ended.
pub fn end(listed: End, end: End) -> Result<(), Field> {
    Field::Outcome.unless(end.outcome == listed.outcome)?;
    Field::Position.unless(end.position == listed.position)?;
    Field::Value.unless(same(end.value, listed.value))?;
    Field::Charges.unless(end.charges == listed.charges)?;
    Field::Accumulator.unless(same(end.accumulator, listed.accumulator))?;
    let (notices, counts) = (end.notices, listed.notices);
    Field::MissingMember.unless(notices.missing_member == counts.missing_member)?;
    Field::AccessUnderflow.unless(notices.access_underflow == counts.access_underflow)?;
    Field::LoopLimit.unless(notices.loop_limit == counts.loop_limit)?;
    Field::Stack.unless(end.depths.stack == listed.depths.stack)?;
    Field::Loops.unless(end.depths.loops == listed.depths.loops)?;
    Field::Handlers.unless(end.depths.handlers == listed.depths.handlers)?;
    Field::Temps.unless(same_temps(end.temps, listed.temps))
}

fn same_temps(a: Temps, b: Temps) -> bool {
    let mut numbers = a.numbers.iter().zip(&b.numbers);
    a.given == b.given && numbers.all(|(&a, &b)| same(a, b))
}

// What was lent, as left: behind the loop counts and the handlers of the list are zeros.
pub fn lent(record: &Record, lent: &Lent) -> Result<(), Field> {
    let listed = record.loops.iter().map(|&count| u32::from_le_bytes(count));
    let mut loops = lent.loops.iter().zip(listed.chain(iter::repeat(0)));
    let listed = record
        .handlers
        .iter()
        .map(|&entry| u64::from_le_bytes(entry));
    let mut handlers = lent.handlers.iter().zip(listed.chain(iter::repeat(0)));
    Field::Stack.unless(same_stack(record, lent.stack))?;
    Field::Loops.unless(loops.all(|(&count, listed)| count == listed))?;
    Field::Handlers.unless(handlers.all(|(&entry, listed)| entry == listed))?;
    Field::Cells.unless(same_cells(record, lent))
}

// The stack has its runs one after the other, and zeros from there on.
fn same_stack(record: &Record, stack: &[u32]) -> bool {
    let mut rest = stack;
    for run in record.runs {
        let run = Run::from(run);
        let Some((equal, above)) = rest.split_at_checked(run.count) else {
            return false;
        };
        if !equal.iter().all(|&bits| same(bits, run.bits)) {
            return false;
        }
        rest = above;
    }
    rest.iter().all(|&bits| bits == 0)
}

fn same_cells(record: &Record, lent: &Lent) -> bool {
    let mut cells = lent.kinds.iter().zip(lent.values.iter()).zip(record.left);
    cells.all(|((&kind, &value), listed)| {
        kind == listed[0] && same_value(kind, value, number_at(listed, 1))
    })
}

// A float cell's NaN is 7FC00000 too.
fn same_value(kind: u8, value: u64, listed: u64) -> bool {
    match (kind, u32::try_from(value), u32::try_from(listed)) {
        (FLOAT, Ok(bits), Ok(other)) => same(bits, other),
        _ => value == listed,
    }
}

// A NaN is 7FC00000, whatever its bits.
fn same(a: u32, b: u32) -> bool {
    plain(a) == plain(b)
}

// What `numeric::fpu::enter` gives, read from the bits: what is compared is no judge of the comparison.
fn plain(bits: u32) -> u32 {
    if 0x7F80_0000 < bits % 0x8000_0000 {
        0x7FC0_0000
    } else {
        bits
    }
}
