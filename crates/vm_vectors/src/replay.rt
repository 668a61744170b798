// One call of the list, made again with garbage in the working stores.
use crate::compare;
use crate::field::Field;
use crate::record::Record;
use eval::slot::Slots;
use interp::Lent;
use vm::account::End;

// The working stores of the longest call.
#[derive(Drop)]
pub struct Stores {
    stack: [u32; 65600],
    loops: [u32; 64],
    handlers: [u64; 64],
}

// Numbers that no run leaves by chance.
#[derive(Drop)]
struct Garbage(u32);

impl Stores {
    pub fn new() -> Stores {
        Stores {
            stack: [0; 65600],
            loops: [0; 64],
            handlers: [0; 64],
        }
    }

    // Makes the call again, and holds what it left to the list.
    pub fn replay(&mut self, record: &Record) -> Result<(), Field> {
        let mut cells = record.cells();
        let n = record.names();
        let lengths = record.lengths();
        let stack = self.stack.get_mut(..lengths.stack);
        let loops = self.loops.get_mut(..lengths.loops);
        let handlers = self.handlers.get_mut(..lengths.handlers);
        let (Some(stack), Some(loops), Some(handlers)) = (stack, loops, handlers) else {
            return Err(Field::Stores);
        };
        let mut lent = Lent {
            kinds: &mut cells.kinds[..n],
            values: &mut cells.values[..n],
            stack,
            loops,
            handlers,
        };
        fill(&mut lent);
        let end = call(record, &mut lent)?;
        compare::end(record.end(), end)?;
        compare::lent(record, &lent)
    }
}

// Puts garbage into the working stores.
fn fill(lent: &mut Lent<'_>) {
    let mut garbage = Garbage::new();
    lent.stack.fill_with(|| garbage.next());
    let mut garbage = Garbage::new();
    lent.loops.fill_with(|| garbage.next());
    let mut garbage = Garbage::new();
    lent.handlers
        .fill_with(|| u64::from(garbage.next()) * 0x1_0000_0001);
}

// Makes the call. One that the list has is not refused.
fn call(record: &Record, lent: &mut Lent<'_>) -> Result<End, Field> {
    let context = record.context();
    let n = record.names();
    let account = vm::call(
        record.file.ok_or(Field::File)?,
        lent.kinds,
        lent.values,
        Slots {
            kinds: &context.kinds[..n],
            values: &context.values[..n],
        },
        record.terms(),
        lent.stack,
        lent.loops,
        lent.handlers,
    )
    .map_err(|_| Field::Outcome)?;
    Ok(account.end)
}

impl Garbage {
    fn new() -> Garbage {
        Garbage(0xA5C3_7FC1)
    }

    fn next(&mut self) -> u32 {
        let x = self.0;
        self.0 = x.wrapping_add(0x9E37_79B9);
        x
    }
}
