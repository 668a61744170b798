// One run of a case's file, and what it left.
use crate::code::CaseFile;
use crate::seen::Seen;
use eval::machine::{Notices, Outcome, State};
use eval::slot::{FLOAT, HASH, MISSING, OTHER, Slots};
use vm::account::{Account, Depths};
use vm::{Lengths, Refusal, Terms};

// The number `this` of every case: 2.5.
const THIS: u32 = 0x4020_0000;

// A state that a host makes up, which is as a run that has not begun. Not by `State::start`: tried, and from what that
// promises of the stores the depths that the operations ask for were not proved.
pub const FRESH: State = State {
    pos: 0,
    charges: 0,
    acc: 0,
    outcome: Outcome::Running,
    stack: 0,
    loops: 0,
    handlers: 0,
    notices: Notices {
        missing_member: 0,
        access_underflow: 0,
        loop_limit: 0,
    },
    empty_pops: 0,
};

// The longest stores that a case lends.
pub const LONGEST: Lengths = Lengths {
    stack: 65600,
    loops: 64,
    handlers: 64,
};

// The terms of a call, and the lengths of the lent stores.
#[derive(Clone, Copy)]
pub struct Set {
    pub terms: Terms,
    pub lengths: Lengths,
}

impl Set {
    // No limits.
    pub fn room(lengths: Lengths) -> Set {
        Set {
            terms: unlimited(THIS),
            lengths,
        }
    }

    // Stores of 64 entries each.
    pub fn plain() -> Set {
        Set::room(Lengths {
            stack: 64,
            ..LONGEST
        })
    }

    pub fn step_limit(self, n: u64) -> Set {
        self.limits(Some(n), None)
    }

    pub fn loop_limit(mut self, n: u32) -> Set {
        self.terms.loop_limit = Some(n);
        self
    }

    // A step limit, and the house's beside it.
    pub fn limits(mut self, guest: Option<u64>, house: Option<u64>) -> Set {
        self.terms.step_limit = guest;
        self.terms.house_limit = house;
        self
    }
}

// Terms without limits.
pub fn unlimited(this: u32) -> Terms {
    Terms {
        this,
        step_limit: None,
        loop_limit: None,
        house_limit: None,
    }
}

// The cells of a call: kinds and values apart, as C lends them.
#[derive(Clone, Copy, PartialEq, Eq)]
pub struct Cells {
    pub kinds: [u8; 4],
    pub values: [u64; 4],
}

impl Cells {
    // At entry: missing, the float 2, a hash whose low half is the float 3, and other.
    pub const ENTRY: Cells = Cells {
        kinds: [MISSING, FLOAT, HASH, OTHER],
        values: [7, 0x4000_0000, 0x1122_3344_4040_0000, 9],
    };

    // The same but for the float, which is 5.
    const CONTEXT: Cells = Cells {
        kinds: [MISSING, FLOAT, HASH, OTHER],
        values: [7, 0x40A0_0000, 0x1122_3344_4040_0000, 9],
    };

    pub fn slots(&self) -> Slots<'_> {
        Slots {
            kinds: &self.kinds,
            values: &self.values,
        }
    }

    // Whether they are as at entry but for what cell 1 holds.
    fn are_others_kept(self) -> bool {
        let mut others = self;
        others.values[1] = Cells::ENTRY.values[1];
        others == Cells::ENTRY
    }
}

// The working stores as a run left them.
#[derive(Clone, Copy)]
struct Stores<'a> {
    stack: &'a [u32],
    loops: &'a [u32],
    handlers: &'a [u64],
}

// Runs the file with `soil` in every entry of the working stores.
pub fn run(file: &CaseFile, set: Set, soil: u32) -> Result<Seen, Refusal> {
    run_on(file, set, soil, &mut Cells::ENTRY)
}

// The same on cells of the caller's.
pub fn run_on(file: &CaseFile, set: Set, soil: u32, cells: &mut Cells) -> Result<Seen, Refusal> {
    let mut stack = [soil; LONGEST.stack];
    let mut loops = [soil; LONGEST.loops];
    let mut handlers = [u64::from(soil); LONGEST.handlers];
    let stack = first(&mut stack, set.lengths.stack);
    let loops = first(&mut loops, set.lengths.loops);
    let handlers = first(&mut handlers, set.lengths.handlers);
    let account = vm::call(
        file.as_slice(),
        &mut cells.kinds,
        &mut cells.values,
        Cells::CONTEXT.slots(),
        set.terms,
        stack,
        loops,
        handlers,
    )?;
    let stores = Stores {
        stack,
        loops,
        handlers,
    };
    Ok(stores.seen(account, set.terms, *cells))
}

// The first entries of a store: so many, or all.
fn first<T>(store: &mut [T], count: usize) -> &mut [T] {
    let count = count.min(store.len());
    &mut store[..count]
}

impl Stores<'_> {
    // The account, and what the stores hold.
    fn seen(&self, account: Account, terms: Terms, cells: Cells) -> Seen {
        let end = account.end;
        let depths = end.depths;
        let left = account.remainders;
        Seen {
            end,
            low: self.stack.first().copied().unwrap_or(0),
            top: top(self.stack, depths.stack),
            count: top(self.loops, depths.loops),
            mark: top(self.handlers, depths.handlers),
            cell: cells.values[1],
            clean: self.are_clean_above(depths) && cells.are_others_kept(),
            paid: makes(left.guest, end.charges, terms.step_limit)
                && makes(left.house, end.charges, terms.house_limit),
        }
    }

    // Whether they hold zeros from the depths on.
    fn are_clean_above(&self, depths: Depths) -> bool {
        let mut stack = self.stack.iter().skip(depths.stack as usize);
        let mut loops = self.loops.iter().skip(depths.loops as usize);
        let mut handlers = self.handlers.iter().skip(depths.handlers as usize);
        stack.all(|&x| x == 0) && loops.all(|&x| x == 0) && handlers.all(|&x| x == 0)
    }
}

// The top of a store; at depth 0 the first entry, which holds zero then.
fn top<T: Copy + Default>(store: &[T], depth: u64) -> T {
    let top = store.get(depth.saturating_sub(1) as usize);
    top.copied().unwrap_or_default()
}

// Whether what remains of a limit, and the charges, make the limit.
fn makes(left: u64, charges: u64, limit: Option<u64>) -> bool {
    left.checked_add(charges) == Some(limit.unwrap_or(u64::MAX))
}
