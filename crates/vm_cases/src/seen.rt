// What a run left: what a case sees, and what it wants to see.
use eval::machine::{Notices, Outcome};
use vm::account::{End, Temps};

// The number of an outcome, as README.md's table has it. Not the machine's own conversion: both sides of a comparison would have its
// mistakes.
pub fn number_of(outcome: Outcome) -> u32 {
    match outcome {
        Outcome::Done => 0,
        Outcome::Steps => 1,
        Outcome::MissingValue => 2,
        Outcome::StackCap => 3,
        Outcome::Full => 4,
        Outcome::HandedOver => 5,
        Outcome::Running => 6,
    }
}

#[derive(Clone, Copy, PartialEq, Eq)]
pub struct Seen {
    pub end: End,
    // The lowest operand and the top one, the newest loop count, and the newest handler.
    pub low: u32,
    pub top: u32,
    pub count: u32,
    pub mark: u64,
    // Cell 1, a float throughout.
    pub cell: u64,
    // Zeros from the depths on, and the other cells as they were.
    pub clean: bool,
    // What remains of both limits is what was not charged.
    pub paid: bool,
}

impl Seen {
    // An end with empty stores, no notices, no empty pops, and the cells as at entry.
    pub fn ended(outcome: Outcome, charges: u64, accumulator: u32) -> Seen {
        Seen::numbered(number_of(outcome), charges, accumulator)
    }

    // The same of an outcome by its number.
    pub fn numbered(outcome: u32, charges: u64, accumulator: u32) -> Seen {
        let value = if outcome == 0 { accumulator } else { 0 };
        Seen {
            end: End {
                outcome,
                value,
                charges,
                accumulator,
                ..End::default()
            },
            low: 0,
            top: 0,
            count: 0,
            mark: 0,
            cell: 0x4000_0000,
            clean: true,
            paid: true,
        }
    }

    pub fn done(charges: u64, accumulator: u32) -> Seen {
        Seen::ended(Outcome::Done, charges, accumulator)
    }

    pub fn at(mut self, position: u64) -> Seen {
        self.end.position = position;
        self
    }

    pub fn stack(mut self, stack: u64, low: u32, top: u32) -> Seen {
        self.end.depths.stack = stack;
        self.low = low;
        self.top = top;
        self
    }

    pub fn looped(mut self, loops: u64, count: u32) -> Seen {
        self.end.depths.loops = loops;
        self.count = count;
        self
    }

    pub fn handled(mut self, handlers: u64, mark: u64) -> Seen {
        self.end.depths.handlers = handlers;
        self.mark = mark;
        self
    }

    pub fn noticed(mut self, missing_member: u64, access_underflow: u64, loop_limit: u64) -> Seen {
        self.end.notices = Notices {
            missing_member,
            access_underflow,
            loop_limit,
        };
        self
    }

    pub fn popped(mut self, empty_pops: u64) -> Seen {
        self.end.empty_pops = empty_pops;
        self
    }

    pub fn stored(mut self, cell: u64) -> Seen {
        self.cell = cell;
        self
    }

    // Temp 1 alone is given.
    pub fn kept(mut self, temp: u32) -> Seen {
        let mut temps = [None; 8];
        temps[1] = Some(temp);
        self.end.temps = Temps::from(temps);
        self
    }
}
