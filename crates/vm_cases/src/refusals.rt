// Refusal 10 in each of its parts: every lent entry stays as it was.
use crate::code::CaseFile;
use crate::floats::{THREE, TWO};
use crate::op;
use crate::op::{Op, ToRecord};
use crate::report::Tally;
use crate::run::{LONGEST, Set};
use crate::seen::Seen;
use eval::slot::{FLOAT, HASH, MISSING, OTHER, Slots};
use std::fmt::Display;
use vm::account::Reply;
use vm::{Lengths, Terms};

// How many kinds and values of cells are lent, and the kind and the value of cell 1.
#[derive(Clone, Copy)]
pub struct Given {
    pub kinds: usize,
    pub values: usize,
    pub kind: u8,
    pub value: u64,
}

// The cells and the context of a call, and the lengths of its working stores.
#[derive(Clone, Copy)]
pub struct Lent {
    pub cells: Given,
    pub context: Given,
    pub lengths: Lengths,
}

const SOIL: u32 = 0xA5C3_7FC1;

const LONG_SOIL: u64 = 0xA5C3_7FC1_7FC1_A5C3;

// One more than the bits of any float.
pub const NO_FLOAT: u64 = 0x1_0000_0000;

// A cell for each name, and the float 2.
const FOUR: Given = Given {
    kinds: 4,
    values: 4,
    kind: FLOAT,
    value: 0x4000_0000,
};

// A call that is accepted.
pub const RIGHT: Lent = Lent {
    cells: FOUR,
    context: FOUR,
    lengths: LONGEST,
};

// A step limit and a house limit.
const TERMS: Terms = Terms {
    this: 0,
    step_limit: Some(7),
    loop_limit: None,
    house_limit: Some(9),
};

pub fn cases(tally: &mut Tally) {
    accepted(tally);
    counts(tally);
    contents(tally);
    stores(tally);
}

// The account of `RIGHT`: 3 stored in cell 1, a handler, and a loop with two more turns.
fn accepted(tally: &mut Tally) {
    let want = Seen::done(5, THREE)
        .stored(0x4040_0000)
        .stack(1, TWO, TWO)
        .looped(1, 1)
        .handled(1, 0x4_0000_0000);
    let room = Set::room(LONGEST);
    tally.case("the largest stores are accepted", &writing(), room, want);
}

fn counts(tally: &mut Tally) {
    let cell = Given {
        kinds: 5,
        values: 5,
        ..FOUR
    };
    let faults = [
        ("a kind too few", Given { kinds: 3, ..FOUR }),
        ("a value too few", Given { values: 3, ..FOUR }),
        ("a cell too many", cell),
    ];
    both(tally, RIGHT, &faults);
}

fn contents(tally: &mut Tally) {
    let zero = Given { value: 0, ..FOUR };
    let float = Given {
        value: NO_FLOAT,
        ..zero
    };
    let faults = [
        ("kind 4", Given { kind: 4, ..zero }),
        ("a float of 2^32", float),
    ];
    let zeros = Lent {
        cells: zero,
        context: zero,
        ..RIGHT
    };
    both(tally, zeros, &faults);
}

// Each fault in the cells of a call that is accepted, and each in its context.
fn both(tally: &mut Tally, accepted: Lent, faults: &[(&str, Given)]) {
    for &(name, cells) in faults {
        let lent = Lent { cells, ..accepted };
        refused(tally, format_args!("refused: {name}"), lent);
    }
    for &(name, context) in faults {
        let lent = Lent {
            context,
            ..accepted
        };
        refused(tally, format_args!("refused: {name} in the context"), lent);
    }
}

fn stores(tally: &mut Tally) {
    let stack = Lengths {
        stack: 65601,
        ..LONGEST
    };
    let loops = Lengths {
        loops: 65,
        ..LONGEST
    };
    let handlers = Lengths {
        handlers: 65,
        ..LONGEST
    };
    let faults = [
        ("refused: 65601 operands", stack),
        ("refused: 65 loop counts", loops),
        ("refused: 65 handlers", handlers),
    ];
    for (name, lengths) in faults {
        refused(tally, name, Lent { lengths, ..RIGHT });
    }
}

fn refused(tally: &mut Tally, name: impl Display + Drop, lent: Lent) {
    let file = writing();
    tally.verdict(name, sent_back(file.as_slice(), lent, 10));
}

// A file that would write to every lent store.
pub fn writing() -> CaseFile {
    CaseFile::new(&[
        Op::Const.with(op::THREE),
        Op::StoreVar.with(1),
        Op::HandlerPush.with(4),
        Op::LoopBegin.with(9),
        Op::End.alone(),
    ])
}

// Whether the call is sent back by the refusal of this number, with every entry and both limits as they were.
pub fn sent_back(file: &[u8], lent: Lent, number: u32) -> bool {
    let Lent {
        cells,
        context,
        lengths,
    } = lent;
    let entry_kinds = [MISSING, cells.kind, HASH, OTHER, FLOAT];
    let entry_values = [7, cells.value, LONG_SOIL, 8, 9];
    let mut kinds = entry_kinds;
    let mut values = entry_values;
    let context_kinds = [MISSING, context.kind, HASH, OTHER, FLOAT];
    let context_values = [7, context.value, LONG_SOIL, 8, 9];
    let mut stack = [SOIL; 65601];
    let mut loops = [SOIL; 65];
    let mut handlers = [LONG_SOIL; 65];
    let context = Slots {
        kinds: &context_kinds[..context.kinds.min(5)],
        values: &context_values[..context.values.min(5)],
    };
    let answer = vm::call(
        file,
        &mut kinds[..cells.kinds.min(5)],
        &mut values[..cells.values.min(5)],
        context,
        TERMS,
        &mut stack[..lengths.stack.min(65601)],
        &mut loops[..lengths.loops.min(65)],
        &mut handlers[..lengths.handlers.min(65)],
    );
    let reply = Reply::new(TERMS, answer);
    let left = reply.account.remainders;
    reply.refusal == number
        && left.guest == 7
        && left.house == 9
        && kinds == entry_kinds
        && values == entry_values
        && stack.iter().all(|&x| x == SOIL)
        && loops.iter().all(|&x| x == SOIL)
        && handlers.iter().all(|&x| x == LONG_SOIL)
}
