// Empty pops: every operand that a record takes and that is not on the stack is counted, and nothing else is. What the
// runs push is +0.0, as an operand that is not there: the count alone tells them apart.
ghost use Rattle.std.specs.Prelude.{◌≡◌};

use crate::code::CaseFile;
use crate::floats::{NAN, ONE, THREE, TWO};
use crate::op;
use crate::op::{Op, Record, ToRecord};
use crate::report::Tally;
use crate::run::{FRESH, Set};
use crate::seen::Seen;
use crate::withdrawn::agrees_converted;
use eval::loops::loop_end;
use eval::machine::State;
use eval::ops::host_math;

pub fn cases(tally: &mut Tally) {
    takers(tally);
    hosts(tally);
    loop_ends(tally);
    lookers(tally);
    stays(tally);
}

// ---- one operand

fn takers(tally: &mut Tally) {
    tally.verdict("AddLast over 0, 1 and 2", takes_one(Op::AddLast, 0));
    tally.verdict("Mul over 0, 1 and 2", takes_one(Op::Mul, 0));
    tally.verdict("Div over 0, 1 and 2", takes_one(Op::Div, NAN));
    tally.verdict("Mod over 0, 1 and 2", takes_one(Op::Mod, 0));
    tally.verdict("Cmp over 0, 1 and 2", takes_one(Op::Cmp, 0));
    tally.verdict("Eq over 0, 1 and 2", takes_one(Op::Eq, ONE));
}

// A record that takes one operand, on stacks of 0, 1 and 2; it leaves `acc` of two zeros.
fn takes_one(op: Op, acc: u32) -> bool {
    (0..3).all(|depth| over(depth, op.alone(), acc, 1))
}

// A record that takes `taken` operands, on a stack of `depth`. A HostMath is converted.
fn over(depth: u8, record: Record, acc: u32, taken: u8) -> bool {
    let pushed = (0..depth).fold(CaseFile::new(&[]), |f, _| f.then(Op::Push.alone()));
    let f = pushed.then(record).then(Op::End.alone());
    let want = Seen::done(u64::from(depth) + 2, acc)
        .stack(u64::from(depth.saturating_sub(taken)), 0, 0)
        .popped(u64::from(taken.saturating_sub(depth)));
    agrees_converted(f, Set::plain(), want)
}

// ---- HostMath: of n arguments, limited to 8, n - 1 are taken

fn hosts(tally: &mut Tally) {
    tally.verdict("HostMath of 0, converted, over 0 to 8", takes_none(0));
    tally.verdict("HostMath of 1, converted, over 0 to 8", takes_none(1));
    for (arguments, taken) in [(0, 0), (1, 0), (2, 1), (8, 7), (9, 7), (255, 7)] {
        let ok = (0..9).all(|depth| takes(depth, arguments, taken));
        tally.verdict(
            format_args!("HostMath of {arguments}, the machine as it was, over 0 to 8"),
            ok,
        );
    }
}

// In a call of the converted file.
fn takes_none(arguments: u8) -> bool {
    let record = Op::HostMath.alone().choosing(arguments);
    (0..9).all(|depth| over(depth, record, 0, 0))
}

// From a state made up for it, since no call takes the record: `arguments`, of which so many are taken.
fn takes(depth: usize, arguments: u8, taken: usize) -> bool {
    let met = State {
        acc: ONE,
        stack: depth,
        ..FRESH
    };
    let left = host_math(met, arguments);
    left.acc == 0
        && left.pos == 1
        && left.stack == depth.saturating_sub(taken)
        && left.empty_pops == taken.saturating_sub(depth) as u64
}

// ---- LoopEnd

fn loop_ends(tally: &mut Tally) {
    let popped = Seen::done(5, THREE).popped(1);
    ends(tally, "LoopEnd over 0", Op::AddLast, popped);
    ends(tally, "LoopEnd over 1", Op::Post, Seen::done(5, TWO));
    let left = Seen::done(5, TWO).stack(1, ONE, ONE);
    ends(tally, "LoopEnd over 2", Op::Push, left);
    alone(tally, "LoopEnd with no loop open", Op::LoopEnd.alone());
}

// LoopEnd behind a record in an open loop, whose count 1 is on the stack.
fn ends(tally: &mut Tally, name: &str, op: Op, want: Seen) {
    let f = CaseFile::new(&[
        Op::Const.with(op::TWO),
        Op::LoopBegin.with(9),
        op.alone(),
        Op::LoopEnd.alone(),
    ]);
    tally.plain(name, &f, want);
}

// ---- what only looks at the stack, or cuts it

fn lookers(tally: &mut Tally) {
    alone(tally, "LoopCheck over 0", Op::LoopCheck.with(1));
    alone(tally, "AddAcc over 0", Op::AddAcc.alone());
    alone(tally, "HandlerPop over 0", Op::HandlerPop.with(1));
    let f = CaseFile::new(&[
        Op::HandlerPush.with(4),
        Op::Push.alone(),
        Op::Push.alone(),
        Op::LoadVar.with(0),
        Op::AddLast.alone(),
    ]);
    let want = Seen::done(6, 0).popped(1);
    tally.plain("a handler's cut, then AddLast", &f, want);
}

// One record on an empty stack, and the end.
fn alone(tally: &mut Tally, name: &str, record: Record) {
    let f = CaseFile::new(&[record]);
    tally.plain(name, &f, Seen::done(2, 0));
}

// ---- a state made up for it: at 2^64 - 1 the count stays

fn stays(tally: &mut Tally) {
    let takes = takes_from(1, 0) && takes_from(0, 0);
    tally.verdict("a full count, an operand", takes);
    let fits = math_from(8, 1) && math_from(7, 0);
    let most = math_from(6, 0) && math_from(1, 0) && math_from(0, 0);
    tally.verdict("a full count, HostMath", fits && most);
    let ends = ends_from(1, 0) && ends_from(0, 0);
    tally.verdict("a full count, LoopEnd", ends);
}

// An empty stack, one open loop, and a count that lacks `short` of the largest.
fn counting(short: u64) -> State
    ensures { (result.pos ≡ 0) × (result.stack ≡ 0) }
{
    State {
        loops: 1,
        empty_pops: u64::MAX - short,
        ..FRESH
    }
}

// An operand is taken: `left` is what the count then lacks.
fn takes_from(short: u64, left: u64) -> bool {
    let taken = counting(short).take(&[0; 1]);
    taken.number.is_none() && taken.left.empty_pops == u64::MAX - left
}

// Seven are.
fn math_from(short: u64, left: u64) -> bool {
    host_math(counting(short), 255).empty_pops == u64::MAX - left
}

// The count of a loop is.
fn ends_from(short: u64, left: u64) -> bool {
    let s = loop_end(counting(short), &[0; 1]);
    s.loops == 0 && s.empty_pops == u64::MAX - left
}
