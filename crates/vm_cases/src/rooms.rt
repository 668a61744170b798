// Stores of length 0 and full stores, and step limits.
use crate::code::CaseFile;
use crate::floats::{ONE, TWO};
use crate::op;
use crate::op::{Op, Record, ToRecord};
use crate::report::{Tally, agrees};
use crate::run::Set;
use crate::seen::Seen;
use eval::machine::Outcome;
use vm::Lengths;

pub fn cases(tally: &mut Tally) {
    no_room(tally);
    loop_room(tally);
    ways_without_push(tally);
    filled(tally);
    steps(tally);
    halves(tally);
}

// No limits, and stores of these lengths.
fn room(stack: usize, loops: usize, handlers: usize) -> Set {
    Set::room(Lengths {
        stack,
        loops,
        handlers,
    })
}

fn nothing() -> Set {
    room(0, 0, 0)
}

// Const 2, then one record.
fn two_then(record: Record) -> CaseFile {
    CaseFile::new(&[Op::Const.with(op::TWO), record])
}

fn no_room(tally: &mut Tally) {
    full(tally, "Push, no stack", Op::Push.alone(), nothing());
    let constant = Op::PushConst.with(op::ONE);
    full(tally, "PushConst, no stack", constant, nothing());
    full(tally, "DivGuard, no stack", Op::DivGuard.with(0), nothing());
    let handler = Op::HandlerPush.with(0);
    full(tally, "HandlerPush, no handlers", handler, room(64, 64, 0));
    let done = Seen::done(3, TWO);
    let last = two_then(Op::AddLast.alone());
    let acc = two_then(Op::AddAcc.alone());
    tally.case("AddLast, no stack", &last, nothing(), done.popped(1));
    tally.case("AddAcc, no stack", &acc, nothing(), done);
}

fn full(tally: &mut Tally, name: &str, record: Record, set: Set) {
    let want = Seen::ended(Outcome::Full, 2, TWO);
    tally.case(name, &two_then(record), set, want);
}

fn loop_room(tally: &mut Tally) {
    let begin = Op::LoopBegin.with(5);
    full(tally, "LoopBegin, no stack and no loops", begin, nothing());
    full(tally, "LoopBegin, no stack", begin, room(0, 1, 0));
    full(tally, "LoopBegin, no loops", begin, room(1, 0, 0));
    let want = Seen::done(3, TWO).stack(1, ONE, ONE).looped(1, 1);
    let set = room(1, 1, 0);
    tally.case("LoopBegin, room for one", &two_then(begin), set, want);
}

// DivGuard and LoopBegin ask for room only where they push.
fn ways_without_push(tally: &mut Tally) {
    let guard = [Op::Const.with(op::BELOW), Op::DivGuard.with(3)];
    jumping(tally, "DivGuard jumping, no stack", guard);
    let begin = [Op::Const.with(op::ZERO), Op::LoopBegin.with(3)];
    jumping(tally, "LoopBegin jumping, no room", begin);
}

fn jumping(tally: &mut Tally, name: &str, code: [Record; 2]) {
    tally.case(name, &CaseFile::new(&code), nothing(), Seen::done(3, 0));
}

// Until the store is full.
fn filled(tally: &mut Tally) {
    let push = again(Op::Push);
    let full = |charges| Seen::ended(Outcome::Full, charges, 0);
    let one = full(3).stack(1, 0, 0);
    tally.case("Push, stack of 1", &push, room(1, 0, 0), one);
    let all = full(131201).stack(65600, 0, 0);
    tally.case("Push, stack of 65600", &push, room(65600, 0, 0), all);
    let handlers = full(129).handled(64, 0);
    let name = "HandlerPush, 64 handlers";
    tally.plain(name, &again(Op::HandlerPush), handlers);
}

// One record again and again.
fn again(op: Op) -> CaseFile {
    CaseFile::new(&[op.alone(), Op::Jump.with(0)])
}

fn steps(tally: &mut Tally) {
    let f = CaseFile::new(&[]);
    let done = Seen::done(1, 0);
    let stopped = Seen::ended(Outcome::Steps, 0, 0);
    stepped(tally, "no code, step limit 0", &f, 0, stopped);
    stepped(tally, "no code, step limit 1", &f, 1, done);
    tally.plain("no code, no step limit", &f, done);
}

fn stepped(tally: &mut Tally, name: &str, f: &CaseFile, limit: u64, want: Seen) {
    tally.case(name, f, Set::plain().step_limit(limit), want);
}

// A step limit of 1 forbids the charge between the halves of a PushConst.
fn halves(tally: &mut Tally) {
    let f = pushing();
    for limit in [0, 1, 2, 3, 4] {
        let ok = agrees(&f, Set::plain().step_limit(limit), pushed_under(limit));
        tally.verdict(format_args!("PushConst, step limit {limit}"), ok);
    }
    let most = u64::MAX;
    let whole = pushed_under(most);
    stepped(tally, "PushConst, step limit 2^64 - 1", &f, most, whole);
    tally.plain("PushConst, no step limit", &f, whole);
}

pub fn pushing() -> CaseFile {
    CaseFile::new(&[
        Op::PushConst.with(op::TWO),
        Op::AddLast.alone(),
        Op::End.alone(),
    ])
}

// What PushConst 2, AddLast, End leave under one limit, by its charges.
pub fn pushed_under(limit: u64) -> Seen {
    match limit {
        0 => Seen::ended(Outcome::Steps, 0, 0),
        1 => Seen::ended(Outcome::Steps, 1, 0).stack(1, 0, 0),
        2 => Seen::ended(Outcome::Steps, 2, TWO).stack(1, 0, 0),
        3 => Seen::ended(Outcome::Steps, 3, TWO),
        _ => Seen::done(4, TWO),
    }
}
