// Missing values and handlers: marks that cut, and marks that never lengthen.
use crate::code::CaseFile;
use crate::floats::{THREE, TWO};
use crate::op;
use crate::op::{Op, ToRecord};
use crate::report::Tally;
use crate::seen::Seen;
use eval::machine::Outcome;

pub fn cases(tally: &mut Tally) {
    cuts(tally);
    never_lengthens(tally);
    newest(tally);
    popped(tally);
    unhandled(tally);
    entry_kept(tally);
}

// A mark of one operand, met with two; a mark of no loop, met with one.
fn cuts(tally: &mut Tally) {
    let f = CaseFile::new(&[
        Op::Const.with(op::TWO),
        Op::Push.alone(),
        Op::HandlerPush.with(6),
        Op::PushConst.with(op::ONE),
        Op::LoadTemp.with(0),
        Op::Halt.alone(),
        Op::End.alone(),
    ]);
    let want = Seen::done(7, 0).stack(1, TWO, TWO);
    tally.plain("handler cuts the stack to its mark", &f, want);
    let f = CaseFile::new(&[
        Op::Const.with(op::TWO),
        Op::HandlerPush.with(5),
        Op::LoopBegin.with(4),
        Op::Member.with(0),
        Op::Halt.alone(),
        Op::End.alone(),
    ]);
    let want = Seen::done(5, 0).noticed(1, 0, 0);
    tally.plain("handler cuts the loops to its mark", &f, want);
}

// A mark of two operands, met with one; a mark of one loop, met with none.
fn never_lengthens(tally: &mut Tally) {
    let f = CaseFile::new(&[
        Op::Const.with(op::TWO),
        Op::Push.alone(),
        Op::Push.alone(),
        Op::HandlerPush.with(7),
        Op::AddLast.alone(),
        Op::LoadVar.with(0),
        Op::Halt.alone(),
        Op::End.alone(),
    ]);
    let want = Seen::done(7, 0).stack(1, TWO, TWO);
    tally.plain("handler's mark above the stack", &f, want);
    let f = CaseFile::new(&[
        Op::Const.with(op::TWO),
        Op::LoopBegin.with(6),
        Op::HandlerPush.with(6),
        Op::LoopEnd.alone(),
        Op::LoadVar.with(0),
        Op::Halt.alone(),
        Op::End.alone(),
    ]);
    let want = Seen::done(6, 0);
    tally.plain("handler's mark above the loops", &f, want);
}

fn newest(tally: &mut Tally) {
    let f = CaseFile::new(&[
        Op::HandlerPush.with(4),
        Op::HandlerPush.with(5),
        Op::LoadVar.with(0),
        Op::Halt.alone(),
        Op::Halt.alone(),
        Op::Const.with(op::THREE),
    ]);
    let want = Seen::done(5, THREE).handled(1, 0x4_0000_0000);
    tally.plain("the newest handler catches", &f, want);
}

fn popped(tally: &mut Tally) {
    let f = CaseFile::new(&[
        Op::HandlerPush.with(9),
        Op::HandlerPop.with(3),
        Op::Halt.alone(),
        Op::LoadVar.with(0),
    ]);
    let want = Seen::ended(Outcome::MissingValue, 3, 0);
    tally.plain("HandlerPop pops and jumps", &f, want);
}

// The accumulator stays, and the value is 0.
fn unhandled(tally: &mut Tally) {
    let f = CaseFile::new(&[
        Op::Const.with(op::THREE),
        Op::Push.alone(),
        Op::LoadVar.with(0),
    ]);
    let want = Seen::ended(Outcome::MissingValue, 3, THREE).stack(1, THREE, THREE);
    tally.plain("missing value with no handler", &f, want);
}

// A handler's entry: target, stack mark, loop mark.
fn entry_kept(tally: &mut Tally) {
    let f = CaseFile::new(&[
        Op::Const.with(op::THREE),
        Op::Push.alone(),
        Op::LoopBegin.with(9),
        Op::HandlerPush.with(0xFFFF_FFFF),
    ]);
    let want = Seen::done(5, THREE)
        .stack(2, THREE, TWO)
        .looped(1, 1)
        .handled(1, 0xFFFF_FFFF_0000_2001);
    tally.plain("the entry of a handler", &f, want);
}
