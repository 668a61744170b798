// HostMath, which is withdrawn: 14 of a call and 15 of the converter; and whole calls of converted files, whose accounts are those
// of the old files.
use crate::code::CaseFile;
use crate::floats::{THREE, TWO};
use crate::op;
use crate::op::{Op, Record, ToRecord};
use crate::refusals::{RIGHT, sent_back, writing};
use crate::report::{Tally, agrees};
use crate::run::{LONGEST, Set};
use crate::seen::Seen;
use eval::machine::Outcome;
use file::Refusal;
use vm::Lengths;

pub fn cases(tally: &mut Tally) {
    numbers(tally);
    looked_at(tally);
    looked_behind(tally);
    targets(tally);
    handlers(tally);
    handed_over(tally);
    looped(tally);
    limits(tally);
    stores(tally);
}

fn host_math(count: u8) -> Record {
    Op::HostMath.alone().choosing(count)
}

// Whether a file's call, once it is converted, leaves what is wanted.
pub fn agrees_converted(file: CaseFile, set: Set, want: Seen) -> bool {
    file.converted().is_ok_and(|file| agrees(&file, set, want))
}

fn plain(tally: &mut Tally, name: &str, code: &[Record], want: Seen) {
    let ok = agrees_converted(CaseFile::new(code), Set::plain(), want);
    tally.verdict(name, ok);
}

// ---- 14 and 15

// The file of the refusals, with a HostMath in the place of its End.
pub fn ending_with(count: u8) -> CaseFile {
    writing().byte(171, u8::from(Op::HostMath)).byte(172, count)
}

fn numbers(tally: &mut Tally) {
    for count in [0, 1, 2, 8, 255] {
        let ok = sent_back(ending_with(count).as_slice(), RIGHT, 14);
        tally.verdict(format_args!("HostMath of {count}, refused by 14"), ok);
    }
    for count in [2, 8, 255] {
        let ok = is_kept(ending_with(count));
        tally.verdict(
            format_args!("HostMath of {count}, refused by 15, the bytes kept"),
            ok,
        );
    }
    for count in [0, 1] {
        let want = Seen::done(6, 0)
            .stored(0x4040_0000)
            .stack(1, TWO, TWO)
            .looped(1, 1)
            .handled(1, 0x4_0000_0000);
        let accepted = agrees_converted(ending_with(count), Set::room(LONGEST), want);
        tally.verdict(
            format_args!("HostMath of {count}, converted, is accepted"),
            accepted && is_refused_for_cells(count),
        );
    }
}

// 15, and every byte as it was.
fn is_kept(file: CaseFile) -> bool {
    let mut left = file;
    left.convert() == Err(Refusal::ManyArguments) && left.as_slice() == file.as_slice()
}

// 10 of a converted file.
fn is_refused_for_cells(count: u8) -> bool {
    let mut lent = RIGHT;
    lent.cells.kinds = 5;
    let file = ending_with(count).converted();
    file.is_ok_and(|file| sent_back(file.as_slice(), lent, 10))
}

// ---- EachBegin, which looks at HostMath as at any record that is no Const, store, End or Halt

// At its target, and at the record behind.
fn looked_at(tally: &mut Tally) {
    let three = Op::Const.with(op::THREE);
    let code = [three, Op::EachBegin.with(2), host_math(0), Op::End.alone()];
    plain(
        tally,
        "EachBegin, HostMath at the target",
        &code,
        Seen::done(3, THREE),
    );
    let code = [three, Op::EachBegin.with(2), host_math(1)];
    let name = "EachBegin, HostMath at the target and the end";
    plain(tally, name, &code, Seen::done(3, THREE));
    let [store, push] = [Op::StoreVar.with(1), Op::Push.alone()];
    let code = [Op::EachBegin.with(1), three, host_math(1), store, push];
    let want = pushed(4, THREE).stored(0x4040_0000);
    plain(tally, "EachBegin, HostMath behind the target", &code, want);
}

// Two and three records behind its target, where the run goes on.
fn looked_behind(tally: &mut Tally) {
    let [three, one] = [Op::Const.with(op::THREE), Op::Const.with(op::ONE)];
    let [each, push] = [Op::EachBegin.with(1), Op::Push.alone()];
    let code = [each, three, one, host_math(0), push];
    let name = "EachBegin, Const and HostMath behind the target";
    plain(tally, name, &code, pushed(4, 0));
    let code = [each, three, one, Op::StoreVar.with(1), host_math(1), push];
    let name = "EachBegin, HostMath behind a Const and a store";
    plain(tally, name, &code, pushed(4, 0));
}

// The accumulator is on the stack, and nothing else.
fn pushed(charges: u64, acc: u32) -> Seen {
    Seen::done(charges, acc).stack(1, acc, acc)
}

// ---- where a HostMath is reached

// A record that jumps to it of the constant before.
fn targets(tally: &mut Tally) {
    reached(tally, "Jump to HostMath", Op::Jump, op::THREE);
    reached(tally, "JumpIfFalsy to HostMath", Op::JumpIfFalsy, op::ZERO);
    reached(tally, "AndStep to HostMath", Op::AndStep, op::ZERO);
    reached(tally, "OrStep to HostMath", Op::OrStep, op::THREE);
    reached(tally, "DivGuard to HostMath", Op::DivGuard, op::BELOW);
    reached(tally, "HandlerPop to HostMath", Op::HandlerPop, op::THREE);
    reached(tally, "PointerEnter to HostMath", Op::PointerEnter, op::ONE);
    reached(tally, "LoopBegin to HostMath", Op::LoopBegin, op::ZERO);
}

fn reached(tally: &mut Tally, name: &str, op: Op, constant: u32) {
    let code = [
        Op::Const.with(constant),
        op.with(3),
        Op::Halt.alone(),
        host_math(1),
        Op::StoreVar.with(1),
        Op::End.alone(),
    ];
    plain(tally, name, &code, Seen::done(5, 0).stored(0));
}

fn handlers(tally: &mut Tally) {
    let code = [
        Op::Const.with(op::THREE),
        Op::Push.alone(),
        Op::HandlerPush.with(5),
        Op::Push.alone(),
        Op::LoadVar.with(0),
        host_math(1),
    ];
    let want = Seen::done(7, 0).stack(1, THREE, THREE);
    plain(tally, "a handler at HostMath", &code, want);
    let code = [Op::HandlerPush.with(4), host_math(0), Op::LoadVar.with(0)];
    let want = Seen::done(4, 0);
    plain(tally, "HostMath under a handler", &code, want);
}

// The position is that of the record behind HostMath: no record has moved.
fn handed_over(tally: &mut Tally) {
    let over = Seen::ended(Outcome::HandedOver, 3, 0);
    let code = [Op::Const.with(op::THREE), host_math(1), Op::Hash.alone()];
    plain(tally, "handed over behind HostMath", &code, over.at(2));
    let code = [
        Op::Jump.with(2),
        Op::Halt.alone(),
        host_math(0),
        Op::Call.alone(),
    ];
    plain(
        tally,
        "handed over behind a jump to HostMath",
        &code,
        over.at(3),
    );
}

// Two passes; and an operand that is not there behind HostMath, which takes none of its own.
fn looped(tally: &mut Tally) {
    let code = [
        Op::Const.with(op::TWO),
        Op::LoopBegin.with(5),
        host_math(0),
        Op::LoopCheck.with(2),
        Op::LoopEnd.alone(),
    ];
    plain(tally, "HostMath in a loop", &code, Seen::done(8, 0));
    let code = [host_math(1), Op::AddLast.alone(), host_math(0)];
    let want = Seen::done(4, 0).popped(1);
    plain(tally, "AddLast over 0 between HostMaths", &code, want);
}

// ---- both limits, and stores

fn limits(tally: &mut Tally) {
    let every = (0..9).all(|guest| (0..9).all(|house| under(guest, house)));
    tally.verdict("HostMath, every pair of limits to 8", every);
}

fn under(guest: u64, house: u64) -> bool {
    let file = CaseFile::new(&[
        Op::Const.with(op::TWO),
        Op::PushConst.with(op::THREE),
        host_math(1),
        Op::AddLast.alone(),
        Op::End.alone(),
    ]);
    let set = Set::plain().limits(Some(guest), Some(house));
    agrees_converted(file, set, left_under(guest.min(house)))
}

// What that leaves under one limit, by its charges.
fn left_under(limit: u64) -> Seen {
    let stopped = |acc| Seen::ended(Outcome::Steps, limit, acc);
    match limit {
        0 => stopped(0),
        1 => stopped(TWO),
        2 => stopped(TWO).stack(1, TWO, TWO),
        3 => stopped(THREE).stack(1, TWO, TWO),
        4 => stopped(0).stack(1, TWO, TWO),
        5 => stopped(TWO),
        _ => Seen::done(6, TWO),
    }
}

fn stores(tally: &mut Tally) {
    let file = CaseFile::new(&[Op::Const.with(op::TWO), host_math(1), Op::StoreTemp.with(1)]);
    let none = Set::room(Lengths {
        stack: 0,
        loops: 0,
        handlers: 0,
    });
    let ok = agrees_converted(file, none, Seen::done(4, 0).kept(0));
    tally.verdict("HostMath, no stores, its zero in a temp", ok);
}
