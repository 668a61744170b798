// DivGuard at 2^-23 and just below it, in both signs and both choices.
use crate::code::CaseFile;
use crate::floats::NAN;
use crate::op;
use crate::op::{Op, ToRecord};
use crate::report::{Tally, agrees};
use crate::run::Set;
use crate::seen::Seen;
use program::instr::Divisor;

// 2^-23 and its negative, by their bits.
const GUARD: u32 = 0x3400_0000;

const MINUS_GUARD: u32 = 0xB400_0000;

// The choices: the divisor is pushed as it is, or without its sign.
const SIGNED: u8 = Divisor::Signed as u8;

const ABSOLUTE: u8 = Divisor::Absolute as u8;

pub fn cases(tally: &mut Tally) {
    let positive = pushed(GUARD, GUARD);
    let negative = pushed(MINUS_GUARD, MINUS_GUARD);
    let turned = pushed(MINUS_GUARD, GUARD);
    let jumped = Seen::done(4, 0);
    let cases = [
        ("signed 34000000 pushed", op::GUARD, SIGNED, positive),
        ("absolute 34000000 pushed", op::GUARD, ABSOLUTE, positive),
        ("signed B4000000 pushed", op::MINUS_GUARD, SIGNED, negative),
        (
            "absolute B4000000 pushed",
            op::MINUS_GUARD,
            ABSOLUTE,
            turned,
        ),
        ("signed 33FFFFFF jumps", op::BELOW, SIGNED, jumped),
        ("absolute 33FFFFFF jumps", op::BELOW, ABSOLUTE, jumped),
        ("signed B3FFFFFF jumps", op::MINUS_BELOW, SIGNED, jumped),
        ("absolute B3FFFFFF jumps", op::MINUS_BELOW, ABSOLUTE, jumped),
        ("signed NaN pushed", op::NAN, SIGNED, pushed(NAN, NAN)),
    ];
    for (name, constant, choice, want) in cases {
        let ok = agrees(&guarded(constant, choice), Set::plain(), want);
        tally.verdict(format_args!("DivGuard {name}"), ok);
    }
}

// Const, DivGuard 3, End, Post, End.
fn guarded(constant: u32, choice: u8) -> CaseFile {
    CaseFile::new(&[
        Op::Const.with(constant),
        Op::DivGuard.with(3).choosing(choice),
        Op::End.alone(),
        Op::Post.alone(),
        Op::End.alone(),
    ])
}

fn pushed(acc: u32, top: u32) -> Seen {
    Seen::done(3, acc).stack(1, top, top)
}
