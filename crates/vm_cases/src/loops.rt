// LoopBegin, LoopCheck and LoopEnd: the stack cap, the loop limit, the count.
use crate::code::CaseFile;
use crate::op::{Op, ToRecord};
use crate::report::Tally;
use crate::run::{LONGEST, Set};
use crate::seen::Seen;
use crate::{floats, op};
use eval::machine::Outcome;

pub fn cases(tally: &mut Tally) {
    cap(tally);
    cap_in_loop(tally);
    limits(tally);
    count_kept(tally);
    notice_once(tally);
}

fn wide_room() -> Set {
    Set::room(LONGEST)
}

// Pushes and checks until the cap, with no loop open.
fn cap(tally: &mut Tally) {
    let f = CaseFile::new(&[Op::Push.alone(), Op::LoopCheck.with(5), Op::Jump.with(0)]);
    let stopped = Seen::ended(Outcome::StackCap, 196610, 0).stack(65537, 0, 0);
    let no_turn = wide_room().loop_limit(0);
    on(tally, "LoopCheck at depth 65536 goes on", &f, 196608, 65536);
    tally.case("LoopCheck at depth 65537 stops", &f, wide_room(), stopped);
    tally.case(
        "LoopCheck at depth 65537, loop limit 0",
        &f,
        no_turn,
        stopped,
    );
    on(
        tally,
        "LoopCheck at depth 65537, no charge left",
        &f,
        196609,
        65537,
    );
}

fn on(tally: &mut Tally, name: &str, f: &CaseFile, charges: u64, depth: u64) {
    let want = Seen::ended(Outcome::Steps, charges, 0).stack(depth, 0, 0);
    tally.case(name, f, wide_room().step_limit(charges), want);
}

// The same in an open loop, whose count is a NaN.
fn cap_in_loop(tally: &mut Tally) {
    let f = CaseFile::new(&[
        Op::Const.with(op::NAN),
        Op::LoopBegin.with(9),
        Op::Push.alone(),
        Op::LoopCheck.with(2),
    ]);
    let on = Seen::ended(Outcome::Steps, 131072, floats::NAN)
        .stack(65536, floats::NAN, floats::NAN)
        .looped(1, 1);
    let stopped = Seen::ended(Outcome::StackCap, 131074, floats::NAN)
        .stack(65537, floats::NAN, floats::NAN)
        .looped(1, 1);
    let limited = wide_room().step_limit(131072);
    tally.case("LoopCheck in a loop at depth 65536", &f, limited, on);
    tally.case(
        "LoopCheck in a loop at depth 65537",
        &f,
        wide_room(),
        stopped,
    );
}

// A counted loop with a Post for its body, but for what follows it.
fn turns(constant: u32) -> CaseFile {
    CaseFile::new(&[
        Op::Const.with(constant),
        Op::LoopBegin.with(5),
        Op::Post.alone(),
        Op::LoopCheck.with(2),
        Op::LoopEnd.alone(),
    ])
}

fn limits(tally: &mut Tally) {
    let three = turns(op::THREE).then(Op::End.alone());
    let nan = turns(op::NAN).then(Op::End.alone());
    let none = turns(op::ZERO).then(Op::End.alone());
    let done = |charges| Seen::done(charges, floats::THREE);
    tally.plain("loop limit none", &three, done(10));
    limited(
        tally,
        "loop limit 0 runs one turn",
        &three,
        0,
        done(6).noticed(0, 0, 1),
    );
    limited(tally, "loop limit 1", &three, 1, done(6).noticed(0, 0, 1));
    limited(tally, "loop limit 2", &three, 2, done(8).noticed(0, 0, 1));
    limited(tally, "loop limit 3 is not met", &three, 3, done(10));
    let want = Seen::done(8, floats::NAN).noticed(0, 0, 1);
    limited(tally, "loop limit 2, count NaN", &nan, 2, want);
    tally.plain("count 0 runs no turn", &none, Seen::done(3, 0));
}

fn limited(tally: &mut Tally, name: &str, f: &CaseFile, loop_limit: u32, want: Seen) {
    tally.case(name, f, Set::plain().loop_limit(loop_limit), want);
}

// The count rises only under a limit; the top falls either way.
fn count_kept(tally: &mut Tally) {
    let f = CaseFile::new(&[
        Op::Const.with(op::THREE),
        Op::LoopBegin.with(4),
        Op::LoopCheck.with(3),
        Op::End.alone(),
    ]);
    let want = Seen::done(4, floats::THREE).stack(1, floats::ONE, floats::ONE);
    tally.plain("loop count without a limit", &f, want.looped(1, 1));
    limited(tally, "loop count under a limit", &f, 5, want.looped(1, 2));
}

// Two loops that meet the limit give one notice.
fn notice_once(tally: &mut Tally) {
    let f = turns(op::THREE)
        .then(Op::LoopBegin.with(9))
        .then(Op::Post.alone())
        .then(Op::LoopCheck.with(6))
        .then(Op::LoopEnd.alone())
        .then(Op::End.alone());
    let want = Seen::done(10, floats::THREE).noticed(0, 0, 1);
    limited(tally, "loop notice once a run", &f, 0, want);
}
