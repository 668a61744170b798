// EachBegin: its three next positions, and the constant at the target.
use crate::code::CaseFile;
use crate::floats::THREE;
use crate::op;
use crate::op::{Op, Record, ToRecord};
use crate::report::Tally;
use crate::seen::Seen;

pub fn cases(tally: &mut Tally) {
    outside(tally);
    at_end(tally);
    past_store(tally);
    past_two(tally);
}

fn outside(tally: &mut Tally) {
    let f = CaseFile::new(&[Op::EachBegin.with(5)]);
    tally.plain("EachBegin, target absent", &f, Seen::done(2, 0));
    let f = CaseFile::new(&[Op::EachBegin.with(0xFFFF_FFFF)]);
    tally.plain("EachBegin, target FFFFFFFF", &f, Seen::done(2, 0));
    let f = CaseFile::new(&[Op::EachBegin.with(1), Op::Const.with(op::THREE)]);
    let want = Seen::done(2, THREE);
    tally.plain("EachBegin, constant at the end of the code", &f, want);
}

// EachBegin 1, then three records, then Push and End.
fn behind(records: [Record; 3]) -> CaseFile {
    let [a, b, c] = records;
    CaseFile::new(&[
        Op::EachBegin.with(1),
        a,
        b,
        c,
        Op::Push.alone(),
        Op::End.alone(),
    ])
}

fn at_end(tally: &mut Tally) {
    let again = Op::Jump.with(1);
    let f = behind([Op::Const.with(op::THREE), Op::End.alone(), again]);
    tally.plain("EachBegin, End behind the target", &f, Seen::done(2, THREE));
    let f = behind([Op::Const.with(op::THREE), Op::Halt.alone(), again]);
    tally.plain("EachBegin, Halt behind the target", &f, Seen::done(2, 0));
    let f = behind([Op::Jump.with(0), Op::End.alone(), again]);
    tally.plain("EachBegin, no constant at the target", &f, Seen::done(2, 0));
}

// The third record is a Const and the next a store: both are passed over.
fn past_store(tally: &mut Tally) {
    let three = Op::Const.with(op::THREE);
    let one = Op::Const.with(op::ONE);
    let f = behind([three, one, Op::StoreVar.with(1)]);
    let name = "EachBegin, Const and StoreVar behind the target";
    tally.plain(name, &f, pushed(3));
    let f = behind([three, one, Op::StoreTemp.with(1)]);
    let name = "EachBegin, Const and StoreTemp behind the target";
    tally.plain(name, &f, pushed(3));
}

fn pushed(charges: u64) -> Seen {
    Seen::done(charges, THREE).stack(1, THREE, THREE)
}

// To record 3, then Push and End.
fn past_two(tally: &mut Tally) {
    let three = Op::Const.with(op::THREE);
    let f = behind([three, Op::Post.alone(), Op::StoreVar.with(1)]);
    let name = "EachBegin, another record behind the target";
    tally.plain(name, &f, pushed(4).stored(0x4040_0000));
    let f = behind([three, Op::PushConst.with(op::ONE), Op::StoreTemp.with(1)]);
    let name = "EachBegin, PushConst and a store behind the target";
    tally.plain(name, &f, pushed(4).kept(THREE));
    let f = behind([three, Op::Const.with(op::ONE), Op::AddAcc.alone()]);
    let name = "EachBegin, Const and no store behind the target";
    tally.plain(name, &f, pushed(4));
}
