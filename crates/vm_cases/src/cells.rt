// Cells that one run leaves and the next one meets; temps that none does.
use crate::code::CaseFile;
use crate::floats::THREE;
use crate::op;
use crate::op::{Op, ToRecord};
use crate::report::Tally;
use crate::run::{Cells, Set, run_on};
use crate::seen::{Seen, number_of};
use eval::machine::Outcome;
use vm::Refusal;

// 3 under post 1, which is 3 x + 0.5.
const POSTED: u32 = 0x4118_0000;

pub fn cases(tally: &mut Tally) {
    met(tally, "a missing cell set by the run before", 0);
    met(tally, "a float set by the run before", 1);
    met(tally, "a hash overwritten by the run before", 2);
    met(tally, "another cell overwritten by the run before", 3);
    let f = CaseFile::new(&[
        Op::Const.with(op::THREE),
        Op::StoreTemp.with(1),
        Op::Const.with(op::ONE),
        Op::LoadTemp.with(1).posted(1),
    ]);
    let want = Seen::done(5, POSTED).kept(THREE);
    tally.plain("StoreTemp, then LoadTemp posted", &f, want);
}

fn met(tally: &mut Tally, name: &str, cell: u32) {
    tally.verdict(name, is_met(cell) == Ok(true));
}

// One run stores 3 in a cell, posting 9.5 to the accumulator; the next one loads it.
fn is_met(cell: u32) -> Result<bool, Refusal> {
    let storing = CaseFile::new(&[Op::Const.with(op::THREE), Op::StoreVar.with(cell).posted(1)]);
    let loading = CaseFile::new(&[Op::LoadVar.with(cell)]);
    let mut cells = Cells::ENTRY;
    let first = run_on(&storing, Set::plain(), 1, &mut cells)?.end;
    let second = run_on(&loading, Set::plain(), 1, &mut cells)?.end;
    Ok(
        first.accumulator == POSTED
            && second.outcome == number_of(Outcome::Done)
            && second.accumulator == THREE,
    )
}
