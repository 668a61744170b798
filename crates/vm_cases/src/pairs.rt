// 1 to 9 and 14 come before 10: files that each of them sends back, in calls that 10 would send back too.
use crate::refusals::{NO_FLOAT, RIGHT, sent_back, writing};
use crate::report::Tally;
use crate::withdrawn::ending_with;
use file::Refusal;

// The length of the file of the refusals, which has five records.
const FILE: usize = 179;

pub fn cases(tally: &mut Tally) {
    // Field 5 ends early; its tag is 6; its length is 41; a byte follows it.
    pair(tally, Refusal::EndsEarly, writing().first(FILE - 1));
    pair(tally, Refusal::OtherTag, writing().byte(136, 6).as_slice());
    pair(
        tally,
        Refusal::OtherLength,
        writing().byte(137, 41).as_slice(),
    );
    pair(tally, Refusal::BytesAfter, writing().first(FILE + 1));
    // 9 temps; a scale of post 0 that is not 1.
    pair(tally, Refusal::ManyNames, writing().byte(5, 9).as_slice());
    pair(tally, Refusal::NoIdentity, writing().byte(77, 1).as_slice());
    // Opcode 53; End with a choice; constant 16 of 16.
    pair(tally, Refusal::NoOpcode, writing().byte(171, 53).as_slice());
    pair(tally, Refusal::StrayPart, writing().byte(172, 1).as_slice());
    pair(
        tally,
        Refusal::OutsideTable,
        writing().byte(143, 16).as_slice(),
    );
    pair(tally, Refusal::Withdrawn, ending_with(0).as_slice());
}

// A refusal of a file, with each of the reasons for 10.
fn pair(tally: &mut Tally, refusal: Refusal, file: &[u8]) {
    let mut many = RIGHT;
    many.cells.kinds = 5;
    many.cells.values = 5;
    let mut kind = RIGHT;
    kind.context.kind = 4;
    let mut float = RIGHT;
    float.cells.value = NO_FLOAT;
    let mut handlers = RIGHT;
    handlers.lengths.handlers = 65;
    let reasons = [
        ("a cell too many", many),
        ("kind 4 in the context", kind),
        ("a float of 2^32", float),
        ("65 handlers", handlers),
    ];
    let number = u8::from(refusal);
    for (reason, lent) in reasons {
        let ok = sent_back(file, lent, u32::from(number));
        tally.verdict(format_args!("refused by {number} before 10, {reason}"), ok);
    }
}
