// Floor, Ceil, Trunc and Abs through a whole call: what they give is stored, so that its bits show.
use crate::code::CaseFile;
use crate::floats::{NAN, ONE, THREE, TWO};
use crate::op::{Op, ToRecord};
use crate::report::{Tally, agrees};
use crate::run::Set;
use crate::seen::Seen;
use eval::machine::Outcome;

// The four, in the order of a number's results.
const FOUR: [Op; 4] = [Op::Floor, Op::Ceil, Op::Trunc, Op::Abs];

// The constant that the record meets, and the post that it may have.
const N: u8 = 13;

const P: u8 = 1;

const MINUS_ZERO: u32 = 0x8000_0000;

const MINUS_ONE: u32 = 0xBF80_0000;

const MINUS_TWO: u32 = 0xC000_0000;

const MINUS_THREE: u32 = 0xC040_0000;

const HALF: u32 = 0x3F00_0000;

const MINUS_HALF: u32 = 0xBF00_0000;

const ONE_AND_HALF: u32 = 0x3FC0_0000;

const TWO_AND_HALF: u32 = 0x4020_0000;

const INFINITY: u32 = 0x7F80_0000;

const MINUS_INFINITY: u32 = 0xFF80_0000;

// 2^23 - 1, 2^23 - 0.5 and 2^23.
const ONE_BELOW: u32 = 0x4AFF_FFFE;

const HALF_BELOW: u32 = 0x4AFF_FFFF;

const LIMIT: u32 = 0x4B00_0000;

// Posts: a scale and an offset.
const TRIPLE: (u32, u32) = (THREE, HALF);

const DOUBLE: (u32, u32) = (TWO, MINUS_ZERO);

const TURNED: (u32, u32) = (MINUS_TWO, 0x40E0_0000);

pub fn cases(tally: &mut Tally) {
    halves(tally);
    below_one(tally);
    last_halves(tally);
    whole_already(tally);
    nans(tally);
    posts(tally);
    roundings(tally);
    unpaid(tally);
}

// ---- a number's four results

// A zero has the sign of what it was made of, and of Abs it has none.
fn halves(tally: &mut Tally) {
    let minus = [MINUS_ZERO, MINUS_ZERO, MINUS_ZERO, 0];
    four(tally, "whole numbers of +0.0", 0, [0; 4]);
    four(tally, "whole numbers of -0.0", MINUS_ZERO, minus);
    let minus = [MINUS_ONE, MINUS_ZERO, MINUS_ZERO, HALF];
    four(tally, "whole numbers of 0.5", HALF, [0, ONE, 0, HALF]);
    four(tally, "whole numbers of -0.5", MINUS_HALF, minus);
    let plus = [ONE, TWO, ONE, ONE_AND_HALF];
    let minus = [MINUS_TWO, MINUS_ONE, MINUS_ONE, ONE_AND_HALF];
    four(tally, "whole numbers of 1.5", ONE_AND_HALF, plus);
    four(tally, "whole numbers of -1.5", 0xBFC0_0000, minus);
    let plus = [TWO, THREE, TWO, TWO_AND_HALF];
    let minus = [MINUS_THREE, MINUS_TWO, MINUS_TWO, TWO_AND_HALF];
    four(tally, "whole numbers of 2.5", TWO_AND_HALF, plus);
    four(tally, "whole numbers of -2.5", 0xC020_0000, minus);
}

// Magnitudes below 1.
fn below_one(tally: &mut Tally) {
    let numbers = [
        ("the smallest subnormal", 1),
        ("the largest subnormal", 0x007F_FFFF),
        ("the smallest normal number", 0x0080_0000),
        ("the number below 0.5", 0x3EFF_FFFF),
        ("the number below 1", 0x3F7F_FFFF),
    ];
    for (name, number) in numbers {
        let plus = makes(number, [0, ONE, 0, number]);
        let minus = [MINUS_ONE, MINUS_ZERO, MINUS_ZERO, number];
        let ok = plus && makes(number | MINUS_ZERO, minus);
        tally.verdict(format_args!("whole numbers of {name}, both signs"), ok);
    }
}

// About 2^22 and 2^23, where the last halves are.
fn last_halves(tally: &mut Tally) {
    let plus = [0x4A80_0000, 0x4A80_0002, 0x4A80_0000, 0x4A80_0001];
    let minus = [0xCA80_0002, 0xCA80_0000, 0xCA80_0000, 0x4A80_0001];
    four(tally, "whole numbers of 2^22 + 0.5", 0x4A80_0001, plus);
    four(tally, "whole numbers of -2^22 - 0.5", 0xCA80_0001, minus);
    let plus = [ONE_BELOW, LIMIT, ONE_BELOW, HALF_BELOW];
    let minus = [0xCB00_0000, 0xCAFF_FFFE, 0xCAFF_FFFE, HALF_BELOW];
    four(tally, "whole numbers of 2^23 - 0.5", HALF_BELOW, plus);
    four(tally, "whole numbers of 0.5 - 2^23", 0xCAFF_FFFF, minus);
}

// What is whole already, and infinity.
fn whole_already(tally: &mut Tally) {
    let numbers = [
        ("1", ONE),
        ("3", THREE),
        ("2^23 - 1", ONE_BELOW),
        ("2^23", LIMIT),
        ("2^23 + 1", 0x4B00_0001),
        ("2^24", 0x4B80_0000),
        ("the largest number", 0x7F7F_FFFF),
        ("infinity", INFINITY),
    ];
    for (name, number) in numbers {
        let minus = number | MINUS_ZERO;
        let ok = makes(number, [number; 4]) && makes(minus, [minus, minus, minus, number]);
        tally.verdict(format_args!("whole numbers of {name}, both signs"), ok);
    }
}

fn nans(tally: &mut Tally) {
    let quiet = [
        0x7FC0_0000,
        0x7FC0_0001,
        0x7FFF_FFFF,
        0xFFC0_0000,
        0xFFC0_0001,
    ];
    let signalling = [0x7F80_0001, 0x7FBF_FFFF, 0xFF80_0001, 0xFFBF_FFFF];
    let ok = quiet.iter().all(|&n| makes(n, [NAN; 4]));
    tally.verdict("whole numbers of quiet NaNs, both signs", ok);
    let ok = signalling.iter().all(|&n| makes(n, [NAN; 4]));
    tally.verdict("whole numbers of signalling NaNs, both signs", ok);
}

fn four(tally: &mut Tally, name: &str, number: u32, results: [u32; 4]) {
    tally.verdict(name, makes(number, results));
}

// Whether the four give these results of a number: under post 0, and under both identities beside it.
fn makes(number: u32, results: [u32; 4]) -> bool {
    let mut made = FOUR.into_iter().zip(results);
    made.all(|(op, want)| {
        stores(op, 0, number, (ONE, 0), want)
            && stores(op, P, number, (ONE, 0), want)
            && stores(op, P, number, (ONE, MINUS_ZERO), want)
    })
}

// Whether what is left of the record is stored, and stays in the accumulator. `scale` and `offset` are those of post P.
fn stores(op: Op, post: u8, number: u32, (scale, offset): (u32, u32), left: u32) -> bool {
    let code = [
        Op::Const.with(u32::from(N)),
        op.alone().posted(post),
        Op::StoreVar.with(1),
        Op::End.alone(),
    ];
    let file = CaseFile::new(&code).constant(N, number);
    let want = Seen::done(4, left).stored(u64::from(left));
    agrees(&file.post(P, scale, offset), Set::plain(), want)
}

// ---- a post that computes: the product and the sum, each rounded

fn posts(tally: &mut Tally) {
    let floor = stores(Op::Floor, P, MINUS_HALF, TRIPLE, 0xC020_0000);
    let ceil = stores(Op::Ceil, P, MINUS_HALF, TRIPLE, HALF);
    let trunc = stores(Op::Trunc, P, MINUS_HALF, TURNED, 0x40E0_0000);
    let abs = stores(Op::Abs, P, MINUS_HALF, TRIPLE, TWO);
    tally.verdict(
        "whole numbers of -0.5, posted",
        floor && ceil && trunc && abs,
    );
    // A zero's sign is there until the sum, and behind it where the offset has it too.
    let ceil = stores(Op::Ceil, P, MINUS_HALF, DOUBLE, MINUS_ZERO);
    let trunc = stores(Op::Trunc, P, MINUS_HALF, DOUBLE, MINUS_ZERO);
    let floor = stores(Op::Floor, P, HALF, DOUBLE, 0);
    tally.verdict("a whole zero's sign, posted", ceil && trunc && floor);
    let floor = stores(Op::Floor, P, INFINITY, TURNED, MINUS_INFINITY);
    let abs = stores(Op::Abs, P, MINUS_INFINITY, TURNED, MINUS_INFINITY);
    tally.verdict("infinities, posted", floor && abs);
    let nan = FOUR
        .into_iter()
        .all(|op| stores(op, P, 0xFF80_0001, TRIPLE, NAN));
    let made = stores(Op::Floor, P, HALF, (INFINITY, 0), NAN);
    tally.verdict("a NaN, posted and made by a post", nan && made);
}

// 2^23 - 1 and 2^23 - 0.5, times 3: the product is rounded before 0.5 is added.
fn roundings(tally: &mut Tally) {
    let floor = stores(Op::Floor, P, HALF_BELOW, TRIPLE, 0x4BBF_FFFE);
    let trunc = stores(Op::Trunc, P, HALF_BELOW, TRIPLE, 0x4BBF_FFFE);
    let ceil = stores(Op::Ceil, P, HALF_BELOW, TRIPLE, 0x4BC0_0000);
    let abs = stores(Op::Abs, P, HALF_BELOW, TRIPLE, 0x4BBF_FFFF);
    tally.verdict(
        "whole numbers of 2^23 - 0.5, posted",
        floor && trunc && ceil && abs,
    );
}

// ---- the charge

// Under a step limit of 1 the record's charge is forbidden, and the accumulator stays.
fn unpaid(tally: &mut Tally) {
    let ok = FOUR.into_iter().all(|op| {
        let code = [Op::Const.with(u32::from(N)), op.alone()];
        let file = CaseFile::new(&code).constant(N, 0xC020_0000);
        let want = Seen::ended(Outcome::Steps, 1, 0xC020_0000);
        agrees(&file, Set::plain().step_limit(1), want)
    });
    tally.verdict("whole numbers, step limit 1", ok);
}
