// One NaN: whatever NaN enters is 7FC00000 to a cell, to a temp and to EqHash. What nobody stores to keeps its bits, and so
// does what a host put into a state of its own making, until Negate, DivGuard or one of Floor, Ceil, Trunc and Abs takes it.
ghost use Rattle.std.specs.Prelude.{◌≡◌};

use crate::code::CaseFile;
use crate::floats::{NAN, ONE};
use crate::op;
use crate::op::{Op, Record, ToRecord};
use crate::report::Tally;
use crate::run::{Cells, FRESH, unlimited};
use eval::machine::State;
use eval::ops::{eq_hash, guard, load_temp, math1_acc, negate_acc, store_var};
use eval::slot::{FLOAT, HASH, MISSING, OTHER};
use program::instr::{Divisor, EqOp, Fn1, HashIdx, NameIdx, PostIdx, TempIdx};
use tables::Program;
use vm::Refusal;

// What EqHash gives where it meets its hash.
const TRUE: u32 = ONE;

// Another NaN, where one is enough.
const ANOTHER: u32 = 0xFFC0_0001;

// Quiet and signalling, of both signs.
const PATTERNS: [u32; 9] = [
    0x7FC0_0001,
    0xFFC0_0001,
    0xFFC0_0000,
    0x7F80_0001,
    0xFF80_0001,
    0x7FBF_FFFF,
    0xFFBF_FFFF,
    0x7FFF_FFFF,
    0xFFFF_FFFF,
];

// Constants: the NaN that enters, 7FC00000 and -0.0.
const N: u8 = 13;

const CLEAN: u8 = 14;

const MINUS_ZERO: u8 = 15;

pub fn cases(tally: &mut Tally) {
    constants(tally);
    offsets(tally);
    remainders(tally);
    comparisons(tally);
    loads(tally);
    negations(tally);
    keeps(tally);
    guards(tally);
    copies(tally);
}

// ---- calls: one record makes the NaN enter, and those behind it show what it is

fn constants(tally: &mut Tally) {
    let constant = Op::Const.with(u32::from(N));
    enters(tally, "NaN enters by a constant, Const", op::ZERO, constant);
    let pushed = Op::PushConst.with(u32::from(N));
    enters(
        tally,
        "NaN enters by a constant, PushConst",
        op::ZERO,
        pushed,
    );
    let each = Op::EachBegin.with(6);
    enters(tally, "NaN enters by a constant, EachBegin", op::ZERO, each);
}

// Post 1 has the offset, and false takes it.
fn offsets(tally: &mut Tally) {
    let and = Op::AndLast.alone().posted(1);
    enters(tally, "NaN enters by an offset, AndLast", op::ZERO, and);
    let or = Op::OrLast.alone().posted(1);
    enters(tally, "NaN enters by an offset, OrLast", op::ZERO, or);
    let step = Op::AndStep.with(2).posted(1);
    enters(tally, "NaN enters by an offset, AndStep", op::ZERO, step);
    let not = Op::Not.alone().posted(1);
    enters(tally, "NaN enters by an offset, Not", op::ONE, not);
}

fn remainders(tally: &mut Tally) {
    let record = Op::Mod.alone().posted(1);
    enters(
        tally,
        "NaN enters by an offset, Mod by +0.0",
        op::ZERO,
        record,
    );
    let zero = u32::from(MINUS_ZERO);
    enters(tally, "NaN enters by an offset, Mod by -0.0", zero, record);
}

// The operand that Cmp and Eq take is not there, and counts as +0.0.
fn comparisons(tally: &mut Tally) {
    let cmp = Op::Cmp.alone().posted(1);
    enters(tally, "NaN enters by an offset, Cmp", op::ZERO, cmp);
    let cmp = Op::CmpConst.with(op::ZERO).posted(1);
    enters(tally, "NaN enters by an offset, CmpConst", op::ZERO, cmp);
    let eq = Op::Eq.alone().posted(1);
    enters(tally, "NaN enters by an offset, Eq", op::ONE, eq);
    let eq = Op::EqConst.with(op::ZERO).posted(1);
    enters(tally, "NaN enters by an offset, EqConst", op::ONE, eq);
    let eq = Op::EqHash.with(0).posted(1);
    enters(tally, "NaN enters by an offset, EqHash", op::ONE, eq);
}

// Post 2 is an identity beside post 0, under which a hash counts as its low half.
fn loads(tally: &mut Tally) {
    let var = Op::LoadVar.with(0);
    let context = Op::LoadCtx.with(0);
    let var_hash = Op::LoadVar.with(2).posted(2);
    let context_hash = Op::LoadCtx.with(2).posted(2);
    enters(tally, "NaN enters by this", op::ZERO, Op::This.alone());
    enters(tally, "NaN enters by a cell", op::ZERO, var);
    enters(tally, "NaN enters by a context cell", op::ZERO, context);
    let name = "NaN enters by the low half of a hash, LoadVar";
    enters(tally, name, op::ZERO, var_hash);
    let name = "NaN enters by the low half of a hash, LoadCtx";
    enters(tally, name, op::ZERO, context_hash);
}

// Of 7FC00000, under the identities: its sign is not turned over.
fn negations(tally: &mut Tally) {
    let clean = u32::from(CLEAN);
    let negate = Op::Negate.alone();
    enters(tally, "NaN from Negate, post 0", clean, negate);
    enters(
        tally,
        "NaN from Negate, another (1, 0)",
        clean,
        negate.posted(2),
    );
    enters(tally, "NaN from Negate, (1, -0)", clean, negate.posted(3));
}

fn enters(tally: &mut Tally, name: &str, constant: u32, record: Record) {
    let every = PATTERNS.iter().all(|&n| is_one(n, constant, record));
    tally.verdict(name, every);
}

// Whether the NaN `n` is 7FC00000 behind the record: in cell 1, in temp 0 and to EqHash.
fn is_one(n: u32, constant: u32, record: Record) -> bool {
    let left = called(&file(n, constant, record), n);
    left.is_ok_and(|x| x.value == TRUE && x.cell == u64::from(NAN) && x.temp == NAN)
}

// ---- what is not stored to

fn keeps(tally: &mut Tally) {
    let constant = Op::Const.with(op::ZERO);
    let var = Op::LoadVar.with(0);
    let hash = Op::LoadVar.with(2).posted(2);
    let context = Op::LoadCtx.with(0);
    tally.verdict("NaN stays in a cell, not read", kept(constant));
    tally.verdict("NaN stays in a cell, read", kept(var));
    tally.verdict("NaN stays in the low half of a hash, read", kept(hash));
    tally.verdict("NaN stays in a context cell, read", kept(context));
    let name = "NaN stays in a hash of the file, EqHash after its constant";
    tally.verdict(name, no_number());
}

fn kept(record: Record) -> bool {
    called(&file(ANOTHER, op::ZERO, record), ANOTHER).is_ok_and(|x| x.kept)
}

// The file's hash stays as it is too, and the constant that has its bits is another number: EqHash gives +0.0.
fn no_number() -> bool {
    let f = file(ANOTHER, u32::from(N), Op::EqHash.with(1));
    called(&f, ANOTHER).is_ok_and(|x| x.cell == 0)
}

// ---- the file and the call

// Const c, the record, StoreVar 1, StoreTemp 0, EqHash with 7FC00000, End; and behind them what EachBegin looks for.
fn file(n: u32, constant: u32, record: Record) -> CaseFile {
    holding(
        n,
        &[
            Op::Const.with(constant),
            record,
            Op::StoreVar.with(1),
            Op::StoreTemp.with(0),
            Op::EqHash.with(0),
            Op::End.alone(),
            Op::Const.with(u32::from(N)),
            Op::Push.alone(),
            Op::Jump.with(2),
        ],
    )
}

// A file whose constant, offset and hash are `n`.
fn holding(n: u32, code: &[Record]) -> CaseFile {
    CaseFile::new(code)
        .constant(N, n)
        .constant(CLEAN, NAN)
        .constant(MINUS_ZERO, 0x8000_0000)
        .post(1, TRUE, n)
        .hash(0, u64::from(NAN))
        .hash(1, u64::from(n))
}

// What a call left: the value, cell 1, temp 0, and whether cell 1 was stored to and all else is as it was.
#[derive(Clone, Copy)]
struct Left {
    value: u32,
    cell: u64,
    temp: u32,
    kept: bool,
}

// The call with `n` in `this`, in a float and in the low half of a hash, of the cells and of the context.
fn called(file: &CaseFile, n: u32) -> Result<Left, Refusal> {
    let entry = Cells {
        kinds: [FLOAT, MISSING, HASH, OTHER],
        values: [u64::from(n), 7, 0x1122_3344_0000_0000 + u64::from(n), 9],
    };
    let mut cells = entry;
    let account = vm::call(
        file.as_slice(),
        &mut cells.kinds,
        &mut cells.values,
        entry.slots(),
        unlimited(n),
        &mut [0; 4],
        &mut [0; 1],
        &mut [0; 1],
    )?;
    let cell = cells.values[1];
    let mut stored = entry;
    stored.kinds[1] = FLOAT;
    stored.values[1] = cell;
    Ok(Left {
        value: account.end.value,
        cell,
        temp: account.end.temps.numbers[0],
        kept: cells == stored,
    })
}

// ---- a state that a host made up

fn guards(tally: &mut Tally) {
    let signed = PATTERNS.iter().all(|&n| guarded(Divisor::Signed, n));
    tally.verdict("a host's NaN, DivGuard signed pushes 7FC00000", signed);
    let absolute = PATTERNS.iter().all(|&n| guarded(Divisor::Absolute, n));
    tally.verdict("a host's NaN, DivGuard absolute pushes 7FC00000", absolute);
}

// 7FC00000 is pushed, and the accumulator stays.
fn guarded(divisor: Divisor, n: u32) -> bool {
    let mut stack = [0u32; 1];
    let s = guard(host(n), divisor, 9, &mut stack);
    s.stack == 1 && stack == [NAN] && s.acc == n
}

// An accumulator on empty stacks.
fn host(n: u32) -> State
    ensures { (result.pos ≡ 0) × (result.stack ≡ 0) × (result.handlers ≡ 0) }
{
    State { acc: n, ..FRESH }
}

// What only moves within the machine moves as it is; what Negate and the four make of it is 7FC00000.
fn copies(tally: &mut Tally) {
    tally.verdict("a host's NaN, Push pushes it", pushes(ANOTHER));
    tally.verdict("a host's NaN, StoreVar stores it", stores(ANOTHER));
    tally.verdict("a host's NaN, LoadTemp loads it", loads_temp(ANOTHER));
    tally.verdict("a host's NaN, EqHash meets it", meets(ANOTHER));
    tally.verdict("a host's NaN, Negate gives 7FC00000", negates(ANOTHER));
    let made = PATTERNS.iter().all(|&n| makes_one(n));
    tally.verdict(
        "a host's NaN, Floor, Ceil, Trunc and Abs give 7FC00000",
        made,
    );
}

// A program of no tables: each record that is made up has post 0, which is read nowhere.
const BARE: Program<'static> = Program {
    code: &[],
    consts: &[],
    posts: &[],
    hashes: &[],
};

fn pushes(n: u32) -> bool {
    let mut stack = [0u32; 1];
    let s = host(n);
    let t = s.push(s.acc, &mut stack);
    t.stack == 1 && stack == [n] && t.acc == n
}

fn stores(n: u32) -> bool {
    let mut kinds = [0u8; 1];
    let mut values = [7u64; 1];
    let s = store_var(
        host(n),
        NameIdx(0),
        PostIdx::PLAIN,
        BARE,
        &mut kinds,
        &mut values,
    );
    kinds == [FLOAT] && values == [u64::from(n)] && s.acc == n
}

fn loads_temp(n: u32) -> bool {
    let temps = [Some(n); 8];
    let s = load_temp(host(0), TempIdx(0), PostIdx::PLAIN, BARE, &[0; 1], &temps);
    s.acc == n
}

fn meets(n: u32) -> bool {
    let file = holding(n, &[]);
    let program = Program {
        hashes: file.hash_bytes(),
        ..BARE
    };
    eq_hash(host(n), EqOp::Eq, HashIdx(1), PostIdx::PLAIN, program).acc == TRUE
}

fn negates(n: u32) -> bool {
    negate_acc(host(n), PostIdx::PLAIN, BARE).acc == NAN
}

fn makes_one(n: u32) -> bool {
    let mut four = [Fn1::Floor, Fn1::Ceil, Fn1::Trunc, Fn1::Abs].into_iter();
    four.all(|f| math1_acc(host(n), f, PostIdx::PLAIN, BARE).acc == NAN)
}
