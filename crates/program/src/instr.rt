// compile/program.rs: the indices, the operators, and `Instr`.
ghost use Rattle.std.specs.Prelude.{◌≡◌};
ghost use Rattle.program.specs.Choices.{divisor_of, cmp_of, eq_of};
ghost use Rattle.program.specs.Instructions.{cmp_holds, eq_holds, math1};

use numeric::{arithmetic, fpu};

// Each index is a type of its own, so that an index into one table is not taken for one into another.

// Index into the posts; `PLAIN` (0) is the identity.
#[derive(Clone, Copy, Debug, PartialEq, Eq)]
pub struct PostIdx(pub u16);

impl PostIdx {
    // The identity post-op: the plain instruction form.
    pub const PLAIN: PostIdx = PostIdx(0);
}

// Index into the constants.
#[derive(Clone, Copy, Debug, PartialEq, Eq)]
pub struct ConstIdx(pub u32);

// Index into the hashes.
#[derive(Clone, Copy, Debug, PartialEq, Eq)]
pub struct HashIdx(pub u32);

// Index into the names: a cell and a context cell.
#[derive(Clone, Copy, Debug, PartialEq, Eq)]
pub struct NameIdx(pub u32);

// A temp slot.
#[derive(Clone, Copy, Debug, PartialEq, Eq)]
pub struct TempIdx(pub u32);

// An ordered comparison.
#[derive(Clone, Copy, Debug, PartialEq, Eq)]
pub enum CmpOp {
    Lt,
    Le,
    Ge,
    Gt,
}

impl From<u8> for CmpOp {
    ghost from_gives = { λ choice op. op ≡ cmp_of choice };

    #[tactic(auto, unfolding(crate::specs::Choices::cmp_of))]
    fn from(choice: u8) -> CmpOp {
        match choice {
            0 => CmpOp::Lt,
            1 => CmpOp::Le,
            2 => CmpOp::Ge,
            _ => CmpOp::Gt,
        }
    }
}

impl CmpOp {
    // Whether `a <op> b` holds: false when either is NaN.
    pub fn holds(self, a: u32, b: u32) -> bool
        ensures { result ≡ cmp_holds self a b }
    {
        match self {
            CmpOp::Lt => fpu::lt(a, b),
            CmpOp::Le => fpu::le(a, b),
            CmpOp::Ge => fpu::ge(a, b),
            CmpOp::Gt => fpu::gt(a, b),
        }
    }
}

// `==` or `!=`.
#[derive(Clone, Copy, Debug, PartialEq, Eq)]
pub enum EqOp {
    Eq,
    Ne,
}

impl From<u8> for EqOp {
    ghost from_gives = { λ choice op. op ≡ eq_of choice };

    #[tactic(auto, unfolding(crate::specs::Choices::eq_of))]
    fn from(choice: u8) -> EqOp {
        if choice == 0 { EqOp::Eq } else { EqOp::Ne }
    }
}

impl EqOp {
    // The outcome of the test for operands that are `equal` or not.
    pub fn holds(self, equal: bool) -> bool
        ensures { result ≡ eq_holds self equal }
    {
        match self {
            EqOp::Eq => equal,
            EqOp::Ne => !equal,
        }
    }
}

// What the division guard pushes for a divisor `d` that it lets through.
#[derive(Clone, Copy, Debug, PartialEq, Eq)]
pub enum Divisor {
    // `d`.
    Signed,
    // `|d|`.
    Absolute,
}

impl From<u8> for Divisor {
    ghost from_gives = { λ choice divisor. divisor ≡ divisor_of choice };

    #[tactic(auto, unfolding(crate::specs::Choices::divisor_of))]
    fn from(choice: u8) -> Divisor {
        if choice == 0 {
            Divisor::Signed
        } else {
            Divisor::Absolute
        }
    }
}

// A one-argument math function.
#[derive(Clone, Copy, Debug, PartialEq, Eq)]
pub enum Fn1 {
    Floor,
    Ceil,
    Trunc,
    Abs,
}

impl Fn1 {
    // `f(x)`, before the post-op.
    pub fn of(self, x: u32) -> u32
        ensures { result ≡ math1 self x }
    {
        match self {
            Fn1::Floor => fpu::floor(x),
            Fn1::Ceil => fpu::ceil(x),
            Fn1::Trunc => fpu::trunc(x),
            Fn1::Abs => arithmetic::abs(x),
        }
    }
}

// One instruction. An index is of the table that its type names; a `u32` is a target.
#[derive(Clone, Copy)]
pub enum Instr {
    Const(ConstIdx),
    Hash(HashIdx),
    Resource(HashIdx),
    This(PostIdx),
    LoadVar(NameIdx, PostIdx),
    LoadTemp(TempIdx, PostIdx),
    LoadCtx(NameIdx, PostIdx),
    Member(NameIdx, PostIdx),
    StoreVar(NameIdx, PostIdx),
    StoreTemp(TempIdx, PostIdx),
    Push,
    PushConst(ConstIdx),
    Negate(PostIdx),
    Not(PostIdx),
    AddAcc,
    AddLast(PostIdx),
    Mul(PostIdx),
    DivGuard(Divisor, u32),
    Div(PostIdx),
    Mod(PostIdx),
    ModConst(ConstIdx, PostIdx),
    // The argument count.
    HostMath(u8, PostIdx),
    Cmp(CmpOp, PostIdx),
    CmpConst(CmpOp, ConstIdx, PostIdx),
    Eq(EqOp, PostIdx),
    EqConst(EqOp, ConstIdx, PostIdx),
    EqHash(EqOp, HashIdx, PostIdx),
    AndStep(u32, PostIdx),
    OrStep(u32, PostIdx),
    AndLast(PostIdx),
    OrLast(PostIdx),
    Jump(u32),
    JumpIfFalsy(u32),
    Post(PostIdx),
    HandlerPush(u32),
    HandlerPop(u32),
    PointerEnter(u32, PostIdx),
    PointerLeave(PostIdx),
    // A free argument.
    Call(u32, PostIdx),
    LoopBegin(u32),
    LoopCheck(u32),
    LoopEnd,
    EachBegin(u32),
    EachNextVar(NameIdx, u32),
    EachNextTemp(TempIdx, u32),
    Return(PostIdx),
    Halt,
    End,
    Math1(Fn1, PostIdx),
    // No instruction: a position outside the code, or an opcode that no accepted file has. A step matches it with the others;
    // an Option it would take apart first.
    Outside,
}
