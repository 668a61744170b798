// compile/program.rs: the opcodes, and the instruction that each decodes to.
ghost use Rattle.std.specs.Prelude.{◌≡◌};
ghost use Rattle.program.specs.Instructions.{decoded};
ghost use Rattle.program.specs.Numbers.{number_of};
ghost use Rattle.program.specs.Ranges.{used, bare, posted};

use crate::instr::{
    CmpOp, ConstIdx, Divisor, EqOp, Fn1, HashIdx, Instr, NameIdx, PostIdx, TempIdx,
};

// What byte 0 of a record may be.
#[derive(Clone, Copy, Debug, PartialEq, Eq)]
pub enum Opcode {
    Const = 1,
    Hash = 2,
    Resource = 3,
    This = 4,
    LoadVar = 5,
    LoadTemp = 6,
    LoadCtx = 7,
    Member = 8,
    StoreVar = 9,
    StoreTemp = 10,
    Push = 11,
    PushConst = 12,
    Negate = 13,
    Not = 14,
    AddAcc = 15,
    AddLast = 16,
    Mul = 17,
    DivGuard = 18,
    Div = 19,
    Mod = 20,
    ModConst = 21,
    HostMath = 22,
    Cmp = 23,
    CmpConst = 24,
    Eq = 25,
    EqConst = 26,
    EqHash = 27,
    AndStep = 28,
    OrStep = 29,
    AndLast = 30,
    OrLast = 31,
    Jump = 32,
    JumpIfFalsy = 33,
    Post = 34,
    HandlerPush = 35,
    HandlerPop = 36,
    PointerEnter = 37,
    PointerLeave = 38,
    Call = 39,
    LoopBegin = 40,
    LoopCheck = 41,
    LoopEnd = 42,
    EachBegin = 43,
    EachNextVar = 44,
    EachNextTemp = 45,
    Return = 46,
    Halt = 47,
    End = 48,
    Floor = 49,
    Ceil = 50,
    Trunc = 51,
    Abs = 52,
}

// Its number.
impl From<Opcode> for u8 {
    ghost from_gives = { λ opcode n. n ≡ number_of opcode };

    fn from(opcode: Opcode) -> u8 {
        opcode as u8
    }
}

// The numbers of the opcodes, for patterns. A record holds a byte, Rust has no ranges of an enum, and to read an `Opcode` from a
// byte would take a second match on all of them.
pub const CONST: u8 = Opcode::Const as u8;

pub const HASH: u8 = Opcode::Hash as u8;

pub const RESOURCE: u8 = Opcode::Resource as u8;

pub const THIS: u8 = Opcode::This as u8;

pub const LOAD_VAR: u8 = Opcode::LoadVar as u8;

pub const LOAD_TEMP: u8 = Opcode::LoadTemp as u8;

pub const LOAD_CTX: u8 = Opcode::LoadCtx as u8;

pub const MEMBER: u8 = Opcode::Member as u8;

pub const STORE_VAR: u8 = Opcode::StoreVar as u8;

pub const STORE_TEMP: u8 = Opcode::StoreTemp as u8;

pub const PUSH: u8 = Opcode::Push as u8;

pub const PUSH_CONST: u8 = Opcode::PushConst as u8;

pub const NEGATE: u8 = Opcode::Negate as u8;

pub const NOT: u8 = Opcode::Not as u8;

pub const ADD_ACC: u8 = Opcode::AddAcc as u8;

pub const ADD_LAST: u8 = Opcode::AddLast as u8;

pub const MUL: u8 = Opcode::Mul as u8;

pub const DIV_GUARD: u8 = Opcode::DivGuard as u8;

pub const DIV: u8 = Opcode::Div as u8;

pub const MOD: u8 = Opcode::Mod as u8;

pub const MOD_CONST: u8 = Opcode::ModConst as u8;

pub const HOST_MATH: u8 = Opcode::HostMath as u8;

pub const CMP: u8 = Opcode::Cmp as u8;

pub const CMP_CONST: u8 = Opcode::CmpConst as u8;

pub const EQ: u8 = Opcode::Eq as u8;

pub const EQ_CONST: u8 = Opcode::EqConst as u8;

pub const EQ_HASH: u8 = Opcode::EqHash as u8;

pub const AND_STEP: u8 = Opcode::AndStep as u8;

pub const OR_STEP: u8 = Opcode::OrStep as u8;

pub const AND_LAST: u8 = Opcode::AndLast as u8;

pub const OR_LAST: u8 = Opcode::OrLast as u8;

pub const JUMP: u8 = Opcode::Jump as u8;

pub const JUMP_IF_FALSY: u8 = Opcode::JumpIfFalsy as u8;

pub const POST: u8 = Opcode::Post as u8;

pub const HANDLER_PUSH: u8 = Opcode::HandlerPush as u8;

pub const HANDLER_POP: u8 = Opcode::HandlerPop as u8;

pub const POINTER_ENTER: u8 = Opcode::PointerEnter as u8;

pub const POINTER_LEAVE: u8 = Opcode::PointerLeave as u8;

pub const CALL: u8 = Opcode::Call as u8;

pub const LOOP_BEGIN: u8 = Opcode::LoopBegin as u8;

pub const LOOP_CHECK: u8 = Opcode::LoopCheck as u8;

pub const LOOP_END: u8 = Opcode::LoopEnd as u8;

pub const EACH_BEGIN: u8 = Opcode::EachBegin as u8;

pub const EACH_NEXT_VAR: u8 = Opcode::EachNextVar as u8;

pub const EACH_NEXT_TEMP: u8 = Opcode::EachNextTemp as u8;

pub const RETURN: u8 = Opcode::Return as u8;

pub const HALT: u8 = Opcode::Halt as u8;

pub const END: u8 = Opcode::End as u8;

pub const FLOOR: u8 = Opcode::Floor as u8;

pub const CEIL: u8 = Opcode::Ceil as u8;

pub const TRUNC: u8 = Opcode::Trunc as u8;

pub const ABS: u8 = Opcode::Abs as u8;

// The last opcode.
pub const LAST: u8 = ABS;

// What a part of a record holds: nothing, an index of one of five kinds, a target, or anything.
#[derive(Clone, Copy)]
pub enum Part {
    Unused,
    Const,
    Hash,
    Name,
    Temp,
    Post,
    Target,
    Free,
}

// The parts of an opcode: its argument (bytes 4-7), its bytes 2-3, and its largest choice.
#[derive(Clone, Copy)]
pub struct Parts {
    pub argument: Part,
    pub post: Part,
    pub choice: u16,
}

impl Parts {
    // No part at all.
    pub const NOTHING: Parts = Parts {
        argument: Part::Unused,
        post: Part::Unused,
        choice: 0,
    };

    // An argument, and nothing else.
    pub fn bare(argument: Part) -> Parts
        ensures { result ≡ bare argument }
    {
        Parts {
            argument,
            ..Parts::NOTHING
        }
    }

    // An argument and a post.
    pub fn posted(argument: Part) -> Parts
        ensures { result ≡ posted argument }
    {
        Parts::bare(argument).with(Part::Post)
    }

    // The same, and another part in bytes 2-3.
    pub fn with(self, post: Part) -> Parts
        ensures { result ≡ used self.argument post self.choice }
    {
        Parts { post, ..self }
    }

    // The same, and choices up to the largest.
    pub fn up_to(self, choice: u16) -> Parts
        ensures { result ≡ used self.argument self.post choice }
    {
        Parts { choice, ..self }
    }
}

// The instruction of a record: byte 0 opcode, byte 1 choice, bytes 2-3 post, bytes 4-7 argument. One arm for each opcode, as in
// the table of docs/OPCODES.md: in parts it is no plainer.
#[tactic(auto, using(crate::proofs::Decoding::by_tests, std::proofs::lemmas::Bool::Decides::nat_tests))]
pub fn decode(op: u8, choice: u8, post: u16, arg: u32) -> Instr
    ensures { result ≡ decoded op choice post arg }
{
    match op {
        CONST => Instr::Const(ConstIdx(arg)),
        HASH => Instr::Hash(HashIdx(arg)),
        RESOURCE => Instr::Resource(HashIdx(arg)),
        THIS => Instr::This(PostIdx(post)),
        LOAD_VAR => Instr::LoadVar(NameIdx(arg), PostIdx(post)),
        LOAD_TEMP => Instr::LoadTemp(TempIdx(arg), PostIdx(post)),
        LOAD_CTX => Instr::LoadCtx(NameIdx(arg), PostIdx(post)),
        MEMBER => Instr::Member(NameIdx(arg), PostIdx(post)),
        STORE_VAR => Instr::StoreVar(NameIdx(arg), PostIdx(post)),
        STORE_TEMP => Instr::StoreTemp(TempIdx(arg), PostIdx(post)),
        PUSH => Instr::Push,
        PUSH_CONST => Instr::PushConst(ConstIdx(arg)),
        NEGATE => Instr::Negate(PostIdx(post)),
        NOT => Instr::Not(PostIdx(post)),
        ADD_ACC => Instr::AddAcc,
        ADD_LAST => Instr::AddLast(PostIdx(post)),
        MUL => Instr::Mul(PostIdx(post)),
        DIV_GUARD => Instr::DivGuard(Divisor::from(choice), arg),
        DIV => Instr::Div(PostIdx(post)),
        MOD => Instr::Mod(PostIdx(post)),
        MOD_CONST => Instr::ModConst(ConstIdx(arg), PostIdx(post)),
        HOST_MATH => Instr::HostMath(choice, PostIdx(post)),
        CMP => Instr::Cmp(CmpOp::from(choice), PostIdx(post)),
        CMP_CONST => Instr::CmpConst(CmpOp::from(choice), ConstIdx(arg), PostIdx(post)),
        EQ => Instr::Eq(EqOp::from(choice), PostIdx(post)),
        EQ_CONST => Instr::EqConst(EqOp::from(choice), ConstIdx(arg), PostIdx(post)),
        EQ_HASH => Instr::EqHash(EqOp::from(choice), HashIdx(arg), PostIdx(post)),
        AND_STEP => Instr::AndStep(arg, PostIdx(post)),
        OR_STEP => Instr::OrStep(arg, PostIdx(post)),
        AND_LAST => Instr::AndLast(PostIdx(post)),
        OR_LAST => Instr::OrLast(PostIdx(post)),
        JUMP => Instr::Jump(arg),
        JUMP_IF_FALSY => Instr::JumpIfFalsy(arg),
        POST => Instr::Post(PostIdx(post)),
        HANDLER_PUSH => Instr::HandlerPush(arg),
        HANDLER_POP => Instr::HandlerPop(arg),
        POINTER_ENTER => Instr::PointerEnter(arg, PostIdx(post)),
        POINTER_LEAVE => Instr::PointerLeave(PostIdx(post)),
        CALL => Instr::Call(arg, PostIdx(post)),
        LOOP_BEGIN => Instr::LoopBegin(arg),
        LOOP_CHECK => Instr::LoopCheck(arg),
        LOOP_END => Instr::LoopEnd,
        EACH_BEGIN => Instr::EachBegin(arg),
        EACH_NEXT_VAR => Instr::EachNextVar(NameIdx(post as u32), arg),
        EACH_NEXT_TEMP => Instr::EachNextTemp(TempIdx(post as u32), arg),
        RETURN => Instr::Return(PostIdx(post)),
        HALT => Instr::Halt,
        END => Instr::End,
        FLOOR => Instr::Math1(Fn1::Floor, PostIdx(post)),
        CEIL => Instr::Math1(Fn1::Ceil, PostIdx(post)),
        TRUNC => Instr::Math1(Fn1::Trunc, PostIdx(post)),
        ABS => Instr::Math1(Fn1::Abs, PostIdx(post)),
        _ => Instr::Outside,
    }
}
