// Which parts an opcode uses, decided by the range that it lies in: docs/OPCODES.md, for people who write compilers.
ghost use Rattle.std.specs.Prelude.{◌≡◌};
ghost use Rattle.program.specs.Opcodes.{parts_of_row};
ghost use Rattle.program.specs.Ranges.{parts_of, values, slots, pushes, arithmetic, tests, logic, jumps, calls, loops, ends, math};

use crate::opcodes::*;

// 1 to 3: Const, Hash, Resource.
fn values(op: u8) -> Parts
    ensures { result ≡ values op }
{
    match op {
        CONST => Parts::bare(Part::Const),
        _ => Parts::bare(Part::Hash),
    }
}

// 4 to 10: This, LoadVar, LoadTemp, LoadCtx, Member, StoreVar, StoreTemp.
fn slots(op: u8) -> Parts
    ensures { result ≡ slots op }
{
    match op {
        THIS => Parts::posted(Part::Unused),
        LOAD_TEMP | STORE_TEMP => Parts::posted(Part::Temp),
        _ => Parts::posted(Part::Name),
    }
}

// 11 to 12: Push, PushConst.
fn pushes(op: u8) -> Parts
    ensures { result ≡ pushes op }
{
    match op {
        PUSH_CONST => Parts::bare(Part::Const),
        _ => Parts::NOTHING,
    }
}

// 13 to 22: Negate, Not, AddAcc, AddLast, Mul, DivGuard, Div, Mod, ModConst, HostMath.
fn arithmetic(op: u8) -> Parts
    ensures { result ≡ arithmetic op }
{
    match op {
        ADD_ACC => Parts::NOTHING,
        DIV_GUARD => Parts::bare(Part::Target).up_to(1),
        MOD_CONST => Parts::posted(Part::Const),
        HOST_MATH => Parts::posted(Part::Unused).up_to(255),
        _ => Parts::posted(Part::Unused),
    }
}

// 23 to 27: Cmp, CmpConst, Eq, EqConst, EqHash.
fn tests(op: u8) -> Parts
    ensures { result ≡ tests op }
{
    match op {
        CMP => Parts::posted(Part::Unused).up_to(3),
        CMP_CONST => Parts::posted(Part::Const).up_to(3),
        EQ_CONST => Parts::posted(Part::Const).up_to(1),
        EQ_HASH => Parts::posted(Part::Hash).up_to(1),
        _ => Parts::posted(Part::Unused).up_to(1),
    }
}

// 28 to 31: AndStep, OrStep, AndLast, OrLast.
fn logic(op: u8) -> Parts
    ensures { result ≡ logic op }
{
    match op {
        AND_STEP..=OR_STEP => Parts::posted(Part::Target),
        _ => Parts::posted(Part::Unused),
    }
}

// 32 to 36: Jump, JumpIfFalsy, Post, HandlerPush, HandlerPop.
fn jumps(op: u8) -> Parts
    ensures { result ≡ jumps op }
{
    match op {
        POST => Parts::posted(Part::Unused),
        _ => Parts::bare(Part::Target),
    }
}

// 37 to 39: PointerEnter, PointerLeave, Call.
fn calls(op: u8) -> Parts
    ensures { result ≡ calls op }
{
    match op {
        POINTER_ENTER => Parts::posted(Part::Target),
        POINTER_LEAVE => Parts::posted(Part::Unused),
        _ => Parts::posted(Part::Free),
    }
}

// 40 to 45: LoopBegin, LoopCheck, LoopEnd, EachBegin, EachNextVar, EachNextTemp.
fn loops(op: u8) -> Parts
    ensures { result ≡ loops op }
{
    match op {
        LOOP_END => Parts::NOTHING,
        EACH_NEXT_VAR => Parts::bare(Part::Target).with(Part::Name),
        EACH_NEXT_TEMP => Parts::bare(Part::Target).with(Part::Temp),
        _ => Parts::bare(Part::Target),
    }
}

// 46 to 48: Return, Halt, End.
fn ends(op: u8) -> Parts
    ensures { result ≡ ends op }
{
    match op {
        RETURN => Parts::posted(Part::Unused),
        _ => Parts::NOTHING,
    }
}

// 49 to 52: Floor, Ceil, Trunc, Abs.
fn math() -> Parts
    ensures { result ≡ math }
{
    Parts::posted(Part::Unused)
}

// The parts of an opcode. One that lies in no range, 0 or above the last, has none.
#[tactic(auto, using(crate::proofs::AsBefore::by_rows))]
pub fn parts_of(op: u8) -> Parts
    ensures ranges { result ≡ parts_of op }
    ensures table { result ≡ parts_of_row op }
{
    by_range(op)
}

// What the range says that an opcode lies in.
#[tactic(auto, using(std::proofs::lemmas::Bool::Decides::nat_tests), unfolding(crate::specs::Ranges::parts_of))]
fn by_range(op: u8) -> Parts
    ensures { result ≡ parts_of op }
{
    match op {
        CONST..=RESOURCE => values(op),
        THIS..=STORE_TEMP => slots(op),
        PUSH..=PUSH_CONST => pushes(op),
        NEGATE..=HOST_MATH => arithmetic(op),
        CMP..=EQ_HASH => tests(op),
        AND_STEP..=OR_LAST => logic(op),
        JUMP..=HANDLER_POP => jumps(op),
        POINTER_ENTER..=CALL => calls(op),
        LOOP_BEGIN..=EACH_NEXT_TEMP => loops(op),
        RETURN..=END => ends(op),
        FLOOR..=LAST => math(),
        _ => Parts::NOTHING,
    }
}
