// vm/eval/interp.rs: the instruction loop.
#![tactic(auto)]

ghost use Rattle.std.specs.Prelude.{◌≡◌};
ghost use Rattle.eval.specs.Run.{run_of, fresh};
ghost use Rattle.interp.specs.Moves.{call_of, lent_in, stores_in, SameLent, Sized, Ready, MayCharge, Stepped, Finished, Leaves};

use eval::loops::{each_begin, loop_begin, loop_check, loop_end};
use eval::machine::{Outcome, State};
use eval::missing::{
    handler_pop, handler_push, missing, notice_member, pointer_enter, pointer_leave,
};
use eval::ops;
use eval::slot::Slots;
use program::instr::Instr;
use tables::Program;

// What a run is handed and no record changes.
#[derive(Clone, Copy)]
pub struct Task<'a> {
    pub program: Program<'a>,
    pub context: Slots<'a>,
    pub this: u32,
    // How many charges may be made.
    pub limit: u64,
    pub loop_limit: Option<u32>,
}

// The stores that a call lends and a run writes to. A cell is an entry of `kinds` and one of `values`, as C lends them.
#[derive(Drop)]
pub struct Lent<'a> {
    pub kinds: &'a mut [u8],
    pub values: &'a mut [u64],
    pub stack: &'a mut [u32],
    pub loops: &'a mut [u32],
    pub handlers: &'a mut [u64],
}

// Runs one whole record, with both charges of a PushConst where the limit lets the second be made. The charge of the
// record itself is left to `go`: counted here, before the arms, it would be kept beside the count that it is made from.
// One match, with an arm for each instruction, so that a step makes one jump. Equal arms are not joined: the proof would take
// them apart again.
fn step(s: State, task: Task<'_>, lent: &mut Lent<'_>, temps: &mut [Option<u32>; 8]) -> State
    requires { MayCharge task.limit s (stores_in lent.old temps.old) }
    ensures same_lent { SameLent lent.old lent.new }
    ensures acts { let before = stores_in lent.old temps.old in
        let after = stores_in lent.new temps.new in
        Stepped (call_of task.entry before.lent) task.entry.limit s before result after }
{
    let Task {
        program,
        context,
        this,
        limit,
        loop_limit,
    } = task;
    // Each store under a name: of a field that is passed on to be read, the checker would know the length alone.
    let kinds = &mut *lent.kinds;
    let values = &mut *lent.values;
    let stack = &mut *lent.stack;
    let loops = &mut *lent.loops;
    let handlers = &mut *lent.handlers;
    let instr = program.fetch(s.pos);
    match instr {
        Instr::Const(c) => ops::load_const(s, c, program),
        Instr::Hash(_) => s.stop(Outcome::HandedOver),
        Instr::Resource(_) => s.stop(Outcome::HandedOver),
        Instr::This(p) => ops::load_this(s, p, program, this),
        Instr::LoadVar(n, p) => ops::load_cell(s, n, p, program, Slots { kinds, values }, handlers),
        Instr::LoadTemp(k, p) => ops::load_temp(s, k, p, program, handlers, temps),
        Instr::LoadCtx(n, p) => ops::load_cell(s, n, p, program, context, handlers),
        Instr::Member(_, _) => missing(notice_member(s), handlers),
        Instr::StoreVar(n, p) => ops::store_var(s, n, p, program, kinds, values),
        Instr::StoreTemp(k, p) => ops::store_temp(s, k, p, program, temps),
        Instr::Push => s.push(s.acc, stack),
        Instr::PushConst(c) => ops::push_const(s, c, program, limit, stack),
        Instr::Negate(p) => ops::negate_acc(s, p, program),
        Instr::Not(p) => ops::not_acc(s, p, program),
        Instr::AddAcc => s.add_acc(stack),
        Instr::AddLast(p) => ops::add_last(s, p, program, stack),
        Instr::Mul(p) => ops::mul_last(s, p, program, stack),
        Instr::DivGuard(divisor, end) => ops::guard(s, divisor, end, stack),
        Instr::Div(p) => ops::div_last(s, p, program, stack),
        Instr::Mod(p) => ops::mod_last(s, p, program, stack),
        Instr::ModConst(c, p) => ops::mod_const(s, c, p, program),
        Instr::HostMath(argc, _) => ops::host_math(s, argc),
        Instr::Cmp(op, p) => ops::cmp_last(s, op, p, program, stack),
        Instr::CmpConst(op, c, p) => ops::cmp_const(s, op, c, p, program),
        Instr::Eq(op, p) => ops::eq_last(s, op, p, program, stack),
        Instr::EqConst(op, c, p) => ops::eq_const(s, op, c, p, program),
        Instr::EqHash(op, h, p) => ops::eq_hash(s, op, h, p, program),
        Instr::AndStep(to, p) => ops::and_step(s, to, p, program),
        Instr::OrStep(to, p) => ops::or_step(s, to, p, program),
        Instr::AndLast(p) => ops::last_step(s, p, program),
        Instr::OrLast(p) => ops::last_step(s, p, program),
        Instr::Jump(to) => s.goto(to as usize),
        Instr::JumpIfFalsy(to) => ops::jump_if_falsy(s, to),
        Instr::Post(p) => ops::post_in_place(s, p, program),
        Instr::HandlerPush(to) => handler_push(s, to, handlers),
        Instr::HandlerPop(to) => handler_pop(s, to),
        Instr::PointerEnter(to, p) => pointer_enter(s, to, p, program),
        Instr::PointerLeave(p) => pointer_leave(s, p, program),
        Instr::Call(_, _) => s.stop(Outcome::HandedOver),
        Instr::LoopBegin(exit) => loop_begin(s, exit, stack, loops),
        Instr::LoopCheck(body) => loop_check(s, body, loop_limit, stack, loops),
        Instr::LoopEnd => loop_end(s, stack),
        Instr::EachBegin(exit) => each_begin(s, exit, program),
        Instr::EachNextVar(_, _) => s.stop(Outcome::HandedOver),
        Instr::EachNextTemp(_, _) => s.stop(Outcome::HandedOver),
        Instr::Return(p) => ops::return_acc(s, p, program),
        Instr::Halt => ops::halt(s),
        Instr::End => s.stop(Outcome::Done),
        Instr::Math1(f, p) => ops::math1_acc(s, f, p, program),
        Instr::Outside => s.stop(Outcome::Done),
    }
}

// Records, until one ends the run or no charge is left. No `for`: a record makes one charge or two.
fn go(start: State, task: Task<'_>, lent: &mut Lent<'_>, temps: &mut [Option<u32>; 8]) -> State
    requires { Ready start (stores_in lent.old temps.old) }
    ensures same_lent { SameLent lent.old lent.new }
    ensures ends { let before = stores_in lent.old temps.old in
        let after = stores_in lent.new temps.new in
        Finished (call_of task.entry before.lent) task.entry.limit start before result after }
{
    let mut s = start;
    while s.charges < task.limit {
        s = step(s, task, lent, temps);
        s.charges += 1;
        if !s.outcome.is_running() {
            return s;
        }
    }
    s.stop(Outcome::Steps)
}

// Runs from position 0 until the program ends. What stands in the working stores is not read, and they are left with
// zeros from the final depths on.
pub fn run(task: Task<'_>, lent: &mut Lent<'_>, temps: &mut [Option<u32>; 8]) -> State
    requires { Sized (lent_in lent.old) }
    ensures same_lent { SameLent lent.old lent.new }
    ensures leaves { let before = stores_in lent.old temps.old in
        let after = stores_in lent.new temps.new in
        Leaves (run_of (call_of task.entry before.lent) task.entry.limit (fresh before.lent.cells before.temps)) result after }
{
    let s = go(State::start(), task, lent, temps);
    lent.stack[s.stack..].fill(0);
    lent.loops[s.loops..].fill(0);
    lent.handlers[s.handlers..].fill(0);
    s
}
