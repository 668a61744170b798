// vm/eval/loops.rs: counted loops, the loop guard and the operand-stack cap, and `for_each` over no actors.
ghost use Rattle.std.specs.Prelude.{◌≡◌, length};
ghost use Rattle.eval.specs.Acts.{next, less_one, limit_noticed, loop_begin, again, loop_check, loop_end, each_next, each_begin};
ghost use Rattle.eval.specs.State.{HasNext, OnStack, OnLoops, InLoop, Acts, Reads, Writes, with_stack, with_both};

use crate::machine::{Outcome, State};
use numeric::fpu;
use program::instr::ConstIdx;
use program::opcodes::{CONST, END, HALT, STORE_TEMP, STORE_VAR};
use tables::Program;

// The bits of 1.0.
const ONE: u32 = 0x3F80_0000;

// No run goes on with more operands at a loop's check.
const OPERAND_STACK_CAP: usize = 65_536;

// One less.
fn less_one(count: u32) -> u32
    ensures { result ≡ less_one count }
{
    fpu::sub(count, ONE)
}

// Leaves the loop when the count is at most zero. A NaN count is not, and never runs out. The counter lives on the
// operand stack, where the check reads it.
#[inline(always)]
pub fn loop_begin(mut s: State, exit: u32, stack: &mut [u32], loops: &mut [u32]) -> State
    requires { OnLoops s stack.old loops.old }
    ensures { let before = with_both stack.old loops.old in
        let after = with_both stack.new loops.new in
        Writes before after (loop_begin (length stack.old) (length loops.old) exit) s result }
{
    if fpu::le(s.acc, 0) {
        return s.goto(exit as usize);
    }
    if s.stack < stack.len() && s.loops < loops.len() {
        stack[s.stack] = less_one(s.acc);
        loops[s.loops] = 1;
        s.stack += 1;
        s.loops += 1;
        s.go_on()
    } else {
        s.stop(Outcome::Full)
    }
}

// Another pass of the newest loop, or the loop guard's notice, once a run.
fn next_pass(
    s: State,
    body: u32,
    loop_limit: Option<u32>,
    stack: &mut [u32],
    loops: &mut [u32],
) -> State
    requires { InLoop s stack.old loops.old }
    ensures { let before = with_both stack.old loops.old in
        let after = with_both stack.new loops.new in
        Writes before after (again loop_limit body) s result }
{
    let top = s.stack - 1;
    let newest = s.loops - 1;
    if let Some(n) = loop_limit {
        if n <= loops[newest] {
            return budget_spent(s);
        }
        loops[newest] += 1;
    }
    stack[top] = less_one(stack[top]);
    s.goto(body as usize)
}

// Reports once per evaluation, however many loops the guard leaves.
fn budget_spent(mut s: State) -> State
    requires { HasNext s }
    ensures { Acts (λ m. next (limit_noticed m)) s result }
{
    s.notices.loop_limit = s.notices.loop_limit.max(1);
    s.go_on()
}

// Whether the loop makes another pass; the operand-stack cap stops the run.
#[inline(always)]
pub fn loop_check(
    s: State,
    body: u32,
    loop_limit: Option<u32>,
    stack: &mut [u32],
    loops: &mut [u32],
) -> State
    requires { OnLoops s stack.old loops.old }
    ensures { let before = with_both stack.old loops.old in
        let after = with_both stack.new loops.new in
        Writes before after (loop_check loop_limit body) s result }
{
    if OPERAND_STACK_CAP < s.stack {
        return s.stop(Outcome::StackCap);
    }
    if s.stack == 0 || s.loops == 0 || fpu::le(stack[s.stack - 1], 0) {
        return s.go_on();
    }
    next_pass(s, body, loop_limit, stack, loops)
}

// Closes the newest loop and pops one operand: the counter, or one that was left pending above it.
#[inline(always)]
pub fn loop_end(s: State, stack: &[u32]) -> State
    requires { OnStack s stack.now }
    ensures { Reads (with_stack stack.now) loop_end s result }
{
    if s.loops == 0 {
        return s.go_on();
    }
    let mut left = s.take(stack).left;
    left.loops = s.loops - 1;
    left.go_on()
}

// The position past one instruction after a `for_each`: a constant followed by its store counts as one, and the end of
// the program is never skipped.
#[tactic(auto, unfolding(crate::specs::Acts::each_next))]
pub fn skip_one(program: Program<'_>, exit: u32) -> usize
    ensures { result ≡ each_next program.entry.code.now exit }
{
    let at = exit as usize + 1;
    match (program.opcode(at), program.opcode(at + 1)) {
        (0 | END | HALT, _) => at,
        (CONST, STORE_VAR | STORE_TEMP) => at + 2,
        _ => at + 1,
    }
}

// A float is no array of actors: the `for_each` gives its value, the constant at `exit`, and skips one instruction.
#[inline(always)]
#[tactic(auto, unfolding(crate::specs::Acts::each_begin))]
pub fn each_begin(mut s: State, exit: u32, program: Program<'_>) -> State
    ensures { Acts (each_begin program.entry.code.now program.entry.consts.now exit) s result }
{
    s.pos = skip_one(program, exit);
    if program.opcode(exit as usize) == CONST {
        s.acc = program.constant(ConstIdx(program.argument(exit as usize)));
    }
    s
}
