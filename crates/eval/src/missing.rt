// vm/eval/missing.rs: missing values, the handlers of `??`, and the pointers.
ghost use Rattle.std.specs.Prelude.{◌≡◌, ◌≤◌, length};
ghost use Rattle.eval.specs.Acts.{missed, member_noticed, handler_push, handler_pop, pointer_enter, pointer_leave};
ghost use Rattle.eval.specs.State.{HasNext, Marking, Acts, Noticed, Reads, Writes, with_handlers};

use crate::handler::Handler;
use crate::machine::{Base, Mark, Outcome, State, count};
use program::instr::PostIdx;
use tables::Program;

// The innermost handler catches, and gives the position to go on at; without one the run stops.
pub fn missing(mut s: State, handlers: &[u64]) -> State
    requires { s.handlers ≤ length handlers.now }
    ensures { Reads (with_handlers handlers.now) missed s result }
{
    if s.handlers <= Base::ROOT.handlers {
        return s.stop(Outcome::MissingValue);
    }
    s.handlers -= 1;
    let h = Handler::from(handlers[s.handlers]);
    s.stack = h.mark.stack.min(s.stack);
    s.loops = h.mark.loops.min(s.loops);
    s.acc = 0;
    s.goto(h.to as usize)
}

// A float has no members: a notice, before the missing value. `step` calls the two in turn: in one function the compiler
// counts the notice last, and asks every step for the outcome (docs/SPEED.md).
pub fn notice_member(mut s: State) -> State
    ensures { Noticed member_noticed s result }
{
    s.notices.missing_member = count(s.notices.missing_member);
    s
}

// A handler at `to`, with the depths to unwind to.
pub fn handler_push(mut s: State, to: u32, handlers: &mut [u64]) -> State
    requires { Marking s handlers.old }
    ensures { let room = length handlers.old in
        Writes (with_handlers handlers.old) (with_handlers handlers.new) (handler_push room to) s result }
{
    if s.handlers < handlers.len() {
        let mark = Mark {
            stack: s.stack,
            loops: s.loops,
        };
        handlers[s.handlers] = u64::from(Handler { to, mark });
        s.handlers += 1;
        s.go_on()
    } else {
        s.stop(Outcome::Full)
    }
}

// The left side of the `??` succeeded: the right side is skipped.
pub fn handler_pop(mut s: State, to: u32) -> State
    ensures { Acts (handler_pop to) s result }
{
    s.handlers = s.handlers.saturating_sub(1);
    s.goto(to as usize)
}

// A float is no pointer's target: the post-op of 0, and the right side is skipped.
pub fn pointer_enter(mut s: State, to: u32, p: PostIdx, program: Program<'_>) -> State
    ensures { Acts (pointer_enter program.entry.posts.now to p.0) s result }
{
    s.acc = program.apply(p, 0);
    s.goto(to as usize)
}

// No pointer was entered: a notice, then the post-op.
pub fn pointer_leave(mut s: State, p: PostIdx, program: Program<'_>) -> State
    requires { HasNext s }
    ensures { Acts (pointer_leave program.entry.posts.now p.0) s result }
{
    s.notices.access_underflow = count(s.notices.access_underflow);
    s.load(program.apply(p, s.acc))
}
