// vm/eval/interp.rs: what the arms of the instruction loop do that load, store and compute.
ghost use Rattle.std.specs.Prelude.{◌≡◌, min, length, get_or, set};
ghost use Rattle.numeric.specs.Numbers.{entered};
ghost use Rattle.eval.specs.Machine.{cells_of, low};
ghost use Rattle.eval.specs.Acts.{load_const, load_this, converted, loaded_from, load_temp, store_var, store_temp};
ghost use Rattle.eval.specs.Acts.{post_in_place, negate_acc, not_acc, add_last, mul_last, div_last, mod_last, mod_const};
ghost use Rattle.eval.specs.Acts.{is_signed, div_guard, host_math, cmp_last, cmp_const, eq_last, eq_const, eq_hash, last_step};
ghost use Rattle.eval.specs.Acts.{and_step, or_step, jump_if_falsy, return_acc, halt, math1_acc};
ghost use Rattle.tables.specs.Tables.{const_at};
ghost use Rattle.eval.specs.State.{Stores, Within, HasNext, OnStack, OnHandlers, Charging, temps_of};
ghost use Rattle.eval.specs.State.{Acts, Reads, Writes, Operates, TookMany, Loads, with_cells, with_stack, with_handlers, with_temps};

use crate::machine::{Outcome, State, count_many};
use crate::missing::missing;
use crate::slot::{Cell, FLOAT, Slots, low};
use numeric::instr::{div_guard, negate, not, truthy};
use numeric::{arithmetic, fpu};
use program::instr::{CmpOp, ConstIdx, Divisor, EqOp, Fn1, HashIdx, NameIdx, PostIdx, TempIdx};
use tables::Program;

// Each takes the state, the parts of its instruction in their order, and then what it works on, in the order of a call. No
// struct holds the state and the program: a state that is handed over in memory makes every step three times as long.
// `#[inline(always)]` stands at what the compiler would otherwise take into `step` too late: among fifty arms it holds each for a
// rare one (docs/SPEED.md).

// `acc = consts[c]`.
pub fn load_const(s: State, c: ConstIdx, program: Program<'_>) -> State
    requires { HasNext s }
    ensures { Acts (load_const program.entry.consts.now c.0) s result }
{
    s.load(program.constant(c))
}

// `acc = post(this)`, of a `this` that entered with the call: entered here, it would take a register from every step
// (docs/SPEED.md).
#[inline(always)]
pub fn load_this(s: State, p: PostIdx, program: Program<'_>, this: u32) -> State
    requires { HasNext s }
    ensures { Acts (load_this this program.entry.posts.now p.0) s result }
{
    s.load(program.apply(p, this))
}

// A cell that is no float hands over under the plain post-op, and counts as `x` under any other.
#[inline(always)]
#[tactic(auto, unfolding(crate::specs::Acts::converted))]
fn convert(s: State, x: u32, p: PostIdx, program: Program<'_>) -> State
    requires { HasNext s }
    ensures { Acts (converted program.entry.posts.now p.0 x) s result }
{
    if p == PostIdx::PLAIN {
        return s.stop(Outcome::HandedOver);
    }
    s.load(program.apply(p, x))
}

// The value at a place, or another where the slice ends before it.
fn get_or<T: Copy + Drop>(s: &[T], i: usize, otherwise: T) -> T
    ensures { result ≡ get_or s.now i otherwise }
{
    s.get(i).copied().unwrap_or(otherwise)
}

// The number that the lower half of a value is.
fn low_bits(value: u64) -> u32
    ensures { result ≡ entered (low value) }
{
    fpu::enter(low(value))
}

// `acc = post(cell n)`, of the variables and of the context. Inlined in both arms: a state that is handed over in memory
// makes every step three times as long (docs/SPEED.md).
#[inline(always)]
#[tactic(auto, unfolding(crate::specs::Acts::loaded_from))]
pub fn load_cell(
    s: State,
    n: NameIdx,
    p: PostIdx,
    program: Program<'_>,
    cells: Slots<'_>,
    handlers: &[u64],
) -> State
    requires { OnHandlers s handlers.now }
    ensures { (
        let cells = cells_of cells.entry.kinds.now cells.entry.values.now in
        Reads (with_handlers handlers.now) (loaded_from cells program.entry.posts.now n.0 p.0) s result
        ) }
{
    let i = n.0 as usize;
    let value = get_or(cells.values, i, 0);
    match Cell::read(get_or(cells.kinds, i, 0), value) {
        Cell::Missing => missing(s, handlers),
        Cell::Float(x) => s.load(program.apply(p, fpu::to_bits(x))),
        Cell::Hash(h) => convert(s, low_bits(h), p, program),
        Cell::Other => convert(s, 0, p, program),
    }
}

// `acc = post(temp t)`.
#[inline(always)]
pub fn load_temp(
    s: State,
    t: TempIdx,
    p: PostIdx,
    program: Program<'_>,
    handlers: &[u64],
    temps: &[Option<u32>; 8],
) -> State
    requires { OnHandlers s handlers.now }
    ensures { Reads (λ x. with_handlers handlers.now (with_temps (temps_of temps.now) x))
        (load_temp program.entry.posts.now t.0 p.0) s result }
{
    match get_or(temps, t.0 as usize, None) {
        Some(number) => s.load(program.apply(p, number)),
        None => missing(s, handlers),
    }
}

// Puts a value at a place; past the end there is none. By its index: what stands after a slice's `get_mut` is not known.
fn put<T: Copy + Drop>(s: &mut [T], i: usize, v: T)
    ensures { s.new ≡ set s.old i v }
{
    if i < s.len() {
        s[i] = v;
    }
}

// Stores the raw accumulator, then applies the post-op to it. Kinds and values are apart, as C lends them.
#[inline(always)]
pub fn store_var(
    s: State,
    n: NameIdx,
    p: PostIdx,
    program: Program<'_>,
    kinds: &mut [u8],
    values: &mut [u64],
) -> State
    requires { HasNext s }
    ensures { (
        let before = cells_of kinds.old values.old in
        let after = cells_of kinds.new values.new in
        Writes (with_cells before) (with_cells after) (store_var program.entry.posts.now n.0 p.0) s result
        ) }
{
    let i = n.0 as usize;
    put(kinds, i, FLOAT);
    put(values, i, s.acc as u64);
    s.load(program.apply(p, s.acc))
}

// The same for a temp.
#[inline(always)]
pub fn store_temp(
    s: State,
    t: TempIdx,
    p: PostIdx,
    program: Program<'_>,
    temps: &mut [Option<u32>; 8],
) -> State
    requires { HasNext s }
    ensures { (
        let before = temps_of temps.old in
        let after = temps_of temps.new in
        Writes (with_temps before) (with_temps after) (store_temp program.entry.posts.now t.0 p.0) s result
        ) }
{
    put(temps, t.0 as usize, Some(s.acc));
    s.load(program.apply(p, s.acc))
}

// `Push` then `Const` in one dispatch: the second charge falls due between the halves. The first is made once the record
// has acted (see `interp::go`). The constant is read before the second falls due, and taken after (docs/SPEED.md).
#[inline(always)]
pub fn push_const(
    mut s: State,
    c: ConstIdx,
    program: Program<'_>,
    limit: u64,
    stack: &mut [u32],
) -> State
    requires { Charging limit s stack.old }
    ensures { let v = const_at program.entry.consts.now c.0 in
        let before = with_stack stack.old in
        let after = with_stack stack.new in
        (x : Stores) → Within s (before x) → Loads limit v s (before x) result (after x) }
{
    if s.stack < stack.len() {
        stack[s.stack] = s.acc;
        s.stack += 1;
        let v = program.constant(c);
        let n = s.charges + 1;
        if n < limit {
            s.charges = n;
            s.load(v)
        } else {
            s.stop(Outcome::Steps)
        }
    } else {
        s.stop(Outcome::Full)
    }
}

// `acc = O - acc·S`.
pub fn negate_acc(s: State, p: PostIdx, program: Program<'_>) -> State
    requires { HasNext s }
    ensures { Acts (negate_acc program.entry.posts.now p.0) s result }
{
    if p == PostIdx::PLAIN {
        return s.load(fpu::enter(fpu::neg(s.acc)));
    }
    s.load(negate(s.acc, program.post(p)))
}

// `acc = acc ? F : T`.
#[inline(always)]
pub fn not_acc(s: State, p: PostIdx, program: Program<'_>) -> State
    requires { HasNext s }
    ensures { Acts (not_acc program.entry.posts.now p.0) s result }
{
    s.load(not(s.acc, program.post(p)))
}

// Takes an operand, and loads the post of what an operation gives of it and the accumulator.
#[inline(always)]
fn operate<F: FnOnce(u32, u32) -> u32>(
    s: State,
    p: PostIdx,
    program: Program<'_>,
    stack: &[u32],
    op: F,
) -> State
    requires within { OnStack s stack.now }
    requires callable { F.IsAlwaysCallable op }
    ensures { Operates (F.post op) stack.now program.entry.posts.now p.0 s result }
{
    let t = s.take(stack);
    let number = op(t.number.unwrap_or(0), s.acc);
    t.left.load(program.apply(p, number))
}

// `acc = post(pop + acc)`.
#[inline(always)]
pub fn add_last(s: State, p: PostIdx, program: Program<'_>, stack: &[u32]) -> State
    requires { OnStack s stack.now }
    ensures { Reads (with_stack stack.now) (add_last program.entry.posts.now p.0) s result }
{
    operate(s, p, program, stack, fpu::add)
}

// `acc = post(pop · acc)`.
#[inline(always)]
pub fn mul_last(s: State, p: PostIdx, program: Program<'_>, stack: &[u32]) -> State
    requires { OnStack s stack.now }
    ensures { Reads (with_stack stack.now) (mul_last program.entry.posts.now p.0) s result }
{
    operate(s, p, program, stack, fpu::mul)
}

// `acc = post(acc / pop)`.
#[inline(always)]
pub fn div_last(s: State, p: PostIdx, program: Program<'_>, stack: &[u32]) -> State
    requires { OnStack s stack.now }
    ensures { Reads (with_stack stack.now) (div_last program.entry.posts.now p.0) s result }
{
    operate(s, p, program, stack, |popped, acc| fpu::div(acc, popped))
}

// Mod, Cmp and Eq take their operands themselves: their results are made of the post, and a closure that holds the program has
// no contract but one written out. Cmp and Eq stay two: a trait over CmpOp and EqOp would be longer than what it joins.

// `acc = math.mod(pop, acc)` with a run-time divisor.
#[inline(always)]
pub fn mod_last(s: State, p: PostIdx, program: Program<'_>, stack: &[u32]) -> State
    requires { OnStack s stack.now }
    ensures { Reads (with_stack stack.now) (mod_last program.entry.posts.now p.0) s result }
{
    let t = s.take(stack);
    let remainder = arithmetic::mod_runtime(t.number.unwrap_or(0), s.acc, program.post(p));
    t.left.load(remainder)
}

// `acc = math.mod(acc, consts[c])`, a literal divisor.
#[inline(always)]
pub fn mod_const(s: State, c: ConstIdx, p: PostIdx, program: Program<'_>) -> State
    requires { HasNext s }
    ensures { Acts (mod_const program.entry.consts.now c.0 program.entry.posts.now p.0) s result }
{
    s.load(arithmetic::mod_const(s.acc, program.constant(c), program.post(p).op))
}

// The division guard on the divisor in `acc`.
#[inline(always)]
pub fn guard(mut s: State, divisor: Divisor, end: u32, stack: &mut [u32]) -> State
    requires { OnStack s stack.old }
    ensures { let room = length stack.old in
        Writes (with_stack stack.old) (with_stack stack.new) (div_guard room divisor end) s result }
{
    match div_guard(is_signed(divisor), s.acc) {
        None => {
            s.acc = 0;
            s.goto(end as usize)
        }
        Some(d) => s.push(d, stack),
    }
}

fn is_signed(divisor: Divisor) -> bool
    ensures { result ≡ is_signed divisor }
{
    divisor == Divisor::Signed
}

// A host math call with no catalog: the operands are popped, at most 8 arguments but for the last, which is the
// accumulator, and the result is 0.
pub fn host_math(s: State, argc: u8) -> State
    requires { HasNext s }
    ensures { Acts (host_math argc) s result }
{
    take_many(s, argc.min(8).saturating_sub(1) as usize).load(0)
}

// Takes `k` operands; each that is not there is counted. The form matters for every step's time (docs/SPEED.md).
fn take_many(mut s: State, k: usize) -> State
    ensures { TookMany k s result }
{
    if s.stack < k {
        s.empty_pops = count_many(s.empty_pops, k - s.stack);
        s.stack = 0;
        return s;
    }
    s.stack -= k;
    s
}

// `acc = pop <op> acc ? T : F`.
#[inline(always)]
pub fn cmp_last(s: State, op: CmpOp, p: PostIdx, program: Program<'_>, stack: &[u32]) -> State
    requires { OnStack s stack.now }
    ensures { Reads (with_stack stack.now) (cmp_last op program.entry.posts.now p.0) s result }
{
    let t = s.take(stack);
    let holds = op.holds(t.number.unwrap_or(0), s.acc);
    t.left.load(program.post(p).select(holds))
}

// `acc = acc <op> consts[c] ? T : F`.
#[inline(always)]
pub fn cmp_const(s: State, op: CmpOp, c: ConstIdx, p: PostIdx, program: Program<'_>) -> State
    requires { HasNext s }
    ensures { Acts (cmp_const op program.entry.consts.now c.0 program.entry.posts.now p.0) s result }
{
    let holds = op.holds(s.acc, program.constant(c));
    s.load(program.post(p).select(holds))
}

// `acc = pop == acc ? T : F`, or `!=`.
#[inline(always)]
pub fn eq_last(s: State, op: EqOp, p: PostIdx, program: Program<'_>, stack: &[u32]) -> State
    requires { OnStack s stack.now }
    ensures { Reads (with_stack stack.now) (eq_last op program.entry.posts.now p.0) s result }
{
    let t = s.take(stack);
    let holds = op.holds(fpu::eq(t.number.unwrap_or(0), s.acc));
    t.left.load(program.post(p).select(holds))
}

// `acc = acc == consts[c] ? T : F`, or `!=`.
#[inline(always)]
pub fn eq_const(s: State, op: EqOp, c: ConstIdx, p: PostIdx, program: Program<'_>) -> State
    requires { HasNext s }
    ensures { Acts (eq_const op program.entry.consts.now c.0 program.entry.posts.now p.0) s result }
{
    let holds = op.holds(fpu::eq(s.acc, program.constant(c)));
    s.load(program.post(p).select(holds))
}

// The accumulator's bits, zero-extended, against a hash.
#[inline(always)]
pub fn eq_hash(s: State, op: EqOp, h: HashIdx, p: PostIdx, program: Program<'_>) -> State
    requires { HasNext s }
    ensures { Acts (eq_hash op program.entry.hashes.now h.0 program.entry.posts.now p.0) s result }
{
    let holds = op.holds(s.acc as u64 == program.hash(h));
    s.load(program.post(p).select(holds))
}

// `&&` operand: falsy gives `F` and jumps.
#[tactic(auto, unfolding(crate::specs::Acts::and_step))]
pub fn and_step(mut s: State, to: u32, p: PostIdx, program: Program<'_>) -> State
    requires { HasNext s }
    ensures { Acts (and_step program.entry.posts.now to p.0) s result }
{
    if truthy(s.acc) {
        return s.go_on();
    }
    s.acc = program.post(p).falsy_value();
    s.goto(to as usize)
}

// `||` operand: truthy gives `T` and jumps.
#[inline(always)]
#[tactic(auto, unfolding(crate::specs::Acts::or_step))]
pub fn or_step(mut s: State, to: u32, p: PostIdx, program: Program<'_>) -> State
    requires { HasNext s }
    ensures { Acts (or_step program.entry.posts.now to p.0) s result }
{
    if truthy(s.acc) {
        s.acc = program.post(p).op.truthy_value();
        return s.goto(to as usize);
    }
    s.go_on()
}

// Last `&&` or `||` operand: `acc = acc ? T : F`.
#[inline(always)]
pub fn last_step(s: State, p: PostIdx, program: Program<'_>) -> State
    requires { HasNext s }
    ensures { Acts (last_step program.entry.posts.now p.0) s result }
{
    s.load(program.post(p).select(truthy(s.acc)))
}

// Falsy `acc` jumps.
#[tactic(auto, unfolding(crate::specs::Acts::jump_if_falsy))]
pub fn jump_if_falsy(s: State, to: u32) -> State
    requires { HasNext s }
    ensures { Acts (jump_if_falsy to) s result }
{
    if truthy(s.acc) {
        return s.go_on();
    }
    s.goto(to as usize)
}

// `acc = post(acc)`.
pub fn post_in_place(s: State, p: PostIdx, program: Program<'_>) -> State
    requires { HasNext s }
    ensures { Acts (post_in_place program.entry.posts.now p.0) s result }
{
    s.load(program.apply(p, s.acc))
}

// `return`: `acc = post(acc)`, and the run ends.
#[inline(always)]
pub fn return_acc(mut s: State, p: PostIdx, program: Program<'_>) -> State
    ensures { Acts (return_acc program.entry.posts.now p.0) s result }
{
    s.acc = program.apply(p, s.acc);
    s.stop(Outcome::Done)
}

// The run ends with 0.
pub fn halt(mut s: State) -> State
    ensures { Acts halt s result }
{
    s.acc = 0;
    s.stop(Outcome::Done)
}

// `acc = post(f(acc))`.
pub fn math1_acc(s: State, f: Fn1, p: PostIdx, program: Program<'_>) -> State
    requires { HasNext s }
    ensures { Acts (math1_acc f program.entry.posts.now p.0) s result }
{
    s.load(program.apply(p, f.of(s.acc)))
}
