// numeric/instr.rs: truthiness, `not`, `negate` and the division guard. `add`, `mul` and `div` are an operation of fpu and a
// post, which `Program::apply` of tables reads.
ghost use Rattle.std.specs.Prelude.{◌≡◌};
ghost use Rattle.numeric.specs.Numbers.{truthy};
ghost use Rattle.numeric.specs.Arithmetic.{notted, negated, divisor, guarded};

use crate::fpu;
use crate::post_op::Post;

// `x != 0.0`: -0.0 is false and NaN is true.
#[tactic(auto, unfolding(crate::specs::Numbers::truthy))]
pub fn truthy(x: u32) -> bool
    ensures { result ≡ truthy x }
{
    fpu::ne(x, 0)
}

// `!x`: the node's 'false' constant when `x` is truthy (NaN included), else its 'true' constant.
pub fn not(x: u32, post: Post) -> u32
    ensures { result ≡ notted x post }
{
    post.select(!truthy(x))
}

// Unary minus: `O - x·S`, or the sign flip `-x` in the plain form, where the negation of +0 is -0.
#[tactic(auto, unfolding(crate::specs::Arithmetic::negated))]
pub fn negate(x: u32, post: Post) -> u32
    ensures { result ≡ negated x post }
{
    let op = post.op;
    if op.is_identity() {
        fpu::enter(fpu::neg(x))
    } else {
        fpu::to_bits(fpu::mul_sub(fpu::of_bits(x), op.scale, op.offset))
    }
}

// The divisor `d` when `signed`, `|d|` otherwise.
fn divisor(signed: bool, d: u32) -> u32
    ensures { result ≡ divisor signed d }
{
    if signed { d } else { fpu::abs(d) }
}

// The division guard: the divisor passes, a NaN too, which enters anew. None where `|d|` is below 2^-23: the division is 0.0,
// with no post-op.
#[tactic(auto, unfolding(crate::specs::Arithmetic::guarded))]
pub fn div_guard(signed: bool, d: u32) -> Option<u32>
    ensures { result ≡ guarded signed d }
{
    if fpu::lt(fpu::abs(d), 0x3400_0000) {
        return None;
    }
    Some(fpu::enter(divisor(signed, d)))
}
