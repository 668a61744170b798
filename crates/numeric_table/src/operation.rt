// The results of a row, in the order of the table: each by the public functions of the crate numeric.
use numeric::fpu::{of_bits, to_bits};
use numeric::post_op::Post;
use numeric::{arithmetic, fpu, instr};

// How many results a row has.
pub const RESULTS: usize = 40;

// A row's operands, each by its bits.
#[derive(Clone, Copy, Default)]
pub struct Operands {
    pub a: u32,
    pub b: u32,
    pub scale: u32,
    pub offset: u32,
}

// What an operation is called, and what it gives.
#[derive(Clone, Copy)]
pub struct Outcome {
    pub name: &'static str,
    pub bits: u32,
}

// Each operation on the operands. One table, since its order is that of a row: in parts it would be put together again.
pub fn outcomes(x: Operands) -> [Outcome; RESULTS] {
    let Operands {
        a,
        b,
        scale,
        offset,
    } = x;
    let post = Post::new(scale, offset);
    let signed = instr::div_guard(true, a);
    let absolute = instr::div_guard(false, a);
    [
        truth("fpu::is_nan", fpu::is_nan(a)),
        bits("fpu::of_bits, to_bits", to_bits(of_bits(a))),
        bits("fpu::enter", fpu::enter(a)),
        bits("fpu::neg", fpu::neg(a)),
        bits("fpu::abs", fpu::abs(a)),
        bits("fpu::add", fpu::add(a, b)),
        bits("fpu::sub", fpu::sub(a, b)),
        bits("fpu::mul", fpu::mul(a, b)),
        bits("fpu::div", fpu::div(a, b)),
        bits("fpu::rem", fpu::rem(a, b)),
        truth("fpu::lt", fpu::lt(a, b)),
        truth("fpu::le", fpu::le(a, b)),
        truth("fpu::gt", fpu::gt(a, b)),
        truth("fpu::ge", fpu::ge(a, b)),
        truth("fpu::eq", fpu::eq(a, b)),
        truth("fpu::ne", fpu::ne(a, b)),
        bits(
            "fpu::mul_add",
            to_bits(fpu::mul_add(of_bits(a), of_bits(scale), of_bits(offset))),
        ),
        bits(
            "fpu::mul_sub",
            to_bits(fpu::mul_sub(of_bits(a), of_bits(scale), of_bits(offset))),
        ),
        truth("PostOp::is_identity", post.op.is_identity()),
        bits("PostOp::apply", post.op.apply(a)),
        bits("PostOp::truthy_value", post.op.truthy_value()),
        bits("Post::falsy_value", post.falsy_value()),
        bits("Post::select true", post.select(true)),
        bits("Post::select false", post.select(false)),
        truth("instr::truthy", instr::truthy(a)),
        bits("instr::not", instr::not(a, post)),
        bits("instr::negate", instr::negate(a, post)),
        bits("fpu::add, posted", post.op.apply(fpu::add(b, a))),
        bits("fpu::mul, posted", post.op.apply(fpu::mul(b, a))),
        bits("fpu::div, posted", post.op.apply(fpu::div(a, b))),
        truth("instr::div_guard signed, passes", signed.is_some()),
        bits("instr::div_guard signed, divisor", signed.unwrap_or(0)),
        truth("instr::div_guard absolute, passes", absolute.is_some()),
        bits("instr::div_guard absolute, divisor", absolute.unwrap_or(0)),
        bits(
            "arithmetic::mod_runtime",
            arithmetic::mod_runtime(a, b, post),
        ),
        bits(
            "arithmetic::mod_const",
            arithmetic::mod_const(a, b, post.op),
        ),
        bits("fpu::floor", fpu::floor(a)),
        bits("fpu::ceil", fpu::ceil(a)),
        bits("fpu::trunc", fpu::trunc(a)),
        bits("arithmetic::abs", arithmetic::abs(a)),
    ]
}

fn bits(name: &'static str, bits: u32) -> Outcome {
    Outcome { name, bits }
}

fn truth(name: &'static str, holds: bool) -> Outcome {
    bits(name, u32::from(holds))
}
