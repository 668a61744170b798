// numeric/fpu.rs and arith.rs: the primitive operations every formula is built from. Each is rounded on its own, and
// the platform is one whose fpu() is None, so that arith.rs adds nothing to fpu.rs.
ghost use Rattle.std.specs.Prelude.{◌≡◌, ◌≤◌, ◌<◌, ◌-◌, ◌/◌, ◌^◌, true, IsTrue, IsFalse, Float};
ghost use Rattle.std.specs.Float.{binary32};
ghost use Rattle.std.specs.Float.Ieee.{nan_bits};
ghost use Rattle.numeric.specs.Numbers.{float, bits, one_nan, either_nan, entered, negative, magnitude, add, sub, mul, div, rem, lt, le, gt, ge, eq, ne};
ghost use Rattle.numeric.specs.Arithmetic.{mul_add, mul_sub};
ghost use Rattle.numeric.specs.Whole.{whole, floored, ceiled, truncated};

// The NaN that an operation makes.
pub const NAN: u32 = 0x7FC0_0000;

// The sign's bit.
const SIGN: u32 = 0x8000_0000;

// 1.0.
const ONE: u32 = 0x3F80_0000;

// 2^23: from there on a magnitude has no digit below the point.
const WHOLE: u32 = 0x4B00_0000;

// Whether a pattern is a NaN's.
#[tactic(auto, using(crate::proofs::Nans::above))]
pub fn is_nan(n: u32) -> bool
    ensures { result ≡ nan_bits binary32 n }
{
    0x7F80_0000 < abs(n)
}

// The float of a pattern. `f32::from_bits` is not defined at a NaN's, so those give NAN by name.
#[tactic(auto, using(crate::proofs::Nans::nan_pattern, crate::proofs::Nans::nan_by_name))]
pub fn of_bits(n: u32) -> f32
    ensures { result ≡ float n }
{
    if is_nan(n) {
        return f32::NAN;
    }
    f32::from_bits(n)
}

// The pattern of a float that an operation made: 7FC00000 for a NaN.
#[tactic(auto, using(crate::proofs::Nans::written_nan))]
pub fn to_bits(x: f32) -> u32
    ensures { result ≡ bits x }
{
    if x.is_nan() {
        return NAN;
    }
    x.to_bits()
}

// A number that enters the machine: every NaN as the one that an operation makes.
#[tactic(auto, unfolding(crate::specs::Numbers::entered))]
pub fn enter(n: u32) -> u32
    ensures { result ≡ entered n }
{
    if is_nan(n) {
        return NAN;
    }
    n
}

// `-n`: the sign turned over, a NaN's too, so that the negation of +0.0 is -0.0.
#[tactic(auto, using(crate::proofs::Signs::turned_over))]
pub fn neg(n: u32) -> u32
    ensures { result ≡ negative n }
{
    n ^ SIGN
}

// `|n|`: the sign cleared, a NaN's too.
pub fn abs(n: u32) -> u32
    ensures { result ≡ magnitude n }
{
    n & !SIGN
}

// Whether one of two patterns is a NaN's.
fn either_nan(a: u32, b: u32) -> bool
    ensures { result ≡ either_nan a b }
{
    is_nan(a) || is_nan(b)
}

// An operation on two numbers, in the pattern of its result. A NaN is looked for before both are read as floats: two `of_bits`
// become a masked select on the accumulator's way (docs/SPEED.md).
fn on_numbers<F: FnOnce(f32, f32) -> f32>(a: u32, b: u32, op: F) -> u32
    requires { F.IsAlwaysCallable op }
    ensures nan { IsTrue (either_nan a b) → result ≡ one_nan }
    ensures numbers { IsFalse (either_nan a b) → (x : Float) × F.post op (float a) (float b) x × (result ≡ bits x) }
{
    if either_nan(a, b) {
        return NAN;
    }
    to_bits(op(f32::from_bits(a), f32::from_bits(b)))
}

// `a + b`.
pub fn add(a: u32, b: u32) -> u32
    ensures { result ≡ add a b }
{
    on_numbers(a, b, |x, y| x + y)
}

// `a - b`.
pub fn sub(a: u32, b: u32) -> u32
    ensures { result ≡ sub a b }
{
    on_numbers(a, b, |x, y| x - y)
}

// `a * b`.
pub fn mul(a: u32, b: u32) -> u32
    ensures { result ≡ mul a b }
{
    on_numbers(a, b, |x, y| x * y)
}

// `a / b`.
pub fn div(a: u32, b: u32) -> u32
    ensures { result ≡ div a b }
{
    on_numbers(a, b, |x, y| x / y)
}

// `a % b`, the remainder truncated towards zero; a zero `b` or an infinite `a` gives NaN.
#[tactic(auto, unfolding(crate::specs::Numbers::rem))]
pub fn rem(a: u32, b: u32) -> u32
    ensures { result ≡ rem a b }
{
    remainder::rem(a, b)
}

// `a * b + c`, rounded twice.
pub fn mul_add(a: f32, b: f32, c: f32) -> f32
    ensures { result ≡ mul_add a b c }
{
    a * b + c
}

// `c - a * b`, rounded twice.
pub fn mul_sub(a: f32, b: f32, c: f32) -> f32
    ensures { result ≡ mul_sub a b c }
{
    c - a * b
}

// `a < b`: false with a NaN. No comparison goes by `on_numbers`: with its closure the compiler keeps a branch on the NaN, and a
// step takes 5 % longer.
#[tactic(auto, using(crate::proofs::Nans::lt_nan), unfolding(crate::specs::Numbers::lt))]
pub fn lt(a: u32, b: u32) -> bool
    ensures { result ≡ lt a b }
{
    !either_nan(a, b) && f32::from_bits(a) < f32::from_bits(b)
}

// `a <= b`: false with a NaN.
#[tactic(auto, using(crate::proofs::Nans::le_nan), unfolding(crate::specs::Numbers::le))]
pub fn le(a: u32, b: u32) -> bool
    ensures { result ≡ le a b }
{
    !either_nan(a, b) && f32::from_bits(a) <= f32::from_bits(b)
}

// `a > b`: false with a NaN.
#[tactic(auto, unfolding(crate::specs::Numbers::gt))]
pub fn gt(a: u32, b: u32) -> bool
    ensures { result ≡ gt a b }
{
    lt(b, a)
}

// `a >= b`: false with a NaN.
#[tactic(auto, unfolding(crate::specs::Numbers::ge))]
pub fn ge(a: u32, b: u32) -> bool
    ensures { result ≡ ge a b }
{
    le(b, a)
}

// `a == b`: exact, no epsilon; false with a NaN.
#[tactic(auto, using(crate::proofs::Nans::eq_nan), unfolding(crate::specs::Numbers::eq))]
pub fn eq(a: u32, b: u32) -> bool
    ensures { result ≡ eq a b }
{
    !either_nan(a, b) && f32::from_bits(a) == f32::from_bits(b)
}

// `a != b`: exact, no epsilon; true with a NaN.
#[tactic(auto, using(crate::proofs::Nans::not_equal), unfolding(crate::specs::Numbers::eq, crate::specs::Numbers::ne))]
pub fn ne(a: u32, b: u32) -> bool
    ensures { result ≡ ne a b }
{
    !eq(a, b)
}

// Rounds towards zero: the digits below the point are cut off. A zero keeps the sign of `n`, an infinity passes, and a NaN
// gives NAN.
#[tactic(auto, using(crate::proofs::Whole::cut_inwards, crate::proofs::Whole::enters_truncated, crate::proofs::Whole::zero_truncated))]
pub fn trunc(n: u32) -> u32
    ensures { result ≡ truncated n }
{
    let x = abs(n);
    if ONE <= x && x < WHOLE {
        // How many of the 23 digits stand below the point.
        let below = 150 - x / 0x0080_0000;
        return n >> below << below;
    }
    if x < ONE {
        return n - x;
    }
    enter(n)
}

// The most that `below` digits hold.
#[tactic(auto, using(crate::proofs::Whole::one_shifted))]
fn most(below: u32) -> u32
    requires { below ≤ 23 }
    ensures { result ≡ 2 ^ below - 1 }
{
    (1 << below) - 1
}

// Rounds away from zero: any digit below the point first makes one more.
#[tactic(auto, using(crate::proofs::Whole::room, crate::proofs::Whole::cut_middle, crate::proofs::Whole::enters, crate::proofs::Whole::zero_kept, crate::proofs::Whole::one_left))]
fn outwards(n: u32) -> u32
    ensures { result ≡ whole true n }
{
    let x = abs(n);
    if ONE <= x && x < WHOLE {
        // How many of the 23 digits stand below the point.
        let below = 150 - x / 0x0080_0000;
        return (n + most(below)) >> below << below;
    }
    if x == 0 {
        return n;
    }
    if x < ONE {
        return n - x + ONE;
    }
    enter(n)
}

// Rounds towards minus infinity.
#[tactic(auto, using(crate::proofs::Whole::floor_inwards, crate::proofs::Whole::floor_outwards))]
pub fn floor(n: u32) -> u32
    ensures { result ≡ floored n }
{
    if n < SIGN { trunc(n) } else { outwards(n) }
}

// Rounds towards infinity.
#[tactic(auto, using(crate::proofs::Whole::ceil_inwards, crate::proofs::Whole::ceil_outwards))]
pub fn ceil(n: u32) -> u32
    ensures { result ≡ ceiled n }
{
    if n < SIGN { outwards(n) } else { trunc(n) }
}
