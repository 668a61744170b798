// The remainder of two binary32 floats, on their bits: exact, by whole numbers alone. A magnitude is a pattern without its
// sign's bit. A finite one stands for significand * 2 ^ exponent units of the smallest value.
#![tactic(auto)]

ghost use Rattle.std.specs.Prelude.{◌≡◌, ◌*◌, ◌%◌, ◌^◌};
ghost use Rattle.remainder.specs.Remainder.{rem};
ghost use Rattle.remainder.specs.Units.{exponent, significand, units, Digits, Finite, Ordered, Packed};

// How far a magnitude's digits are moved up.
fn exponent(x: u32) -> u32
    ensures { result ≡ exponent x }
{
    (x / 0x0080_0000).saturating_sub(1)
}

// A magnitude's digits, with the leading one.
fn significand(x: u32) -> u32
    ensures { result ≡ significand x }
{
    x - exponent(x) * 0x0080_0000
}

// m * 2 ^ shift, reduced by n. A turn moves 40 digits at most, so that nothing is lost: one turn serves while the quotient is
// below 2 ^ 40, and seven always. What is left is an amount, and no index: a `while` says it as it is.
#[tactic(auto, using(crate::proofs::Modulo::turn, crate::proofs::Modulo::shift_whole, crate::proofs::Modulo::mod_below))]
fn reduce(m: u32, n: u32, shift: u32) -> u32
    requires { Digits m n }
    ensures { result ≡ m * 2 ^ shift % n }
{
    let d = u64::from(n);
    let mut r = u64::from(m);
    let mut left = shift;
    while 40 < left {
        r = (r << 40) % d;
        left -= 40;
    }
    ((r << left) % d) as u32
}

// The magnitude of r * 2 ^ k units: r's digits are moved up until the leading one is in its place, or nothing is left of k.
#[tactic(auto, using(crate::proofs::Packing::gap_fits, crate::proofs::Packing::packed_up, crate::proofs::Packing::packed_low, crate::proofs::Packing::packed_zero, crate::proofs::Packing::short_lt, std::proofs::lemmas::Nat::leading_le))]
fn pack(r: u32, k: u32) -> u32
    requires { Finite r k }
    ensures { Packed (r * 2 ^ k) result }
{
    if r == 0 {
        return 0;
    }
    let up = r.leading_zeros() - 8;
    if up <= k {
        return (k - up) * 0x0080_0000 + (r << up);
    }
    r << k
}

// The remainder of two finite magnitudes, the second no larger than the first.
#[tactic(auto, using(crate::proofs::Parts::parts))]
fn rem_finite(x: u32, y: u32) -> u32
    requires { Ordered x y }
    ensures { Packed (units x % units y) result }
{
    let k = exponent(y);
    pack(reduce(significand(x), significand(y), exponent(x) - k), k)
}

// `a % b`, with the sign of `a`. A NaN, an infinite `a` and a zero `b` give the NaN 7FC00000; a smaller `a` comes back as it is.
#[tactic(auto, using(crate::proofs::Cases::of_top, crate::proofs::Cases::by_nan, crate::proofs::Cases::by_zero, crate::proofs::Cases::smaller, crate::proofs::Cases::larger))]
pub fn rem(a: u32, b: u32) -> u32
    ensures { result ≡ rem a b }
{
    let x = a % 0x8000_0000;
    let y = b % 0x8000_0000;
    if 0x7F80_0000 <= x {
        return 0x7FC0_0000;
    }
    if 0x7F80_0000 < y {
        return 0x7FC0_0000;
    }
    if y == 0 {
        return 0x7FC0_0000;
    }
    if x < y {
        return a;
    }
    a - x + rem_finite(x, y)
}
