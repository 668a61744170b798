// stdlib/math/arithmetic.rs: `math.mod` and `math.abs`.
ghost use Rattle.std.specs.Prelude.{◌≡◌};
ghost use Rattle.numeric.specs.Arithmetic.{mod_runtime, mod_const};
ghost use Rattle.numeric.specs.Whole.{absolute};

use crate::fpu;
use crate::post_op::{Post, PostOp};

// The truncated remainder, or the node's offset when `b == 0`. The post-op is applied even when it is `(1, 0)`.
#[tactic(auto, unfolding(crate::specs::Arithmetic::mod_runtime))]
pub fn mod_runtime(a: u32, b: u32, post: Post) -> u32
    ensures { result ≡ mod_runtime a b post }
{
    if fpu::eq(b, 0) {
        post.falsy_value()
    } else {
        mod_const(a, b, post.op)
    }
}

// The truncated remainder with no zero test, so a 0 gives NaN. Always applies the post-op.
#[inline]
#[tactic(auto, using(crate::proofs::Rems::rems), unfolding(crate::specs::Arithmetic::mod_const))]
pub fn mod_const(a: u32, b: u32, post: PostOp) -> u32
    ensures { result ≡ mod_const a b post }
{
    fpu::to_bits(fpu::mul_add(fpu::of_bits(fpu::rem(a, b)), post.scale, post.offset))
}

// The magnitude; a NaN gives the one that an operation makes.
#[tactic(auto, using(crate::proofs::Whole::absolute_is))]
pub fn abs(x: u32) -> u32
    ensures { result ≡ absolute x }
{
    fpu::enter(fpu::abs(x))
}
