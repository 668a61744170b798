// numeric/post_op.rs: the affine post-op that the optimiser folds into a value-producing node.
ghost use Rattle.std.specs.Prelude.{◌≡◌, true, false};
ghost use Rattle.numeric.specs.Arithmetic.{plain, post_of, is_identity, applied, truthy_value, falsy_value, selected};

use crate::fpu::{NAN, enter, is_nan, mul_add, of_bits, to_bits};

// The `raw·scale + offset` applied to a node's result.
#[derive(Clone, Copy)]
pub struct PostOp {
    // The multiplier `S`.
    pub scale: f32,
    // The addend `O`.
    pub offset: f32,
}

// A post as a file holds it: its operation, and the bits of its offset, by which the false value enters.
#[derive(Clone, Copy)]
pub struct Post {
    pub op: PostOp,
    pub offset: u32,
}

impl PostOp {
    // `(1, 0)`: the plain form.
    pub const IDENTITY: PostOp = PostOp {
        scale: 1.0,
        offset: 0.0,
    };

    // Whether this is the plain form (an offset of -0 counts).
    #[tactic(auto, unfolding(crate::specs::Arithmetic::is_identity))]
    pub fn is_identity(self) -> bool
        ensures { result ≡ is_identity self }
    {
        self.scale == 1.0 && self.offset == 0.0
    }

    // `raw·S + O`, rounded twice. The identity returns `raw` untouched.
    #[tactic(auto, using(crate::proofs::Posts::raw_nan), unfolding(crate::specs::Arithmetic::applied))]
    pub fn apply(self, raw: u32) -> u32
        ensures { result ≡ applied self raw }
    {
        if self.is_identity() {
            return raw;
        }
        if is_nan(raw) {
            return NAN;
        }
        to_bits(mul_add(f32::from_bits(raw), self.scale, self.offset))
    }

    // The "true" result of a comparison or logical node: `S + O`.
    #[tactic(auto, unfolding(crate::specs::Arithmetic::truthy_value))]
    pub fn truthy_value(self) -> u32
        ensures { result ≡ truthy_value self }
    {
        to_bits(self.scale + self.offset)
    }
}

impl Post {
    // Post 0: the plain form.
    pub fn plain() -> Post
        ensures { result ≡ plain }
    {
        Post {
            op: PostOp::IDENTITY,
            offset: 0,
        }
    }

    // The post of the bits of a scale and an offset.
    pub fn new(scale: u32, offset: u32) -> Post
        ensures { result ≡ post_of scale offset }
    {
        Post {
            op: PostOp {
                scale: of_bits(scale),
                offset: of_bits(offset),
            },
            offset,
        }
    }

    // The "false" result of a comparison or logical node: `O`.
    pub fn falsy_value(self) -> u32
        ensures { result ≡ falsy_value self }
    {
        enter(self.offset)
    }

    // The result of a comparison or logical node: one of two constants, never a multiply.
    #[tactic(auto, unfolding(crate::specs::Arithmetic::selected))]
    pub fn select(self, condition: bool) -> u32
        ensures { result ≡ selected self condition }
    {
        let op = self.op;
        if condition {
            op.truthy_value()
        } else {
            self.falsy_value()
        }
    }
}
