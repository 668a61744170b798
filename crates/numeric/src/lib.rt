// The arithmetic of the float machine: numeric/ and stdlib/math/arithmetic.rs of the Rust, the wanted parts.
// A number is kept as its 32 bits: what enters has one NaN, what a host holds may have any (docs/DECISIONS.md).
#![tactic(auto)]

pub mod arithmetic;
pub mod fpu;
pub mod instr;
pub mod laws;
pub mod post_op;
