// vm/eval: the machine of one evaluation, its float half. A number is kept as its 32 bits.
#![tactic(auto)]

pub mod handler;
pub mod laws;
pub mod loops;
pub mod machine;
pub mod missing;
pub mod ops;
pub mod slot;
