// compile/program.rs: the bytecode's instructions, as a file's records hold them, and which parts an opcode uses.
#![tactic(auto)]

pub mod instr;
pub mod laws;
pub mod opcodes;
pub mod ranges;
