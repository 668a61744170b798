// What the programs write to standard output: texts, numbers, bits and decimals; what they are given, arguments and files; and
// the files that they replace.
#![tactic(auto)]

mod decimal;
pub mod given;
pub mod laws;
pub mod lines;
pub mod page;
pub mod replace;
pub mod rows;
pub mod status;
pub mod text;
