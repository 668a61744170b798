// What a file's numbers and records are, said another way: laws, each on the contract of a function.
#![tactic(auto)]

pub mod laws;
