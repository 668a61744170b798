// A counted loop makes exactly its passes: laws, each on the contract of a function.
#![tactic(auto)]

pub mod laws;
