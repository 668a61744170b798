// What one NaN is for: laws, each on the contract of a function.
#![tactic(auto)]

pub mod laws;
