// A partner's day under the house limit: laws, each on the contract of a function.
#![tactic(auto)]

pub mod laws;
