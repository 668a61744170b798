// What the count of empty pops says, and that nothing else changed: laws, each on the contract of a function.
#![tactic(auto)]

pub mod laws;
