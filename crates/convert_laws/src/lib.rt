// What the converter keeps, said of whole files and of whole calls: laws, each on the contract of a function.
#![tactic(auto)]

pub mod laws;
