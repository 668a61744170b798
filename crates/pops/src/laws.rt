// What the count of empty pops says of every call, and of every run.
ghost use Rattle.std.specs.Prelude.{◌≡◌, map};
ghost use Rattle.pops.specs.Takes.{CountedInCalls, CountedInFull};
ghost use Rattle.pops.specs.Before.{AsBefore};
ghost use Rattle.pops.specs.Runs.{calls, empty_pops_of, counts, host_math_calls, empty_pops_as_it_was, host_math_counts, after, lacks, ends};

/// The empty pops of an account are what the records of the run took beyond the depths that they met, and at most 2^64 - 1.
pub fn counted_in_calls()
    ensures { CountedInCalls }
{}

/// So they are from any state, on top of the count that it had.
pub fn counted_in_full()
    ensures { CountedInFull }
{}

/// Nothing else changed with the count: without it, the answer to every call, refused or not, and every lent store are those of the
/// machine that did not count.
#[tactic(auto, using(crate::proofs::AsBefore::as_before))]
pub fn as_before()
    ensures { AsBefore }
{}

/// Eleven calls, and the empty pops of each.
#[tactic(auto, using(crate::proofs::SetOut::set_out))]
pub fn set_out()
    ensures { map empty_pops_of calls ≡ counts }
{}

/// HostMath of 0, 1, 2, 8 and 9 arguments, in the machine alone.
#[tactic(auto, using(crate::proofs::SetOut::host_math_set_out))]
pub fn host_math_set_out()
    ensures { map empty_pops_as_it_was host_math_calls ≡ host_math_counts }
{}

/// A count that lacks 10, 9, 8, 1 or nothing of 2^64 - 1, after nine empty pops.
#[tactic(auto, using(crate::proofs::SetOut::full))]
pub fn full()
    ensures { map after lacks ≡ ends }
{}
