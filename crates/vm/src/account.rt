// The account of a run, and the answer to a call: structs that cross to C as they are.
ghost use Rattle.std.specs.Prelude.{◌≡◌};
ghost use Rattle.eval.specs.State.{Stores, run, Within, with_temps, temps_of as machine_temps_of};
ghost use Rattle.eval.specs.Machine.{outcome_number};
ghost use Rattle.vm.specs.Account.{value_of, position_of, temps_of, end_of, no_account};
ghost use Rattle.vm.specs.Purses.{smaller};
ghost use Rattle.vm.specs.Called.{reply_of};

use crate::{Refusal, Terms};
use eval::machine::{Notices, Outcome, State};

// The final depths of the operand stack, the loops and the handlers. Like all structs of the reply it is the C interface's.
#[repr(C)]
#[derive(Clone, Copy, Debug, Default, PartialEq, Eq)]
pub struct Depths {
    pub stack: u64,
    pub loops: u64,
    pub handlers: u64,
}

// The temps: their numbers, and which are given. C has no options, so the two stand apart.
#[repr(C)]
#[derive(Clone, Copy, Debug, Default, PartialEq, Eq)]
pub struct Temps {
    pub numbers: [u32; 8],
    pub given: [bool; 8],
}

// How the run ended: all that is compared of it under two step limits, and with the empty pops left out, all that the
// comparison with the Rust looks at.
#[repr(C)]
#[derive(Clone, Copy, Debug, Default, PartialEq, Eq)]
pub struct End {
    // The number of the outcome, 0 to 5.
    pub outcome: u32,
    pub value: u32,
    // Where the run handed over, else 0.
    pub position: u64,
    pub charges: u64,
    pub accumulator: u32,
    pub depths: Depths,
    pub notices: Notices,
    // How often an operand was taken that was not on the stack; at 2^64 - 1 it stays.
    pub empty_pops: u64,
    pub temps: Temps,
}

// What remains of both limits: of the guest's own, and of the one that the house gives.
#[repr(C)]
#[derive(Clone, Copy, Debug, PartialEq, Eq)]
pub struct Remainders {
    pub guest: u64,
    pub house: u64,
}

impl Remainders {
    // The smaller of the two: how many charges may be made.
    pub fn smaller(self) -> u64
        ensures { result ≡ smaller self }
    {
        self.guest.min(self.house)
    }
}

// The account. What is not compared under two step limits has its place here, beside the end.
#[repr(C)]
#[derive(Clone, Copy, Debug, PartialEq, Eq)]
pub struct Account {
    pub end: End,
    pub remainders: Remainders,
}

// The number of the refusal, 0 where there is none, and the account. Where the call is refused, its end is all zero, and
// both limits remain as they came.
#[repr(C)]
#[derive(Clone, Copy, Debug, PartialEq, Eq)]
pub struct Reply {
    pub refusal: u32,
    pub account: Account,
}

// The temps of the machine, as an account has them: the number of one that is not given is 0.
impl From<[Option<u32>; 8]> for Temps {
    ghost use Rattle.eval.specs.State.{temps_of as machine_temps_of};

    ghost from_gives = { λ temps t. temps_of t ≡ machine_temps_of temps };

    fn from(temps: [Option<u32>; 8]) -> Temps {
        Temps {
            numbers: temps.map(|t| t.unwrap_or(0)),
            given: temps.map(|t| t.is_some()),
        }
    }
}

// The value of an account: the accumulator where the run is done.
fn value_of(o: Outcome, acc: u32) -> u32
    ensures { result ≡ value_of (outcome_number o) acc }
{
    match o {
        Outcome::Done => acc,
        _ => 0,
    }
}

// The hand-over position of an account.
fn position_of(o: Outcome, pos: usize) -> u64
    ensures { result ≡ position_of (outcome_number o) pos }
{
    match o {
        Outcome::HandedOver => pos as u64,
        _ => 0,
    }
}

impl End {
    // The end of a run that has ended.
    pub fn new(s: State, temps: [Option<u32>; 8]) -> End
        ensures { (x : Stores) → Within s x
            → result ≡ end_of (run s (with_temps (machine_temps_of temps) x)) }
    {
        End {
            outcome: u32::from(s.outcome),
            value: value_of(s.outcome, s.acc),
            position: position_of(s.outcome, s.pos),
            charges: s.charges,
            accumulator: s.acc,
            depths: Depths {
                stack: s.stack as u64,
                loops: s.loops as u64,
                handlers: s.handlers as u64,
            },
            notices: s.notices,
            empty_pops: s.empty_pops,
            temps: Temps::from(temps),
        }
    }
}

impl Account {
    // No account: an end of zeros alone, and both limits as they came.
    pub fn none(remainders: Remainders) -> Account
        ensures { result ≡ no_account remainders }
    {
        Account {
            end: End::default(),
            remainders,
        }
    }
}

impl Reply {
    // The reply that crosses to C for what a call gives under its terms.
    pub fn new(terms: Terms, answer: Result<Account, Refusal>) -> Reply
        ensures { result ≡ reply_of terms answer }
    {
        match answer {
            Ok(account) => Reply {
                refusal: 0,
                account,
            },
            Err(refusal) => Reply {
                refusal: u32::from(refusal),
                account: Account::none(terms.limits()),
            },
        }
    }
}
