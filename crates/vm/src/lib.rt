// One call: a program file, cells, terms and lent stores in, the answer and the stores as left out.
#![tactic(auto)]

pub mod account;
pub mod laws;
mod refusals;

ghost use Rattle.std.specs.Prelude.{◌≡◌};
ghost use Rattle.eval.specs.Machine.{cells_of, lent_of};
ghost use Rattle.interp.specs.Moves.{Sized, SameLent, lent_in};
ghost use Rattle.vm.specs.Call.{Brought, limit_of, cell_fits, one_each, stores_fit, call_fits, refusal_by, tested_of};
ghost use Rattle.vm.specs.Purses.{purses};
ghost use Rattle.vm.specs.Account.{answered};
ghost use Rattle.vm.specs.Called.{ran, called, reply_of};
ghost use Rattle.vm.specs.Numbers.{numbered};

use account::{Account, End, Remainders};
use eval::slot::{FLOAT, OTHER, Slots};
use file::fields;
use interp::{Lent, Task};
use numeric::fpu;
pub use refusals::Refusal;
use tables::Program;

// The terms of a call. The house limit is what a partner has left of the day; the step limit is the partner's own.
#[derive(Clone, Copy, Debug, PartialEq, Eq)]
pub struct Terms {
    pub this: u32,
    pub step_limit: Option<u64>,
    pub loop_limit: Option<u32>,
    pub house_limit: Option<u64>,
}

// The charges that a limit lets be made.
fn limit_of(limit: Option<u64>) -> u64
    ensures { result ≡ limit_of limit }
{
    limit.unwrap_or(u64::MAX)
}

impl Terms {
    // What both limits hold before the first charge.
    fn limits(self) -> Remainders
        ensures { result ≡ purses self }
    {
        Remainders {
            guest: limit_of(self.step_limit),
            house: limit_of(self.house_limit),
        }
    }
}

// The lengths of the three working stores.
#[derive(Clone, Copy, Debug, PartialEq, Eq)]
pub struct Lengths {
    pub stack: usize,
    pub loops: usize,
    pub handlers: usize,
}

impl Lengths {
    // Whether each is within its maximum.
    #[tactic(auto, unfolding(crate::specs::Call::stores_fit))]
    pub fn fit(self) -> bool
        ensures { result ≡ stores_fit self.stack self.loops self.handlers }
    {
        self.stack <= 65600 && self.loops <= 64 && self.handlers <= 64
    }
}

// What the tests of a call look at: of the working stores their lengths alone.
#[derive(Clone, Copy)]
pub struct Tested<'a> {
    pub file: &'a [u8],
    pub cells: Slots<'a>,
    pub context: Slots<'a>,
    pub lengths: Lengths,
}

// Whether a cell is of a known kind, and a float's value has 32 bits.
#[tactic(auto, unfolding(crate::specs::Call::cell_fits))]
fn cell_fits(kind: u8, value: u64) -> bool
    ensures { result ≡ cell_fits kind value }
{
    kind <= OTHER && (kind != FLOAT || value < 0x1_0000_0000)
}

// Whether there is one cell per name, and each fits.
#[tactic(auto, unfolding(crate::specs::Call::one_each))]
fn one_each(names: usize, cells: Slots<'_>) -> bool
    ensures { result ≡ one_each names cells.entry.kinds.now cells.entry.values.now }
{
    cells.kinds.len() == names
        && cells.values.len() == names
        && cells
            .kinds
            .iter()
            .zip(cells.values)
            .all(|(&kind, &value)| cell_fits(kind, value))
}

// Refusal 10 alone: whether cells and context are one per name, each fits, and so do the working stores' lengths.
#[tactic(auto, unfolding(crate::specs::Call::call_fits))]
pub fn fits(names: usize, cells: Slots<'_>, context: Slots<'_>, lengths: Lengths) -> bool
    ensures { (
        let cells = cells_of cells.entry.kinds.now cells.entry.values.now in
        let context = cells_of context.entry.kinds.now context.entry.values.now in
        result ≡ call_fits names cells context lengths.stack lengths.loops lengths.handlers
        ) }
{
    one_each(names, cells) && one_each(names, context) && lengths.fit()
}

// What sends a call back, if anything does.
#[tactic(auto, unfolding(crate::specs::Call::refusal_by))]
pub fn refusal(tested: Tested<'_>) -> Result<(), Refusal>
    ensures { numbered result ≡ refusal_by (tested_of tested.entry) }
{
    file::check(tested.file)?;
    let names = file::names(tested.file);
    if !fits(names, tested.cells, tested.context, tested.lengths) {
        return Err(Refusal::Stores);
    }
    Ok(())
}

// The run of an accepted call: its account, with the cells and the working stores as it left them. What remains is worked
// out before the end is (docs/SPEED.md).
fn run(file: &[u8], context: Slots<'_>, terms: Terms, lent: &mut Lent<'_>) -> Account
    requires { Sized (lent_in lent.old) }
    ensures same_lent { SameLent lent.old lent.new }
    ensures ran { (
        let context = cells_of context.entry.kinds.now context.entry.values.now in
        let brought : Brought = record { file = file.now; lent = lent_in lent.old; context = context; terms = terms } in
        record { reply = answered result; lent = lent_in lent.new } ≡ ran brought
        ) }
{
    let limits = terms.limits();
    let task = Task {
        program: Program {
            code: fields::code(file),
            consts: fields::consts(file),
            posts: fields::posts(file),
            hashes: fields::hashes(file),
        },
        context,
        this: fpu::enter(terms.this),
        limit: limits.smaller(),
        loop_limit: terms.loop_limit,
    };
    let mut temps = [None; 8];
    let s = interp::run(task, lent, &mut temps);
    let remainders = Remainders {
        guest: limits.guest - s.charges,
        house: limits.house - s.charges,
    };
    Account {
        end: End::new(s, temps),
        remainders,
    }
}

// Studio and House: what sends the call back, with every store as it was, or the account of the run, with the cells and
// the working stores as it left them.
// The lent slices come one by one, as C hands them over: a contract over a `&mut Lent` would say beside the equation that the
// slices are the same ones (`SameLent`).
// Its answers under two limits: `laws::call_under_two`, from this contract alone.
pub fn call<'a>(
    file: &'a [u8],
    kinds: &'a mut [u8],
    values: &'a mut [u64],
    context: Slots<'a>,
    terms: Terms,
    stack: &'a mut [u32],
    loops: &'a mut [u32],
    handlers: &'a mut [u64],
) -> Result<Account, Refusal>
    ensures { (
        let lent = lent_of kinds.old values.old stack.old loops.old handlers.old in
        let left = lent_of kinds.new values.new stack.new loops.new handlers.new in
        let context = cells_of context.entry.kinds.now context.entry.values.now in
        let brought : Brought = record { file = file.now; lent = lent; context = context; terms = terms } in
        record { reply = reply_of terms result; lent = left } ≡ called brought
        ) }
{
    refusal(Tested {
        file,
        cells: Slots { kinds, values },
        context,
        lengths: Lengths {
            stack: stack.len(),
            loops: loops.len(),
            handlers: handlers.len(),
        },
    })?;
    let mut lent = Lent {
        kinds,
        values,
        stack,
        loops,
        handlers,
    };
    Ok(run(file, context, terms, &mut lent))
}
