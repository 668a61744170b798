// What holds of every call, whatever it brings: laws, each the contract of a function that does nothing, and one function that makes
// a call under two limits.
ghost use Rattle.std.specs.Prelude.{◌≡◌, ◌<◌, max, map};
ghost use Rattle.eval.specs.Machine.{acc_is, empty_pops_are, cells_of, lent_of};
ghost use Rattle.eval.specs.Run.{lift, charged};
ghost use Rattle.numeric.specs.Numbers.{zero};
ghost use Rattle.vm.specs.Account.{After};
ghost use Rattle.vm.specs.Accounts.{RefusedAsMet, AnsweredByRun, AnsweredByRefusal, RefusalKeepsStores, HasEnded, NoneGoesOn, AddsUp, NothingTaken, StoppedUsedUp, NoRecordStops};
ghost use Rattle.vm.specs.Call.{Brought, Accepted};
ghost use Rattle.vm.specs.Called.{called, reply_of};
ghost use Rattle.vm.specs.Limits.{Pair, limit_by, AgreeInFull, KeepsTwoLimits, KeepsRule, DuesReadOff, SameSmaller, NotCut};
ghost use Rattle.vm.specs.NotTwoLimits.{altered, early, unbilled, limited};
ghost use Rattle.vm.specs.OneLimit.{OneLimit, KeepsBoth, NeverOverdrawn};
ghost use Rattle.vm.specs.Pairs.{pairs, left};
ghost use Rattle.vm.specs.Runs.{calls, answers};

use crate::account::Account;
use crate::{Refusal, Terms, call};
use eval::slot::Slots;

/// An accepted call under two limits, the smaller one below the larger: the accounts are the same, but for what remains, exactly where
/// the machine makes no more charges under the larger than the smaller lets be made; otherwise the run under the smaller was stopped
/// there. The account under the larger bills what the machine makes.
pub fn two_limits()
    ensures { KeepsTwoLimits called }
{}

/// Makes one call under two pairs of limits, each with stores of its own that hold the same. If it is accepted, and the smaller limit of
/// the first pair is below that of the second, the two answers keep the rule of two limits.
pub fn call_under_two<'a>(
    file: &'a [u8],
    context: Slots<'a>,
    terms: Terms,
    more: Option<u64>,
    more_house: Option<u64>,
    kinds: &'a mut [u8],
    values: &'a mut [u64],
    stack: &'a mut [u32],
    loops: &'a mut [u32],
    handlers: &'a mut [u64],
    more_kinds: &'a mut [u8],
    more_values: &'a mut [u64],
    more_stack: &'a mut [u32],
    more_loops: &'a mut [u32],
    more_handlers: &'a mut [u64],
) -> (Result<Account, Refusal>, Result<Account, Refusal>)
    requires kinds { more_kinds.old ≡ kinds.old }
    requires values { more_values.old ≡ values.old }
    requires stack { more_stack.old ≡ stack.old }
    requires loops { more_loops.old ≡ loops.old }
    requires handlers { more_handlers.old ≡ handlers.old }
    ensures { (
        let lent = lent_of kinds.old values.old stack.old loops.old handlers.old in
        let context = cells_of context.entry.kinds.now context.entry.values.now in
        let brought : Brought = record { file = file.now; lent = lent; context = context; terms = terms } in
        let under_m : Pair = record { guest = terms.step_limit; house = terms.house_limit } in
        let under_n : Pair = record { guest = more; house = more_house } in
        let m : After = record { reply = reply_of terms result.0; lent = lent_of kinds.new values.new stack.new loops.new handlers.new } in
        let n : After = record {
          reply = reply_of (record terms { step_limit = more; house_limit = more_house }) result.1;
          lent = lent_of more_kinds.new more_values.new more_stack.new more_loops.new more_handlers.new;
        } in
        Accepted brought → limit_by under_m < limit_by under_n → AgreeInFull brought under_m under_n m n
        ) }
{
    let first = call(file, kinds, values, context, terms, stack, loops, handlers);
    let larger = Terms {
        step_limit: more,
        house_limit: more_house,
        ..terms
    };
    let second = call(
        file,
        more_kinds,
        more_values,
        context,
        larger,
        more_stack,
        more_loops,
        more_handlers,
    );
    (first, second)
}

/// Where a run makes more than M charges, entry M of the list of its dues is there, with M charges made.
pub fn read_off()
    ensures { DuesReadOff }
{}

/// Pairs of limits with one smaller limit give one answer, but for what remains of the limits, whichever of the two is the smaller.
pub fn same_smaller()
    ensures { SameSmaller called }
{}

/// A run of which something remains of both limits was not cut: larger limits change nothing but what remains of them.
pub fn not_cut()
    ensures { NotCut called }
{}

/// From a run without a charge two purses are one limit, the smaller: the same run, what remains of each is what it held less the
/// charges, and neither is overdrawn. From any run, what each held is what is charged from there and what remains.
pub fn one_limit()
    ensures one { OneLimit }
    ensures kept { KeepsBoth }
    ensures covered { NeverOverdrawn }
{}

/// An answer names the refusal that the call meets, and none where it meets none. An accepted call is answered by its run; one that
/// is refused by its refusal, with every lent store as it was.
pub fn answered()
    ensures refusal { RefusedAsMet }
    ensures accepted { AnsweredByRun }
    ensures refused { AnsweredByRefusal }
    ensures stores { RefusalKeepsStores }
{}

/// The run of a call has ended, and no account has the outcome of a run that goes on.
pub fn has_ended()
    ensures ended { HasEnded }
    ensures accounts { NoneGoesOn }
{}

/// What an answer charged and what it left of a limit make what the limit held, of both limits and of every answer.
pub fn adds_up()
    ensures { (brought : Brought) → AddsUp brought (called brought) }
{}

/// A refused call charges nothing and leaves both limits as they came.
pub fn nothing_taken()
    ensures { (brought : Brought) → (Accepted brought → ⊥) → NothingTaken brought (called brought) }
{}

/// Of a run that is stopped for steps nothing remains of at least one limit, and no record stops a run for steps.
pub fn stopped_used_up()
    ensures limits { StoppedUsedUp }
    ensures records { NoRecordStops }
{}

/// The twelve calls set out have the answers set out, whole: what is left in temps and lent stores too.
pub fn twelve_runs()
    ensures { map called calls ≡ answers }
{}

/// The calls set out under pairs of limits have the answers set out.
pub fn pair_runs()
    ensures { map called pairs ≡ left }
{}

/// Evaluators that do not keep the rule of two limits: one that stops before it acts, one that charges once more, one that clears the
/// accumulator, one that looks at the guest's limit alone, at the house's alone, or at the larger, and one that counts an empty pop
/// where the run ends. One that bills nothing where a run ends by itself is shut out by what is said of the bill.
pub fn not_two_limits()
    ensures not_early { KeepsRule early → ⊥ }
    ensures not_dear { KeepsRule (altered charged) → ⊥ }
    ensures not_clearing { KeepsRule (altered (lift (acc_is zero))) → ⊥ }
    ensures not_guest_alone { KeepsRule (limited (λ limits. limits.guest)) → ⊥ }
    ensures not_house_alone { KeepsRule (limited (λ limits. limits.house)) → ⊥ }
    ensures not_larger { KeepsRule (limited (λ limits. max limits.guest limits.house)) → ⊥ }
    ensures not_popping { KeepsRule (altered (lift (empty_pops_are 1))) → ⊥ }
    ensures not_free { KeepsTwoLimits (altered unbilled) → ⊥ }
{}
