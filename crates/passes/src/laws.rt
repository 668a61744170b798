// What holds of counted loops, at any place in any program, and of the calls that come to one.
ghost use Rattle.std.specs.Prelude.{ℕ, ◌≡◌, ◌≤◌, ◌<◌, ◌+◌, ◌-◌, ◌^◌, [], Some, None};
ghost use Rattle.numeric.specs.Numbers.{float, zero, one, sub};
ghost use Rattle.eval.specs.Machine.{done};
ghost use Rattle.vm.specs.Called.{called};
ghost use Rattle.vm.specs.Runs.{none, answer};
ghost use Rattle.passes.specs.Whole.{whole, IsWhole, most, next, stuck, endless, Lasting, IsStuck, IsEndless, IsNan};
ghost use Rattle.passes.specs.Passes.{asked, Holds, HoldsInCalls, GoesOn, InFull, CutShort, OneFewer, NeverLeaves};
ghost use Rattle.passes.specs.Answers.{AnswersExactly};
ghost use Rattle.passes.specs.RunFive.{counting, AnyCount};
ghost use Rattle.passes.specs.Claims.{fewer, dearer, one_less, one_more, always_noticed, no_pass, wider};

/// A counted loop makes exactly its passes: from any run at the loop with charges enough, its records are fetched so often, so many
/// charges are made, and past it stands what the body makes, applied so often.
pub fn exact_passes()
    ensures { Holds asked }
{}

/// Without a loop limit below the count k there are k passes and k(b + 1) + 2 charges, with b body records, and no notice.
pub fn in_full()
    ensures { InFull }
{}

/// Under a loop limit below the count there are as many passes as the limit, or one for limit 0, and a notice if that falls short.
pub fn cut_short()
    ensures { CutShort }
{}

/// The same read off a whole call: of what fell due in it from the loop on.
pub fn exact_in_calls()
    ensures { HoldsInCalls asked }
{}

/// A run at the loop ends as the run does that stands past it, with what is left of the charges.
pub fn exact_end()
    ensures { GoesOn asked }
{}

/// A call that comes to the loop, and whose smaller limit has its charges, is answered as its run from past the loop goes on. Where the
/// limit has no more, it is stopped for steps there, with accumulator, cells and temps as the passes leave them.
pub fn exact_answers()
    ensures { AnswersExactly asked }
{}

/// The program of run 5 with any whole count up to 16,777,216 and under any loop limit: its whole answer; and worked out for 3.0 without
/// a limit and under limit 0.
pub fn any_count()
    ensures any_count { AnyCount }
    ensures run_five { called (counting None 0x4040_0000) ≡ answer none done 0x4040_0000 10 0x4040_0000 [] 0 }
    ensures run_six { called (counting (Some 0) 0x4040_0000) ≡ answer none done 0x4040_0000 6 0x4040_0000 [] 1 }
{}

/// A whole number from 0 to 16,777,216 has one float without a sign, that of 0 is +0.0, and from 1 on subtracting 1.0 is exact.
pub fn less_one()
    ensures less_one { (k : ℕ) → 1 ≤ k → k ≤ most → sub (whole k) one ≡ whole (k - 1) }
    ensures whole_value { (k : ℕ) → k ≤ most → IsWhole (float (whole k)) k }
    ensures whole_only { (n k : ℕ) → n < 2 ^ 32 → IsWhole (float n) k → n ≡ whole k }
    ensures whole_zero { whole 0 ≡ zero }
{}

/// Beyond 16,777,216 it is not: 16,777,217 has no float, 16,777,218 falls by two, 16,777,220 and 33,554,432 not at all. From
/// 16,777,220 on no float falls below it, and a NaN stays one, so that there is always a pass left.
pub fn beyond()
    ensures no_float { (n : ℕ) → IsWhole (float n) (most + 1) → ⊥ }
    ensures not_beyond { sub (whole (most + 1)) one ≡ whole most → ⊥ }
    ensures next_value { IsWhole (float (whole next)) next }
    ensures next_less_one { sub (whole next) one ≡ whole most }
    ensures endless_value { IsWhole (float (whole endless)) endless }
    ensures endless_less_one { sub (whole endless) one ≡ whole endless }
    ensures stuck_value { IsWhole (float (whole stuck)) stuck }
    ensures stuck_less_one { sub (whole stuck) one ≡ whole stuck }
    ensures endless_lasts { Lasting IsEndless }
    ensures stuck_lasts { Lasting IsStuck }
    ensures nan_lasts { Lasting IsNan }
{}

/// The count 16,777,218 makes one pass fewer than it says.
pub fn one_fewer()
    ensures { OneFewer }
{}

/// Without a loop limit the count 33,554,432 never leaves the loop, however many charges it is given, nor does any float from
/// 16,777,220 on, nor a NaN.
pub fn never_leaves()
    ensures never_leaves { NeverLeaves IsStuck }
    ensures none_leaves { NeverLeaves IsEndless }
    ensures nan_never_leaves { NeverLeaves IsNan }
{}

/// Seven claims that do not hold: a charge fewer or more, a pass fewer or more, a notice under every limit below the count, no pass
/// under limit 0, and a range to 16,777,217.
pub fn not_exact()
    ensures not_fewer { Holds fewer → ⊥ }
    ensures not_dearer { Holds dearer → ⊥ }
    ensures not_one_less { Holds one_less → ⊥ }
    ensures not_one_more { Holds one_more → ⊥ }
    ensures not_always_noticed { Holds always_noticed → ⊥ }
    ensures not_no_pass { Holds no_pass → ⊥ }
    ensures not_wider { Holds wider → ⊥ }
{}
