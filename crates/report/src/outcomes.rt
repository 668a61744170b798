// The words for the outcomes, by their numbers.
ghost use Rattle.std.specs.Prelude.{◌≡◌};
ghost use Rattle.print.specs.Page.{written};
ghost use Rattle.report.specs.Outcomes.{outcome_text};

use print::page::Page;

// By number, as the account has it: the enum would add two arms, for a run that goes on and for no outcome.
#[tactic(auto, using(crate::proofs::LastWords::last_words), unfolding(crate::specs::Outcomes::outcome_text))]
pub fn append_outcome<const N: usize>(page: &mut Page<N>, number: u32)
    ensures { page.new ≡ written page.old (outcome_text number) }
{
    match number {
        // tools/answers.py: report
        0 => page.text(b"done"),
        1 => page.text(b"stopped for steps"),
        2 => page.text(b"stopped for a missing value"),
        3 => page.text(b"stopped for the stack cap"),
        4 => page.text(b"stopped for a full store"),
        _ => page.text(b"handed over"),
        // tools/answers.py: end
    }
}
