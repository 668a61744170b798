// The account of a run on the page, a line a field, by the methods of the page: what `write!` puts on it has no clause.
ghost use Rattle.std.specs.Prelude.{◌≡◌, ◌++◌};
ghost use Rattle.print.specs.Page.{written};
ghost use Rattle.report.specs.Account.{field_line, value_line, outcome_line, next, numbers_end, temp_text, temps_text, temps_line};
ghost use Rattle.report.specs.Account.{depths_text, charges_text, remainders_line, account_text};
ghost use Rattle.report.specs.Cells.{value_text};

use crate::outcomes::append_outcome;
use print::page::Page;
use vm::account::{Account, End, Remainders, Temps};

#[tactic(auto, using(print::proofs::Pages::written_append), unfolding(crate::specs::Account::account_text))]
pub fn append_account<const N: usize>(page: &mut Page<N>, account: Account)
    ensures { page.new ≡ written page.old (account_text account) }
{
    let end = account.end;
    append_outcome_line(page, end.outcome);
    append_field(page, b"position ", end.position);
    append_value_line(page, b"value ", end.value);
    append_charges(page, end);
    append_remainders(page, account.remainders);
}

// The lines of the end from the charges on.
#[tactic(auto, using(print::proofs::Pages::written_append), unfolding(crate::specs::Account::charges_text))]
fn append_charges<const N: usize>(page: &mut Page<N>, end: End)
    ensures { page.new ≡ written page.old (charges_text end) }
{
    append_field(page, b"charges ", end.charges);
    append_value_line(page, b"accumulator ", end.accumulator);
    append_depths(page, end);
}

// The lines of the end from the depths on.
#[tactic(auto, using(print::proofs::Pages::written_append), unfolding(crate::specs::Account::depths_text))]
fn append_depths<const N: usize>(page: &mut Page<N>, end: End)
    ensures { page.new ≡ written page.old (depths_text end) }
{
    let depths = end.depths;
    append_numbers(
        page,
        b"depths",
        &[depths.stack, depths.loops, depths.handlers],
    );
    append_temps_line(page, end.temps);
    let notices = end.notices;
    append_numbers(
        page,
        b"notices",
        &[
            notices.missing_member,
            notices.access_underflow,
            notices.loop_limit,
        ],
    );
    append_field(page, b"empty_pops ", end.empty_pops);
}

// What remains of both limits.
#[tactic(auto, using(print::proofs::Pages::written_append), unfolding(crate::specs::Account::remainders_line, crate::specs::Account::numbers_end))]
fn append_remainders<const N: usize>(page: &mut Page<N>, remainders: Remainders)
    ensures { page.new ≡ written page.old (remainders_line remainders) }
{
    append_numbers(page, b"remainders", &[remainders.guest, remainders.house]);
}

#[tactic(auto, using(print::proofs::Pages::written_append), unfolding(print::specs::Page::written, crate::specs::Account::outcome_line))]
fn append_outcome_line<const N: usize>(page: &mut Page<N>, number: u32)
    ensures { page.new ≡ written page.old (outcome_line number) }
{
    page.text(b"outcome ");
    append_outcome(page, number);
    page.text(b"\n");
}

#[tactic(auto, using(print::proofs::Pages::written_append), unfolding(print::specs::Page::written, crate::specs::Account::field_line))]
pub fn append_field<const N: usize>(page: &mut Page<N>, name: &[u8], n: u64)
    ensures { page.new ≡ written page.old (field_line name.now n) }
{
    page.text(name);
    page.number(n);
    page.text(b"\n");
}

#[tactic(auto, using(print::proofs::Pages::written_append), unfolding(print::specs::Page::written, crate::specs::Account::value_line))]
fn append_value_line<const N: usize>(page: &mut Page<N>, name: &[u8], bits: u32)
    ensures { page.new ≡ written page.old (value_line name.now bits) }
{
    page.text(name);
    append_value(page, bits);
    page.text(b"\n");
}

// A number as its bits and in decimal.
#[tactic(auto, using(print::proofs::Pages::written_append), unfolding(print::specs::Page::written, crate::specs::Cells::value_text))]
pub fn append_value<const N: usize>(page: &mut Page<N>, bits: u32)
    ensures { page.new ≡ written page.old (value_text bits) }
{
    page.bits(bits);
    page.text(b" ");
    page.float(bits);
}

// A name, and the numbers after it.
#[tactic(auto, using(std::proofs::lemmas::Grind::common_steps, print::proofs::Pages::written_append), unfolding(print::specs::Page::written, crate::specs::Account::numbers_end))]
fn append_numbers<const N: usize>(page: &mut Page<N>, name: &[u8], numbers: &[u64])
    ensures { page.new ≡ written page.old (name.now ++ numbers_end numbers.now) }
{
    page.text(name);
    for &number in numbers {
        append_next(page, number);
    }
    page.text(b"\n");
}

// The next number of a line.
#[tactic(auto, using(print::proofs::Pages::written_append), unfolding(print::specs::Page::written, crate::specs::Account::next))]
fn append_next<const N: usize>(page: &mut Page<N>, number: u64)
    ensures { page.new ≡ written page.old (next number) }
{
    page.text(b" ");
    page.number(number);
}

#[tactic(auto, using(print::proofs::Pages::written_append), unfolding(print::specs::Page::written, crate::specs::Account::temps_line))]
fn append_temps_line<const N: usize>(page: &mut Page<N>, temps: Temps)
    ensures { page.new ≡ written page.old (temps_line temps.given temps.numbers) }
{
    page.text(b"temps");
    append_temps(page, &temps.given, &temps.numbers);
    page.text(b"\n");
}

// Two slices, as the account has them: its structs are the C interface's.
#[tactic(auto, using(print::proofs::Pages::written_append), unfolding(print::specs::Page::written, crate::specs::Pieces::pieces))]
fn append_temps<const N: usize>(page: &mut Page<N>, given: &[bool], numbers: &[u32])
    ensures { page.new ≡ written page.old (temps_text given.now numbers.now) }
{
    for (&given, &number) in given.iter().zip(numbers) {
        append_temp(page, given, number);
    }
}

#[tactic(auto, using(print::proofs::Pages::written_append), unfolding(print::specs::Page::written, crate::specs::Account::temp_text))]
fn append_temp<const N: usize>(page: &mut Page<N>, given: bool, number: u32)
    ensures { page.new ≡ written page.old (temp_text given number) }
{
    if given {
        page.text(b" ");
        page.bits(number);
    } else {
        page.text(b" missing");
    }
}
