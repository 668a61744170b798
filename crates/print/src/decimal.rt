// A binary32 as a decimal of nine significant digits, which reads back to the same bits. All digits of the number are
// worked out, in units of 10^-149, and rounded once, half to even. The form is that of `%.9g` in C's printf, which std
// has not.
ghost use Rattle.std.specs.Prelude.{◌≡◌, ◌+◌, ◌-◌, ◌*◌, ◌/◌, ◌%◌, ◌^◌, ◌<◌, ◌≤◌, not, eqb, length, replicate};
ghost use Rattle.print.specs.Page.{written};
ghost use Rattle.print.specs.Decimal.{scaled, units, Leading, first_of, goes_up, rounded, trimmed as Decimal·trimmed};
ghost use Rattle.print.specs.Decimal.{pointed, exponent, laid, finite, magnitude_text, float};

use crate::page::Page;
use std::marker::Model;

// The digits of a number that are kept. A binary32 has 188, in units of 10^-149.
const DIGITS: usize = 200;

// A natural number, by its digits, the lowest first.
#[derive(Drop)]
struct Natural {
    digits: [u8; DIGITS],
}

impl Model for Natural {
    ghost use Rattle.std.specs.Prelude.{ℕ};
    ghost use Rattle.print.specs.Decimal.{Placed, value};

    ghost Value = { ℕ };

    ghost view = { λ n. value n.digits };

    ghost invariant = { λ n. Placed n.digits (value n.digits) };
}

// The first nine digits of a number, and how many come after them.
#[derive(Clone, Copy)]
struct First {
    digits: u64,
    after: usize,
}

impl From<u32> for Natural {
    ghost from_gives = { λ n r. r ≡ n };

    fn from(n: u32) -> Natural
        ensures { result ≡ n }
    {
        let mut digits = [0; DIGITS];
        let mut rest = n;
        for digit in digits.iter_mut() {
            *digit = (rest % 10) as u8;
            rest /= 10;
        }
        Natural { digits }
    }
}

impl Natural {
    // A finite magnitude, in units of 10^-149.
    #[tactic(auto, unfolding(crate::specs::Decimal::units))]
    fn units(magnitude: u32) -> Natural
        requires { magnitude < 0x7F80_0000 }
        ensures { result ≡ units magnitude }
    {
        let power = magnitude / 0x80_0000;
        let fraction = magnitude % 0x80_0000;
        if power == 0 {
            Natural::scaled(fraction, 0)
        } else {
            Natural::scaled(fraction + 0x80_0000, power - 1)
        }
    }

    #[tactic(auto, using(crate::proofs::Places::scaled_below, crate::proofs::Places::doubled_below), unfolding(crate::specs::Decimal::scaled))]
    fn scaled(significand: u32, power: u32) -> Natural
        requires significand_bound { significand < 0x100_0000 }
        requires power_bound { power < 254 }
        ensures { result ≡ scaled significand power }
    {
        let mut n = Natural::from(significand);
        n.times_often(2, power);
        n.times_often(5, 149);
        n
    }

    // Times k, often.
    #[tactic(auto, using(crate::proofs::Places::power_more))]
    fn times_often(&mut self, k: u8, often: u32)
        requires { self.old * k ^ often < 10 ^ 200 }
        ensures { self.new ≡ self.old * k ^ often }
    {
        for _ in 0..often {
            self.times(k);
        }
    }

    fn times(&mut self, k: u8)
        requires { self.old * k < 10 ^ 200 }
        ensures { self.new ≡ self.old * k }
    {
        let mut carry = 0;
        for digit in self.digits.iter_mut() {
            let product = *digit as u32 * k as u32 + carry;
            *digit = (product % 10) as u8;
            carry = product / 10;
        }
    }

    #[tactic(auto, using(crate::proofs::Nine::leads))]
    fn leading(&self) -> First
        ensures first { result ≡ first_of self.now }
        ensures bounds { Leading 200 result }
    {
        let mut digits = 0;
        for (i, digit) in self.digits.iter().enumerate().rev() {
            if 100_000_000 <= digits {
                return First {
                    digits,
                    after: i + 1,
                };
            }
            digits = digits * 10 + *digit as u64;
        }
        First { digits, after: 0 }
    }

    // The first nine digits, to the nearest.
    #[tactic(auto, using(crate::proofs::Nine::first_digits), unfolding(crate::specs::Decimal::nearest))]
    fn nearest(&self) -> First
        ensures rounded { result ≡ rounded self.now }
        ensures within { result.after ≤ 200 }
    {
        let first = self.leading();
        if self.goes_up(first) {
            First {
                digits: first.digits + 1,
                ..first
            }
        } else {
            first
        }
    }

    #[tactic(auto, using(crate::proofs::Nine::halves))]
    fn goes_up(&self, first: First) -> bool
        requires first { first ≡ first_of self.now }
        requires bounds { Leading 200 first }
        ensures { result ≡ goes_up self.now (10 ^ first.after) }
    {
        if first.after == 0 {
            return false;
        }
        let k = first.after - 1;
        let next = self.digits[k];
        if next != 5 {
            return 5 < next;
        }
        first.digits % 2 == 1 || self.has_below(k)
    }

    // Whether a digit below place `k` is not 0.
    fn has_below(&self, k: usize) -> bool
        requires { k ≤ 200 }
        ensures { result ≡ not (eqb (self.now % 10 ^ k) 0) }
    {
        self.digits[..k].iter().any(|digit| *digit != 0)
    }
}

// Digits without the zeros at their end.
#[tactic(auto, using(crate::proofs::Forms::trim_less, crate::proofs::Forms::trim_done))]
fn trimmed(digits: &[u8]) -> &[u8]
    ensures { result.now ≡ Decimal·trimmed digits.now }
{
    let mut kept = digits;
    while let [rest @ .., b'0'] = kept {
        kept = rest;
    }
    kept
}

impl<const N: usize> Page<N> {
    // The number with these bits.
    #[tactic(auto, using(crate::proofs::Pages::written_append), unfolding(crate::specs::Decimal::float))]
    pub fn float(&mut self, bits: u32)
        ensures { self.new ≡ written self.old (float bits) }
    {
        let magnitude = bits % 0x8000_0000;
        if 0x7F80_0000 < magnitude {
            self.text(b"nan");
            return;
        }
        if magnitude < bits {
            self.text(b"-");
        }
        self.magnitude(magnitude);
    }

    #[tactic(auto, unfolding(crate::specs::Decimal::magnitude_text))]
    fn magnitude(&mut self, magnitude: u32)
        requires { magnitude ≤ 0x7F80_0000 }
        ensures { self.new ≡ written self.old (magnitude_text magnitude) }
    {
        match magnitude {
            0x7F80_0000 => self.text(b"inf"),
            0 => self.text(b"0"),
            _ => self.finite(magnitude),
        }
    }

    // A finite magnitude but 0.
    fn finite(&mut self, magnitude: u32)
        requires { magnitude < 0x7F80_0000 }
        ensures { self.new ≡ written self.old (finite (units magnitude)) }
    {
        let number = Natural::units(magnitude);
        let first = number.nearest();
        let mut page = Page::<20>::new();
        page.number(first.digits);
        let digits = page.used();
        self.laid(trimmed(digits), first.after + digits.len() - 1);
    }

    // Digits of which the first stands at `place`; the units stand at place 149.
    #[tactic(auto, using(crate::proofs::Pages::written_append), unfolding(crate::specs::Decimal::laid, crate::specs::Page::written))]
    fn laid(&mut self, digits: &[u8], place: usize)
        ensures { self.new ≡ written self.old (laid digits.now place) }
    {
        if place < 145 {
            self.pointed(digits, 1);
            self.text(b"e-");
            self.exponent(149 - place);
        } else if place < 149 {
            self.text(b"0.");
            self.zeros(148 - place);
            self.text(digits);
        } else if place < 158 {
            self.pointed(digits, place - 148);
        } else {
            self.pointed(digits, 1);
            self.text(b"e+");
            self.exponent(place - 149);
        }
    }

    // The digits with a point after `n` of them, or with zeros up to there.
    #[tactic(auto, using(crate::proofs::Pages::written_append, crate::proofs::Forms::rest_all), unfolding(crate::specs::Decimal::pointed, crate::specs::Page::written))]
    fn pointed(&mut self, digits: &[u8], n: usize)
        ensures { self.new ≡ written self.old (pointed n digits.now) }
    {
        if n < digits.len() {
            self.text(&digits[..n]);
            self.text(b".");
            self.text(&digits[n..]);
        } else {
            self.text(digits);
            self.zeros(n - digits.len());
        }
    }

    // An exponent, of two digits at least.
    #[tactic(auto, using(crate::proofs::Pages::written_append), unfolding(crate::specs::Decimal::exponent))]
    fn exponent(&mut self, n: usize)
        ensures { self.new ≡ written self.old (exponent n) }
    {
        if n < 10 {
            self.text(b"0");
        }
        self.number(n as u64);
    }

    #[tactic(auto, using(std::proofs::lemmas::Grind::common_steps, crate::proofs::Pages::written_push), unfolding(crate::specs::Page::written))]
    fn zeros(&mut self, n: usize)
        ensures { self.new ≡ written self.old (replicate n 48) }
    {
        for _ in 0..n {
            self.push(b'0');
        }
    }
}
