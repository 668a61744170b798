// What holds of the arithmetic, whatever it is given: laws, each the contract of a function that does nothing.
ghost use Rattle.std.specs.Prelude.{◌≡◌, ◌<◌, ◌%◌, ◌/◌, ◌+◌, ◌^◌, ℕ, Bool};
ghost use Rattle.std.specs.Float.{binary32};
ghost use Rattle.std.specs.Float.Ieee as ieee;
ghost use Rattle.numeric.specs.Numbers.{float, entered, negative, magnitude, rem};
ghost use Rattle.numeric.specs.Arithmetic.{plain, applied, negated};
ghost use Rattle.numeric.specs.OneNan.{Enters, MakesOneNan};
ghost use Rattle.numeric.specs.Whole.{abs, FloorLaws, CeilLaws, TruncLaws, AbsLaws, LargeIsWhole, PartIsValue, CutIsPart, part_if, whole_above};

/// What enters is 7FC00000 where it is a NaN, and else itself, so that it is no other NaN.
pub fn one_nan_enters()
    ensures { (n : ℕ) → Enters n }
{}

/// No operation gives a NaN but 7FC00000, whatever its operands, and a post gives none where its input is none.
#[tactic(auto, using(crate::proofs::OneNan::makes_one_nan))]
pub fn makes_one_nan()
    ensures { MakesOneNan }
{}

/// Post 0 gives its input unchanged, the bits of a NaN too.
pub fn plain_applied()
    ensures { (x : ℕ) → applied plain.op x ≡ x }
{}

/// Negate under post 0 turns the sign over, and a NaN becomes 7FC00000.
pub fn plain_negated()
    ensures { (x : ℕ) → negated x plain ≡ entered (negative x) }
{}

/// The sign's bit turned over is the negation, of zeros and infinities too.
pub fn negative_is_neg()
    ensures { (n : ℕ) → n < 2 ^ 32 → float (negative n) ≡ ieee.neg (float n) }
{}

/// The sign's bit cleared is the magnitude, of zeros and infinities too.
#[tactic(auto, using(crate::proofs::Signs::magnitude_is_abs))]
pub fn magnitude_is_abs()
    ensures { (n : ℕ) → float (magnitude n) ≡ abs (float n) }
{}

/// The pattern of a remainder stands for the remainder: writing it loses nothing.
#[tactic(auto, using(crate::proofs::Rems::float_rem))]
pub fn float_rem()
    ensures { (a b : ℕ) → float (rem a b) ≡ ieee.rem binary32 (float a) (float b) }
{}

/// Floor gives the greatest whole number that is not above.
pub fn floor_laws()
    ensures { (n : ℕ) → n < 2 ^ 32 → FloorLaws n }
{}

/// Ceil gives the least whole number that is not below.
pub fn ceil_laws()
    ensures { (n : ℕ) → n < 2 ^ 32 → CeilLaws n }
{}

/// Trunc gives the whole number next to it towards zero: of a negative number what Ceil gives, and else what Floor gives.
pub fn trunc_laws()
    ensures { (n : ℕ) → n < 2 ^ 32 → TruncLaws n }
{}

/// Abs clears the sign of every number, of zeros and infinities too, and gives 7FC00000 of a NaN.
#[tactic(auto, using(crate::proofs::WholeLaws::abs_laws))]
pub fn abs_laws()
    ensures { (n : ℕ) → AbsLaws n }
{}

/// From 2^23 on every finite number is whole.
#[tactic(auto, using(crate::proofs::WholeLaws::large_is_whole))]
pub fn large_is_whole()
    ensures { (n : ℕ) → LargeIsWhole n }
{}

/// Nothing is rounded: the whole part of a number, above it or below, is a value of the format.
#[tactic(auto, using(crate::proofs::WholeLaws::part_is_value))]
pub fn part_value()
    ensures { (n : ℕ) → PartIsValue n }
{}

/// The whole parts above a fraction and below it are one where it is whole, and else the one above is one more.
pub fn whole_parts()
    ensures whole { (above : Bool) (a c : ℕ) → a % c ≡ 0 → part_if above a c ≡ a / c }
    ensures more { (a c : ℕ) → (a % c ≡ 0 → ⊥) → whole_above a c ≡ a / c + 1 }
{}

/// One cut of the digits below the point serves Floor, Ceil and Trunc: with what is added first, or nothing, it leaves the whole
/// part on that side.
pub fn cut_is()
    ensures { CutIsPart }
{}
