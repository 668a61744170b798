// What holds of the texts that are put on a page: laws, each the contract of a function that does nothing.
ghost use Rattle.std.specs.Prelude.{◌≡◌, map};
ghost use Rattle.print.specs.Decimal.{float};
ghost use Rattle.print.specs.Known.{patterns, decimals};
ghost use Rattle.print.specs.Page.{KeepsPage, Fills};

/// The numbers set out have the decimals set out.
#[tactic(auto, using(crate::proofs::Known::known_decimals))]
pub fn known_decimals()
    ensures { map float patterns ≡ decimals }
{}

/// A text leaves a page as many bytes, uses no more of them than there are, and where it has room as many more as it has; and one
/// that is as long as an empty page is all of it.
pub fn keeps_page()
    ensures keeps { KeepsPage }
    ensures fills { Fills }
{}
