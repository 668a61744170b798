// Why a call is sent back.
ghost use Rattle.std.specs.Prelude.{◌≡◌};
ghost use Rattle.vm.specs.Numbers.{number_of_refusal};
ghost use Rattle.vm.specs.declared.refusals.Refusal.TheVariants.{File};

/// What sends a call back: the first fault that is met.
#[derive(Clone, Copy, Debug, PartialEq, Eq)]
pub enum Refusal {
    /// 1 to 9 or 14: the file is.
    File(file::Refusal),
    /// 10: cells or context not one per name, a kind over 3, a float value of 2^32 or more, a working store over its
    /// maximum.
    Stores,
}

impl From<file::Refusal> for Refusal {
    ghost from_gives = { λ e r. r ≡ File e };

    fn from(refusal: file::Refusal) -> Refusal {
        Refusal::File(refusal)
    }
}

// Its number.
impl From<Refusal> for u32 {
    ghost from_gives = { λ e n. n ≡ number_of_refusal e };

    fn from(refusal: Refusal) -> u32 {
        match refusal {
            Refusal::File(refusal) => u32::from(u8::from(refusal)),
            Refusal::Stores => 10,
        }
    }
}
