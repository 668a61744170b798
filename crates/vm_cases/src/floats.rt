// The numbers that the cases want, by their bits.
pub const ONE: u32 = 0x3F80_0000;

pub const TWO: u32 = 0x4000_0000;

pub const THREE: u32 = 0x4040_0000;

// The one NaN.
pub const NAN: u32 = 0x7FC0_0000;
