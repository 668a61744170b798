// Little-endian numbers in a byte string.
#![tactic(auto)]

ghost use Rattle.std.specs.Prelude.{◌≡◌, ℕ, ◌+◌, ◌≤◌, List, length};
ghost use Rattle.endian.specs.Endian.{u16_at, u32_at, u64_at};

// A number that a byte string holds, the lowest byte first. Each `at` names its bytes and takes no `first_chunk`, which
// leaves a test of the length before the load.
pub trait LittleEndian: Sized {
    // How many bytes it takes.
    ghost size: { ℕ };

    // The number that begins at a place.
    ghost at_place: { List ℕ → ℕ → Self };

    fn at(s: &[u8], at: usize) -> Self
        requires { at + size ≤ length s.now }
        ensures { result ≡ at_place s.now at };
}

impl LittleEndian for u16 {
    ghost size = { 2 };

    ghost at_place = { u16_at };

    fn at(s: &[u8], at: usize) -> u16 {
        u16::from_le_bytes([s[at], s[at + 1]])
    }
}

impl LittleEndian for u32 {
    ghost size = { 4 };

    ghost at_place = { u32_at };

    fn at(s: &[u8], at: usize) -> u32 {
        u32::from_le_bytes([s[at], s[at + 1], s[at + 2], s[at + 3]])
    }
}

impl LittleEndian for u64 {
    ghost size = { 8 };

    ghost at_place = { u64_at };

    fn at(s: &[u8], at: usize) -> u64 {
        u64::from_le_bytes([
            s[at],
            s[at + 1],
            s[at + 2],
            s[at + 3],
            s[at + 4],
            s[at + 5],
            s[at + 6],
            s[at + 7],
        ])
    }
}

// The number that begins at a place.
pub fn number_at<T: LittleEndian>(s: &[u8], at: usize) -> T
    requires { at + T.size ≤ length s.now }
    ensures { result ≡ T.at_place s.now at }
{
    T::at(s, at)
}
