// A page: a buffer that a text is put together in. Each method puts something after the bytes that are used, as far as
// there is room.
ghost use Rattle.std.specs.Prelude.{◌≡◌, ◌<◌, ◌≤◌, ◌↔◌, IsTrue, length, take, replicate};
ghost use Rattle.print.specs.Page.{page_of, with, written};
ghost use Rattle.print.specs.Texts.{decimal, hex, hex_digit};

use std::marker::Model;

// The bytes, and `used` beside them: an `ArrayVec` has only the used ones, and its view would have to add the others.
#[derive(Drop)]
pub struct Page<const N: usize> {
    bytes: [u8; N],
    used: usize,
}

impl<const N: usize> Model for Page<N> {
    ghost use Rattle.std.specs.Prelude.{◌≤◌, length};
    ghost use Rattle.print.specs.Page.{Page as Value·page, page_of};

    ghost Value = { Value·page };

    ghost view = { λ p. page_of p.bytes p.used };

    ghost invariant = { λ p. p.used ≤ length p.bytes };
}

impl<const N: usize> Page<N> {
    pub fn new() -> Page<N>
        ensures { result ≡ page_of (replicate N 0) 0 }
    {
        Page {
            bytes: [0; N],
            used: 0,
        }
    }

    #[tactic(auto, using(crate::proofs::Pages::with_room, crate::proofs::Pages::with_full))]
    pub fn push(&mut self, byte: u8)
        ensures { self.new ≡ with self.old byte }
    {
        if self.used < N {
            self.bytes[self.used] = byte;
            self.used += 1;
        }
    }

    #[tactic(auto, using(std::proofs::lemmas::Grind::common_steps, crate::proofs::Pages::written_push), unfolding(crate::specs::Page::written))]
    pub fn text(&mut self, text: &[u8])
        ensures { self.new ≡ written self.old text.now }
    {
        for byte in text {
            self.push(*byte);
        }
    }

    // A number in decimal. By hand: std says what `{n}` writes only where the writer answers Ok, which no clause promises.
    #[tactic(auto, using(crate::proofs::Digits::numerals, crate::proofs::Pages::written_push), unfolding(crate::specs::Page::written))]
    pub fn number(&mut self, n: u64)
        ensures { self.new ≡ written self.old (decimal n) }
    {
        if n < 10 {
            self.push(digit(n));
        } else {
            self.number(n / 10);
            self.push(digit(n % 10));
        }
    }

    // 32 bits as eight hexadecimal digits.
    pub fn bits(&mut self, bits: u32)
        ensures { self.new ≡ written self.old (hex 8 bits) }
    {
        self.hex(8, bits as u64);
    }

    // 64 bits as sixteen hexadecimal digits.
    pub fn long(&mut self, bits: u64)
        ensures { self.new ≡ written self.old (hex 16 bits) }
    {
        self.hex(16, bits);
    }

    // The last `k` hexadecimal digits of a number, in capitals. By hand as `number` is.
    #[tactic(auto, using(crate::proofs::Pages::written_push), unfolding(crate::specs::Page::written, crate::specs::Texts::hex))]
    fn hex(&mut self, k: u8, n: u64)
        ensures { self.new ≡ written self.old (hex k n) }
    {
        if 0 < k {
            self.hex(k - 1, n / 16);
            self.push(digit(n % 16));
        }
    }

    // What is put on it.
    pub fn used(&self) -> &[u8]
        ensures { result.now ≡ take self.now.end self.now.bytes }
    {
        &self.bytes[..self.used]
    }

    // Whether nothing more has room.
    pub fn is_full(&self) -> bool
        ensures { IsTrue result ↔ (length self.now.bytes ≤ self.now.end) }
    {
        self.used == N
    }
}

// A digit, in capitals.
#[tactic(auto, unfolding(crate::specs::Texts::hex_digit))]
fn digit(d: u64) -> u8
    requires { d < 16 }
    ensures { result ≡ hex_digit d }
{
    if d < 10 {
        b'0' + d as u8
    } else {
        b'A' - 10 + d as u8
    }
}
