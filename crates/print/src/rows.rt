// A list of rows of `N` bytes each, one after the other to its end.
ghost use Rattle.std.specs.Prelude.{◌≡◌, ◌<◌, ◌-◌, ◌^◌, IfOk, MatchOption};
ghost use Rattle.std.specs.Io.KnownBytes.{Consumes, IsAtEnd};
ghost use Rattle.std.specs.Iterator.{at_most};

use std::io::BufRead;

// Why a list gives no more rows before its end: it ends within one, or it can't be read.
#[derive(Clone, Copy, PartialEq, Eq)]
pub enum Stop {
    Cut,
    Failed,
}

// The rows that are still to come. Nothing says that a list ends, so they are counted: no more come than 2^64 - 1.
#[derive(Drop)]
pub struct Rows<R, const N: usize> {
    list: R,
    left: u64,
}

impl<R: BufRead, const N: usize> Rows<R, N> {
    pub fn new(list: R) -> Rows<R, N>
        ensures list { result.list ≡ list }
        ensures left { result.left ≡ 2 ^ 64 - 1 }
    {
        Rows {
            list,
            left: u64::MAX,
        }
    }
}

// The next row, or why there is none. None at the end of the list.
impl<R: BufRead + Drop, const N: usize> Iterator for Rows<R, N> {
    type Item = Result<[u8; N], Stop>;

    ghost next_gives = { λ s r t. (t.left ≡ s.left - 1) × MatchOption r (0 < s.left → IsAtEnd (R.remaining s.list))
        (λ row. (0 < s.left) × IfOk row (λ bytes. Consumes (R.remaining s.list) (R.remaining t.list) bytes)) };

    ghost remaining = { λ s. at_most s.left };

    fn next(&mut self) -> Option<Result<[u8; N], Stop>> {
        self.left = self.left.checked_sub(1)?;
        match self.list.fill_buf() {
            Ok([]) => None,
            Ok(_) => Some(whole(&mut self.list)),
            Err(_) => Some(Err(Stop::Failed)),
        }
    }

    // As by default; the default's own body would ask for the size of `R`.
    fn size_hint(&self) -> (usize, Option<usize>) {
        (0, None)
    }
}

// The first `N` bytes of a list.
fn whole<R: BufRead, const N: usize>(list: &mut R) -> Result<[u8; N], Stop>
    ensures { IfOk result (λ bytes. Consumes (R.remaining list.old) (R.remaining list.new) bytes) }
{
    let mut row = [0; N];
    list.read_exact(&mut row).map_err(|_| Stop::Cut)?;
    Ok(row)
}
