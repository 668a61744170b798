// The arguments of a program.
ghost use Rattle.std.specs.Prelude.{◌≡◌, ◌+◌, ◌<◌, ◌≤◌, ◌↔◌, min, length, replicate, slice_get, option_map};
ghost use Rattle.std.specs.Prelude.{Some, IsTrue, IsOkAnd, IfNone, IfSome, MatchOption};
ghost use Rattle.print.specs.Texts.{text};
ghost use Rattle.print.specs.Words.{bytes_of};
ghost use Rattle.report.specs.Words.{number_of, place_of, place_found, house_found, word_read, word_at, terms_given};

use crate::cells::CellFile;
use crate::words::{BadArgument, terms_of};
use print::given::{Words, arg, arg_count, is_first};
use print::replace::Reported;
use std::env::FillError;
use vm::Terms;

// The arguments, by their places where --house and its number are left out.
#[derive(Clone, Copy, Debug, PartialEq, Eq)]
pub enum Argument {
    File = 1,
    Cells = 2,
    Steps = 3,
    Loops = 4,
    This = 5,
    Context = 6,
}

// How many arguments there are, the program's name among them, and whether --house and its number stand before all others.
#[derive(Clone, Copy)]
pub struct Arguments {
    count: usize,
    housed: bool,
}

impl Arguments {
    pub fn given<W: Words>(words: &W) -> Arguments
        ensures count { IfSome (W.known words.now) (λ all. result.count ≡ min (length all) usize.MAX) }
        ensures housed { IfSome (W.known words.now) (λ all. IsTrue result.housed ↔ (slice_get all 1 ≡ Some (text "--house"))) }
    {
        Arguments {
            count: arg_count(words),
            housed: is_first(words, b"--house"),
        }
    }

    pub fn ask_for_help<W: Words>(words: &W) -> bool
        ensures { IfSome (W.known words.now) (λ all. IsTrue result ↔ (slice_get all 1 ≡ Some (text "--help"))) }
    {
        is_first(words, b"--help")
    }

    // Its place, which is two further on where --house and its number stand before it.
    #[tactic(auto, unfolding(crate::specs::Words::place_of))]
    pub fn place(self, argument: Argument) -> usize
        ensures { result ≡ place_of self.housed (number_of argument) }
    {
        let n = argument as usize;
        if self.housed { n + 2 } else { n }
    }

    // Its place, where it is there.
    fn found(self, argument: Argument) -> Option<usize>
        ensures { result ≡ place_found self.housed self.count argument }
    {
        Some(self.place(argument)).filter(|i| *i < self.count)
    }

    // The place of HOUSE: after --house, where that is there.
    fn house_found(self) -> Option<usize>
        ensures { result ≡ house_found self.housed }
    {
        self.housed.then_some(2)
    }

    // Whether FILE and CELLS are there, and nothing after CONTEXT.
    #[tactic(auto, unfolding(crate::specs::Words::place_of))]
    pub fn fit_the_form(self) -> bool
        ensures { IsTrue result ↔ ((place_of self.housed 2 < self.count) × (self.count ≤ place_of self.housed 6 + 1)) }
    {
        self.place(Argument::Cells) < self.count && self.count <= self.place(Argument::Context) + 1
    }

    // The terms that they name.
    #[tactic(auto, unfolding(crate::specs::Words::terms_given))]
    pub fn terms<W: Words>(self, words: &W) -> Result<Terms, BadArgument>
        ensures { IfSome (W.known words.now) (λ all. result ≡ terms_given all self.housed self.count) }
    {
        let mut steps = [0u8; 20];
        let mut loops = [0u8; 20];
        let mut this = [0u8; 8];
        let mut house = [0u8; 20];
        terms_of(
            word(words, self.found(Argument::Steps), b"none", &mut steps),
            word(words, self.found(Argument::Loops), b"none", &mut loops),
            word(words, self.found(Argument::This), b"00000000", &mut this),
            word(words, self.house_found(), b"none", &mut house),
        )
    }

    // The cells of the context, by `load` at its place, or as many missing ones where it is left out.
    pub fn context<L: FnOnce(usize) -> Result<CellFile, Reported>>(
        self,
        cells: &CellFile,
        load: L,
    ) -> Result<CellFile, Reported>
        requires { L.IsAlwaysCallable load }
        ensures { MatchOption (place_found self.housed self.count Argument.Context)
            (IsOkAnd result (λ context. context.bytes.items ≡ replicate (length cells.now.bytes.items) 0))
            (λ i. L.post load i result) }
    {
        match self.found(Argument::Context) {
            Some(i) => load(i),
            None => Ok(cells.missing()),
        }
    }
}

// The word at this place, which is put into `room`, or what stands for it where it is left out.
fn word<'a, W: Words>(
    words: &W,
    place: Option<usize>,
    otherwise: &'a [u8],
    room: &'a mut [u8],
) -> &'a [u8]
    ensures left_out { IfNone place (result.now ≡ otherwise.now) }
    ensures word { IfSome (W.known words.now) (λ all. result.now ≡ word_at all place (length room.old) otherwise.now) }
{
    match place {
        Some(i) => word_or(Some(arg(words, i, room)), otherwise),
        None => word_or(None, otherwise),
    }
}

// The word that was read, or what stands for it where it is left out. One that is too long has no bytes.
fn word_or<'a>(read: Option<Result<&'a [u8], FillError>>, otherwise: &'a [u8]) -> &'a [u8]
    ensures { result.now ≡ word_read (option_map bytes_of read.entry) otherwise.now }
{
    match read {
        Some(word) => word.unwrap_or(b""),
        None => otherwise,
    }
}
