// vm/eval/slot.rs: what a cell is to the float machine.
ghost use Rattle.std.specs.Prelude.{◌≡◌};
ghost use Rattle.eval.specs.Machine.{low, cell_of};

use numeric::fpu;

// The kinds of cells, by the numbers that C lends. The machine takes any other number for another kind.
pub const MISSING: u8 = 0;

pub const FLOAT: u8 = 1;

pub const HASH: u8 = 2;

pub const OTHER: u8 = 3;

// The lower half of a value.
pub fn low(value: u64) -> u32
    ensures { result ≡ low value }
{
    (value % 0x1_0000_0000) as u32
}

// A cell, as the machine reads it.
#[derive(Clone, Copy)]
pub enum Cell {
    Missing,
    Float(f32),
    Hash(u64),
    Other,
}

impl Cell {
    // The cell of a kind and a value.
    #[tactic(auto, unfolding(crate::specs::Machine::cell_of))]
    pub fn read(kind: u8, value: u64) -> Cell
        ensures { result ≡ cell_of kind value }
    {
        match kind {
            MISSING => Cell::Missing,
            FLOAT => Cell::Float(fpu::of_bits(low(value))),
            HASH => Cell::Hash(value),
            _ => Cell::Other,
        }
    }
}

// Cells that are read: their kinds, and the values beside them, as C lends them.
#[derive(Clone, Copy)]
pub struct Slots<'a> {
    pub kinds: &'a [u8],
    pub values: &'a [u64],
}
