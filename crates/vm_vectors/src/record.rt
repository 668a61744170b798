// A call of the packed list: a head of 47 bytes, and the lists after it (docs/VECTORS.md).
ghost use Rattle.std.specs.Prelude.{◌<◌};

use endian::number_at;
use eval::machine::Notices;
use std::array;
use vm::account::{Depths, End, Temps};
use vm::{Lengths, Terms};

// The bytes before the file.
const HEAD: usize = 47;

// The bytes that a call is read into. Behind the call are zeros: more than its lists can run past it.
pub const ROOM: usize = 8192;

// More than the cells of any call.
const CELLS: usize = 128;

// The flags of a head.
const STEP_LIMIT: u8 = 1;

const LOOP_LIMIT: u8 = 2;

const CELLS_LEFT: u8 = 4;

// A cell of a list: its kind, and eight bytes of value.
pub type Cell = [u8; 9];

// The parts of a call. `left` are the cells as the run left them.
#[derive(Clone, Copy)]
pub struct Record<'a> {
    head: [u8; HEAD],
    // None where the call ends within it.
    pub file: Option<&'a [u8]>,
    cells: &'a [Cell],
    context: &'a [Cell],
    // Whether a temp is set, and its number.
    temps: &'a [[u8; 5]],
    // The operands from the lowest: how many are equal, and their bits.
    pub runs: &'a [[u8; 8]],
    pub loops: &'a [[u8; 4]],
    pub handlers: &'a [[u8; 8]],
    pub left: &'a [Cell],
}

// Cells as a call takes them, kinds and values apart as C lends them, and zeros behind them.
#[derive(Drop)]
pub struct Cells {
    pub kinds: [u8; CELLS],
    pub values: [u64; CELLS],
}

// So many equal operands.
#[derive(Clone, Copy)]
pub struct Run {
    pub count: usize,
    pub bits: u32,
}

impl From<&[Cell]> for Cells {
    fn from(list: &[Cell]) -> Cells {
        Cells {
            kinds: array::from_fn(|i| list.get(i).map_or(0, |cell| cell[0])),
            values: array::from_fn(|i| list.get(i).map_or(0, |cell| number_at(cell, 1))),
        }
    }
}

impl From<&[u8; 8]> for Run {
    fn from(run: &[u8; 8]) -> Run {
        Run {
            count: number_at::<u32>(run, 0) as usize,
            bits: number_at(run, 4),
        }
    }
}

// So many entries at the start of the bytes, or as many as there are, and the rest.
fn list<const N: usize>(bytes: &[u8], count: u8) -> (&[[u8; N]], &[u8])
    requires { 0 < N }
{
    let length = N.saturating_mul(usize::from(count));
    let (list, rest) = bytes.split_at_checked(length).unwrap_or((bytes, &[]));
    (list.as_chunks().0, rest)
}

impl<'a> Record<'a> {
    // The parts of a call of `n` bytes. What lies past its end is 0.
    pub fn new(bytes: &'a [u8; ROOM], n: usize) -> Record<'a> {
        let head = array::from_fn(|i| bytes.get(i).copied().unwrap_or(0));
        let names = head[43] % 128;
        let start = HEAD + usize::from(number_at::<u16>(&head, 32));
        let call = bytes.get(..n).unwrap_or(bytes);
        let rest = bytes.get(start..).unwrap_or(&[]);
        let (cells, rest) = list(rest, names);
        let (context, rest) = list(rest, names);
        let (temps, rest) = list(rest, head[44] / 16);
        let (runs, rest) = list(rest, head[44] % 16);
        let (loops, rest) = list(rest, head[45]);
        let (handlers, rest) = list(rest, head[46]);
        Record {
            head,
            file: call.get(HEAD..start),
            cells,
            context,
            temps,
            runs,
            loops,
            handlers,
            left: if head[38] & CELLS_LEFT != 0 {
                list(rest, names).0
            } else {
                cells
            },
        }
    }

    pub fn terms(&self) -> Terms {
        let head = &self.head;
        let flags = head[38];
        Terms {
            this: number_at(head, 0),
            step_limit: (flags & STEP_LIMIT != 0).then_some(number_at(head, 4)),
            loop_limit: (flags & LOOP_LIMIT != 0).then_some(number_at(head, 12)),
            house_limit: None,
        }
    }

    pub fn names(&self) -> usize
        ensures { result < CELLS }
    {
        usize::from(self.head[43] % 128)
    }

    pub fn cells(&self) -> Cells {
        Cells::from(self.cells)
    }

    pub fn context(&self) -> Cells {
        Cells::from(self.context)
    }

    // The lengths of the working stores.
    pub fn lengths(&self) -> Lengths {
        let head = &self.head;
        Lengths {
            stack: number_at::<u32>(head, 16) as usize,
            loops: usize::from(head[39]),
            handlers: usize::from(head[40]),
        }
    }

    pub fn outcome(&self) -> u8 {
        self.head[41]
    }

    // How the run ended. Empty pops are not listed.
    pub fn end(&self) -> End {
        let head = &self.head;
        End {
            outcome: u32::from(self.outcome()),
            value: number_at(head, 20),
            position: u64::from(head[42]),
            charges: u64::from(number_at::<u32>(head, 24)),
            accumulator: number_at(head, 28),
            depths: self.depths(),
            notices: Notices {
                missing_member: u64::from(number_at::<u16>(head, 34)),
                access_underflow: u64::from(number_at::<u16>(head, 36)),
                loop_limit: u64::from(head[43] / 128),
            },
            empty_pops: 0,
            temps: self.temps(),
        }
    }

    // The operands are as many as the runs have.
    fn depths(&self) -> Depths {
        let counts = self.runs.iter().map(|run| Run::from(run).count);
        let operands = counts.fold(0usize, |n, count| n.saturating_add(count));
        Depths {
            stack: operands as u64,
            loops: u64::from(self.head[45]),
            handlers: u64::from(self.head[46]),
        }
    }

    // One that the file has not is not set.
    fn temps(&self) -> Temps {
        Temps {
            numbers: array::from_fn(|i| self.temps.get(i).map_or(0, |temp| number_at(temp, 1))),
            given: array::from_fn(|i| self.temps.get(i).is_some_and(|temp| temp[0] != 0)),
        }
    }
}
