// Records by their opcodes, and the constants of the file that every case has.
pub use program::opcodes::Opcode as Op;

// A record of the code.
#[derive(Clone, Copy)]
pub struct Record {
    pub opcode: u8,
    pub choice: u8,
    pub post: u8,
    pub argument: u32,
}

// The records of an opcode.
pub trait ToRecord: Sized {
    // The record with an argument alone.
    fn with(self, argument: u32) -> Record;

    // The record with nothing.
    fn alone(self) -> Record {
        self.with(0)
    }
}

impl ToRecord for Op {
    fn with(self, argument: u32) -> Record {
        Record {
            opcode: u8::from(self),
            choice: 0,
            post: 0,
            argument,
        }
    }
}

impl Record {
    // The record of the first four bytes, as a number, and the argument.
    pub fn new(head: u32, argument: u32) -> Record {
        let [opcode, choice, post, _] = head.to_le_bytes();
        Record {
            opcode,
            choice,
            post,
            argument,
        }
    }

    pub fn choosing(mut self, choice: u8) -> Record {
        self.choice = choice;
        self
    }

    pub fn posted(mut self, post: u8) -> Record {
        self.post = post;
        self
    }
}

// Indices of constants.
pub const ONE: u32 = 0;

pub const TWO: u32 = 1;

pub const THREE: u32 = 2;

pub const ZERO: u32 = 3;

pub const GUARD: u32 = 4;

pub const BELOW: u32 = 5;

pub const MINUS_GUARD: u32 = 6;

pub const MINUS_BELOW: u32 = 7;

pub const NAN: u32 = 8;
