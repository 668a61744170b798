// A row of the list: an edit of the file at hand, and the answer to the file where the edit completes it
// (docs/FILE_TABLE.md).
use file::ROOM;

pub const ROW: usize = 8;

// In place of an answer: the file is not complete.
const UNASKED: u8 = 255;

// An edit, and the answer by its number, as the list has it.
#[derive(Clone, Copy)]
pub struct Row {
    pub edit: Edit,
    pub answer: Option<u8>,
}

// What is done to the file at hand.
#[derive(Clone, Copy)]
pub enum Edit {
    // A byte, or four, at a place.
    Byte { at: u16, byte: u8 },
    Word { at: u16, bytes: [u8; 4] },
    // `count` bytes from a place on, each like the one `distance` before it.
    Copy { at: u16, distance: u16, count: u16 },
    // Another length.
    Length(u16),
}

impl Row {
    // The edit, the answer, the place and the value; each number has its least byte first. None where there is no such edit.
    pub fn read(row: [u8; ROW]) -> Option<Row> {
        let [edit, answer, low, high, a, b, c, d] = row;
        let at = u16::from_le_bytes([low, high]);
        let edit = match edit {
            0 => Edit::Byte { at, byte: a },
            1 => Edit::Word {
                at,
                bytes: [a, b, c, d],
            },
            2 => Edit::Copy {
                at,
                distance: u16::from_le_bytes([a, b]),
                count: u16::from_le_bytes([c, d]),
            },
            3 => Edit::Length(at),
            _ => return None,
        };
        let answer = (answer != UNASKED).then_some(answer);
        Some(Row { edit, answer })
    }
}

// The file at hand: the first bytes of a buffer. What lies beyond its length stays.
#[derive(Drop)]
pub struct Draft {
    bytes: [u8; ROOM],
    length: u16,
}

impl Draft {
    pub fn new() -> Draft {
        Draft {
            bytes: [0; ROOM],
            length: 0,
        }
    }

    pub fn file(&self) -> &[u8] {
        &self.bytes[..usize::from(self.length)]
    }

    pub fn set_length(&mut self, length: u16) {
        self.length = length;
    }

    // Edits the bytes, and answers the length that the file has to have; none where the edit leaves the buffer.
    pub fn change(&mut self, edit: Edit) -> Option<u16> {
        match edit {
            Edit::Byte { at, byte } => self.put(at, [byte])?,
            Edit::Word { at, bytes } => self.put(at, bytes)?,
            Edit::Copy {
                at,
                distance,
                count,
            } => self.copy(at, distance, count)?,
            Edit::Length(length) => return Some(length),
        }
        Some(self.length)
    }

    // Bytes at a place.
    fn put<const N: usize>(&mut self, at: u16, bytes: [u8; N]) -> Option<()> {
        let place = self.bytes.get_mut(usize::from(at)..)?.first_chunk_mut()?;
        *place = bytes;
        Some(())
    }

    // `count` bytes from a place on, each like the one `distance` before it. By index: it may read what it wrote.
    fn copy(&mut self, at: u16, distance: u16, count: u16) -> Option<()> {
        let at = usize::from(at);
        for to in at..at + usize::from(count) {
            let from = to.checked_sub(usize::from(distance))?;
            let byte = *self.bytes.get(from)?;
            *self.bytes.get_mut(to)? = byte;
        }
        Some(())
    }
}
