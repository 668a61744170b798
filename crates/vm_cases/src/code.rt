// The file of a case: fixed counts, constants, posts and hashes, and the records that the case has.
use crate::floats;
use crate::op::Record;

// Where the constants, the posts, the hashes and the records start, and where the length of the records is.
const CONSTANTS: usize = 10;

const POSTS: usize = 77;

const HASHES: usize = 120;

const LENGTH: usize = 137;

const RECORDS: usize = 139;

// There is room for so many records.
const MOST: u8 = 24;

const SIZE: usize = 331;

// The bytes, with zeros behind the last record, and how many records there are. No ArrayVec: a case changes a byte and
// reads one behind the last, and cases are copied.
#[derive(Clone, Copy)]
pub struct CaseFile {
    bytes: [u8; SIZE],
    records: u8,
}

impl CaseFile {
    // A file with this code: 4 names, 2 temps, 16 constants, 5 posts, 2 hashes.
    pub fn new(code: &[Record]) -> CaseFile {
        let mut file = CaseFile {
            bytes: [0; SIZE],
            records: 0,
        };
        put(&mut file.bytes, 0, [1, 4, 0, 4, 0, 2, 0]);
        put(&mut file.bytes, 7, [2, 64, 0]);
        put(&mut file.bytes, 74, [3, 40, 0]);
        put(&mut file.bytes, 117, [4, 16, 0]);
        put(&mut file.bytes, 136, [5, 0, 0]);
        code.iter()
            .fold(file.constants().posts().hashes(), |f, &r| f.then(r))
    }

    // 1, 2, 3, 0, 2^-23 and the number below it in both signs, a NaN, and zeros.
    fn constants(self) -> CaseFile {
        let numbers = [
            floats::ONE,
            floats::TWO,
            floats::THREE,
            0,
            0x3400_0000,
            0x33FF_FFFF,
            0xB400_0000,
            0xB3FF_FFFF,
            0x7FC0_0001,
        ];
        (0..)
            .zip(numbers)
            .fold(self, |f, (i, bits)| f.constant(i, bits))
    }

    // The identity; 3 x + 0.5; (1, 0) and (1, -0) beside the identity; -2 x + 7.
    fn posts(self) -> CaseFile {
        self.post(0, floats::ONE, 0)
            .post(1, floats::THREE, 0x3F00_0000)
            .post(2, floats::ONE, 0)
            .post(3, floats::ONE, 0x8000_0000)
            .post(4, 0xC000_0000, 0x40E0_0000)
    }

    fn hashes(self) -> CaseFile {
        self.hash(0, 0x4040_0000).hash(1, 0x1234_5678_9ABC_DEF0)
    }

    // The same file with another constant, post or hash.
    pub fn constant(mut self, i: u8, bits: u32) -> CaseFile {
        put(
            &mut self.bytes,
            CONSTANTS + 4 * usize::from(i),
            bits.to_le_bytes(),
        );
        self
    }

    pub fn post(mut self, i: u8, scale: u32, offset: u32) -> CaseFile {
        let at = POSTS + 8 * usize::from(i);
        put(&mut self.bytes, at, scale.to_le_bytes());
        put(&mut self.bytes, at + 4, offset.to_le_bytes());
        self
    }

    pub fn hash(mut self, i: u8, bits: u64) -> CaseFile {
        put(
            &mut self.bytes,
            HASHES + 8 * usize::from(i),
            bits.to_le_bytes(),
        );
        self
    }

    // The same file with another byte.
    pub fn byte(mut self, at: usize, x: u8) -> CaseFile {
        put(&mut self.bytes, at, [x]);
        self
    }

    // The same file with one more record.
    pub fn then(mut self, record: Record) -> CaseFile {
        if self.records < MOST {
            let at = self.length();
            let records = self.records + 1;
            let length = 8 * records;
            let [a, b, c, d] = record.argument.to_le_bytes();
            let Record {
                opcode,
                choice,
                post,
                ..
            } = record;
            put(&mut self.bytes, at, [opcode, choice, post, 0, a, b, c, d]);
            put(&mut self.bytes, LENGTH, [length]);
            self.records = records;
        }
        self
    }

    // Converts the file, and says how many records, or what sends it back.
    pub fn convert(&mut self) -> Result<usize, file::Refusal> {
        let length = self.length().min(SIZE);
        convert::convert(&mut self.bytes[..length])
    }

    // The same file as the converter leaves it, or what sends it back.
    pub fn converted(mut self) -> Result<CaseFile, file::Refusal> {
        self.convert()?;
        Ok(self)
    }

    fn length(&self) -> usize {
        RECORDS + 8 * usize::from(self.records)
    }

    pub fn as_slice(&self) -> &[u8] {
        self.first(self.length())
    }

    // So many bytes of the file, or all that there are.
    pub fn first(&self, length: usize) -> &[u8] {
        &self.bytes[..length.min(SIZE)]
    }

    pub fn hash_bytes(&self) -> &[u8] {
        &self.bytes[HASHES..HASHES + 16]
    }
}

fn put<const N: usize>(file: &mut [u8; SIZE], at: usize, bytes: [u8; N]) {
    if let Some(place) = file.get_mut(at..at.saturating_add(N)) {
        place.copy_from_slice(&bytes);
    }
}
