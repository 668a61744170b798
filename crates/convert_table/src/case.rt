// A file of the table: what it has to give, the file as it comes to the converter, and the file as it has to leave it
// (docs/FILE_TABLE.md).
ghost use Rattle.std.specs.Prelude.{◌≡◌, length};

use print::given::read_full;
use std::fs::File;
use std::io::BufReader;

// The bytes of a head.
const HEAD: usize = 5;

// How many bytes the file has, what sends it back or 0, and how many records are converted.
#[derive(Clone, Copy)]
pub struct Head {
    pub length: u16,
    pub refusal: u8,
    pub records: u16,
}

impl Head {
    // The next head, each number with its least byte first. None at the end of the table.
    pub fn read(table: &mut BufReader<File>) -> Option<Head> {
        let mut head = [0; HEAD];
        if read_full(table, &mut head) < HEAD {
            return None;
        }
        let [a, b, refusal, c, d] = head;
        Some(Head {
            length: u16::from_le_bytes([a, b]),
            refusal,
            records: u16::from_le_bytes([c, d]),
        })
    }

    // Reads the file, and what it has to become: itself, where no record is converted. Answers whether the table has all.
    pub fn read_file(self, table: &mut BufReader<File>, file: &mut [u8], wanted: &mut [u8]) -> bool
        requires { length file.old ≡ length wanted.old }
    {
        let n = file.len();
        if read_full(table, file) < n {
            return false;
        }
        if self.records == 0 {
            wanted.copy_from_slice(file);
            return true;
        }
        read_full(table, wanted) == n
    }

    // Converts the file, and answers whether that gives and leaves what it has to.
    pub fn agrees(self, file: &mut [u8], wanted: &[u8]) -> bool {
        match convert::convert(file) {
            Ok(records) => {
                self.refusal == 0
                    && records == usize::from(self.records)
                    && *file == *wanted
                    && stays(file, wanted)
            }
            Err(refusal) => u8::from(refusal) == self.refusal && *file == *wanted,
        }
    }
}

// Whether a converted file passes every other check, and has no more to convert.
fn stays(file: &mut [u8], wanted: &[u8]) -> bool {
    file::check(file).is_ok() && convert::convert(file) == Ok(0) && *file == *wanted
}
