// Replays the list of the Rust's answers (docs/VECTORS.md): makes each call of the list again, and holds the account to
// the one that the list has. Writes the first calls that differ, if any do, and how many ended in which way.
#![tactic(auto)]

mod compare;
mod field;
mod record;
mod replay;
mod tally;

use print::given::read_full;
use record::{ROOM, Record};
use replay::Stores;
use std::fs::File;
use std::io;
use std::io::BufReader;
use tally::Tally;

// The longest call of a list.
const LONGEST: usize = 1024;

fn main(rt: HostRuntime) -> io::Result<()> {
    let mut tally = Tally::new(rt)?;
    match File::open(&rt, "vectors") {
        Ok(file) => {
            let mut list = BufReader::new(rt.alloc(), file)?;
            let calls = replay_all(&mut list, &mut tally);
            tally.print(calls);
        }
        Err(e) => eprintln!(rt; "vectors: {e}")?,
    }
    tally.flush()
}

// Replays the calls to the end of the list, and answers how many there were.
fn replay_all(list: &mut BufReader<File>, tally: &mut Tally) -> u64 {
    let mut stores = Stores::new();
    // No iterator: a call is lent from the buffer that it is read into. A number ends it: nothing says that a list ends.
    for number in 0..u64::MAX {
        let mut buffer = [0u8; ROOM];
        let Some(n) = read_call(list, &mut buffer[..LONGEST], tally) else {
            return number;
        };
        let record = Record::new(&buffer, n);
        tally.count(number, record.outcome(), stores.replay(&record));
    }
    u64::MAX
}

// Reads the size of a call, and the call, and answers its size; none at the end of the list.
fn read_call(list: &mut BufReader<File>, buffer: &mut [u8], tally: &mut Tally) -> Option<usize> {
    let mut size = [0u8; 2];
    if read_full(list, &mut size) == 0 {
        return None;
    }
    let n = usize::from(u16::from_le_bytes(size));
    if n == 0 {
        return None;
    }
    if let Some(call) = buffer.get_mut(..n) {
        if read_full(list, call) == n {
            return Some(n);
        }
    }
    tally.put("the list ends within a call, or a call is too long\n");
    None
}
