// The records of a file, each checked against the parts that its opcode uses and the lengths of the tables. Only for the converter may
// one be a HostMath.
ghost use Rattle.std.specs.Prelude.{◌≡◌, ◌≤◌, ◌/◌, length};
ghost use Rattle.file.specs.Numbers.{numbered};
ghost use Rattle.file.specs.Records.{stray, refusal_at, records_refusal};
ghost use Rattle.file.specs.Limits.{parts_table, limit_of, limits_of};
ghost use Rattle.program.specs.Ranges.{parts_of};

use crate::Refusal;
use crate::parts_table::{PartsTable, parts_table};
use program::opcodes::{HOST_MATH, LAST, Part, Parts};

// How many entries each table has.
#[derive(Clone, Copy)]
pub struct Counts {
    pub names: usize,
    pub temps: usize,
    pub consts: usize,
    pub posts: usize,
    pub hashes: usize,
}

// What the records of a file are held to: the parts of each opcode and, by kind of part, the first number that sends one back.
#[derive(Drop)]
struct Bounds {
    counts: Counts,
    parts: PartsTable,
    // By kind, and no `match` on it: with one a record takes jumps through a table that cannot be foreseen.
    limits: [usize; 8],
    ghost of_ranges: { parts ≡ parts_table },
    ghost of_counts: { limits ≡ limits_of counts },
}

impl Bounds {
    fn new(counts: Counts) -> Bounds
        ensures { result.counts ≡ counts }
    {
        Bounds {
            counts,
            parts: parts_table(),
            limits: [
                1,
                counts.consts,
                counts.hashes,
                counts.names,
                counts.temps,
                counts.posts,
                0x1_0000_0000,
                0x1_0000_0000,
            ],
        }
    }

    // The parts of an opcode.
    #[tactic(auto, using(crate::proofs::Limits::placed))]
    fn parts(&self, op: u8) -> Parts
        requires { op ≤ LAST }
        ensures { result ≡ parts_of op }
    {
        self.parts.as_flattened()[op as usize]
    }

    // The first number that sends a part back.
    fn limit(&self, part: Part) -> usize
        ensures { result ≡ limit_of self.now.counts part }
    {
        self.limits[part as usize]
    }

    // Whether a record passes, or what sends it back. A HostMath that gets as far as 8 is there for the converter.
    #[tactic(auto, using(crate::proofs::Limits::below, crate::proofs::Limits::above, std::proofs::lemmas::Bool::Decides::nat_tests), unfolding(crate::specs::Records::record_refusal))]
    fn record(&self, bytes: &[u8], for_converter: bool) -> Result<(), Refusal>
        requires { length bytes.now ≡ 8 }
        ensures { numbered result ≡ refusal_at for_converter self.now.counts bytes.now 0 }
    {
        let op = bytes[0];
        if op == 0 || LAST < op {
            return Err(Refusal::NoOpcode);
        }
        if op == HOST_MATH && !for_converter {
            return Err(Refusal::Withdrawn);
        }
        let parts = self.parts(op);
        let choice = bytes[1] as u16;
        let post = endian::number_at::<u16>(bytes, 2) as usize;
        let arg = endian::number_at::<u32>(bytes, 4) as usize;
        if choice <= parts.choice
            && post < self.limit(parts.post)
            && arg < self.limit(parts.argument)
        {
            if op == HOST_MATH && 1 < choice {
                return Err(Refusal::ManyArguments);
            }
            return Ok(());
        }
        if parts.choice < choice || stray(parts.post, post) || stray(parts.argument, arg) {
            return Err(Refusal::StrayPart);
        }
        Err(Refusal::OutsideTable)
    }
}

// Whether an unused part is not 0.
fn stray(part: Part, v: usize) -> bool
    ensures { result ≡ stray part v }
{
    matches!(part, Part::Unused) && v != 0
}

// Whether all records of a code pass, or what sends the first that does not back.
#[tactic(auto, using(crate::proofs::Ascending::on_first, crate::proofs::Ascending::none_left))]
pub fn records(counts: Counts, code: &[u8], for_converter: bool) -> Result<(), Refusal>
    ensures { numbered result ≡ records_refusal for_converter counts code.now 0 (length code.now / 8) }
{
    let bounds = Bounds::new(counts);
    for bytes in code.chunks_exact(8) {
        bounds.record(bytes, for_converter)?;
    }
    Ok(())
}
