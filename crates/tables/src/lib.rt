// compile/program.rs: a program's tables, read from the file's own bytes.
#![tactic(auto)]

ghost use Rattle.std.specs.Prelude.{◌≡◌, ◌<◌, ◌≤◌, ◌/◌, ◌*◌, length, take, drop, MatchOption};
ghost use Rattle.numeric.specs.Arithmetic.{applied};
ghost use Rattle.tables.specs.Tables.{const_bits, const_at, post_at, hash_at, instr_at, opcode_at, argument_at};

use numeric::fpu;
use numeric::post_op::Post;
use program::instr::{ConstIdx, HashIdx, Instr, PostIdx};
use program::opcodes::decode;

// A program: its records and its tables, each the bytes of its field's body.
#[derive(Clone, Copy)]
pub struct Program<'a> {
    pub code: &'a [u8],
    pub consts: &'a [u8],
    pub posts: &'a [u8],
    pub hashes: &'a [u8],
}

// Entry `i` of a table of N bytes each; none outside it.
fn entry<const N: usize>(table: &[u8], i: usize) -> Option<&[u8; N]>
    requires { 0 < N }
    ensures { MatchOption result (length table.now / N ≤ i) (λ bytes. (i < length table.now / N) × (bytes.now ≡ take N (drop (i * N) table.now))) }
{
    table.as_chunks().0.get(i)
}

impl Program<'_> {
    // The bits of constant `c`.
    fn const_bits(self, c: ConstIdx) -> u32
        ensures { result ≡ const_bits self.entry.consts.now c.0 }
    {
        match entry::<4>(self.consts, c.0 as usize) {
            Some(bytes) => endian::number_at::<u32>(bytes, 0),
            None => 0,
        }
    }

    // Constant `c`. It enters where both ways have joined: a test less in flight (docs/SPEED.md).
    #[tactic(auto, unfolding(crate::specs::Tables::const_at))]
    pub fn constant(self, c: ConstIdx) -> u32
        ensures { result ≡ const_at self.entry.consts.now c.0 }
    {
        fpu::enter(self.const_bits(c))
    }

    // Post `p`; post 0 is the identity, which the file check has seen to.
    #[tactic(auto, unfolding(crate::specs::Tables::post_at))]
    pub fn post(self, p: PostIdx) -> Post
        ensures { result ≡ post_at self.entry.posts.now p.0 }
    {
        if p == PostIdx::PLAIN {
            return Post::plain();
        }
        match entry::<8>(self.posts, p.0 as usize) {
            Some(bytes) => Post::new(
                endian::number_at::<u32>(bytes, 0),
                endian::number_at::<u32>(bytes, 4),
            ),
            None => Post::new(0, 0),
        }
    }

    // Post `p` of a number. Post 0, the usual one, is tested before any float is read.
    #[inline(always)]
    pub fn apply(self, p: PostIdx, x: u32) -> u32
        ensures { result ≡ applied (post_at self.entry.posts.now p.0).op x }
    {
        if p == PostIdx::PLAIN {
            return x;
        }
        self.post(p).op.apply(x)
    }

    // Hash `h`.
    #[tactic(auto, unfolding(crate::specs::Tables::hash_at))]
    pub fn hash(self, h: HashIdx) -> u64
        ensures { result ≡ hash_at self.entry.hashes.now h.0 }
    {
        match entry::<8>(self.hashes, h.0 as usize) {
            Some(bytes) => endian::number_at::<u64>(bytes, 0),
            None => 0,
        }
    }

    // The instruction at a position.
    #[tactic(auto, unfolding(crate::specs::Tables::instr_at))]
    pub fn fetch(self, pos: usize) -> Instr
        ensures { result ≡ instr_at self.entry.code.now pos }
    {
        match entry::<8>(self.code, pos) {
            Some(record) => decode(
                record[0],
                record[1],
                endian::number_at::<u16>(record, 2),
                endian::number_at::<u32>(record, 4),
            ),
            None => Instr::Outside,
        }
    }

    // The opcode at a position, or 0 outside the code: who looks for an opcode takes a byte 0, which is none, alike.
    #[tactic(auto, unfolding(crate::specs::Tables::opcode_at))]
    pub fn opcode(self, pos: usize) -> u8
        ensures { result ≡ opcode_at self.entry.code.now pos }
    {
        match entry::<8>(self.code, pos) {
            Some(record) => record[0],
            None => 0,
        }
    }

    // The argument of the record at a position, or 0 outside the code.
    #[tactic(auto, unfolding(crate::specs::Tables::argument_at))]
    pub fn argument(self, pos: usize) -> u32
        ensures { result ≡ argument_at self.entry.code.now pos }
    {
        match entry::<8>(self.code, pos) {
            Some(record) => endian::number_at::<u32>(record, 4),
            None => 0,
        }
    }
}
