// The five fields of a file, one after another: a tag, a length, a body.
ghost use Rattle.std.specs.Prelude.{◌≡◌, ◌&&◌, ◌<◌, ◌%◌, eqb, leb};
ghost use Rattle.file.specs.Fields.{named, body, rest, consts, posts, hashes, code, length_fits};
ghost use Rattle.file.specs.Numbers.{number_of_tag};

// The tags, in the order of the fields.
#[derive(Clone, Copy, Debug, PartialEq, Eq)]
pub enum Tag {
    Counts = 1,
    Consts = 2,
    Posts = 3,
    Hashes = 4,
    Code = 5,
}

// Its number.
impl From<Tag> for u8 {
    ghost from_gives = { λ tag n. n ≡ number_of_tag tag };

    fn from(tag: Tag) -> u8 {
        tag as u8
    }
}

// The length that the field at the head of `s` names; 0 where `s` ends in it.
#[tactic(auto, unfolding(crate::specs::Fields::named))]
fn named(s: &[u8]) -> u16
    ensures { result ≡ named s.now }
{
    if s.len() < 3 {
        0
    } else {
        endian::number_at::<u16>(s, 1)
    }
}

// The body of the field at the head of `s`, as far as `s` has it.
#[tactic(auto, unfolding(crate::specs::Fields::body))]
pub fn body(s: &[u8]) -> &[u8]
    ensures { result.now ≡ body s.now }
{
    let after = s.get(3..).unwrap_or_default();
    after.get(..named(s) as usize).unwrap_or(after)
}

// What follows the field at the head of `s`.
#[tactic(auto, unfolding(crate::specs::Fields::rest))]
pub fn rest(s: &[u8]) -> &[u8]
    ensures { result.now ≡ rest s.now }
{
    s.get(3 + named(s) as usize..).unwrap_or_default()
}

// Whether a length is a whole count of entries of `size` bytes, and at most `most` bytes.
#[tactic(auto, using(std::proofs::lemmas::Bool::Decides::nat_tests))]
fn whole(size: usize, most: usize, n: usize) -> bool
    requires { 0 < size }
    ensures { result ≡ (eqb (n % size) 0 && leb n most) }
{
    n % size == 0 && n <= most
}

// Whether the field of a tag may have a length: 4,096 constants, 1,024 posts, 256 hashes, 4,096 records at most.
#[tactic(auto, using(std::proofs::lemmas::Bool::Decides::nat_tests), unfolding(crate::specs::Fields::length_fits))]
pub(crate) fn length_fits(tag: Tag, n: usize) -> bool
    ensures { result ≡ length_fits (number_of_tag tag) n }
{
    match tag {
        Tag::Counts => n == 4,
        Tag::Consts => whole(4, 16384, n),
        Tag::Posts => whole(8, 8192, n),
        Tag::Hashes => whole(8, 2048, n),
        Tag::Code => whole(8, 32768, n),
    }
}

// The bodies of fields 2 to 5 of a file, each by its name: a function of the tag would be a loop over the fields.
pub fn consts(file: &[u8]) -> &[u8]
    ensures { result.now ≡ consts file.now }
{
    body(rest(file))
}

pub fn posts(file: &[u8]) -> &[u8]
    ensures { result.now ≡ posts file.now }
{
    body(rest(rest(file)))
}

pub fn hashes(file: &[u8]) -> &[u8]
    ensures { result.now ≡ hashes file.now }
{
    body(rest(rest(rest(file))))
}

pub fn code(file: &[u8]) -> &[u8]
    ensures { result.now ≡ code file.now }
{
    body(rest(rest(rest(rest(file)))))
}
