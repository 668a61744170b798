// The cells: nine bytes each in a file, the kind and then the value, the least byte first; a line each on the page, by
// the methods of the page: what `write!` puts on one has no clause.
ghost use Rattle.std.specs.Prelude.{◌≡◌, ◌*◌, ◌/◌, ◌%◌, ◌<◌, ◌≤◌, length, replicate, IfOk};
ghost use Rattle.std.specs.Io.KnownBytes.{Consumes, IsAtEnd};
ghost use Rattle.print.specs.Page.{written};
ghost use Rattle.report.specs.Cells.{kinds_from, values_from, cells_bytes, cell_text, cell_line, cells_text};

use crate::account::append_value;
use crate::files::{open_argument, open_path};
use arrayvec::ArrayVec;
use eval::slot::{FLOAT, HASH, MISSING, Slots, low};
use print::given::read_whole;
use print::page::Page;
use print::replace::Reported;
use std::io::Read;

// The bytes of a cell.
const CELL: usize = 9;

// One more than a program can have: a longer file is answered by so many cells, which are too many as well.
const MOST: usize = 257;

const BYTES: usize = MOST * CELL;

// The bytes of a file of cells, nine for each.
#[derive(Drop)]
pub struct CellFile {
    pub bytes: ArrayVec<u8, BYTES>,
    ghost whole: { length bytes.items % 9 ≡ 0 },
}

// Cells as a call takes them: the kinds, and the values beside them.
#[derive(Drop)]
pub struct Cells {
    pub kinds: ArrayVec<u8, MOST>,
    pub values: ArrayVec<u64, MOST>,
}

impl CellFile {
    // Reads the cells of the file at `path`.
    // Touches the outside alone: no clause can say what that gives or takes.
    pub fn open(rt: &HostRuntime, path: &[u8]) -> Result<CellFile, Reported> {
        CellFile::read(rt, &mut open_path(rt, path)?)
    }

    // Reads the cells that argument `i` names.
    // Touches the outside alone: no clause can say what that gives or takes.
    pub fn load(rt: &HostRuntime, i: usize) -> Result<CellFile, Reported> {
        CellFile::read(rt, &mut open_argument(rt, i)?)
    }

    fn read<R: Read>(rt: &HostRuntime, file: &mut R) -> Result<CellFile, Reported>
        ensures read { IfOk result (λ cells. Consumes (R.remaining file.old) (R.remaining file.new) cells.bytes.items) }
        ensures ended { IfOk result (λ cells. length cells.bytes.items < BYTES → IsAtEnd (R.remaining file.new)) }
    {
        let mut bytes = ArrayVec::from([0u8; BYTES]);
        let Some(n) = read_whole(file, &mut bytes) else {
            return Err(Reported::saying(rt, "the cells cannot be read"));
        };
        if n % CELL != 0 {
            return Err(Reported::saying(
                rt,
                "a file of cells has nine bytes for each cell, and this one has some over",
            ));
        }
        bytes.truncate(n);
        Ok(CellFile { bytes })
    }

    // As many missing cells.
    pub fn missing(&self) -> CellFile
        ensures { result.bytes.items ≡ replicate (length self.now.bytes.items) 0 }
    {
        let mut bytes = ArrayVec::from([0u8; BYTES]);
        bytes.truncate(self.bytes.len());
        CellFile { bytes }
    }

    #[tactic(auto, using(std::proofs::lemmas::Grind::common_steps, crate::proofs::Chunks::lengths))]
    pub fn cells(&self) -> Cells
        ensures kinds { result.kinds.items ≡ kinds_from (length self.now.bytes.items / 9) self.now.bytes.items 0 }
        ensures values { result.values.items ≡ values_from (length self.now.bytes.items / 9) self.now.bytes.items 0 }
    {
        let mut kinds = ArrayVec::new();
        let mut values = ArrayVec::new();
        for cell in self.bytes.chunks_exact(CELL) {
            kinds.push(cell[0]);
            values.push(endian::number_at::<u64>(cell, 1));
        }
        Cells { kinds, values }
    }

    // Replaces the bytes by those of these cells.
    #[tactic(auto, unfolding(crate::specs::Pieces::pieces))]
    pub fn replace(&mut self, cells: &Cells)
        ensures { self.new.bytes.items ≡ cells_bytes cells.now.kinds.items cells.now.values.items }
    {
        self.bytes.clear();
        for (&kind, &value) in cells.kinds.iter().zip(cells.values.iter()) {
            self.bytes.push(kind);
            let bytes = value.to_le_bytes();
            self.bytes.try_extend_from_slice(&bytes).unwrap();
        }
    }
}

impl Cells {
    pub fn context(&self) -> Slots<'_>
        ensures kinds { result.kinds.now ≡ self.now.kinds.items }
        ensures values { result.values.now ≡ self.now.values.items }
    {
        Slots {
            kinds: &self.kinds,
            values: &self.values,
        }
    }
}

// A line for each cell.
#[tactic(auto, using(print::proofs::Pages::written_append), unfolding(print::specs::Page::written, crate::specs::Pieces::pieces))]
pub fn append_cells<const N: usize>(page: &mut Page<N>, cells: &Cells)
    ensures { page.new ≡ written page.old (cells_text cells.now.kinds.items cells.now.values.items) }
{
    for (i, (&kind, &value)) in cells.kinds.iter().zip(cells.values.iter()).enumerate() {
        append_line(page, i, kind, value);
    }
}

#[tactic(auto, using(print::proofs::Pages::written_append), unfolding(print::specs::Page::written, crate::specs::Cells::cell_line))]
fn append_line<const N: usize>(page: &mut Page<N>, i: usize, kind: u8, value: u64)
    ensures { page.new ≡ written page.old (cell_line i kind value) }
{
    page.text(b"cell ");
    page.number(i as u64);
    append_cell(page, kind, value);
    page.text(b"\n");
}

// By the kind, since eval's `Cell` has no value of another kind, and of a float no bits.
#[tactic(auto, using(print::proofs::Pages::written_append), unfolding(print::specs::Page::written, crate::specs::Cells::cell_text))]
fn append_cell<const N: usize>(page: &mut Page<N>, kind: u8, value: u64)
    ensures { page.new ≡ written page.old (cell_text kind value) }
{
    match kind {
        MISSING => page.text(b" missing"),
        FLOAT => {
            page.text(b" float ");
            append_value(page, low(value));
        }
        HASH => {
            page.text(b" hash ");
            page.long(value);
        }
        _ => {
            page.text(b" other ");
            page.long(value);
        }
    }
}
