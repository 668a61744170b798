// The parts of each opcode, asked of the ranges once for a file and not once for each of its records. Every opcode that is asked
// for here is a number in the code, so the compiler works the table out while it builds: in rows of four, since it leaves longer
// ones to the run (docs/SPEED.md).
ghost use Rattle.std.specs.Prelude.{◌≡◌, ◌≤◌};
ghost use Rattle.file.specs.Limits.{row, parts_table};

use program::opcodes::Parts;
use program::ranges::parts_of;

// By opcode, in rows of four.
pub type PartsTable = [[Parts; 4]; 14];

// The parts of four opcodes, from `op` on.
fn row(op: u8) -> [Parts; 4]
    requires { op ≤ 52 }
    ensures { result ≡ row op }
{
    [
        parts_of(op),
        parts_of(op + 1),
        parts_of(op + 2),
        parts_of(op + 3),
    ]
}

pub fn parts_table() -> PartsTable
    ensures { result ≡ parts_table }
{
    [
        row(0),
        row(4),
        row(8),
        row(12),
        row(16),
        row(20),
        row(24),
        row(28),
        row(32),
        row(36),
        row(40),
        row(44),
        row(48),
        row(52),
    ]
}
