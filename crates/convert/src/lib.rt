// The converter of stored files: a HostMath, which always gives zero, becomes a PointerEnter to the next record, which does the
// same under post 0.
#![tactic(auto)]

ghost use Rattle.std.specs.Prelude.{◌≡◌, ◌+◌, ◌<◌, ◌^◌, length};
ghost use Rattle.file.specs.Numbers.{numbered};
ghost use Rattle.convert.specs.Convert.{pointer_enter, is_withdrawn, converted_record, converted_code, withdrawn_in, conversion, records_of};

use file::{Refusal, fields};
use program::opcodes::{HOST_MATH, POINTER_ENTER};

// The bytes of a record.
const RECORD: usize = 8;

// A PointerEnter to `target`, with post 0.
fn pointer_enter(target: u32) -> [u8; RECORD]
    ensures { result ≡ pointer_enter target }
{
    let [a, b, c, d] = target.to_le_bytes();
    [POINTER_ENTER, 0, 0, 0, a, b, c, d]
}

// Converts the record at position `i`, if it is a HostMath, and says whether it was.
fn convert_record(bytes: &mut [u8], i: usize) -> bool
    requires length { length bytes.old ≡ 8 }
    requires place { i + 1 < 2 ^ 32 }
    ensures bytes { bytes.new ≡ converted_record i bytes.old }
    ensures withdrawn { result ≡ is_withdrawn bytes.old }
{
    if bytes[0] != HOST_MATH {
        return false;
    }
    bytes.copy_from_slice(&pointer_enter(i as u32 + 1));
    true
}

// Converts the records of a code, and says how many. By number: of chunks that are written the checker would know the length
// alone (docs/DECISIONS.md).
fn convert_code(code: &mut [u8]) -> usize
    requires { length code.old < 2 ^ 32 }
    ensures code { code.new ≡ converted_code code.old }
    ensures records { result ≡ withdrawn_in code.old }
{
    let mut records = 0;
    for i in 0..code.len() / RECORD {
        let at = i * RECORD;
        if convert_record(&mut code[at..at + RECORD], i) {
            records += 1;
        }
    }
    records
}

/// Converts a file in its own bytes, and says how many records it converted; or what sends the file back, which then keeps its
/// bytes. Everything is checked before the first write.
pub fn convert(file: &mut [u8]) -> Result<usize, Refusal>
    ensures { record { refusal = numbered result; records = records_of result; file = file.new } ≡ conversion file.old }
{
    file::check_for_converter(file)?;
    let start = file.len() - fields::code(file).len();
    Ok(convert_code(&mut file[start..]))
}
