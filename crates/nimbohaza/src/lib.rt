// The library for C and Rust: numbers, slices and plain structs alone.
#![tactic(auto)]

ghost use Rattle.std.specs.Prelude.{◌≡◌};
ghost use Rattle.file.specs.Refusals.{refusal};
ghost use Rattle.eval.specs.Machine.{cells_of, lent_of};
ghost use Rattle.vm.specs.Call.{Brought};
ghost use Rattle.vm.specs.Called.{called};
ghost use Rattle.convert.specs.Convert.{conversion};
ghost use Rattle.nimbohaza.specs.Boundary.{limit_of, terms_of};

use eval::slot::Slots;
use vm::Terms;
use vm::account::Reply;

// The terms of a call as C hands them over: the bits of `this`, and three limits, each of which counts where its flag is
// not 0.
#[repr(C)]
#[derive(Clone, Copy)]
pub struct CTerms {
    pub this_bits: u32,
    pub loop_limit: u32,
    pub step_limit: u64,
    pub has_step_limit: u8,
    pub has_loop_limit: u8,
    pub has_house_limit: u8,
    pub house_limit: u64,
}

// What the converter answers: the number that sends the file back, or 0, and how many records it converted.
#[repr(C)]
#[derive(Clone, Copy)]
pub struct Conversion {
    pub refusal: u32,
    pub records: u32,
}

// A limit, where its flag is not 0.
fn limit<T: Drop>(flag: u8, n: T) -> Option<T>
    ensures { result ≡ limit_of flag n }
{
    (flag != 0).then_some(n)
}

// The terms that the numbers stand for.
impl From<CTerms> for Terms {
    ghost from_gives = { λ t terms. terms ≡ terms_of t };

    fn from(t: CTerms) -> Terms {
        Terms {
            this: t.this_bits,
            step_limit: limit(t.has_step_limit, t.step_limit),
            loop_limit: limit(t.has_loop_limit, t.loop_limit),
            house_limit: limit(t.has_house_limit, t.house_limit),
        }
    }
}

// The number that sends a file back, 1 to 9 or 14, or 0.
#[unsafe(no_mangle)]
pub extern "C" fn nimbohaza_check(file: &[u8]) -> u32
    ensures { result ≡ refusal file.now }
{
    u32::from(file::numbered(file::check(file)))
}

// Converts a stored file in its own bytes. See include/nimbohaza.h.
#[unsafe(no_mangle)]
pub extern "C" fn nimbohaza_convert(file: &mut [u8]) -> Conversion
    ensures { record { refusal = result.refusal; records = result.records; file = file.new } ≡ conversion file.old }
{
    match convert::convert(file) {
        Ok(records) => Conversion {
            refusal: 0,
            records: records as u32,
        },
        Err(refusal) => Conversion {
            refusal: u32::from(u8::from(refusal)),
            records: 0,
        },
    }
}

// One call. See include/nimbohaza.h. Nine parameters: C hands over a slice as a pointer and a length, and no struct of slices.
#[unsafe(no_mangle)]
pub extern "C" fn nimbohaza_run(
    file: &[u8],
    kinds: &mut [u8],
    values: &mut [u64],
    context_kinds: &[u8],
    context_values: &[u64],
    terms: CTerms,
    stack: &mut [u32],
    loops: &mut [u32],
    handlers: &mut [u64],
) -> Reply
    ensures { (
        let lent = lent_of kinds.old values.old stack.old loops.old handlers.old in
        let left = lent_of kinds.new values.new stack.new loops.new handlers.new in
        let context = cells_of context_kinds.now context_values.now in
        let brought : Brought = record { file = file.now; lent = lent; context = context; terms = terms_of terms } in
        record { reply = result; lent = left } ≡ called brought
        ) }
{
    let terms = Terms::from(terms);
    let context = Slots {
        kinds: context_kinds,
        values: context_values,
    };
    let answer = vm::call(file, kinds, values, context, terms, stack, loops, handlers);
    Reply::new(terms, answer)
}
