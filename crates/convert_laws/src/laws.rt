// What the converter keeps of a stored file: the accounts of its calls, and its bytes; and the numbers that send a file back.
ghost use Rattle.std.specs.Prelude.{◌≡◌, ℕ, ◌≤◌, ◌<◌, ◌^◌, Bool, false, not, List, map, ◌==◌};
ghost use Rattle.endian.specs.Endian.{byte_at};
ghost use Rattle.file.specs.Fields.{code};
ghost use Rattle.file.specs.Records.{when};
ghost use Rattle.file.specs.Refusals.{refusal_for, refusal, converter_refusal};
ghost use Rattle.eval.specs.Machine.{cells_of, lent_of};
ghost use Rattle.vm.specs.Call.{Brought};
ghost use Rattle.vm.specs.Called.{called, reply_of};
ghost use Rattle.convert.specs.Convert.{pointer_enter, withdrawn_in, converted, conversion};
ghost use Rattle.convert_laws.specs.Laws.{converts, ChangesOnlyWithdrawn, IsPointerEnter, IsReaders, IsConverters, ReaderWithdrawn, ConverterWithdrawn};
ghost use Rattle.convert_laws.specs.AsItWas.{with_converted, as_it_was, KeepsAccounts, KeepsCharges, KeepsHistories, AsItIs, ButFifteen};
ghost use Rattle.convert_laws.specs.Codes.{MovesAlike};
ghost use Rattle.convert_laws.specs.SetOut.{run, host_math, seen, stored, gives, others, others_give, of_two};

use eval::slot::Slots;
use vm::account::Account;
use vm::{Refusal, Terms, call};

// ---- the accounts

/// A call with a converted file gives the account that the machine as it was gave with the old one, or refusal 10 as it did.
#[tactic(auto, using(crate::proofs::Accounts::keeps_accounts))]
pub fn keeps_accounts()
    ensures { KeepsAccounts called }
{}

/// Converts a stored file and calls with it. If the converter takes the file, the answer is that of the machine as it was to the call
/// with the file as it came.
pub fn convert_and_call(
    file: &mut [u8],
    kinds: &mut [u8],
    values: &mut [u64],
    context: Slots<'_>,
    terms: Terms,
    stack: &mut [u32],
    loops: &mut [u32],
    handlers: &mut [u64],
) -> Result<Account, Refusal>
    ensures file { file.new ≡ converted file.old }
    ensures answer { (
        let lent = lent_of kinds.old values.old stack.old loops.old handlers.old in
        let left = lent_of kinds.new values.new stack.new loops.new handlers.new in
        let context = cells_of context.entry.kinds.now context.entry.values.now in
        let brought : Brought = record { file = file.old; lent = lent; context = context; terms = terms } in
        converter_refusal file.old ≡ 0 → record { reply = reply_of terms result; lent = left } ≡ as_it_was brought
        ) }
{
    let _ = convert::convert(file);
    // Lent for as long as the file as it is now.
    let context = Slots {
        kinds: context.kinds,
        values: context.values,
    };
    call(file, kinds, values, context, terms, stack, loops, handlers)
}

/// The call with the converted file makes the same charges, and the same stands each time that one is made.
#[tactic(auto, using(crate::proofs::Accounts::keeps_charges))]
pub fn keeps_charges()
    ensures { KeepsCharges }
{}

/// Whatever the limit and the state to begin with, the two calls have one history.
#[tactic(auto, using(crate::proofs::Accounts::keeps_histories))]
pub fn keeps_histories()
    ensures { KeepsHistories }
{}

/// Of the machine alone, whatever the call: over two codes, of which one has PointerEnters where the other has HostMaths of at most one
/// argument, the same stands at each charge.
#[tactic(auto, using(crate::proofs::Moves::moves_alike))]
pub fn moves_alike()
    ensures { MovesAlike }
{}

/// The machine as it was answers as the machine as it is, but for calls whose file 14 now sends back.
#[tactic(auto, using(crate::proofs::AsItWas::as_it_is))]
pub fn as_it_is()
    ensures { AsItIs }
{}

/// What sent a record back then is what sends it back from the converter now, but for 15.
#[tactic(auto, using(crate::proofs::AsItWas::but_fifteen))]
pub fn but_fifteen()
    ensures { ButFifteen }
{}

// ---- the files

/// The reader accepts a converted file.
#[tactic(auto, using(crate::proofs::Accepted::accepted))]
pub fn accepted()
    ensures { (file : List ℕ) → converter_refusal file ≡ 0 → refusal (converted file) ≡ 0 }
{}

/// Of every byte string the length stays, and each byte but those of the records that are converted.
pub fn changes_only_withdrawn()
    ensures { ChangesOnlyWithdrawn converted }
{}

/// A byte that lies in no converted record stays.
#[tactic(auto, using(crate::proofs::Untouched::byte_kept))]
pub fn byte_kept()
    ensures { (file : List ℕ) (j : ℕ) → converts file j ≡ false → byte_at (converted file) j ≡ byte_at file j }
{}

/// No function but the converter keeps the length of every byte string and each byte but those of the records that are converted.
pub fn only_one()
    ensures { (f : List ℕ → List ℕ) → ChangesOnlyWithdrawn f → (file : List ℕ) → f file ≡ converted file }
{}

/// What the converter writes for a HostMath is a PointerEnter with choice 0, post 0 and the target.
pub fn parts_made()
    ensures { (target : ℕ) → target < 2 ^ 32 → IsPointerEnter (pointer_enter target) target }
{}

/// A file that is sent back keeps its bytes.
#[tactic(auto, using(crate::proofs::Accepted::sent_back_kept))]
pub fn sent_back_kept()
    ensures { (file : List ℕ) → (converter_refusal file ≡ 0 → ⊥) → converted file ≡ file }
{}

/// A file without a record of opcode 22 keeps its bytes, whatever it is.
#[tactic(auto, using(crate::proofs::Accepted::left_alone))]
pub fn left_alone()
    ensures { (file : List ℕ) → withdrawn_in (code file) ≡ 0 → converted file ≡ file }
{}

/// A file that the reader accepts keeps its bytes, and the converter takes it.
pub fn reader_leaves()
    ensures { (file : List ℕ) → refusal file ≡ 0 → (converter_refusal file ≡ 0) × (converted file ≡ file) }
{}

/// Converting again changes nothing.
#[tactic(auto, using(crate::proofs::Accepted::twice))]
pub fn twice()
    ensures { (file : List ℕ) → converted (converted file) ≡ converted file }
{}

/// Converting again gives the same refusal, and converts no record.
#[tactic(auto, using(crate::proofs::Accepted::again))]
pub fn again()
    ensures { (file : List ℕ) → conversion (converted file) ≡ record { refusal = converter_refusal file; records = 0; file = converted file } }
{}

// ---- the numbers that send a file back

/// The numbers by which the reader sends a file back are 1 to 9 and 14, and the converter's 1 to 9 and 15; 0 is none.
#[tactic(auto, using(crate::proofs::Numbers::readers, crate::proofs::Numbers::converters, crate::proofs::Numbers::never_many, crate::proofs::Numbers::never_withdrawn))]
pub fn numbers()
    ensures readers { (file : List ℕ) → IsReaders (refusal file) }
    ensures converters { (file : List ℕ) → IsConverters (converter_refusal file) }
    ensures never_many { (file : List ℕ) → refusal file ≡ 15 → ⊥ }
    ensures never_withdrawn { (file : List ℕ) → converter_refusal file ≡ 14 → ⊥ }
{}

/// A record of opcode 22 is sent back by 14 from the reader, and from the converter by 8, by 9, or by 15 for a count above 1.
#[tactic(auto, using(crate::proofs::Numbers::reader_withdrawn, crate::proofs::Numbers::converter_withdrawn))]
pub fn withdrawn_record()
    ensures reader_withdrawn { ReaderWithdrawn }
    ensures converter_withdrawn { ConverterWithdrawn }
{}

/// Of a file that the converter takes the reader says just whether it has a record of opcode 22.
#[tactic(auto, using(crate::proofs::Numbers::by_count))]
pub fn by_count()
    ensures { (file : List ℕ) → converter_refusal file ≡ 0 → refusal file ≡ when (not (withdrawn_in (code file) == 0)) 14 }
{}

/// Both checks give one number unless the reader's is 14, and 1 to 6 are the same in both.
#[tactic(auto, using(crate::proofs::Numbers::one_number, crate::proofs::Numbers::same_early))]
pub fn both_checks()
    ensures one_number { (file : List ℕ) → (refusal file ≡ 14 → ⊥) → converter_refusal file ≡ refusal file }
    ensures same_early { (v w : Bool) (file : List ℕ) → 1 ≤ refusal_for v file → refusal_for v file ≤ 6 → refusal_for w file ≡ refusal_for v file }
{}

// ---- set out

/// Five calls with stored files, by the machine as it was.
#[tactic(auto, using(crate::proofs::SetOut::set_out))]
pub fn set_out()
    ensures { map (λ b. seen (as_it_was b)) stored ≡ gives }
{}

/// The five calls with the files converted have the same answers.
#[tactic(auto, using(crate::proofs::SetOut::set_out_converted))]
pub fn set_out_converted()
    ensures { map (λ b. seen (called (with_converted b))) stored ≡ gives }
{}

/// A Const in HostMath's place, its own position as target, or its post kept gives something else.
#[tactic(auto, using(crate::proofs::SetOut::others_differ))]
pub fn others_differ()
    ensures { map (λ b. seen (called b)) others ≡ others_give }
{}

/// A HostMath of two arguments pops one operand.
#[tactic(auto, using(crate::proofs::SetOut::two_arguments))]
pub fn two_arguments()
    ensures { seen (as_it_was (run (host_math 2))) ≡ of_two }
{}
