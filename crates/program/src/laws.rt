// What holds of the opcodes: laws, each the contract of a function that does nothing.
ghost use Rattle.std.specs.Prelude.{◌≡◌, ◌≤◌, ℕ, length};
ghost use Rattle.program.specs.Opcodes.{rows, last_opcode, parts_of_row};
ghost use Rattle.program.specs.Ranges.{parts_of, InOne, Decided, Undecided, EachNext};
ghost use Rattle.program.specs.Instructions.{Listed, LookedFor};

/// The ranges say of every number what its row in the table says, or that it uses nothing where it has no row.
#[tactic(auto, using(crate::proofs::AsBefore::by_rows))]
pub fn as_before()
    ensures { (op : ℕ) → parts_of op ≡ parts_of_row op }
{}

/// Every opcode lies in one range, and every other number in none.
#[tactic(auto, using(crate::proofs::AsBefore::one_range))]
pub fn in_one()
    ensures { InOne }
{}

/// What lies in a range uses what that range says.
#[tactic(auto, using(crate::proofs::Deciding::decided))]
pub fn decided()
    ensures { Decided }
{}

/// What is no opcode uses nothing.
#[tactic(auto, using(crate::proofs::Deciding::undecided))]
pub fn undecided()
    ensures { Undecided }
{}

/// Opcodes 44 and 45, EachNextVar and EachNextTemp, have no post: a name or a temp stands in its place.
pub fn each_next()
    ensures { EachNext }
{}

/// The table has one row for each opcode.
pub fn rows_all()
    ensures { length rows ≡ last_opcode }
{}

/// The largest choice of an opcode is one that a byte can hold.
#[tactic(auto, using(crate::proofs::AsBefore::choice_fits))]
pub fn choice_fits()
    ensures { (op : ℕ) → (parts_of op).choice ≤ 255 }
{}

/// Every opcode has an instruction, and no other number has one.
pub fn listed()
    ensures { (op choice post arg : ℕ) → Listed op choice post arg }
{}

/// The opcodes that a record looks for at another position are those of Const, StoreVar, StoreTemp, Halt and End.
pub fn looked_for()
    ensures { (choice post arg : ℕ) → LookedFor choice post arg }
{}
