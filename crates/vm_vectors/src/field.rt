// The fields of docs/COMPARISON.md's table, by their numbers there, in which a call can differ from the list.
#[derive(Clone, Copy)]
pub enum Field {
    // The file, and the lengths of the stores.
    File = 1,
    Stores = 7,
    // The account.
    Outcome = 10,
    Position,
    Value,
    Charges,
    Accumulator,
    MissingMember,
    AccessUnderflow,
    LoopLimit,
    Temps,
    Stack,
    Loops,
    Handlers,
    Cells,
}

impl Field {
    // An error that names this field, unless it is as the list has it.
    pub fn unless(self, same: bool) -> Result<(), Field> {
        if same { Ok(()) } else { Err(self) }
    }
}

impl From<Field> for u64 {
    fn from(field: Field) -> u64 {
        field as u64
    }
}
