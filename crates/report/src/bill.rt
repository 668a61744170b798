// One call, from the bytes that Studio or House reads to the bytes that it writes.
ghost use Rattle.vm.specs.Call.{Brought};
ghost use Rattle.vm.specs.Called.{called};
ghost use Rattle.report.specs.Cells.{cells_read};
ghost use Rattle.report.specs.Bill.{Billed, lent_with};

use crate::Stores;
use crate::account::{append_account, append_field};
use crate::cells::{CellFile, append_cells};
use print::page::Page;
use vm::{Refusal, Terms};

// Makes the call over the cells of the file, and puts on the page what is to be written. Where the call is not refused,
// the bytes of the cells are those that it left.
pub fn answer<const N: usize>(
    program: &[u8],
    cells: &mut CellFile,
    context: &CellFile,
    terms: Terms,
    stores: Stores<'_>,
    page: &mut Page<N>,
) -> Result<(), Refusal>
    ensures { (
        let before = cells.old.bytes.items in
        let lent = lent_with (cells_read before) stores.entry.stack.now stores.entry.loops.now stores.entry.handlers.now in
        let brought : Brought = record { file = program.now; lent = lent; context = cells_read context.now.bytes.items; terms = terms } in
        Billed (called brought) before cells.new.bytes.items page.old page.new result
        ) }
{
    // Taken apart, since the borrow checker does not cover a slice that is lent on out of a field (tried).
    let Stores {
        stack,
        loops,
        handlers,
    } = stores;
    let mut lent = cells.cells();
    let others = context.cells();
    let called = vm::call(
        program,
        &mut lent.kinds,
        &mut lent.values,
        others.context(),
        terms,
        stack,
        loops,
        handlers,
    );
    match called {
        Ok(account) => {
            cells.replace(&lent);
            append_account(page, account);
            append_cells(page, &lent);
            Ok(())
        }
        Err(refusal) => {
            append_field(page, b"refused ", u32::from(refusal) as u64);
            Err(refusal)
        }
    }
}
