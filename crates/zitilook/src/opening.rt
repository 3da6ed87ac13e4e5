ghost use Rattle.std.specs.Prelude.{◌≡◌, IfOk};
ghost use Rattle.ctrl_model.specs.State.{State};
ghost use Rattle.state_building.specs.BuiltStates.{state_in};
ghost use Rattle.change_lines.specs.RowChanges.{AreRowsOf};
ghost use Rattle.zitilook.specs.OpenedRows.{AreThoseOf, IsOpened};

use ctrl_core::Core;
use ctrl_model::Format;
use row_codec::{Batch, Row};
use row_loading::{CoreFault, read_rows};
use std::alloc::{AllocError, Global};

/// The rows that a batch puts, which are all those of a valid state in a format.
pub(crate) fn rows_of(alloc: Global, format: Format, puts: &Batch) -> Result<Vec<Row>, AllocError>
    requires { (s : State) × AreThoseOf format s puts.now }
    ensures state { IfOk result (λ rows. (s : State) → AreThoseOf format s puts.now → state_in rows.items ≡ s) }
    ensures rows { IfOk result (λ rows. (s : State) → AreThoseOf format s puts.now → AreRowsOf format s rows.items) }
{
    match read_rows(alloc, format, puts.as_slice()) {
        Ok(rows) => Ok(rows),
        Err(CoreFault::NotAState { .. }) => unreachable!(),
        Err(CoreFault::NoMemory) => Err(AllocError),
    }
}

/// The rows of what a folder opened to, which is let go.
pub fn rows_opened(
    alloc: Global,
    core: Core,
    format: Format,
    puts: Batch,
) -> Result<Vec<Row>, AllocError>
    requires { IsOpened core format puts }
    ensures state { IfOk result (λ rows. state_in rows.items ≡ core.state) }
    ensures rows { IfOk result (λ rows. AreRowsOf format core.state rows.items) }
{
    // The core has judged the rows.
    drop(core);
    rows_of(alloc, format, &puts)
}
