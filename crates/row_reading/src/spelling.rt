ghost use Rattle.std.specs.Prelude.{◌≡◌, ◌↔◌, IfOk, IsErrOf};
ghost use Rattle.row_codec.specs.declared.rows.Row.{Row};
ghost use Rattle.row_codec.specs.RowForm.{SpellsRow};

use crate::row_building::build_row;
use ctrl_model::Format;
use row_codec::{Row, RowFault};
use std::alloc::Global;

/// The row that a key and a value spell in a format. `BadRow` comes exactly where they spell none; `BadBatch` never comes.
pub fn read_row(alloc: Global, format: Format, key: &[u8], value: &[u8]) -> Result<Row, RowFault>
    ensures read { IfOk result (λ row. SpellsRow format key.now value.now row) }
    ensures bad { IsErrOf result RowFault.BadRow ↔ ((row : Row) → SpellsRow format key.now value.now row → ⊥) }
    ensures never { IsErrOf result RowFault.BadBatch → ⊥ }
    // Memory is wanted for a row alone.
    ensures memory { IsErrOf result RowFault.NoMemory → (row : Row) × SpellsRow format key.now value.now row }
{
    build_row(alloc, format, key, value)
}
