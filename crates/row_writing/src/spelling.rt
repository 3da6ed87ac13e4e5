ghost use Rattle.std.specs.Prelude.{◌≡◌, true, IfOk};
ghost use Rattle.row_codec.specs.RowKeys.{key_bytes};
ghost use Rattle.row_codec.specs.RowForm.{is_row, key_of, value_of};

use crate::values::push_value;
use ctrl_model::{Bytes, Format};
use row_codec::{Row, write_key};
use std::alloc::{AllocError, Global};

/// The key and the value of a row that some state can have in a format.
pub fn write_row(alloc: Global, format: Format, row: &Row) -> Result<(Bytes, Bytes), AllocError>
    requires { is_row format row.now ≡ true }
    ensures { IfOk result (λ spelled. (spelled.0 ≡ key_bytes (key_of row.now)) × (spelled.1 ≡ value_of format row.now)) }
{
    let key = write_key(alloc, row)?;
    let mut value = Vec::new(alloc);
    push_value(&mut value, format, row)?;
    Ok((Bytes::of(key), Bytes::of(value)))
}
