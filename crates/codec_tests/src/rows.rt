ghost use Rattle.std.specs.Prelude.{◌≡◌, true, IfSome};
ghost use Rattle.row_codec.specs.RowForm.{is_row};

use crate::checks::are_bytes;
use ctrl_model::Format;
use row_codec::Row;
use row_reading::read_row;
use row_writing::write_row;
use std::alloc::Global;
use std::process::Abort;
use std::test::Fail;

/// A format, and the key and the value of a row in it. The second one is the intercept of the first service: tcp to `*.example.org`, at port 443.
const ROWS: &[(Format, &[u8], &[u8])] = &[
    (Format::One, b"\x05\0\0\0\x01", b"\x02r1\x01\x01a,\x01\x03"),
    (
        Format::Two,
        b"\x10\0\0\0\x01",
        b"\x01\x01\x0d*.example.org\x01\xbb\x01\xbb\x01",
    ),
];

// The row that a key and a value spell in a format.
fn row_from(alloc: Global, format: Format, key: &[u8], value: &[u8]) -> Option<Row>
    ensures { IfSome result (λ r. is_row format r ≡ true) }
{
    read_row(alloc, format, key, value).ok()
}

// A row is read, and written to the same bytes.
fn is_written_again(
    rt: &impl Abort,
    alloc: Global,
    format: Format,
    key: &[u8],
    value: &[u8],
) -> Result<(), Fail> {
    let row = row_from(alloc, format, key, value).ok_or("the bytes are a row")?;
    let written = write_row(alloc, format, &row);
    drop(row);
    let (written_key, written_value) = written?;
    are_bytes(rt, written_key.as_slice(), key);
    are_bytes(rt, written_value.as_slice(), value);
    Ok(())
}

#[test]
fn a_row_is_read_and_written_again(rt: HostRuntime) -> Result<(), Fail> {
    for (format, key, value) in ROWS {
        is_written_again(&rt, rt.alloc(), *format, key, value)?;
    }
    Ok(())
}
