ghost use Rattle.std.specs.Prelude.{◌≡◌, ◌↔◌, IsTrue};
ghost use Rattle.std.specs.Option.{option_map};
ghost use Rattle.slot_reading.specs.BatchRows.{ByteRows, GoesBy, IsNext, MayLead, rows_in, serial_in, serial_of};

use crate::changing::Rows;
use ctrl_model::{Bytes, Format};
use journal_core::HEADER_LEN;

/// The key of the serial.
const SERIAL_KEY: [u8; 1] = [17];

/// The serial that a value of eight bytes tells, the least first, of a number above 0; where there is no value it is 0.
pub fn serial_in(value: Option<&Bytes>) -> Option<u64>
    ensures { result ≡ serial_in (option_map (λ v. v.now) value.entry) }
{
    let Some(value) = value else {
        return Some(0);
    };
    let (part, rest) = value.as_slice().split_first_chunk::<8>()?;
    let serial = u64::from_le_bytes(*part);
    if serial == 0 || !rest.is_empty() {
        return None;
    }
    Some(serial)
}

// The serial of rows, if they tell one.
pub(crate) fn serial_of(rows: &Rows) -> Option<u64>
    ensures { result ≡ serial_of (rows_in rows.now.entries) }
{
    serial_in(rows.get(&SERIAL_KEY[..]))
}

// Whether a serial is one more than another, where both are told.
fn is_next(before: Option<u64>, after: Option<u64>) -> bool
    ensures { IsTrue result ↔ IsNext before after }
{
    match (before, after) {
        (Some(before), Some(after)) => before < after && after - before == 1,
        _ => false,
    }
}

// Whether rows go by a format behind rows of a serial.
fn goes_by(format: Format, before: Option<u64>, rows: &Rows) -> bool
    ensures { (old : ByteRows) → before ≡ serial_of old → IsTrue result ↔ GoesBy format old (rows_in rows.now.entries) }
{
    match format {
        Format::One => true,
        Format::Two => is_next(before, serial_of(rows)),
    }
}

// Whether the batch at a place of a slot of a format may lead to rows from rows of a serial.
pub(crate) fn may_lead(format: Format, at: u64, before: Option<u64>, rows: &Rows) -> bool
    ensures { (old : ByteRows) → before ≡ serial_of old → IsTrue result ↔ MayLead format at old (rows_in rows.now.entries) }
{
    at == HEADER_LEN || goes_by(format, before, rows)
}
