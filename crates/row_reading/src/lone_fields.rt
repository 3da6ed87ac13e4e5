ghost use Rattle.std.specs.Prelude.{◌≡◌};
ghost use Rattle.row_codec.specs.RowForm.{is_count};
ghost use Rattle.row_codec.specs.FieldReading.{alone, kept, both, front_byte, front_count, front_long, front_number, front_wide};
ghost use Rattle.row_reading.specs.RowReading.{is_kind, is_next, is_serial, is_setting};

use ctrl_model::Format;
use row_codec::{split_count, split_long, split_number, split_wide};

/// A number of four bytes, and nothing behind it.
pub(crate) fn lone_long(bytes: &[u8]) -> Option<u32>
    ensures { result ≡ alone front_long bytes.now }
{
    match split_long(bytes)? {
        (number, []) => Some(number),
        _ => None,
    }
}

/// The number of a record in a key, and nothing behind it.
pub(crate) fn lone_number(bytes: &[u8]) -> Option<u32>
    ensures { result ≡ alone front_number bytes.now }
{
    match split_number(bytes)? {
        (number, []) => Some(number),
        _ => None,
    }
}

/// The numbers of a pair in a key, and nothing behind them.
pub(crate) fn lone_pair(bytes: &[u8]) -> Option<(u32, u32)>
    ensures { result ≡ alone (both front_number front_number) bytes.now }
{
    let (first, rest) = split_number(bytes)?;
    match split_number(rest)? {
        (second, []) => Some((first, second)),
        _ => None,
    }
}

/// A kind in a key, and nothing behind it.
pub(crate) fn lone_kind(bytes: &[u8]) -> Option<u8>
    ensures { result ≡ alone (kept is_kind front_byte) bytes.now }
{
    match bytes {
        [kind] if 1 <= *kind && *kind <= 9 => Some(*kind),
        _ => None,
    }
}

/// A count that has a row in a format.
pub(crate) fn lone_count(format: Format, value: &[u8]) -> Option<u32>
    ensures { result ≡ alone (kept (is_count format) (front_count format)) value.now }
{
    match split_count(format, value)? {
        (count, []) if 0 < count => Some(count),
        _ => None,
    }
}

/// A serial that has a row.
pub(crate) fn lone_serial(value: &[u8]) -> Option<u64>
    ensures { result ≡ alone (kept is_serial front_wide) value.now }
{
    match split_wide(value)? {
        (serial, []) if 0 < serial => Some(serial),
        _ => None,
    }
}

/// A next number that has a row.
pub(crate) fn lone_next(value: &[u8]) -> Option<u32>
    ensures { result ≡ alone (kept is_next front_long) value.now }
{
    let number = lone_long(value)?;
    if 1 < number { Some(number) } else { None }
}

/// A least router cost that has a row.
pub(crate) fn lone_setting(value: &[u8]) -> Option<u32>
    ensures { result ≡ alone (kept is_setting front_long) value.now }
{
    let number = lone_long(value)?;
    if number != 10 { Some(number) } else { None }
}
