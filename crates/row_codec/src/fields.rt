ghost use Rattle.std.specs.Prelude.{◌≡◌};
ghost use Rattle.std.specs.Option.{option_map};
ghost use Rattle.row_codec.specs.FieldReading.{front_byte, front_part, front_long, front_short, front_wide, front_count, front_number, front_text, front_name, front_instance};

use ctrl_model::{Format, Instance, Name};

/// The first byte, and what follows it.
pub fn split_byte(bytes: &[u8]) -> Option<(u8, &[u8])>
    ensures { option_map (λ p. (p.0, p.1.now)) result ≡ front_byte bytes.now }
{
    match bytes {
        [] => None,
        [first, rest @ ..] => Some((*first, rest)),
    }
}

/// So many bytes, and what follows them.
pub fn split_part(bytes: &[u8], len: usize) -> Option<(&[u8], &[u8])>
    ensures { option_map (λ p. (p.0.now, p.1.now)) result ≡ front_part len bytes.now }
{
    if bytes.len() < len {
        return None;
    }
    Some(bytes.split_at(len))
}

/// A number of four bytes, and what follows it.
pub fn split_long(bytes: &[u8]) -> Option<(u32, &[u8])>
    ensures { option_map (λ p. (p.0, p.1.now)) result ≡ front_long bytes.now }
{
    let (part, rest) = bytes.split_first_chunk::<4>()?;
    Some((u32::from_le_bytes(*part), rest))
}

/// A text, and what follows it.
pub fn split_text(bytes: &[u8]) -> Option<(&[u8], &[u8])>
    ensures { option_map (λ p. (p.0.now, p.1.now)) result ≡ front_text bytes.now }
{
    let (len, rest) = split_byte(bytes)?;
    split_part(rest, len as usize)
}

/// A number of two bytes, and what follows it.
pub fn split_short(bytes: &[u8]) -> Option<(u32, &[u8])>
    ensures { option_map (λ p. (p.0, p.1.now)) result ≡ front_short bytes.now }
{
    let (part, rest) = bytes.split_first_chunk::<2>()?;
    Some((u32::from(u16::from_le_bytes(*part)), rest))
}

/// A number of eight bytes, and what follows it.
pub fn split_wide(bytes: &[u8]) -> Option<(u64, &[u8])>
    ensures { option_map (λ p. (p.0, p.1.now)) result ≡ front_wide bytes.now }
{
    let (part, rest) = bytes.split_first_chunk::<8>()?;
    Some((u64::from_le_bytes(*part), rest))
}

/// A count of a format, and what follows it.
pub fn split_count(format: Format, bytes: &[u8]) -> Option<(u32, &[u8])>
    ensures { option_map (λ p. (p.0, p.1.now)) result ≡ front_count format bytes.now }
{
    match format {
        Format::One => split_long(bytes),
        Format::Two => split_short(bytes),
    }
}

/// A number of a key, and what follows it.
pub fn split_number(bytes: &[u8]) -> Option<(u32, &[u8])>
    ensures { option_map (λ p. (p.0, p.1.now)) result ≡ front_number bytes.now }
{
    let (part, rest) = bytes.split_first_chunk::<4>()?;
    Some((u32::from_be_bytes(*part), rest))
}

/// A name, and what follows it.
pub fn split_name(bytes: &[u8]) -> Option<(&[u8], &[u8])>
    ensures { option_map (λ p. (p.0.now, p.1.now)) result ≡ front_name bytes.now }
{
    let (name, rest) = split_text(bytes)?;
    if !Name::is(name) {
        return None;
    }
    Some((name, rest))
}

/// An instance, and what follows it.
pub fn split_instance(bytes: &[u8]) -> Option<(&[u8], &[u8])>
    ensures { option_map (λ p. (p.0.now, p.1.now)) result ≡ front_instance bytes.now }
{
    let (instance, rest) = split_text(bytes)?;
    if !Instance::is(instance) {
        return None;
    }
    Some((instance, rest))
}
