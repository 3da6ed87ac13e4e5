ghost use Rattle.std.specs.Prelude.{◌≡◌};
ghost use Rattle.std.specs.Option.{option_map};
ghost use Rattle.row_codec.specs.FieldReading.{behind, front_long, front_name, front_names, front_each};

use crate::fields::{split_byte, split_long, split_name};
use ctrl_model::MOST_ENTRIES;

fn past_each_name(count: u8, bytes: &[u8]) -> Option<&[u8]>
    ensures { option_map (λ r. r.now) result ≡ behind (front_each front_name count bytes.now) }
{
    let mut rest = bytes;
    'names: for _ in 0..count {
        let (_, after) = split_name(rest)?;
        rest = after;
    }
    Some(rest)
}

/// What follows a list of names.
pub fn past_names(bytes: &[u8]) -> Option<&[u8]>
    ensures { option_map (λ r. r.now) result ≡ behind (front_names bytes.now) }
{
    let (count, rest) = split_byte(bytes)?;
    if count as usize > MOST_ENTRIES {
        return None;
    }
    past_each_name(count, rest)
}

/// What follows so many numbers.
pub fn past_each_long(count: u8, bytes: &[u8]) -> Option<&[u8]>
    ensures { option_map (λ r. r.now) result ≡ behind (front_each front_long count bytes.now) }
{
    let mut rest = bytes;
    'numbers: for _ in 0..count {
        let (_, after) = split_long(rest)?;
        rest = after;
    }
    Some(rest)
}
