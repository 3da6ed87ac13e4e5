ghost use Rattle.std.specs.Prelude.{◌≡◌, ◌↔◌, IsNone};
ghost use Rattle.std.specs.Option.{option_map};
ghost use Rattle.channel_frame.specs.HeaderValues.{last_header, last_value, IsWithout};

use crate::frames::{Frame, Header};
use ctrl_model::Bytes;

// The last header with a key, if there is one.
fn last_with(headers: &[Header], key: u32) -> Option<&Header>
    ensures { option_map (λ h. h.now) result ≡ last_header key headers.now }
{
    headers.iter().rev().find(|header| header.key == key)
}

/// The value of the last header with a key. `None` comes exactly where no header has it.
pub fn last_of(frame: &Frame, key: u32) -> Option<&Bytes>
    ensures value { option_map (λ v. v.now) result ≡ last_value key frame.now.headers }
    ensures none { IsNone result ↔ IsWithout key frame.now.headers }
{
    match last_with(frame.headers.as_slice(), key) {
        Some(header) => Some(&header.value),
        None => None,
    }
}
