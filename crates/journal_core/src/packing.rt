ghost use Rattle.std.specs.Prelude.{◌≡◌, ◌≤◌, ◌+◌, ◌^◌, [], IfOk, length};
ghost use Rattle.journal_core.specs.Slots.{format_number, header, text_of, slot_bytes};

use ctrl_model::{Bytes, Format};
use std::alloc::{AllocError, Global};
use std::marker::Model;

/// How many bytes the header of a slot has.
pub const HEADER_LEN: u64 = 8;

/// A gate that is closed. So is every gate whose byte is not `OPEN`.
const CLOSED: u8 = 0;

/// A gate that is open.
pub(crate) const OPEN: u8 = 1;

// The number of a format.
fn format_number(format: Format) -> u8
    ensures { result ≡ format_number format }
{
    match format {
        Format::One => 1,
        Format::Two => 2,
    }
}

/// The eight bytes with which a slot of a format begins: `ZCTL`, the number of the format, and zeros.
pub fn header(format: Format) -> [u8; 8]
    ensures { result ≡ header format }
{
    [b'Z', b'C', b'T', b'L', format_number(format), 0, 0, 0]
}

/// The bytes of a slot of a format that stands for nothing: the header and a closed gate.
pub fn empty_slot(format: Format) -> [u8; 9]
    ensures { result ≡ slot_bytes format [] }
{
    let mut slot = [CLOSED; 9];
    slot[..8].copy_from_slice(&header(format));
    slot
}

/// A payload of 1 to 2^30 bytes, ready to be appended: its length, the payload, and the closed gate that follows.
///
/// Contracts see the payload.
#[derive(Drop)]
pub struct Packed {
    text: Vec<u8>,
}

impl Model for Packed {
    ghost use Rattle.std.specs.Prelude.{List, ℕ, ◌≡◌, ◌≤◌, ◌^◌, length};
    ghost use Rattle.journal_core.specs.Slots.{text_of, payload_in};

    ghost Value = { List ℕ };

    ghost view = { λ p. payload_in p.text.items };

    ghost invariant = { λ p. (p.text.items ≡ text_of (payload_in p.text.items)) × (length (payload_in p.text.items) ≤ 2 ^ 30) };
}

fn packed_text(alloc: Global, payload: &[u8]) -> Result<Vec<u8>, AllocError>
    requires { length payload.now ≤ 2 ^ 30 }
    ensures { IfOk result (λ text. text.items ≡ text_of payload.now) }
{
    let mut text = Vec::new(alloc);
    text.extend_from_slice(&(payload.len() as u32).to_le_bytes())?;
    text.extend_from_slice(payload)?;
    text.push(CLOSED)?;
    Ok(text)
}

impl Packed {
    /// The payload, packed. It has 1 to 2^30 bytes.
    pub fn of(alloc: Global, payload: &Bytes) -> Result<Packed, AllocError>
        requires some { 1 ≤ length payload.now }
        requires at_most { length payload.now ≤ 2 ^ 30 }
        ensures { IfOk result (λ packed. packed ≡ payload.now) }
    {
        let text = packed_text(alloc, payload.as_slice())?;
        Ok(Packed { text })
    }

    /// What is written behind a gate.
    pub(crate) fn text(&self) -> &[u8]
        ensures text { result.now ≡ text_of self.now }
        ensures len { length result.now ≡ length self.now + 5 }
        ensures at_most { length self.now ≤ 2 ^ 30 }
    {
        self.text.as_slice()
    }
}
