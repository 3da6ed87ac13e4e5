ghost use Rattle.std.specs.Prelude.{◌≡◌, ◌++◌, ◌≤◌, OnOk, length};
ghost use Rattle.row_codec.specs.RowValues.{long, wide, count_bytes, text};

use ctrl_model::Format;
use std::alloc::AllocError;

/// Writes a number as four bytes.
pub fn push_long(out: &mut Vec<u8>, n: u32) -> Result<(), AllocError>
    ensures { OnOk result (out.new.items ≡ out.old.items ++ long n) }
{
    out.extend_from_slice(&n.to_le_bytes())
}

/// Writes a number as eight bytes.
pub fn push_wide(out: &mut Vec<u8>, n: u64) -> Result<(), AllocError>
    ensures { OnOk result (out.new.items ≡ out.old.items ++ wide n) }
{
    out.extend_from_slice(&n.to_le_bytes())
}

/// Writes a count, as many bytes as the format gives it: the lowest ones.
pub fn push_count(out: &mut Vec<u8>, format: Format, count: u32) -> Result<(), AllocError>
    ensures { OnOk result (out.new.items ≡ out.old.items ++ count_bytes format count) }
{
    let bytes = count.to_le_bytes();
    match format {
        Format::One => out.extend_from_slice(&bytes),
        Format::Two => out.extend_from_slice(&bytes[..2]),
    }
}

/// Writes a text of at most 255 bytes: its length and its bytes.
pub fn push_text(out: &mut Vec<u8>, bytes: &[u8]) -> Result<(), AllocError>
    requires { length bytes.now ≤ 255 }
    ensures { OnOk result (out.new.items ≡ out.old.items ++ text bytes.now) }
{
    out.push(bytes.len() as u8)?;
    out.extend_from_slice(bytes)
}
