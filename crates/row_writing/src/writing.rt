ghost use Rattle.std.specs.Prelude.{◌≡◌, ◌++◌, ◌∷◌, ◌≤◌, ◌<◌, ◌^◌, true, OnOk, length};
ghost use Rattle.std.specs.List.{flat_map};
ghost use Rattle.row_codec.specs.RowForm.{is_short, are_listed, is_listed_side};
ghost use Rattle.row_codec.specs.RowValues.{long, short, text, texts, side_bytes};

use ctrl_model::{Name, Side};
use row_codec::{push_long, push_text};
use std::alloc::AllocError;

/// Writes a number as two bytes.
pub(crate) fn push_short(out: &mut Vec<u8>, n: u32) -> Result<(), AllocError>
    requires { is_short n ≡ true }
    ensures { OnOk result (out.new.items ≡ out.old.items ++ short n) }
{
    out.extend_from_slice(&(n as u16).to_le_bytes())
}

/// Writes numbers of four bytes, one after the other.
pub(crate) fn push_longs(out: &mut Vec<u8>, numbers: &[u32]) -> Result<(), AllocError>
    ensures { OnOk result (out.new.items ≡ out.old.items ++ flat_map long numbers.now) }
{
    'numbers: for number in numbers {
        push_long(out, *number)?;
    }
    Ok(())
}

/// Writes a name as a text.
pub(crate) fn push_name(out: &mut Vec<u8>, name: &Name) -> Result<(), AllocError>
    ensures { OnOk result (out.new.items ≡ out.old.items ++ text name.now) }
{
    push_text(out, name.bytes())
}

fn push_each(out: &mut Vec<u8>, names: &[Name]) -> Result<(), AllocError>
    ensures { OnOk result (out.new.items ≡ out.old.items ++ flat_map text names.now) }
{
    'names: for name in names {
        push_name(out, name)?;
    }
    Ok(())
}

/// Writes a list of names: how many there are, and each as a text.
pub(crate) fn push_names(out: &mut Vec<u8>, names: &[Name]) -> Result<(), AllocError>
    requires { are_listed names.now ≡ true }
    ensures { OnOk result (out.new.items ≡ out.old.items ++ texts names.now) }
{
    out.push(names.len() as u8)?;
    push_each(out, names)
}

/// Writes a side: whether it is `#all`, its `@` names and its attributes.
pub(crate) fn push_side(out: &mut Vec<u8>, side: &Side) -> Result<(), AllocError>
    requires { is_listed_side side.now ≡ true }
    ensures { OnOk result (out.new.items ≡ out.old.items ++ side_bytes side.now) }
{
    out.push(u8::from(side.all))?;
    push_names(out, side.ids.as_slice())?;
    push_names(out, side.attributes.as_slice())
}
