ghost use Rattle.std.specs.Prelude.{◌≡◌, OnOk};
ghost use Rattle.serde_json.specs.Data.{put};
ghost use Rattle.serde_json.specs.View.{view, members_view};
ghost use Rattle.ctrl_model.specs.Words.{word_of};
ghost use Rattle.command_bodies.specs.WrittenFields.{a_text, with_field};

use ctrl_model::Field;
use serde_json::{Map, Value};
use std::alloc::{AllocError, Global};

/// Puts a value under a field's word, beside what is there.
pub(crate) fn put_value(
    alloc: Global,
    members: &mut Map<String, Value>,
    field: Field,
    value: Value,
) -> Result<(), AllocError>
    ensures { OnOk result (members_view members.new.entries ≡ put (word_of field) (view value) (members_view members.old.entries)) }
{
    let word = String::from_str(alloc, field.word())?;
    members.insert(word, value)?;
    Ok(())
}

pub(crate) fn put_text(
    alloc: Global,
    members: &mut Map<String, Value>,
    field: Field,
    text: &str,
) -> Result<(), AllocError>
    ensures { OnOk result (members_view members.new.entries ≡ with_field (field, a_text text.now) (members_view members.old.entries)) }
{
    let value = Value::try_from_str(alloc, text)?;
    put_value(alloc, members, field, value)
}
