ghost use Rattle.std.specs.Prelude.{◌≡◌, [], IfOk, IsErrOf, IsOk, IsSome, OnErr, option_map};
ghost use Rattle.serde_json.specs.View.{items_view};
ghost use Rattle.json_body.specs.FieldKinds.{as_name, object_of, optional, required};
ghost use Rattle.role_expr.specs.NameRepeats.{without_repeats};
ghost use Rattle.body_fields.specs.ItemLists.{each_of};
ghost use Rattle.body_fields.specs.ReadResults.{Gives};
ghost use Rattle.command_codec.specs.NameLists.{as_attributes};

use body_fields::{ItemName, each_once_in};
use ctrl_model::{Field, MOST_ENTRIES, Name, Names};
use json_body::{FieldFault, Fields};
use serde_json::Value;
use std::alloc::{AllocError, Global};

// The names that some values are, without repeats, if each is a name. No memory is taken before that is known.
fn names_in(alloc: Global, values: &[Value]) -> Result<Option<Names>, AllocError>
    ensures names { IfOk result (λ ns. ns ≡ option_map without_repeats (each_of as_name (items_view values.now))) }
    ensures memory { OnErr result (IsSome (each_of as_name (items_view values.now))) }
{
    match each_once_in::<Name, ItemName>(alloc, values)? {
        Some(names) => Ok(Some(Names::of(names))),
        None => Ok(None),
    }
}

// The attributes that an object gives.
pub(crate) fn attributes(alloc: Global, fields: &Fields) -> Result<Names, FieldFault>
    ensures given { Gives FieldFault.NoMemory (λ ns. ns) result (required as_attributes Field.Attributes (object_of fields.now)) }
    // Memory can be wanting for attributes alone.
    ensures memory { IsErrOf result FieldFault.NoMemory → IsOk (required as_attributes Field.Attributes (object_of fields.now)) }
{
    let values = fields.list(Field::Attributes, MOST_ENTRIES)?;
    names_in(alloc, values)?.ok_or(FieldFault::WrongKind(Field::Attributes))
}

// The attributes that an object gives, or none where it leaves them out.
pub(crate) fn attributes_or_none(alloc: Global, fields: &Fields) -> Result<Names, FieldFault>
    ensures given { Gives FieldFault.NoMemory (λ ns. ns) result (optional as_attributes [] Field.Attributes (object_of fields.now)) }
    ensures memory { IsErrOf result FieldFault.NoMemory → IsOk (optional as_attributes [] Field.Attributes (object_of fields.now)) }
{
    if !fields.has(Field::Attributes) {
        return Ok(Names::of(Vec::new(alloc)));
    }
    attributes(alloc, fields)
}
