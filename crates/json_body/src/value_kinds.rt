ghost use Rattle.std.specs.Prelude.{◌≡◌, IfOk, OnErr, IsSome, Some, is_some, option_map};
ghost use Rattle.std.specs.Result.{result_map_both};
ghost use Rattle.serde_json.specs.View.{view, items_view};
ghost use Rattle.json_body.specs.FieldKinds.{member_of, as_name, as_number_in, as_list_of, required, name_of, within};

use crate::fields::FieldFault;
use ctrl_model::{Field, Name, NameFault};
use serde_json::Value;
use std::alloc::{AllocError, Global};

// The value that the field has, if it is there.
pub(crate) fn member_of(value: &Value, field: Field) -> Option<&Value>
    ensures { option_map (λ v. view v.now) result ≡ member_of field (view value.now) }
{
    value.get(field.word())
}

// The value that a field has which is required: any value is of the kind.
pub(crate) fn required(value: &Value, field: Field) -> Result<&Value, FieldFault>
    ensures { result_map_both (λ v. view v.now) (λ e. e) result ≡ required Some field (view value.now) }
{
    member_of(value, field).ok_or(FieldFault::Missing(field))
}

// The name that the bytes are, if they are one.
fn name_of(alloc: Global, bytes: &[u8]) -> Result<Option<Name>, AllocError>
    ensures name { IfOk result (λ name. name ≡ name_of bytes.now) }
    ensures memory { OnErr result (IsSome (name_of bytes.now)) }
{
    match Name::of(alloc, bytes) {
        Ok(name) => Ok(Some(name)),
        Err(NameFault::BadName) => Ok(None),
        Err(NameFault::NoMemory) => Err(AllocError),
    }
}

/// The name that a value is, if it is one: a text that is a name. Only memory can be wanting, and only for a name.
pub fn as_name(alloc: Global, value: &Value) -> Result<Option<Name>, AllocError>
    ensures name { IfOk result (λ name. name ≡ as_name (view value.now)) }
    ensures memory { OnErr result (IsSome (as_name (view value.now))) }
{
    match value.as_str() {
        Some(text) => name_of(alloc, text.as_bytes()),
        None => Ok(None),
    }
}

/// Whether a value is a name. No memory is taken.
pub fn is_name(value: &Value) -> bool
    ensures { result ≡ is_some (as_name (view value.now)) }
{
    match value.as_str() {
        Some(text) => Name::is(text.as_bytes()),
        None => false,
    }
}

// The number, if it is from `low` to `high`.
fn within(low: u32, high: u32, number: u64) -> Option<u32>
    ensures { result ≡ within low high number }
{
    let number = u32::try_from(number).ok()?;
    if low <= number && number <= high {
        Some(number)
    } else {
        None
    }
}

/// The whole number from `low` to `high` that a value is, if it is one (docs/FORMATS.md, "Bodies").
pub fn as_number_in(value: &Value, low: u32, high: u32) -> Option<u32>
    ensures { result ≡ as_number_in low high (view value.now) }
{
    within(low, high, value.as_u64()?)
}

/// The list of at most `most` values that a value is, if it is one.
pub fn as_list_of(value: &Value, most: usize) -> Option<&[Value]>
    ensures { option_map (λ vs. items_view vs.now) result ≡ as_list_of most (view value.now) }
{
    let items = value.as_array()?;
    if items.len() <= most {
        Some(items.as_slice())
    } else {
        None
    }
}
