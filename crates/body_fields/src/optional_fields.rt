ghost use Rattle.std.specs.Prelude.{◌≡◌, [], IfOk, IsErrOf, IsOk, IsSome, OnErr, is_some, None, false};
ghost use Rattle.serde_json.specs.Find.{as_bool};
ghost use Rattle.serde_json.specs.View.{view};
ghost use Rattle.ctrl_model.specs.declared.kinds.Precedence.TheVariants.{Normal};
ghost use Rattle.json_body.specs.FieldKinds.{as_number_in, object_of, optional};
ghost use Rattle.body_fields.specs.FieldValues.{instance_of, as_instance, as_some_name};
ghost use Rattle.body_fields.specs.FieldWords.{as_precedence};
ghost use Rattle.body_fields.specs.ReadResults.{Gives};

use crate::field_words::precedence;
use ctrl_model::{Field, Instance, Name, NameFault, Precedence};
use json_body::{FieldFault, Fields};
use serde_json::Value;
use std::alloc::{AllocError, Global};

/// The whole number from `low` to `high` that an object gives in a field, or another where it leaves the field out.
pub fn number_or(
    fields: &Fields,
    field: Field,
    low: u32,
    high: u32,
    otherwise: u32,
) -> Result<u32, FieldFault>
    ensures { result ≡ optional (as_number_in low high) otherwise field (object_of fields.now) }
{
    if !fields.has(field) {
        return Ok(otherwise);
    }
    fields.number(field, low, high)
}

/// Whether an object says so in a field; it does not where it leaves the field out.
pub fn flag_or_not(fields: &Fields, field: Field) -> Result<bool, FieldFault>
    ensures { result ≡ optional as_bool false field (object_of fields.now) }
{
    if !fields.has(field) {
        return Ok(false);
    }
    fields.flag(field)
}

/// The name that an object gives in a field, or none where it leaves the field out.
pub fn name_or_none(
    alloc: Global,
    fields: &Fields,
    field: Field,
) -> Result<Option<Name>, FieldFault>
    ensures given { Gives FieldFault.NoMemory (λ n. n) result (optional as_some_name None field (object_of fields.now)) }
    // Memory can be wanting for a name alone.
    ensures memory { IsErrOf result FieldFault.NoMemory → IsOk (optional as_some_name None field (object_of fields.now)) }
{
    if !fields.has(field) {
        return Ok(None);
    }
    Ok(Some(fields.name(alloc, field)?))
}

// The instance that some bytes are, if they are one.
fn instance_of(alloc: Global, bytes: &[u8]) -> Result<Option<Instance>, AllocError>
    ensures instance { IfOk result (λ i. i ≡ instance_of bytes.now) }
    ensures memory { OnErr result (IsSome (instance_of bytes.now)) }
{
    match Instance::of(alloc, bytes) {
        Ok(instance) => Ok(Some(instance)),
        Err(NameFault::BadName) => Ok(None),
        Err(NameFault::NoMemory) => Err(AllocError),
    }
}

/// Whether a value is an instance. No memory is taken.
pub fn is_instance(value: &Value) -> bool
    ensures { result ≡ is_some (as_instance (view value.now)) }
{
    match value.as_str() {
        Some(text) => Instance::is(text.as_bytes()),
        None => false,
    }
}

/// The instance that an object gives, or the empty one where it leaves the field out.
pub fn instance_or_empty(alloc: Global, fields: &Fields) -> Result<Instance, FieldFault>
    ensures given { Gives FieldFault.NoMemory (λ i. i) result (optional as_instance [] Field.Instance (object_of fields.now)) }
    // Memory can be wanting for an instance alone.
    ensures memory { IsErrOf result FieldFault.NoMemory → IsOk (optional as_instance [] Field.Instance (object_of fields.now)) }
{
    let text = if fields.has(Field::Instance) {
        fields.text(Field::Instance)?
    } else {
        ""
    };
    instance_of(alloc, text.as_bytes())?.ok_or(FieldFault::WrongKind(Field::Instance))
}

/// The precedence that an object gives, or the default one where it leaves the field out.
pub fn precedence_or_default(fields: &Fields) -> Result<Precedence, FieldFault>
    ensures { result ≡ optional as_precedence Normal Field.Precedence (object_of fields.now) }
{
    if !fields.has(Field::Precedence) {
        return Ok(Precedence::Normal);
    }
    precedence(fields)
}
