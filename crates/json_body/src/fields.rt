ghost use Rattle.std.specs.Prelude.{◌≡◌, ◌≢◌, IfOk, IfErr, IsOk, IsErrOf, is_some, option_map, true, false, Ok, Err};
ghost use Rattle.std.specs.Result.{result_map_both};
ghost use Rattle.serde_json.specs.Find.{as_str, as_bool};
ghost use Rattle.serde_json.specs.View.{view, items_view};
ghost use Rattle.json_body.specs.FieldKinds.{object_of, is_object, member_of, as_name, as_number_in, as_list_of, required, finished};

use crate::key_words::has_only;
use crate::value_kinds::{as_list_of, as_name, as_number_in, member_of, required};
use ctrl_model::{Field, Name};
use serde_json::Value;
use std::alloc::{AllocError, Global};
use thiserror::Error;

/// Why a field says nothing of its kind.
#[derive(Clone, Copy, Debug, PartialEq, Eq, Error)]
pub enum FieldFault {
    /// The value is no object.
    #[error("the value is no object")]
    NotObject,
    /// The field is absent.
    #[error("a field is missing")]
    Missing(Field),
    /// The field is there and is not of its kind.
    #[error("a field is of the wrong kind")]
    WrongKind(Field),
    /// The object has a key that is none of its fields.
    #[error("a key is unknown")]
    Unknown,
    /// There is no memory.
    #[error("no memory")]
    NoMemory,
}

impl From<AllocError> for FieldFault {
    ghost use Rattle.std.specs.Prelude.{◌≡◌};
    ghost use Rattle.json_body.specs.declared.fields.FieldFault.TheVariants.{NoMemory};

    ghost from_gives = { λ _ e. e ≡ NoMemory };

    fn from(_error: AllocError) -> FieldFault {
        FieldFault::NoMemory
    }
}

/// The fields of a JSON object.
///
/// Contracts see the object, by `object_of` of `FieldKinds`. The kinds of field are told in docs/FORMATS.md, "Bodies".
#[derive(Clone, Copy)]
pub struct Fields<'a> {
    value: &'a Value,
}

impl<'a> Fields<'a> {
    /// The fields of a value. `NotObject` comes exactly where the value is no object.
    pub fn of(value: &'a Value) -> Result<Fields<'a>, FieldFault>
        ensures object { IfOk result (λ fields. (object_of fields ≡ view value.now) × (is_object (view value.now) ≡ true)) }
        ensures fault { IfErr result (λ e. (e ≡ FieldFault.NotObject) × (is_object (view value.now) ≡ false)) }
    {
        if !value.is_object() {
            return Err(FieldFault::NotObject);
        }
        Ok(Fields { value })
    }

    /// The value that the field has, if it is there.
    pub fn value(&self, field: Field) -> Option<&'a Value>
        ensures { option_map (λ v. view v.now) result ≡ member_of field (object_of self.now) }
    {
        member_of(self.value, field)
    }

    /// Whether the field is there.
    pub fn has(&self, field: Field) -> bool
        ensures { result ≡ is_some (member_of field (object_of self.now)) }
    {
        member_of(self.value, field).is_some()
    }

    /// The name that the field gives. `Missing` comes exactly where the field is absent, and `WrongKind` exactly where it is
    /// there and is no name; else only memory can be wanting.
    pub fn name(&self, alloc: Global, field: Field) -> Result<Name, FieldFault>
        ensures name { IfOk result (λ name. required as_name field (object_of self.now) ≡ Ok name) }
        ensures fault { IfErr result (λ e. e ≢ FieldFault.NoMemory → required as_name field (object_of self.now) ≡ Err e) }
        // Memory can be wanting for a name alone.
        ensures memory { IsErrOf result FieldFault.NoMemory → IsOk (required as_name field (object_of self.now)) }
    {
        let value = required(self.value, field)?;
        let name = as_name(alloc, value)?;
        name.ok_or(FieldFault::WrongKind(field))
    }

    /// The text that the field gives; faults as those of `name`.
    pub fn text(&self, field: Field) -> Result<&'a str, FieldFault>
        ensures { result_map_both (λ t. t.now) (λ e. e) result ≡ required as_str field (object_of self.now) }
    {
        let value = required(self.value, field)?;
        value.as_str().ok_or(FieldFault::WrongKind(field))
    }

    /// The whole number from `low` to `high` that the field gives; faults as those of `name`.
    pub fn number(&self, field: Field, low: u32, high: u32) -> Result<u32, FieldFault>
        ensures { result ≡ required (as_number_in low high) field (object_of self.now) }
    {
        let value = required(self.value, field)?;
        as_number_in(value, low, high).ok_or(FieldFault::WrongKind(field))
    }

    /// The truth value that the field gives; faults as those of `name`.
    pub fn flag(&self, field: Field) -> Result<bool, FieldFault>
        ensures { result ≡ required as_bool field (object_of self.now) }
    {
        let value = required(self.value, field)?;
        value.as_bool().ok_or(FieldFault::WrongKind(field))
    }

    /// The list of at most `most` values that the field gives; faults as those of `name`.
    pub fn list(&self, field: Field, most: usize) -> Result<&'a [Value], FieldFault>
        ensures { result_map_both (λ vs. items_view vs.now) (λ e. e) result ≡ required (as_list_of most) field (object_of self.now) }
    {
        let value = required(self.value, field)?;
        as_list_of(value, most).ok_or(FieldFault::WrongKind(field))
    }

    /// That the object has no key but the words of these fields: `Unknown` comes exactly where it has another.
    pub fn finish(&self, allowed: &[Field]) -> Result<(), FieldFault>
        ensures { result ≡ finished allowed.now (object_of self.now) }
    {
        if has_only(allowed, self.value) {
            Ok(())
        } else {
            Err(FieldFault::Unknown)
        }
    }
}
