ghost use Rattle.std.specs.Prelude.{◌≡◌, IfOk, IsErrOf, IsOk, IsSome, OnErr, OnOk, is_some, option_map};
ghost use Rattle.std.specs.List.{list_any};
ghost use Rattle.serde_json.specs.View.{view, items_view};
ghost use Rattle.json_body.specs.FieldKinds.{object_of, required};
ghost use Rattle.body_fields.specs.ItemLists.{each_of, as_each_of, each_once, with_item, as_some_once};
ghost use Rattle.body_fields.specs.ReadResults.{Gives};

use ctrl_model::{Field, Name};
use json_body::{FieldFault, Fields, as_list_of, as_name, is_name};
use serde_json::Value;
use std::alloc::{AllocError, Global};

/// A kind of the values of a list, and what each of them says.
pub trait ItemKind<T: Drop> {
    ghost use Rattle.std.specs.Prelude.{◌≡◌, Option, IfOk, IsSome, OnErr, is_some};
    ghost use Rattle.serde_json.specs.Data.{Data};
    ghost use Rattle.serde_json.specs.View.{view};

    ghost kind: { Data → Option T };

    /// Whether a value says something. Want of memory changes nothing of it.
    fn is_said(value: &Value) -> bool
        ensures { result ≡ is_some (kind (view value.now)) };

    /// What a value says, if it says something.
    fn said_by(alloc: Global, value: &Value) -> Result<Option<T>, AllocError>
        ensures value { IfOk result (λ x. x ≡ kind (view value.now)) }
        // Memory can be wanting for what is said alone.
        ensures memory { OnErr result (IsSome (kind (view value.now))) };
}

/// When two things of a list are the same, so that the later one is dropped.
pub trait SameItems<T> {
    ghost use Rattle.std.specs.Prelude.{◌≡◌, Bool, true};

    ghost same: { T → T → Bool };

    /// Whether two things are the same.
    fn is_same(item: &T, other: &T) -> bool
        ensures { result ≡ same item.now other.now };

    // Only equal things are the same.
    ghost are_equal: { (x y : T) → same x y ≡ true → x ≡ y };
}

/// A name.
pub struct ItemName;

impl ItemKind<Name> for ItemName {
    ghost use Rattle.json_body.specs.FieldKinds.{as_name};

    ghost kind = { as_name };

    fn is_said(value: &Value) -> bool {
        is_name(value)
    }

    fn said_by(alloc: Global, value: &Value) -> Result<Option<Name>, AllocError> {
        as_name(alloc, value)
    }
}

impl SameItems<Name> for ItemName {
    ghost use Rattle.std.specs.Str.{bytes_eq};
    ghost use Rattle.ctrl_model.proofs.DistinctLaws.{same_name};

    ghost same = { bytes_eq };

    ghost are_equal = { same_name };

    fn is_same(item: &Name, other: &Name) -> bool {
        item.bytes() == other.bytes()
    }
}

/// Whether each of some values says something. Want of memory changes nothing of it.
pub fn are_said<T: Drop, K: ItemKind<T>>(values: &[Value]) -> bool
    ensures { result ≡ is_some (each_of K.kind (items_view values.now)) }
{
    'values: for value in values {
        if !K::is_said(value) {
            return false;
        }
    }
    true
}

/// Whether a value is a list of at most `most` values that each say something. Want of memory changes nothing of it.
pub fn is_list_of<T: Drop, K: ItemKind<T>>(value: &Value, most: usize) -> bool
    ensures { result ≡ is_some (as_each_of most K.kind (view value.now)) }
{
    match as_list_of(value, most) {
        Some(values) => are_said::<T, K>(values),
        None => false,
    }
}

/// Whether a value is a list of at least one and at most `most` values that each say something. Want of memory changes nothing of it.
pub fn is_some_list_of<T: Drop, K: ItemKind<T> + SameItems<T>>(value: &Value, most: usize) -> bool
    ensures { result ≡ is_some (as_some_once most K.kind K.same (view value.now)) }
{
    match as_list_of(value, most) {
        Some(values) => !values.is_empty() && are_said::<T, K>(values),
        None => false,
    }
}

/// What each of some values says, if each says something. Nothing is kept before that is known.
pub fn each_in<T: Drop, K: ItemKind<T>>(
    alloc: Global,
    values: &[Value],
) -> Result<Option<Vec<T>>, AllocError>
    ensures values { IfOk result (λ xs. option_map (λ v. v.items) xs ≡ each_of K.kind (items_view values.now)) }
    ensures memory { OnErr result (IsSome (each_of K.kind (items_view values.now))) }
{
    if !are_said::<T, K>(values) {
        return Ok(None);
    }
    let mut items = Vec::new(alloc);
    'values: for value in values {
        let Some(item) = K::said_by(alloc, value)? else {
            return Ok(None);
        };
        items.push(item)?;
    }
    Ok(Some(items))
}

// Whether a thing is the same as one of some.
fn is_among<T, K: SameItems<T>>(items: &[T], item: &T) -> bool
    ensures { result ≡ list_any (λ x. K.same x item.now) items.now }
{
    items.iter().any(|kept| K::is_same(kept, item))
}

// Puts a thing at the end of a list that has none yet that is the same. For want of memory the list stays.
fn keep_item<T: Drop, K: SameItems<T>>(kept: &mut Vec<T>, item: T) -> Result<(), AllocError>
    ensures { OnOk result (kept.new.items ≡ with_item K.same kept.old.items item) }
{
    if is_among::<T, K>(kept.as_slice(), &item) {
        return Ok(());
    }
    kept.push(item)?;
    Ok(())
}

/// The same, each thing once: of those that are the same the first stays.
pub fn each_once_in<T: Drop, K: ItemKind<T> + SameItems<T>>(
    alloc: Global,
    values: &[Value],
) -> Result<Option<Vec<T>>, AllocError>
    ensures values { IfOk result (λ xs. option_map (λ v. v.items) xs ≡ option_map (each_once K.same) (each_of K.kind (items_view values.now))) }
    ensures memory { OnErr result (IsSome (each_of K.kind (items_view values.now))) }
{
    if !are_said::<T, K>(values) {
        return Ok(None);
    }
    let mut kept = Vec::new(alloc);
    'values: for value in values {
        let Some(item) = K::said_by(alloc, value)? else {
            return Ok(None);
        };
        keep_item::<T, K>(&mut kept, item)?;
    }
    Ok(Some(kept))
}

// The list of at most `most` values of the kind that an object gives in a field; faults as those of `Fields::name`.
pub(crate) fn list<T: Drop, K: ItemKind<T>>(
    alloc: Global,
    fields: &Fields,
    field: Field,
    most: usize,
) -> Result<Vec<T>, FieldFault>
    ensures given { Gives FieldFault.NoMemory (λ v. v.items) result (required (as_each_of most K.kind) field (object_of fields.now)) }
    // Memory can be wanting for such a list alone.
    ensures memory { IsErrOf result FieldFault.NoMemory → IsOk (required (as_each_of most K.kind) field (object_of fields.now)) }
{
    let values = fields.list(field, most)?;
    each_in::<T, K>(alloc, values)?.ok_or(FieldFault::WrongKind(field))
}

// The list of at least one and at most `most` values of the kind that an object gives in a field, each thing once; faults as those of
// `Fields::name`.
pub(crate) fn some_once<T: Drop, K: ItemKind<T> + SameItems<T>>(
    alloc: Global,
    fields: &Fields,
    field: Field,
    most: usize,
) -> Result<Vec<T>, FieldFault>
    ensures given { Gives FieldFault.NoMemory (λ v. v.items) result (required (as_some_once most K.kind K.same) field (object_of fields.now)) }
    // Memory can be wanting for such a list alone.
    ensures memory { IsErrOf result FieldFault.NoMemory → IsOk (required (as_some_once most K.kind K.same) field (object_of fields.now)) }
{
    let values = fields.list(field, most)?;
    if values.is_empty() {
        return Err(FieldFault::WrongKind(field));
    }
    each_once_in::<T, K>(alloc, values)?.ok_or(FieldFault::WrongKind(field))
}
