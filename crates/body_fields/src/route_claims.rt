ghost use Rattle.std.specs.Prelude.{◌≡◌, ◌||◌, codes, IfOk, IsErrOf, IsOk, IsSome, OnErr, is_some, option_map, string_bytes};
ghost use Rattle.std.specs.List.{list_all};
ghost use Rattle.std.specs.Str.{bytes_eq};
ghost use Rattle.std.specs.BTreeMap.{keys};
ghost use Rattle.serde_json.specs.View.{view};
ghost use Rattle.ctrl_model.specs.Words.{word_of};
ghost use Rattle.json_body.specs.FieldKinds.{object_of, required};
ghost use Rattle.body_fields.specs.ReadResults.{Gives};
ghost use Rattle.body_fields.specs.RouteClaims.{as_numbers, as_potentials, has_reach_keys, router_in, values_in};

use crate::item_lists::{ItemKind, each_in, is_list_of, list};
use ctrl_model::{Field, MOST_ROUTERS, Numbers, Potentials, Reach, Reaches, RouterNo};
use json_body::{FieldFault, Fields, as_list_of, as_number_in};
use serde_json::{Map, Value};
use std::alloc::{AllocError, Global};

// The key of the values of a potential.
const VALUES: &str = "values";

/// The number of a record.
pub struct RecordNumber;

impl ItemKind<u32> for RecordNumber {
    ghost use Rattle.body_fields.specs.FieldValues.{as_no};

    ghost kind = { as_no };

    fn is_said(value: &Value) -> bool {
        as_number_in(value, 1, u32::MAX).is_some()
    }

    fn said_by(_alloc: Global, value: &Value) -> Result<Option<u32>, AllocError> {
        Ok(as_number_in(value, 1, u32::MAX))
    }
}

/// A value of a potential.
pub struct PotentialValue;

impl ItemKind<u64> for PotentialValue {
    ghost use Rattle.body_fields.specs.RouteClaims.{as_value};

    ghost kind = { as_value };

    fn is_said(value: &Value) -> bool {
        value.is_null() || as_number_in(value, 0, u32::MAX).is_some()
    }

    fn said_by(_alloc: Global, value: &Value) -> Result<Option<u64>, AllocError> {
        if value.is_null() {
            return Ok(Some(u64::MAX));
        }
        Ok(as_number_in(value, 0, u32::MAX).map(u64::from))
    }
}

/// A potential.
pub struct Potential;

impl ItemKind<Reach> for Potential {
    ghost use Rattle.body_fields.specs.RouteClaims.{as_reach};

    ghost kind = { as_reach };

    fn is_said(value: &Value) -> bool {
        has_reach_keys(value) && router_in(value).is_some() && has_values(value)
    }

    fn said_by(alloc: Global, value: &Value) -> Result<Option<Reach>, AllocError> {
        if !has_reach_keys(value) {
            return Ok(None);
        }
        let Some(router) = router_in(value) else {
            return Ok(None);
        };
        let Some(values) = values_in(alloc, value)? else {
            return Ok(None);
        };
        Ok(Some(Reach {
            router: RouterNo(router),
            values: Potentials::of(values),
        }))
    }
}

fn is_reach_key(key: &str) -> bool
    ensures { result ≡ (bytes_eq key.now (word_of Field.Router) || bytes_eq key.now (codes "values")) }
{
    key == "router" || key == VALUES
}

fn are_reach_keys(members: &Map<String, Value>) -> bool
    ensures { result ≡ list_all (λ k. bytes_eq (string_bytes k) (word_of Field.Router) || bytes_eq (string_bytes k) (codes "values")) (keys members.now) }
{
    members.keys().all(|key| is_reach_key(key.as_str()))
}

// Whether a value is an object without other keys than those of a potential.
fn has_reach_keys(value: &Value) -> bool
    ensures { result ≡ has_reach_keys (view value.now) }
{
    match value.as_object() {
        Some(members) => are_reach_keys(members),
        None => false,
    }
}

// The number of the router of a potential.
fn router_in(value: &Value) -> Option<u32>
    ensures { result ≡ router_in (view value.now) }
{
    as_number_in(value.get("router")?, 1, u32::MAX)
}

// Whether a potential has values.
fn has_values(value: &Value) -> bool
    ensures { result ≡ is_some (values_in (view value.now)) }
{
    let Some(values) = value.get(VALUES) else {
        return false;
    };
    is_list_of::<u64, PotentialValue>(values, MOST_ROUTERS)
}

// The values of a potential.
fn values_in(alloc: Global, value: &Value) -> Result<Option<Vec<u64>>, AllocError>
    ensures values { IfOk result (λ vs. option_map (λ v. v.items) vs ≡ values_in (view value.now)) }
    ensures memory { OnErr result (IsSome (values_in (view value.now))) }
{
    let Some(values) = value.get(VALUES) else {
        return Ok(None);
    };
    match as_list_of(values, MOST_ROUTERS) {
        Some(values) => each_in::<u64, PotentialValue>(alloc, values),
        None => Ok(None),
    }
}

/// The numbers of records, at most `most`, that an object gives in a field; faults as those of `Fields::name`.
pub fn numbers(
    alloc: Global,
    fields: &Fields,
    field: Field,
    most: usize,
) -> Result<Numbers, FieldFault>
    ensures given { Gives FieldFault.NoMemory (λ n. n) result (required (as_numbers most) field (object_of fields.now)) }
    // Memory can be wanting for such numbers alone.
    ensures memory { IsErrOf result FieldFault.NoMemory → IsOk (required (as_numbers most) field (object_of fields.now)) }
{
    Ok(Numbers::of(list::<u32, RecordNumber>(alloc, fields, field, most)?))
}

/// The potentials that an object gives; faults as those of `Fields::name`.
pub fn potentials(alloc: Global, fields: &Fields) -> Result<Reaches, FieldFault>
    ensures given { Gives FieldFault.NoMemory (λ r. r) result (required as_potentials Field.Potentials (object_of fields.now)) }
    // Memory can be wanting for potentials alone.
    ensures memory { IsErrOf result FieldFault.NoMemory → IsOk (required as_potentials Field.Potentials (object_of fields.now)) }
{
    Ok(Reaches::of(list::<Reach, Potential>(alloc, fields, Field::Potentials, MOST_ROUTERS)?))
}
