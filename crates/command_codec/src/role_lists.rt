ghost use Rattle.std.specs.Prelude.{◌≡◌, ◌&&◌, not, IfOk, IsErrOf, IsOk, IsSome, OnErr, is_some, option_and_then};
ghost use Rattle.std.specs.List.{list_any};
ghost use Rattle.serde_json.specs.View.{view, items_view};
ghost use Rattle.json_body.specs.FieldKinds.{object_of, required};
ghost use Rattle.role_expr.specs.ReadRoles.{role_in};
ghost use Rattle.body_fields.specs.ItemLists.{each_of};
ghost use Rattle.body_fields.specs.ReadResults.{Gives};
ghost use Rattle.command_codec.specs.RoleLists.{as_role, as_side, is_all_text, side_of};

use body_fields::{ItemKind, are_said, each_in};
use ctrl_model::{Field, MOST_ENTRIES, Role, Side};
use json_body::{FieldFault, Fields, as_list_of};
use role_expr::{RoleFault, is_role, read_role};
use serde_json::Value;
use std::alloc::{AllocError, Global};

// The role entry that some bytes are, if they are one.
fn role_in(alloc: Global, bytes: &[u8]) -> Result<Option<Role>, AllocError>
    ensures role { IfOk result (λ r. r ≡ role_in bytes.now) }
    ensures memory { OnErr result (IsSome (role_in bytes.now)) }
{
    match read_role(alloc, bytes) {
        Ok(role) => Ok(Some(role)),
        Err(RoleFault::BadRole) => Ok(None),
        Err(RoleFault::AllNotAlone) => unreachable!(),
        Err(RoleFault::NoMemory) => Err(AllocError),
    }
}

// A role entry.
pub(crate) struct RoleEntry;

impl ItemKind<Role> for RoleEntry {
    ghost use Rattle.command_codec.specs.RoleLists.{as_role};

    ghost kind = { as_role };

    fn is_said(value: &Value) -> bool {
        match value.as_str() {
            Some(text) => is_role(text.as_bytes()),
            None => false,
        }
    }

    fn said_by(alloc: Global, value: &Value) -> Result<Option<Role>, AllocError> {
        let Some(text) = value.as_str() else {
            return Ok(None);
        };
        role_in(alloc, text.as_bytes())
    }
}

fn is_all(value: &Value) -> bool
    ensures { result ≡ is_all_text (view value.now) }
{
    match value.as_str() {
        Some(text) => text == "#all",
        None => false,
    }
}

fn has_all(values: &[Value]) -> bool
    ensures { result ≡ list_any (λ v. is_all_text (view v)) values.now }
{
    values.iter().any(|value| is_all(value))
}

fn has_other(values: &[Value]) -> bool
    ensures { result ≡ list_any (λ v. not (is_all_text (view v))) values.now }
{
    values.iter().any(|value| !is_all(value))
}

// Whether `#all` does not stand beside another value.
fn stands_alone(values: &[Value]) -> bool
    ensures { result ≡ not (list_any (λ v. is_all_text (view v)) values.now && list_any (λ v. not (is_all_text (view v))) values.now) }
{
    !(has_all(values) && has_other(values))
}

// Whether values are role entries in which `#all` stands alone. No memory is taken.
fn are_roles(values: &[Value]) -> bool
    ensures { result ≡ is_some (option_and_then side_of (each_of as_role (items_view values.now))) }
{
    are_said::<Role, RoleEntry>(values) && stands_alone(values)
}

// Whether a value is a role list in which `#all` stands alone. No memory is taken.
pub(crate) fn is_side(value: &Value) -> bool
    ensures { result ≡ is_some (as_side (view value.now)) }
{
    match as_list_of(value, MOST_ENTRIES) {
        Some(values) => are_roles(values),
        None => false,
    }
}

// The side of some role entries, if `#all` stands alone.
fn side_of(alloc: Global, roles: &[Role]) -> Result<Option<Side>, AllocError>
    ensures side { IfOk result (λ s. s ≡ side_of roles.now) }
    ensures memory { OnErr result (IsSome (side_of roles.now)) }
{
    // Of entries that were read BadRole never comes.
    match role_expr::side_of(alloc, roles) {
        Ok(side) => Ok(Some(side)),
        Err(RoleFault::AllNotAlone | RoleFault::BadRole) => Ok(None),
        Err(RoleFault::NoMemory) => Err(AllocError),
    }
}

// The side that some values are, if they are role entries in which `#all` stands alone. No memory is taken before that is known.
fn side_in(alloc: Global, values: &[Value]) -> Result<Option<Side>, AllocError>
    ensures side { IfOk result (λ s. s ≡ option_and_then side_of (each_of as_role (items_view values.now))) }
    ensures memory { OnErr result (IsSome (option_and_then side_of (each_of as_role (items_view values.now)))) }
{
    if !are_roles(values) {
        return Ok(None);
    }
    let Some(roles) = each_in::<Role, RoleEntry>(alloc, values)? else {
        return Ok(None);
    };
    side_of(alloc, roles.as_slice())
}

// The side that an object gives in a field.
pub(crate) fn side(alloc: Global, fields: &Fields, field: Field) -> Result<Side, FieldFault>
    ensures given { Gives FieldFault.NoMemory (λ s. s) result (required as_side field (object_of fields.now)) }
    // Memory can be wanting for a side alone.
    ensures memory { IsErrOf result FieldFault.NoMemory → IsOk (required as_side field (object_of fields.now)) }
{
    let values = fields.list(field, MOST_ENTRIES)?;
    side_in(alloc, values)?.ok_or(FieldFault::WrongKind(field))
}
