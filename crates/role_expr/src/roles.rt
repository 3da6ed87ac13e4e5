ghost use Rattle.std.specs.Prelude.{◌≡◌, ◌↔◌, true, IfOk, OnErr, IsErrOf, IsSome, is_some};
ghost use Rattle.ctrl_model.specs.declared.kinds.Role.{Role};
ghost use Rattle.role_expr.specs.ReadRoles.{attribute_from, name_in, role_in};
ghost use Rattle.role_expr.specs.RoleSpelling.{is_role, role_spelling};

use ctrl_model::{Name, NameFault, Role};
use std::alloc::{AllocError, Global};
use thiserror::Error;

/// Why bytes are no role entry, and why entries are no side.
#[derive(Clone, Copy, Debug, PartialEq, Eq, Error)]
pub enum RoleFault {
    /// The bytes are no role entry.
    #[error("the bytes are no role entry")]
    BadRole,
    /// `#all` stands beside another entry.
    #[error("#all stands beside another entry")]
    AllNotAlone,
    /// There is no memory.
    #[error("no memory")]
    NoMemory,
}

impl From<AllocError> for RoleFault {
    ghost use Rattle.std.specs.Prelude.{◌≡◌};
    ghost use Rattle.role_expr.specs.declared.roles.RoleFault.TheVariants.{NoMemory};

    ghost from_gives = { λ _ e. e ≡ NoMemory };

    fn from(_error: AllocError) -> RoleFault {
        RoleFault::NoMemory
    }
}

// The name that some bytes are, if they are one.
fn name_in(alloc: Global, bytes: &[u8]) -> Result<Option<Name>, AllocError>
    ensures name { IfOk result (λ name. name ≡ name_in bytes.now) }
    ensures memory { OnErr result (IsSome (name_in bytes.now)) }
{
    match Name::of(alloc, bytes) {
        Ok(name) => Ok(Some(name)),
        Err(NameFault::BadName) => Ok(None),
        Err(NameFault::NoMemory) => Err(AllocError),
    }
}

// The entry that some bytes are behind `#`.
fn attribute_from(alloc: Global, bytes: &[u8]) -> Result<Option<Role>, AllocError>
    ensures role { IfOk result (λ r. r ≡ attribute_from bytes.now) }
    ensures memory { OnErr result (IsSome (attribute_from bytes.now)) }
{
    if bytes == b"all".as_slice() {
        return Ok(Some(Role::All));
    }
    Ok(name_in(alloc, bytes)?.map(Role::Attribute))
}

// The entry that some bytes are.
fn role_in(alloc: Global, bytes: &[u8]) -> Result<Option<Role>, AllocError>
    ensures role { IfOk result (λ r. r ≡ role_in bytes.now) }
    ensures memory { OnErr result (IsSome (role_in bytes.now)) }
{
    match bytes.split_first() {
        Some((b'@', name)) => Ok(name_in(alloc, name)?.map(Role::Id)),
        Some((b'#', rest)) => attribute_from(alloc, rest),
        _ => Ok(None),
    }
}

// Whether some bytes are an entry behind `#`.
fn is_attribute(bytes: &[u8]) -> bool
    ensures { result ≡ is_some (attribute_from bytes.now) }
{
    bytes == b"all".as_slice() || Name::is(bytes)
}

/// Whether the bytes are a role entry. No memory is taken.
pub fn is_role(bytes: &[u8]) -> bool
    ensures { result ≡ is_some (role_in bytes.now) }
{
    match bytes.split_first() {
        Some((b'@', name)) => Name::is(name),
        Some((b'#', rest)) => is_attribute(rest),
        _ => false,
    }
}

/// The role entry that the bytes are.
///
/// `BadRole` comes exactly where the bytes are the spelling of no role entry, and `AllNotAlone` never; else only memory can be
/// wanting (docs/RULES.md, "Policies and grants").
pub fn read_role(alloc: Global, bytes: &[u8]) -> Result<Role, RoleFault>
    ensures role { IfOk result (λ r. (is_role r ≡ true) × (role_spelling r ≡ bytes.now)) }
    ensures bad { IsErrOf result RoleFault.BadRole ↔ ((r : Role) → is_role r ≡ true → role_spelling r ≡ bytes.now → ⊥) }
    ensures alone { IsErrOf result RoleFault.AllNotAlone → ⊥ }
    // Memory can be wanting for a role entry alone.
    ensures memory { IsErrOf result RoleFault.NoMemory → IsSome (role_in bytes.now) }
{
    role_in(alloc, bytes)?.ok_or(RoleFault::BadRole)
}
