ghost use Rattle.std.specs.Prelude.{◌≡◌, ◌↔◌, true, false, not, IfOk, IsErrOf};
ghost use Rattle.std.specs.List.{flat_map, list_any};
ghost use Rattle.role_expr.specs.NameRepeats.{without_repeats};
ghost use Rattle.role_expr.specs.RoleSides.{is_all, id_in, attribute_in, is_all_beside, side_from};

use crate::names::keep_name;
use crate::roles::RoleFault;
use ctrl_model::{Copies, Names, Role, Side};
use std::alloc::{AllocError, Global};

fn is_all(role: &Role) -> bool
    ensures { result ≡ is_all role.now }
{
    match role {
        Role::All => true,
        _ => false,
    }
}

fn has_all(roles: &[Role]) -> bool
    ensures { result ≡ list_any is_all roles.now }
{
    roles.iter().any(|role| is_all(role))
}

fn has_other(roles: &[Role]) -> bool
    ensures { result ≡ list_any (λ r. not (is_all r)) roles.now }
{
    roles.iter().any(|role| !is_all(role))
}

fn ids_of(alloc: Global, roles: &[Role]) -> Result<Names, AllocError>
    ensures { IfOk result (λ ns. ns ≡ without_repeats (flat_map id_in roles.now)) }
{
    let mut kept = Vec::new(alloc);
    'roles: for role in roles {
        if let Role::Id(name) = role {
            keep_name(&mut kept, name.copy()?)?;
        }
    }
    Ok(Names::of(kept))
}

fn attributes_of(alloc: Global, roles: &[Role]) -> Result<Names, AllocError>
    ensures { IfOk result (λ ns. ns ≡ without_repeats (flat_map attribute_in roles.now)) }
{
    let mut kept = Vec::new(alloc);
    'roles: for role in roles {
        if let Role::Attribute(name) = role {
            keep_name(&mut kept, name.copy()?)?;
        }
    }
    Ok(Names::of(kept))
}

/// The side that a role list is. Entries that stand twice count once.
///
/// `AllNotAlone` comes exactly where `#all` stands beside another entry, and `BadRole` never; else only memory can be wanting
/// (docs/RULES.md, "Policies and grants").
pub fn side_of(alloc: Global, roles: &[Role]) -> Result<Side, RoleFault>
    ensures side { IfOk result (λ s. s ≡ side_from roles.now) }
    ensures beside { IsErrOf result RoleFault.AllNotAlone ↔ (is_all_beside roles.now ≡ true) }
    ensures form { IsErrOf result RoleFault.BadRole → ⊥ }
    // Memory can be wanting for a side alone.
    ensures memory { IsErrOf result RoleFault.NoMemory → is_all_beside roles.now ≡ false }
{
    if has_all(roles) && has_other(roles) {
        return Err(RoleFault::AllNotAlone);
    }
    let ids = ids_of(alloc, roles)?;
    let attributes = attributes_of(alloc, roles)?;
    Ok(Side {
        all: has_all(roles),
        ids,
        attributes,
    })
}
