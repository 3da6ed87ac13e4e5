ghost use Rattle.std.specs.Prelude.{◌≡◌, IfOk};

use crate::records::Policy;
use ctrl_model::{Copies, Name, Relation, Semantic, Side};
use std::alloc::AllocError;

/// An equal side.
pub fn copy_side(side: &Side) -> Result<Side, AllocError>
    ensures { IfOk result (λ s. s ≡ side.now) }
{
    let ids = side.ids.copy()?;
    let attributes = side.attributes.copy()?;
    Ok(Side {
        all: side.all,
        ids,
        attributes,
    })
}

/// The policy of some parts.
pub fn policy_of(
    name: &Name,
    relation: Relation,
    semantic: Semantic,
    left: &Side,
    right: &Side,
) -> Result<Policy, AllocError>
    ensures { IfOk result (λ p. p ≡ record { name = name.now; relation = relation; semantic = semantic; left = left.now; right = right.now }) }
{
    let name = name.copy()?;
    let left = copy_side(left)?;
    let right = copy_side(right)?;
    Ok(Policy {
        name,
        relation,
        semantic,
        left,
        right,
    })
}

/// An equal policy.
pub fn copy_policy(policy: &Policy) -> Result<Policy, AllocError>
    ensures { IfOk result (λ p. p ≡ policy.now) }
{
    let name = policy.name.copy()?;
    let left = copy_side(&policy.left)?;
    let right = copy_side(&policy.right)?;
    Ok(Policy {
        name,
        relation: policy.relation,
        semantic: policy.semantic,
        left,
        right,
    })
}
