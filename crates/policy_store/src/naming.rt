ghost use Rattle.std.specs.Prelude.{◌≡◌, ◌++◌, IfOk, OnOk};

use crate::records::Policy;
use ctrl_model::{Copies, Name, Names};
use std::alloc::{AllocError, Global};

fn push_names(kept: &mut Vec<Name>, names: &[Name]) -> Result<(), AllocError>
    ensures { OnOk result (kept.new.items ≡ kept.old.items ++ names.now) }
{
    'names: for name in names {
        kept.push(name.copy()?)?;
    }
    Ok(())
}

/// The attributes of both sides of a policy, with repeats.
pub fn policy_names(alloc: Global, policy: &Policy) -> Result<Names, AllocError>
    ensures { IfOk result (λ ns. ns ≡ policy.now.left.attributes ++ policy.now.right.attributes) }
{
    let mut names = Vec::new(alloc);
    push_names(&mut names, policy.left.attributes.as_slice())?;
    push_names(&mut names, policy.right.attributes.as_slice())?;
    Ok(Names::of(names))
}
