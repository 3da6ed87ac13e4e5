ghost use Rattle.std.specs.Prelude.{◌≡◌, [], ◌∷◌, ◌++◌, OnErr, OnOk, if◌then◌else◌};
ghost use Rattle.ctrl_model.specs.Matches.{has_name};

use ctrl_model::Name;
use std::alloc::AllocError;

pub(crate) fn has_name(names: &[Name], name: &Name) -> bool
    ensures { result ≡ has_name names.now name.now }
{
    names.iter().any(|kept| kept.bytes() == name.bytes())
}

/// Puts a name at the end of a list that does not have it yet. For want of memory the list stays.
pub fn keep_name(kept: &mut Vec<Name>, name: Name) -> Result<(), AllocError>
    ensures ok { OnOk result (kept.new.items ≡ (if has_name kept.old.items name then kept.old.items else kept.old.items ++ name ∷ [])) }
    ensures err { OnErr result (kept.new.items ≡ kept.old.items) }
{
    if has_name(kept.as_slice(), &name) {
        return Ok(());
    }
    kept.push(name)?;
    Ok(())
}
