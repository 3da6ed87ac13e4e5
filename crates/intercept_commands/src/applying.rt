ghost use Rattle.std.specs.Prelude.{◌≡◌, OnOk, OnErr};
ghost use Rattle.intercepts.specs.InterceptChanges.{after_intercept_change};

use intercepts::{InterceptChange, Intercepts};
use std::alloc::AllocError;

/// Makes a change of the intercepts. For want of memory they stay.
pub fn apply_intercept_change(
    intercepts: &mut Intercepts,
    change: InterceptChange,
) -> Result<(), AllocError>
    ensures ok { OnOk result (intercepts.new ≡ after_intercept_change change intercepts.old) }
    ensures err { OnErr result (intercepts.new ≡ intercepts.old) }
{
    match change {
        InterceptChange::Set { service, intercept } => intercepts.set(service.0, intercept),
        InterceptChange::Remove { service } => {
            intercepts.remove(service.0);
            Ok(())
        }
    }
}
