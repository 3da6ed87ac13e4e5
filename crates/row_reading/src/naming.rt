ghost use Rattle.std.specs.Prelude.{◌≡◌, IfOk};

use ctrl_model::{Instance, Name};
use std::alloc::{AllocError, Global};

/// The name that the bytes are.
pub(crate) fn named(alloc: Global, bytes: &[u8]) -> Result<Name, AllocError>
    ensures { IfOk result (λ name. name ≡ bytes.now) }
{
    match Name::of(alloc, bytes) {
        Ok(name) => Ok(name),
        Err(_) => Err(AllocError),
    }
}

/// The instance that the bytes are.
pub(crate) fn instance_named(alloc: Global, bytes: &[u8]) -> Result<Instance, AllocError>
    ensures { IfOk result (λ instance. instance ≡ bytes.now) }
{
    match Instance::of(alloc, bytes) {
        Ok(instance) => Ok(instance),
        Err(_) => Err(AllocError),
    }
}
