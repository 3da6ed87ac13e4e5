ghost use Rattle.std.specs.Prelude.{◌≡◌, ◌≢◌, ◌<◌, length, IfOk, IfErr, IsErrOf, None, Some};
ghost use Rattle.serde_json.specs.Errors.{IsMemory};
ghost use Rattle.serde_json.specs.View.{view};
ghost use Rattle.body_fields.specs.BodyValues.{value_of_body};

use json_body::FieldFault;
use serde_json::{Error, Value};
use std::alloc::Global;

// Why bytes are no value: memory was wanting exactly where the parser says so, and else they are no object.
fn fault_of(error: &Error) -> FieldFault
    ensures memory { IsMemory error.now → result ≡ FieldFault.NoMemory }
    ensures wanting { result ≡ FieldFault.NoMemory → IsMemory error.now }
    ensures form { result ≢ FieldFault.NoMemory → result ≡ FieldFault.NotObject }
{
    if error.is_memory() {
        FieldFault::NoMemory
    } else {
        FieldFault::NotObject
    }
}

/// The JSON value that a body is.
///
/// `NotObject` comes only where the body is no JSON text; else only memory can be wanting, and not for an empty body.
pub fn value_in(alloc: Global, body: &[u8]) -> Result<Value, FieldFault>
    ensures value { IfOk result (λ v. value_of_body body.now ≡ Some (view v)) }
    ensures fault { IfErr result (λ e. e ≢ FieldFault.NoMemory → (e ≡ FieldFault.NotObject) × (value_of_body body.now ≡ None)) }
    // That an empty body is no object takes no memory.
    ensures memory { IsErrOf result FieldFault.NoMemory → 0 < length body.now }
{
    match Value::from_slice(alloc, body) {
        Ok(value) => Ok(value),
        Err(error) => Err(fault_of(&error)),
    }
}
