// Lists in JSON, each item by a value of its own.
ghost use Rattle.std.specs.Prelude.{◌≡◌, true, IfOk};
ghost use Rattle.std.specs.List.{list_all};
ghost use Rattle.serde_json.specs.View.{view};
ghost use Rattle.command_bodies.specs.WrittenFields.{list_of};

use serde_json::Value;
use std::alloc::{AllocError, Global};

// What JSON has a value for: which one, and for which things.
pub(crate) trait ItemValue {
    ghost use Rattle.std.specs.Prelude.{◌≡◌, Bool, true, IfOk};
    ghost use Rattle.serde_json.specs.Data.{Data};
    ghost use Rattle.serde_json.specs.View.{view};

    ghost spelled: { Self → Data };

    ghost fits: { Self → Bool };

    // The value. An `Err` is want of memory.
    fn value(&self, alloc: Global) -> Result<Value, AllocError>
        requires { fits self.now ≡ true }
        ensures { IfOk result (λ v. view v ≡ spelled self.now) };
}

// The list of the values of some items. An `Err` is want of memory.
pub(crate) fn list_value<T: ItemValue>(alloc: Global, items: &[T]) -> Result<Value, AllocError>
    requires { list_all T.fits items.now ≡ true }
    ensures { IfOk result (λ v. view v ≡ list_of T.spelled items.now) }
{
    let mut values = Vec::new(alloc);
    'items: for item in items {
        values.push(item.value(alloc)?)?;
    }
    Ok(Value::Array(values))
}
