ghost use Rattle.std.specs.Prelude.{◌≡◌, OnOk, OnErr};
ghost use Rattle.circuits.specs.CircuitChanges.{CanChangeCircuits, after_circuit_change};

use crate::changes::CircuitChange;
use crate::store::Circuits;
use std::alloc::AllocError;

/// Makes a change of the circuits. For want of memory they stay.
pub fn apply_circuit_change(
    circuits: &mut Circuits,
    change: CircuitChange,
) -> Result<(), AllocError>
    requires { CanChangeCircuits change circuits.old }
    ensures ok { OnOk result (circuits.new ≡ after_circuit_change change circuits.old) }
    ensures err { OnErr result (circuits.new ≡ circuits.old) }
{
    match change {
        CircuitChange::Add(circuit) => {
            let _number = circuits.add(circuit)?;
        }
        CircuitChange::Remove(no) => circuits.remove(no),
    }
    Ok(())
}
