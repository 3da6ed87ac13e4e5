//! What the answers of readers and writers are to a source and to a desk, and how a fault is counted.

ghost use Rattle.std.specs.Prelude.{◌≡◌, IfOk, OnErr, IsErr, Ok};
ghost use Rattle.ziti_outside.specs.Causes.{HasCause};
ghost use Rattle.desk_base.specs.Answers.{IsTaken};

use std::io;
use ziti_outside::Failed;

/// What the system gave: no answer but an error is a fault, so that the end of the input is none.
pub fn given<T>(answer: io::Result<T>) -> Result<T, Failed>
    ensures ok { IfOk answer (λ value. result ≡ Ok value) }
    ensures err { OnErr answer (IsErr result) }
{
    match answer {
        Ok(value) => Ok(value),
        Err(_) => Err(Failed),
    }
}

/// How many bytes a write took of a piece of this length: an error is a fault, and so is that it took nothing of a piece; that
/// it took a part of it is none.
pub fn taken(answer: io::Result<usize>, len: usize) -> Result<usize, Failed>
    ensures ok { IfOk answer (λ count. IsTaken count len result) }
    ensures err { OnErr answer (IsErr result) }
{
    match answer {
        Ok(0) if len > 0 => Err(Failed),
        Ok(count) => Ok(count),
        Err(_) => Err(Failed),
    }
}

/// Hands an answer on, and counts it where it is a fault. A count at its type's end stays there.
pub fn counted<T>(faults: &mut u64, answer: Result<T, Failed>) -> Result<T, Failed>
    ensures answer { result ≡ answer }
    ensures cause { HasCause faults.old faults.new result }
{
    if answer.is_err() {
        *faults = faults.saturating_add(1);
    }
    answer
}
