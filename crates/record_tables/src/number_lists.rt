ghost use Rattle.std.specs.Prelude.{◌≡◌, ◌==◌, ◌++◌, not, [], ◌∷◌, filter, IfOk};
ghost use Rattle.ctrl_model.specs.Walks.{is_among};
ghost use Rattle.record_tables.specs.Turns.{left_of, turned};

use crate::turns::Turn;
use ctrl_model::Numbers;
use std::alloc::{AllocError, Global};

/// Whether a number stands among some.
pub fn is_among(number: u32, numbers: &[u32]) -> bool
    ensures { result ≡ is_among number numbers.now }
{
    'numbers: for other in numbers {
        if *other == number {
            return true;
        }
    }
    false
}

// The numbers without one.
fn numbers_but(alloc: Global, numbers: &Numbers, gone: u32) -> Result<Numbers, AllocError>
    ensures { IfOk result (λ ns. ns ≡ filter (λ m. not (m == gone)) numbers.now) }
{
    let left = numbers
        .as_slice()
        .iter()
        .copied()
        .filter(|number| *number != gone)
        .collect(alloc)?;
    Ok(Numbers::of(left))
}

// The numbers, with one more at their end.
fn numbers_and(numbers: Numbers, last: u32) -> Result<Numbers, AllocError>
    ensures { IfOk result (λ ns. ns ≡ numbers ++ last ∷ []) }
{
    let mut items = numbers.items;
    items.push(last)?;
    Ok(Numbers::of(items))
}

/// The numbers of a table after a turn. One that comes is the next one.
pub fn turned<V: Drop>(
    alloc: Global,
    turn: Turn<V>,
    next: u32,
    numbers: Numbers,
) -> Result<Numbers, AllocError>
    ensures { IfOk result (λ ns. ns ≡ turned turn next numbers) }
{
    match turn {
        Turn::Adds(_) => numbers_and(numbers, next),
        Turn::Removes(gone) => numbers_but(alloc, &numbers, gone),
        Turn::Sets(_) | Turn::Keeps => Ok(numbers),
    }
}

/// The numbers that are not gone.
pub fn left_of(alloc: Global, numbers: &Numbers, gone: &Numbers) -> Result<Numbers, AllocError>
    ensures { IfOk result (λ ns. ns ≡ left_of gone.now numbers.now) }
{
    let mut left = Vec::new(alloc);
    'numbers: for number in numbers.as_slice() {
        if !is_among(*number, gone.as_slice()) {
            left.push(*number)?;
        }
    }
    Ok(Numbers::of(left))
}
