//! Texts in which a number stands, and the numbers for which they are repeated.

use std::alloc::{AllocError, Global};
use std::ops::Range;

/// The numbers from a first one to before a last one, as `1..41`. What is no such text has none.
pub(crate) fn range_of(numbers: &str) -> Range<u32> {
    let (first, behind) = numbers.split_once("..").unwrap_or(("0", "0"));
    first.parse::<u32>().unwrap_or(0)..behind.parse::<u32>().unwrap_or(0)
}

// What a step makes of a number: `+9` adds, `/3` divides, and `%4` leaves the rest.
fn stepped(number: u32, step: &str) -> u32 {
    let by = step.get(1..).unwrap_or("").parse::<u32>().unwrap_or(0);
    match step.as_bytes().first() {
        Some(b'+') => number.wrapping_add(by),
        Some(b'/') => number.checked_div(by).unwrap_or(0),
        _ => number.checked_rem(by).unwrap_or(0),
    }
}

// Puts what some steps make of a number behind a text.
fn push_number(
    alloc: Global,
    text: &mut String,
    number: u32,
    steps: &str,
) -> Result<(), AllocError> {
    let mut value = number;
    for step in steps.split_whitespace() {
        value = stepped(value, step);
    }
    text.push_str(format!(in alloc; "{value}")?.as_str())
}

/// A text with a number in the place of each two `$`, behind the steps between them, as `$%40 +1$`.
pub(crate) fn filled(alloc: Global, text: &str, number: u32) -> Result<String, AllocError> {
    let mut filled = String::new(alloc);
    let mut is_number = false;
    for piece in text.split('$') {
        if is_number {
            push_number(alloc, &mut filled, number, piece)?;
        } else {
            filled.push_str(piece)?;
        }
        is_number = !is_number;
    }
    Ok(filled)
}
