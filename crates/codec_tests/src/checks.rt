//! Comparisons of the tests: each is proved once, and a test that makes it is short.

use frame_lines::{DecodeFault, Decoded};
use std::alloc::{AllocError, Global};
use std::process::Abort;

/// Bytes are the wanted ones.
pub(crate) fn are_bytes(rt: &impl Abort, found: &[u8], wanted: &[u8]) {
    assert_eq!(rt; found, wanted);
}

// What is said of a fault, and nothing where there is none.
fn words_of(alloc: Global, fault: Option<DecodeFault>) -> Result<String, AllocError> {
    match fault {
        Some(fault) => fault.text(alloc),
        None => Ok(String::new(alloc)),
    }
}

/// What was told is this text, and these words are said of its fault.
pub(crate) fn is_told(
    rt: &impl Abort,
    alloc: Global,
    told: &Decoded,
    text: &str,
    words: &str,
) -> Result<(), AllocError> {
    are_bytes(rt, told.text.as_slice(), text.as_bytes());
    let found = words_of(alloc, told.fault)?;
    are_bytes(rt, found.as_bytes(), words.as_bytes());
    Ok(())
}
