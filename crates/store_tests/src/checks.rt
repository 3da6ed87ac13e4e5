//! Comparisons of the tests: each is proved once, and a test that makes it is short.

use std::process::Abort;

/// Numbers are the wanted ones.
pub(crate) fn are_numbers(rt: &impl Abort, found: &[u32], wanted: &[u32]) {
    assert_eq!(rt; found, wanted);
}
