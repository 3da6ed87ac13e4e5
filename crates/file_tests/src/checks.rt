//! Comparisons of the tests: each is proved once, and a test that makes it is short.

use sample_runs::Asked;
use std::process::Abort;
use ziti_outside::Failed;

/// Bytes are the wanted ones.
pub(crate) fn are_bytes(rt: &impl Abort, found: &[u8], wanted: &[u8]) {
    assert_eq!(rt; found, wanted);
}

/// The calls are the wanted ones.
pub(crate) fn are_calls(rt: &impl Abort, found: &[Asked], wanted: &[Asked]) {
    assert_eq!(rt; found, wanted);
}

/// A call was made.
pub(crate) fn is_done(rt: &impl Abort, answer: Result<(), Failed>) {
    assert_eq!(rt; answer, Ok(()));
}

/// A call was refused.
pub(crate) fn is_refused(rt: &impl Abort, answer: Result<(), Failed>) {
    assert!(rt; answer.is_err());
}
