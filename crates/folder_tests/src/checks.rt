//! Comparisons of the tests: each is proved once, and a test that makes it is short.

ghost use Rattle.std.specs.Prelude.{◌≡◌, IsTrue, length};

use std::process::Abort;
use ziti_outside::{Desk, Failed, Part};

/// Bytes are the wanted ones.
pub(crate) fn are_bytes(rt: &impl Abort, found: &[u8], wanted: &[u8]) {
    assert_eq!(rt; found, wanted);
}

/// A call was made.
pub(crate) fn is_done(rt: &impl Abort, answer: Result<(), Failed>) {
    assert_eq!(rt; answer, Ok(()));
}

/// A call was refused.
pub(crate) fn is_refused(rt: &impl Abort, answer: Result<(), Failed>) {
    assert!(rt; answer.is_err());
}

/// A part has so many bytes.
pub fn has_len<D: Desk>(rt: &impl Abort, desk: &mut D, part: Part, wanted: u64)
    ensures { IsTrue D.tells → length ((D.seen desk.new).reads part) ≡ wanted }
{
    assert_eq!(rt; desk.len(part), Ok(wanted));
}
