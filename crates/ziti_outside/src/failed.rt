use thiserror::Error;

/// A call on the outside failed. It says nothing more: the count of that object's faults has risen.
#[derive(Clone, Copy, Debug, PartialEq, Eq, Error)]
#[error("a call on the outside failed")]
pub struct Failed;
