use crate::offers::Term;
use ctrl_model::{Precedence, TermNo};

/// One change of the terminators.
#[derive(Drop)]
pub enum TermChange {
    /// One more terminator.
    Add(Term),
    /// Another cost and another precedence.
    Set {
        no: TermNo,
        cost: u32,
        precedence: Precedence,
    },
    /// A terminator goes.
    Remove(TermNo),
}
