use grant_denorm::{Counted, Delta};

/// The grant counts of a relation before a change, and the steps that they take by it.
#[derive(Clone, Copy)]
pub struct CountMoves<'a> {
    pub counted: &'a Counted,
    pub steps: &'a [Delta],
}

/// The counts and the steps of each relation.
#[derive(Clone, Copy)]
pub struct GrantMoves<'a> {
    pub dial: CountMoves<'a>,
    pub bind: CountMoves<'a>,
    pub identity_router: CountMoves<'a>,
    pub service_router: CountMoves<'a>,
}
