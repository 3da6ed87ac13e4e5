use core_stores::{Change, Settled};
use ctrl_model::Reply;
use policy_store::GrantSteps;
use row_codec::Batch;

/// The answer to a command, planned: the reply, the batch of the rows that differ between the state and the next one, and what is kept
/// to carry it out: the change, if there is one, what settles after it, and the steps of the counts. A plan leads from the state in
/// which it was made to the controller's next one (docs/PROMISES.md, "The core").
#[derive(Drop)]
pub struct Planned {
    pub reply: Reply,
    /// Exactly the difference between the rows of the two states.
    pub batch: Batch,
    pub(crate) change: Option<Change>,
    pub(crate) settled: Settled,
    pub(crate) steps: GrantSteps,
}
