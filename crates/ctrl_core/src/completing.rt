ghost use Rattle.std.specs.Prelude.{◌≡◌, IfOk};
ghost use Rattle.ctrl_model.specs.Controller.{counted};
ghost use Rattle.model_laws.specs.Plans.{led_by};
ghost use Rattle.row_codec.specs.Batches.{batch_between};
ghost use Rattle.ctrl_core.specs.KeptFormat.{kept_format};
ghost use Rattle.ctrl_core.specs.KeptState.{IsGranted};
ghost use Rattle.core_stores.specs.StoredState.{state_of};
ghost use Rattle.ctrl_core.specs.Changes.{NamesSettled, after_change};
ghost use Rattle.ctrl_core.specs.CompletedPlans.{Completes, CanComplete, SettlesAs};

use crate::plans::Planned;
use crate::row_changes::batch_for;
use crate::settling::settled_by;
use core_stores::{Draft, Settled, Stores};
use row_codec::Batch;
use std::alloc::{AllocError, Global};

/// What settles after the change of a draft; nothing, where it has none.
pub fn settled_after(
    alloc: Global,
    stores: &Stores,
    draft: &Draft,
    granted: bool,
) -> Result<Settled, AllocError>
    requires can { CanComplete stores.now draft.now }
    requires granted { IsGranted granted (state_of stores.now) }
    ensures { IfOk result (NamesSettled draft.now.change (state_of stores.now)) }
{
    match &draft.change {
        Some(change) => settled_by(alloc, stores, change, &draft.steps, granted),
        None => Ok(Settled::nothing(alloc)),
    }
}

// The batch of the rows that differ after the change of a draft, counted, of which this settles; without rows, where it has none.
fn batch_after(
    alloc: Global,
    stores: &Stores,
    draft: &Draft,
    settled: &Settled,
) -> Result<Batch, AllocError>
    requires can { CanComplete stores.now draft.now }
    requires settled { NamesSettled draft.now.change (state_of stores.now) settled.now }
    ensures { IfOk result (λ batch. batch ≡ batch_between kept_format (state_of stores.now) (counted (state_of stores.now) (led_by after_change draft.now.change (state_of stores.now)))) }
{
    match &draft.change {
        Some(change) => batch_for(alloc, stores, change, settled, &draft.steps),
        None => Ok(Batch::of(Vec::new(alloc))),
    }
}

// What settles after the change of a draft, and the batch of the rows that differ.
fn settled_rows(
    alloc: Global,
    stores: &Stores,
    draft: &Draft,
    granted: bool,
) -> Result<(Settled, Batch), AllocError>
    requires can { CanComplete stores.now draft.now }
    requires granted { IsGranted granted (state_of stores.now) }
    ensures { IfOk result (λ p. SettlesAs stores.now draft.now p.0 p.1) }
{
    let settled = settled_after(alloc, stores, draft, granted)?;
    let batch = batch_after(alloc, stores, draft, &settled)?;
    Ok((settled, batch))
}

/// The plan of a draft: with what settles after its change, and the batch of the rows that differ.
pub fn completed(
    alloc: Global,
    stores: &Stores,
    draft: Draft,
    granted: bool,
) -> Result<Planned, AllocError>
    requires can { CanComplete stores.now draft }
    requires granted { IsGranted granted (state_of stores.now) }
    ensures { IfOk result (Completes stores.now draft) }
{
    let (settled, batch) = settled_rows(alloc, stores, &draft, granted)?;
    Ok(Planned {
        reply: draft.reply,
        batch,
        change: draft.change,
        settled,
        steps: draft.steps,
    })
}
