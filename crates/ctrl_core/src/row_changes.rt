ghost use Rattle.std.specs.Prelude.{◌≡◌, ◌++◌, IfOk, OnOk};
ghost use Rattle.ctrl_model.specs.Controller.{counted};
ghost use Rattle.row_codec.specs.Batches.{batch_between};
ghost use Rattle.row_codec.specs.CoveredTables.{Covers};
ghost use Rattle.ctrl_core.specs.ChangedStores.{CanSettle, KnowsSettled, next_state};
ghost use Rattle.grant_steps.specs.LeadingSteps.{LeadAllCounts};
ghost use Rattle.ctrl_core.specs.KeptFormat.{kept_format};
ghost use Rattle.ctrl_core.specs.KeptState.{Keeps};
ghost use Rattle.core_stores.specs.StoredState.{state_of};

use crate::kept_format::KEPT_FORMAT;
use batch_codec::batch_of;
use circuit_settling::circuit_changes;
use core_stores::{
    Change, Settled, Stores, claim_gone, forgotten, least_change, next_changes, with_serial,
};
use entity_commands::entity_changes;
use grant_rows::{CountMoves, GrantMoves, all_count_changes};
use intercept_commands::intercept_changes;
use link_commands::link_changes;
use policy_commands::{forgotten_changes, policy_changes};
use policy_store::GrantSteps;
use row_codec::{Batch, Change as RowChange, Changes};
use std::alloc::{AllocError, Global};
use terminator_commands::term_changes;

// The changes of the next numbers.
fn next_rows(alloc: Global, stores: &Stores, change: &Change) -> Result<Vec<RowChange>, AllocError>
    requires { CanSettle stores.now change.now }
    ensures { IfOk result (λ v. Covers kept_format 1 2 (state_of stores.now) (next_state stores.now change.now) v.items) }
{
    next_changes(alloc, stores, change)
}

// Adds the change of the least router cost.
fn push_setting(
    alloc: Global,
    changes: &mut Vec<RowChange>,
    stores: &Stores,
    change: &Change,
) -> Result<(), AllocError>
    requires can { CanSettle stores.now change.now }
    requires covers { Covers kept_format 1 2 (state_of stores.now) (next_state stores.now change.now) changes.old.items }
    ensures { OnOk result (Covers kept_format 1 3 (state_of stores.now) (next_state stores.now change.now) changes.new.items) }
{
    changes.push(least_change(alloc, stores, change)?)?;
    Ok(())
}

// Adds the changes of tables that follow.
fn append(changes: &mut Vec<RowChange>, more: Changes) -> Result<(), AllocError>
    ensures { OnOk result (changes.new.items ≡ changes.old.items ++ more) }
{
    let mut items = more.items;
    changes.append(&mut items)
}

// The change of the entity that a change touches.
fn entity_rows(alloc: Global, stores: &Stores, change: &Change) -> Result<Changes, AllocError>
    requires { CanSettle stores.now change.now }
    ensures { IfOk result (Covers kept_format 3 6 (state_of stores.now) (next_state stores.now change.now)) }
{
    entity_changes(alloc, &stores.entities, change.of_entities())
}

// The changes of the next numbers, of the setting, and of the entities.
fn entity_tables(
    alloc: Global,
    stores: &Stores,
    change: &Change,
) -> Result<Vec<RowChange>, AllocError>
    requires { CanSettle stores.now change.now }
    ensures { IfOk result (λ v. Covers kept_format 1 6 (state_of stores.now) (next_state stores.now change.now) v.items) }
{
    let mut changes = next_rows(alloc, stores, change)?;
    push_setting(alloc, &mut changes, stores, change)?;
    append(&mut changes, entity_rows(alloc, stores, change)?)?;
    Ok(changes)
}

// The changes of the links.
fn link_rows(
    alloc: Global,
    stores: &Stores,
    change: &Change,
    settled: &Settled,
) -> Result<Changes, AllocError>
    requires { KnowsSettled stores.now change.now settled.now }
    ensures { IfOk result (Covers kept_format 6 7 (state_of stores.now) (next_state stores.now change.now)) }
{
    link_changes(alloc, &stores.fabric, change.of_links(), &settled.links)
}

// The changes of the policies.
fn policy_rows(alloc: Global, stores: &Stores, change: &Change) -> Result<Changes, AllocError>
    requires { CanSettle stores.now change.now }
    ensures { IfOk result (Covers kept_format 7 10 (state_of stores.now) (next_state stores.now change.now)) }
{
    if let Some(change) = change.of_policies() {
        return policy_changes(alloc, &stores.policies, change);
    }
    if let Some((kind, name)) = forgotten(change.of_entities()) {
        return forgotten_changes(alloc, &stores.policies, kind, name);
    }
    Ok(Changes::of(Vec::new(alloc)))
}

// The changes of the terminators.
fn term_rows(
    alloc: Global,
    stores: &Stores,
    change: &Change,
    settled: &Settled,
) -> Result<Changes, AllocError>
    requires { KnowsSettled stores.now change.now settled.now }
    ensures { IfOk result (Covers kept_format 10 11 (state_of stores.now) (next_state stores.now change.now)) }
{
    term_changes(
        alloc,
        &stores.terminators,
        change.of_terminators(),
        &settled.terminators,
    )
}

// The changes of the circuits.
fn circuit_rows(
    alloc: Global,
    stores: &Stores,
    change: &Change,
    settled: &Settled,
) -> Result<Changes, AllocError>
    requires { KnowsSettled stores.now change.now settled.now }
    ensures { IfOk result (Covers kept_format 11 12 (state_of stores.now) (next_state stores.now change.now)) }
{
    circuit_changes(
        alloc,
        &stores.circuits,
        change.of_circuits(),
        &settled.going,
        &settled.ended,
        &settled.moves,
    )
}

// The changes of the grant counts.
fn count_rows(
    alloc: Global,
    stores: &Stores,
    change: &Change,
    steps: &GrantSteps,
) -> Result<Changes, AllocError>
    requires kept { Keeps stores.now }
    requires can { CanSettle stores.now change.now }
    requires counts { LeadAllCounts (state_of stores.now) (next_state stores.now change.now) steps.now }
    ensures { IfOk result (Covers kept_format 12 16 (state_of stores.now) (next_state stores.now change.now)) }
{
    let moves = GrantMoves {
        dial: CountMoves {
            counted: &stores.grants.dial,
            steps: steps.dial.as_slice(),
        },
        bind: CountMoves {
            counted: &stores.grants.bind,
            steps: steps.bind.as_slice(),
        },
        identity_router: CountMoves {
            counted: &stores.grants.identity_router,
            steps: steps.identity_router.as_slice(),
        },
        service_router: CountMoves {
            counted: &stores.grants.service_router,
            steps: steps.service_router.as_slice(),
        },
    };
    all_count_changes(alloc, KEPT_FORMAT, &moves)
}

// The changes of the links, the policies, the terminators and the circuits.
fn push_records(
    alloc: Global,
    changes: &mut Vec<RowChange>,
    stores: &Stores,
    change: &Change,
    settled: &Settled,
) -> Result<(), AllocError>
    requires known { KnowsSettled stores.now change.now settled.now }
    requires covers { Covers kept_format 1 6 (state_of stores.now) (next_state stores.now change.now) changes.old.items }
    ensures { OnOk result (Covers kept_format 1 12 (state_of stores.now) (next_state stores.now change.now) changes.new.items) }
{
    append(changes, link_rows(alloc, stores, change, settled)?)?;
    append(changes, policy_rows(alloc, stores, change)?)?;
    append(changes, term_rows(alloc, stores, change, settled)?)?;
    append(changes, circuit_rows(alloc, stores, change, settled)?)?;
    Ok(())
}

// The changes of the intercepts.
fn intercept_rows(alloc: Global, stores: &Stores, change: &Change) -> Result<Changes, AllocError>
    requires { CanSettle stores.now change.now }
    ensures { IfOk result (Covers kept_format 16 17 (state_of stores.now) (next_state stores.now change.now)) }
{
    let gone = claim_gone(change.of_entities());
    let change = change.of_intercepts().or(gone.as_ref());
    intercept_changes(alloc, &stores.intercepts, change)
}

// The changes of all tables but that of the serial.
fn all_rows(
    alloc: Global,
    stores: &Stores,
    change: &Change,
    settled: &Settled,
    steps: &GrantSteps,
) -> Result<Changes, AllocError>
    requires kept { Keeps stores.now }
    requires known { KnowsSettled stores.now change.now settled.now }
    requires counts { LeadAllCounts (state_of stores.now) (next_state stores.now change.now) steps.now }
    ensures { IfOk result (Covers kept_format 1 17 (state_of stores.now) (next_state stores.now change.now)) }
{
    let mut changes = entity_tables(alloc, stores, change)?;
    push_records(alloc, &mut changes, stores, change, settled)?;
    append(&mut changes, count_rows(alloc, stores, change, steps)?)?;
    append(&mut changes, intercept_rows(alloc, stores, change)?)?;
    Ok(Changes::of(changes))
}

/// The batch that leads from the rows of the state of some stores to those of the state after a change, once it is settled and counted.
/// It is made of the keys that the change can touch; nothing is evaluated again for the counts.
pub fn batch_for(
    alloc: Global,
    stores: &Stores,
    change: &Change,
    settled: &Settled,
    steps: &GrantSteps,
) -> Result<Batch, AllocError>
    requires kept { Keeps stores.now }
    requires known { KnowsSettled stores.now change.now settled.now }
    requires counts { LeadAllCounts (state_of stores.now) (next_state stores.now change.now) steps.now }
    ensures { IfOk result (λ batch. batch ≡ batch_between kept_format (state_of stores.now) (counted (state_of stores.now) (next_state stores.now change.now))) }
{
    let changes = all_rows(alloc, stores, change, settled, steps)?;
    let batch = batch_of(alloc, &changes)?;
    with_serial(alloc, batch, stores.serial)
}
