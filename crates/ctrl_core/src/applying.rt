ghost use Rattle.std.specs.Prelude.{◌≡◌, OnOk};
ghost use Rattle.ctrl_model.specs.Settling.{settle};
ghost use Rattle.ctrl_model.specs.ValidState.{ValidState};
ghost use Rattle.model_laws.specs.Plans.{CanLeadBy, led_by};
ghost use Rattle.entity_commands.specs.EntityChanges.{CanEnter, entered};
ghost use Rattle.ctrl_core.specs.Changes.{CanChange, NamesSettled, after_change};
ghost use Rattle.record_tables.specs.AfterChange.{changed_by};
ghost use Rattle.terminators.specs.TermChanges.{after_term_change};
ghost use Rattle.core_stores.specs.ChangeParts.{term_part};
ghost use Rattle.core_stores.specs.OpenCircuits.{CountsOpen};
ghost use Rattle.core_stores.specs.StoredState.{HoldsPolicies, state_of};
ghost use Rattle.core_stores.specs.CarriedStates.{Carries};
ghost use Rattle.grant_steps.specs.LeadingSteps.{LeadAllCounts};
ghost use Rattle.policy_store.specs.PolicyChanges.{CanRule, ruled};
ghost use Rattle.ctrl_core.specs.KeptState.{Keeps};

use circuits::apply_circuit_change;
use core_stores::{
    Change, Settled, Stores, apply_steps, count_loads, forget_claim, loads_after, take_out,
};
use entity_commands::{EntityChange, apply_entity_change};
use intercept_commands::apply_intercept_change;
use link_commands::apply_link_change;
use policy_commands::{PolicyChange, apply_policy_change, forget_by};
use policy_store::GrantSteps;
use std::alloc::{AllocError, Global};
use terminator_commands::apply_term_change;

fn apply_entity(stores: &mut Stores, change: &EntityChange) -> Result<(), AllocError>
    requires can { CanEnter change.now (state_of stores.old) }
    requires valid { ValidState (settle (entered change.now (state_of stores.old))) }
    requires held { HoldsPolicies stores.old }
    ensures carried { OnOk result (Carries stores.old stores.new (entered change.now (state_of stores.old))) }
    ensures terminators { OnOk result (stores.new.terminators ≡ stores.old.terminators) }
{
    apply_entity_change(&mut stores.entities, change)?;
    forget_by(&mut stores.policies, change);
    forget_claim(&mut stores.intercepts, change);
    Ok(())
}

fn apply_policy(alloc: Global, stores: &mut Stores, change: PolicyChange) -> Result<(), AllocError>
    requires can { CanRule change (state_of stores.old) }
    requires before { ValidState (state_of stores.old) }
    requires valid { ValidState (settle (ruled change (state_of stores.old))) }
    requires held { HoldsPolicies stores.old }
    ensures carried { OnOk result (Carries stores.old stores.new (ruled change (state_of stores.old))) }
    ensures terminators { OnOk result (stores.new.terminators ≡ stores.old.terminators) }
{
    apply_policy_change(alloc, &mut stores.entities, &mut stores.policies, change)
}

/// Makes a change that leads, once settled, from a valid state to a valid one. Of a change that fails for want of memory nothing is
/// said.
pub fn apply_change(alloc: Global, stores: &mut Stores, change: Change) -> Result<(), AllocError>
    requires can { CanChange change (state_of stores.old) }
    requires before { ValidState (state_of stores.old) }
    requires valid { ValidState (settle (after_change change (state_of stores.old))) }
    requires held { HoldsPolicies stores.old }
    ensures carried { OnOk result (Carries stores.old stores.new (after_change change (state_of stores.old))) }
    ensures terminators { OnOk result (stores.new.terminators ≡ changed_by after_term_change (term_part change) stores.old.terminators) }
{
    match change {
        Change::Entity(change) => apply_entity(stores, &change),
        Change::Policy(change) => apply_policy(alloc, stores, change),
        Change::Link(change) => apply_link_change(&mut stores.fabric, change),
        Change::Terminator(change) => apply_term_change(&mut stores.terminators, change),
        Change::Circuit(change) => apply_circuit_change(&mut stores.circuits, change),
        Change::Intercept(change) => apply_intercept_change(&mut stores.intercepts, change),
    }
}

/// Carries a change out that leads from a valid state to a valid one: it is made, what goes is taken out, the circuits that go on over
/// other links are moved, and the loads of terminators are brought up to date; what settles is known. Where there is no change the stores
/// stay. Of a change that fails for want of memory nothing is said.
pub fn carry_out(
    alloc: Global,
    stores: &mut Stores,
    change: Option<Change>,
    settled: Settled,
) -> Result<(), AllocError>
    requires can { CanLeadBy CanChange change (state_of stores.old) }
    requires before { ValidState (state_of stores.old) }
    requires valid { ValidState (led_by after_change change (state_of stores.old)) }
    requires settled { NamesSettled change (state_of stores.old) settled }
    requires held { HoldsPolicies stores.old }
    requires loads { CountsOpen stores.old }
    ensures carried { OnOk result (Carries stores.old stores.new (led_by after_change change (state_of stores.old))) }
    ensures loads { OnOk result (CountsOpen stores.new) }
{
    let Some(change) = change else {
        return Ok(());
    };
    let loads = loads_after(&change, &settled);
    apply_change(alloc, stores, change)?;
    take_out(stores, settled);
    count_loads(alloc, stores, loads)
}

/// Carries a change out that leads from a valid state to a valid one, and takes the steps of the counts, so that the stores are kept as they
/// were before. Where there is no change they stay. Of a change that fails for want of memory nothing is said.
pub fn move_stores(
    alloc: Global,
    stores: &mut Stores,
    change: Option<Change>,
    settled: Settled,
    steps: &GrantSteps,
) -> Result<(), AllocError>
    requires kept { Keeps stores.old }
    requires can { CanLeadBy CanChange change (state_of stores.old) }
    requires valid { ValidState (led_by after_change change (state_of stores.old)) }
    requires settled { NamesSettled change (state_of stores.old) settled }
    requires counts { LeadAllCounts (state_of stores.old) (led_by after_change change (state_of stores.old)) steps.now }
    ensures kept { OnOk result (Keeps stores.new) }
    ensures next { OnOk result (state_of stores.new ≡ led_by after_change change (state_of stores.old)) }
{
    carry_out(alloc, stores, change, settled)?;
    apply_steps(&mut stores.grants, steps)?;
    Ok(())
}
