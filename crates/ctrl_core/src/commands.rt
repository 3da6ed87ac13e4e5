ghost use Rattle.std.specs.Prelude.{◌≡◌, true, false, IfOk, MatchOption};
ghost use Rattle.ctrl_model.specs.SpelledCommands.{is_spelled};
ghost use Rattle.ctrl_model.specs.Controller.{carry};
ghost use Rattle.ctrl_model.specs.State.{State};
ghost use Rattle.ctrl_model.specs.declared.replies.Reply.{Reply};
ghost use Rattle.entity_commands.specs.EntityPlans.{is_entity_command};
ghost use Rattle.policy_commands.specs.PolicyPlans.{is_policy_command};
ghost use Rattle.link_commands.specs.LinkPlans.{is_link_command};
ghost use Rattle.terminator_commands.specs.TermPlans.{is_terminator_command};
ghost use Rattle.circuit_rules.specs.CircuitPlans.{is_circuit_command};
ghost use Rattle.model_laws.specs.Plans as family;
ghost use Rattle.model_laws.specs.Plans.{CanLeadBy};
ghost use Rattle.core_stores.specs.StoredState.{state_of};
ghost use Rattle.show_commands.specs.ShownCommands.{is_grant_command};
ghost use Rattle.ctrl_core.specs.Changes.{after_change};
ghost use Rattle.ctrl_core.specs.KeptState.{Keeps};
ghost use Rattle.ctrl_core.specs.OtherCommands.{reply_alone};
ghost use Rattle.ctrl_core.specs.PlannedCommands.{CanPlan, Plans};

use crate::counting::change_steps;
use circuit_rules::{Parts, plan_circuit_command};
use core_stores::{
    Change, Draft, Stores, circuit_change, entity_change, intercept_change, link_change,
    policy_change, term_change,
};
use ctrl_model::{Command, Reply};
use entity_commands::plan_entity_command;
use intercept_commands::plan_intercept_command;
use link_commands::plan_link_command;
use policy_commands::plan_policy_command;
use policy_store::count_all_policies;
use show_commands::{Shown, shown_by};
use std::alloc::{AllocError, Global};
use terminator_commands::plan_terminator_command;

// The draft of a plan: its change, if there is one, with the steps that the counts take.
fn drafted(
    alloc: Global,
    stores: &Stores,
    reply: Reply,
    change: Option<Change>,
) -> Result<Draft, AllocError>
    requires kept { Keeps stores.now }
    requires can { CanLeadBy CanPlan change (state_of stores.now) }
    ensures { IfOk result (λ p. (answered : Reply × State) → family.Plans after_change CanPlan (record { reply = reply; change = change }) answered (state_of stores.now)
        → Plans p answered (state_of stores.now)) }
{
    let Some(change) = change else {
        return Ok(Draft::shown(alloc, reply));
    };
    let steps = change_steps(alloc, stores, &change)?;
    Ok(Draft {
        reply,
        change: Some(change),
        steps,
    })
}

// The reply to a command that belongs to no family.
fn reply_alone(command: &Command) -> Reply
    ensures { result ≡ reply_alone command.now }
{
    match command {
        Command::Compact => Reply::Done,
        _ => Reply::Empty,
    }
}

// The reply to a command that shows grants or counts of some stores. None is another command.
fn shown_in(alloc: Global, stores: &Stores, command: &Command) -> Result<Option<Reply>, AllocError>
    requires { Keeps stores.now }
    ensures { IfOk result (λ o. MatchOption o (is_grant_command command.now ≡ false) (λ r. carry command.now (state_of stores.now) ≡ (r, state_of stores.now))) }
{
    let shown = Shown {
        entities: &stores.entities,
        dial: &stores.grants.dial,
        bind: &stores.grants.bind,
        identity_router: &stores.grants.identity_router,
        service_router: &stores.grants.service_router,
        circuits: stores.circuits.count() as u32,
        links: stores.fabric.count() as u32,
        policies: count_all_policies(&stores.policies),
        terminators: stores.terminators.count() as u32,
    };
    shown_by(alloc, &shown, command)
}

// Plans the answer to a command on intercepts, to one that shows grants or counts, and to one that belongs to no family.
fn plan_other_command(
    alloc: Global,
    stores: &Stores,
    command: &Command,
) -> Result<Draft, AllocError>
    requires kept { Keeps stores.now }
    requires spelled { is_spelled command.now ≡ true }
    requires entity { is_entity_command command.now ≡ false }
    requires policy { is_policy_command command.now ≡ false }
    requires link { is_link_command command.now ≡ false }
    requires terminator { is_terminator_command command.now ≡ false }
    requires circuit { is_circuit_command command.now ≡ false }
    ensures { IfOk result (λ p. Plans p (carry command.now (state_of stores.now)) (state_of stores.now)) }
{
    let entities = &stores.entities;
    let claims = &stores.intercepts;
    let dial = &stores.grants.dial;
    if let Some(plan) = plan_intercept_command(alloc, entities, claims, dial, command)? {
        return drafted(alloc, stores, plan.reply, intercept_change(plan.change));
    }
    if let Some(reply) = shown_in(alloc, stores, command)? {
        return Ok(Draft::shown(alloc, reply));
    }
    Ok(Draft::shown(alloc, reply_alone(command)))
}

/// Plans the answer to a command over the state of some stores: it is planned by the family that it belongs to, and what belongs to
/// none, Hello or Compact, changes nothing.
pub fn plan_command(alloc: Global, stores: &Stores, command: &Command) -> Result<Draft, AllocError>
    requires kept { Keeps stores.now }
    requires spelled { is_spelled command.now ≡ true }
    ensures { IfOk result (λ p. Plans p (carry command.now (state_of stores.now)) (state_of stores.now)) }
{
    let entities = &stores.entities;
    let bind = &stores.grants.bind;
    let parts = Parts {
        entities,
        fabric: &stores.fabric,
        terminators: &stores.terminators,
        circuits: &stores.circuits,
        dial: &stores.grants.dial,
        bind,
        identity_router: &stores.grants.identity_router,
        service_router: &stores.grants.service_router,
    };
    // Circuits come and go most often, so that their family is asked first.
    if let Some(plan) = plan_circuit_command(alloc, &parts, command)? {
        return drafted(alloc, stores, plan.reply, circuit_change(plan.change));
    }
    if let Some(plan) = plan_entity_command(alloc, entities, command)? {
        return drafted(alloc, stores, plan.reply, entity_change(plan.change));
    }
    if let Some(plan) = plan_policy_command(alloc, entities, &stores.policies, command)? {
        return drafted(alloc, stores, plan.reply, policy_change(plan.change));
    }
    if let Some(plan) = plan_link_command(entities, &stores.fabric, command)? {
        return drafted(alloc, stores, plan.reply, link_change(plan.change));
    }
    if let Some(plan) = plan_terminator_command(entities, &stores.terminators, bind, command)? {
        return drafted(alloc, stores, plan.reply, term_change(plan.change));
    }
    plan_other_command(alloc, stores, command)
}
