ghost use Rattle.std.specs.Prelude.{◌≡◌, false, IfOk, MatchOption};
ghost use Rattle.ctrl_model.specs.declared.refusals.Refusal.TheVariants.{Unknown};
ghost use Rattle.ctrl_model.specs.declared.replies.Reply.TheVariants.{Refused};
ghost use Rattle.ctrl_model.specs.Controller.{carry};
ghost use Rattle.ctrl_model.specs.State.{State, entity_named};
ghost use Rattle.ctrl_model.specs.ShowCommands.{counts_of, show_grants, list_services, grants_in_all};
ghost use Rattle.show_commands.specs.ShownCommands.{is_grant_command};
ghost use Rattle.show_commands.specs.ShownParts.{AreShown, Shows, with_shown};

use crate::shown_parts::Shown;
use crate::tallying::{names_of, tallies};
use ctrl_model::{Command, Field, Kind, Name, Names, Refusal, Reply, Tallies};
use entity_store::Entities;
use std::alloc::{AllocError, Global};

// The reply where nothing has the name of the identity.
fn unknown_identity() -> Reply
    ensures { result ≡ Refused (Unknown Field.Identity) }
{
    let field = Field::Identity;
    Reply::Refused(Refusal::Unknown { field })
}

// The number of the identity of a name, if one has it.
fn identity_named(entities: &Entities, name: &Name) -> Option<u32>
    ensures { result ≡ entity_named entities.now.identities.rows name.now }
{
    match entities.find(Kind::Identity, name) {
        Ok(number) => Some(number),
        Err(_fault) => None,
    }
}

// What an identity is granted.
fn shown_grants(alloc: Global, shown: &Shown, identity: &Name) -> Result<Reply, AllocError>
    ensures { IfOk result (λ r. (s : State) → Shows shown.now s → show_grants identity.now (with_shown shown.now s) ≡ (r, with_shown shown.now s)) }
{
    let entities = shown.entities;
    let Some(number) = identity_named(entities, identity) else {
        return Ok(unknown_identity());
    };
    let bind = tallies(alloc, entities, Kind::Service, shown.bind, number)?;
    let dial = tallies(alloc, entities, Kind::Service, shown.dial, number)?;
    let routers = tallies(alloc, entities, Kind::Router, shown.identity_router, number)?;
    Ok(Reply::Grants {
        bind: Tallies::of(bind),
        dial: Tallies::of(dial),
        routers: Tallies::of(routers),
    })
}

// Which services an identity may dial.
fn shown_services(alloc: Global, shown: &Shown, identity: &Name) -> Result<Reply, AllocError>
    ensures { IfOk result (λ r. (s : State) → Shows shown.now s → list_services identity.now (with_shown shown.now s) ≡ (r, with_shown shown.now s)) }
{
    let entities = shown.entities;
    let Some(number) = identity_named(entities, identity) else {
        return Ok(unknown_identity());
    };
    let dialled = tallies(alloc, entities, Kind::Service, shown.dial, number)?;
    let names = Names::of(names_of(alloc, dialled.as_slice())?);
    Ok(Reply::Services { names })
}

// How many pairs all four relations grant.
fn count_grants(shown: &Shown) -> u64
    requires { AreShown shown.now }
    ensures { (s : State) → Shows shown.now s → result ≡ grants_in_all (with_shown shown.now s) }
{
    shown.dial.pairs()
        + shown.bind.pairs()
        + shown.identity_router.pairs()
        + shown.service_router.pairs()
}

// How many there are of each kind.
fn shown_counts(shown: &Shown) -> Reply
    requires { AreShown shown.now }
    ensures { (s : State) → Shows shown.now s → result ≡ counts_of (with_shown shown.now s) }
{
    let entities = shown.entities;
    Reply::Counts {
        circuits: shown.circuits,
        grants: count_grants(shown),
        identities: entities.count(Kind::Identity) as u32,
        links: shown.links,
        policies: shown.policies,
        routers: entities.count(Kind::Router) as u32,
        services: entities.count(Kind::Service) as u32,
        terminators: shown.terminators,
    }
}

/// The reply to a command that shows grants or counts: in every state with these entities, grant counts and numbers of records it is the controller's
/// (docs/RULES.md, "The controller"). None is another command. An `Err` is want of memory.
pub fn shown_by(
    alloc: Global,
    shown: &Shown,
    command: &Command,
) -> Result<Option<Reply>, AllocError>
    requires { AreShown shown.now }
    ensures { IfOk result (λ o. MatchOption o (is_grant_command command.now ≡ false)
        (λ r. (s : State) → Shows shown.now s → carry command.now (with_shown shown.now s) ≡ (r, with_shown shown.now s))) }
{
    match command {
        Command::ShowGrants { identity } => Ok(Some(shown_grants(alloc, shown, identity)?)),
        Command::ListServices { identity } => Ok(Some(shown_services(alloc, shown, identity)?)),
        Command::ShowCounts => Ok(Some(shown_counts(shown))),
        _ => Ok(None),
    }
}
