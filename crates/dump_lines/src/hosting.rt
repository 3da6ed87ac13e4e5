ghost use Rattle.std.specs.Prelude.{◌≡◌, [], ◌∷◌, ◌++◌, true, None, Some, IfOk, OnOk};
ghost use Rattle.std.specs.List.{flat_map};
ghost use Rattle.std.specs.Option.{option_map};
ghost use Rattle.ctrl_model.specs.SpelledCommands.{is_spelled};
ghost use Rattle.ctrl_model.specs.declared.commands.Command.TheVariants as command;
ghost use Rattle.ctrl_model.specs.declared.kinds.Kind.TheVariants as kind;
ghost use Rattle.ctrl_model.specs.declared.kinds.Relation.TheVariants as relation;
ghost use Rattle.ctrl_model.specs.declared.kinds.Semantic.TheVariants as semantic;
ghost use Rattle.ctrl_model.specs.NameForm.{is_name};
ghost use Rattle.state_building.specs.BuiltStates.{state_in};
ghost use Rattle.dump_lines.specs.Dumps.{are_spelled, command_line, lending, lone_side as lone, making_terminator};
ghost use Rattle.record_lines.specs.RecordNames.{name_of as named};

use crate::making::name_at;
use crate::writing::put_command;
use ctrl_model::{
    Command, Copies, IdentityNo, Instance, Kind, Name, Names, Precedence, Relation, Semantic, Side,
};
use row_codec::Row;
use std::alloc::{AllocError, Global};

// The side of one name.
fn lone_side(alloc: Global, name: &Name) -> Result<Side, AllocError>
    ensures { IfOk result (λ side. side ≡ lone name.now) }
{
    let name = name.copy()?;
    let mut ids = Vec::new(alloc);
    ids.push(name)?;
    Ok(Side {
        all: false,
        ids: Names::of(ids),
        attributes: Names::of(Vec::new(alloc)),
    })
}

// Puts the line that lends an identity Bind on a service.
fn put_lend(
    alloc: Global,
    text: &mut Vec<u8>,
    identity: &Name,
    service: &Name,
) -> Result<(), AllocError>
    requires { is_spelled (command.CreateServicePolicy identity.now relation.Bind semantic.AnyOf (lone identity.now) (lone service.now)) ≡ true }
    ensures { OnOk result (text.new.items ≡ text.old.items ++ command_line (command.CreateServicePolicy identity.now relation.Bind semantic.AnyOf (lone identity.now) (lone service.now))) }
{
    let name = identity.copy()?;
    let identity_roles = lone_side(alloc, identity)?;
    let service_roles = lone_side(alloc, service)?;
    put_command(
        alloc,
        text,
        Command::CreateServicePolicy {
            name,
            relation: Relation::Bind,
            semantic: Semantic::AnyOf,
            identity_roles,
            service_roles,
        },
    )
}

// Puts the line that takes it back.
fn put_take_back(alloc: Global, text: &mut Vec<u8>, identity: &Name) -> Result<(), AllocError>
    requires { is_name identity.now ≡ true }
    ensures { OnOk result (text.new.items ≡ text.old.items ++ command_line (command.DeleteServicePolicy identity.now)) }
{
    let name = identity.copy()?;
    put_command(alloc, text, Command::DeleteServicePolicy { name })
}

// Puts the line that makes a terminator.
fn put_offer(
    alloc: Global,
    text: &mut Vec<u8>,
    rows: &[Row],
    ends: (u32, u32),
    host: Option<Name>,
    instance: &Instance,
    offer: (u32, Precedence),
) -> Result<(), AllocError>
    requires service { is_name (named kind.Service (state_in rows.now) ends.0) ≡ true }
    requires router { is_name (named kind.Router (state_in rows.now) ends.1) ≡ true }
    requires spelled { is_spelled (command.CreateTerminator (named kind.Service (state_in rows.now) ends.0) (named kind.Router (state_in rows.now) ends.1) instance.now host offer.0 offer.1) ≡ true }
    ensures { OnOk result (text.new.items ≡ text.old.items ++ command_line (command.CreateTerminator (named kind.Service (state_in rows.now) ends.0) (named kind.Router (state_in rows.now) ends.1) instance.now host offer.0 offer.1)) }
{
    let service = name_at(alloc, rows, Kind::Service, ends.0)?;
    let router = name_at(alloc, rows, Kind::Router, ends.1)?;
    let instance = instance.copy()?;
    let (cost, precedence) = offer;
    put_command(
        alloc,
        text,
        Command::CreateTerminator {
            service,
            router,
            instance,
            host,
            cost,
            precedence,
        },
    )
}

// Puts the line that makes a terminator that a host has.
fn put_hosted_offer(
    alloc: Global,
    text: &mut Vec<u8>,
    rows: &[Row],
    ends: (u32, u32),
    host: &Name,
    instance: &Instance,
    offer: (u32, Precedence),
) -> Result<(), AllocError>
    requires service { is_name (named kind.Service (state_in rows.now) ends.0) ≡ true }
    requires router { is_name (named kind.Router (state_in rows.now) ends.1) ≡ true }
    requires spelled { is_spelled (command.CreateTerminator (named kind.Service (state_in rows.now) ends.0) (named kind.Router (state_in rows.now) ends.1) instance.now (Some host.now) offer.0 offer.1) ≡ true }
    ensures { OnOk result (text.new.items ≡ text.old.items ++ command_line (command.CreateTerminator (named kind.Service (state_in rows.now) ends.0) (named kind.Router (state_in rows.now) ends.1) instance.now (Some host.now) offer.0 offer.1)) }
{
    let host = host.copy()?;
    put_offer(alloc, text, rows, ends, Some(host), instance, offer)
}

// Puts the lines that make a terminator that a host has, to which Bind is lent meanwhile.
fn put_hosted(
    alloc: Global,
    text: &mut Vec<u8>,
    rows: &[Row],
    ends: (u32, u32),
    host: u32,
    instance: &Instance,
    offer: (u32, Precedence),
) -> Result<(), AllocError>
    requires service { is_name (named kind.Service (state_in rows.now) ends.0) ≡ true }
    requires router { is_name (named kind.Router (state_in rows.now) ends.1) ≡ true }
    requires host { is_name (named kind.Identity (state_in rows.now) host) ≡ true }
    requires spelled { are_spelled (lending (named kind.Identity (state_in rows.now) host) (named kind.Service (state_in rows.now) ends.0)
        (command.CreateTerminator (named kind.Service (state_in rows.now) ends.0) (named kind.Router (state_in rows.now) ends.1) instance.now (Some (named kind.Identity (state_in rows.now) host)) offer.0 offer.1)) ≡ true }
    ensures { OnOk result (text.new.items ≡ text.old.items ++ flat_map command_line (lending (named kind.Identity (state_in rows.now) host) (named kind.Service (state_in rows.now) ends.0)
        (command.CreateTerminator (named kind.Service (state_in rows.now) ends.0) (named kind.Router (state_in rows.now) ends.1) instance.now (Some (named kind.Identity (state_in rows.now) host)) offer.0 offer.1))) }
{
    let identity = name_at(alloc, rows, Kind::Identity, host)?;
    let service = name_at(alloc, rows, Kind::Service, ends.0)?;
    put_lend(alloc, text, &identity, &service)?;
    put_hosted_offer(alloc, text, rows, ends, &identity, instance, offer)?;
    put_take_back(alloc, text, &identity)
}

/// Puts the lines that make a terminator.
pub(crate) fn put_terminator(
    alloc: Global,
    text: &mut Vec<u8>,
    rows: &[Row],
    ends: (u32, u32),
    host: Option<IdentityNo>,
    instance: &Instance,
    offer: (u32, Precedence),
) -> Result<(), AllocError>
    requires { are_spelled (making_terminator (state_in rows.now) (record { service = ends.0; router = ends.1; instance = instance.now; host = option_map (λ h. h.0) host; cost = offer.0; precedence = offer.1 })) ≡ true }
    ensures { OnOk result (text.new.items ≡ text.old.items ++ flat_map command_line (making_terminator (state_in rows.now) (record { service = ends.0; router = ends.1; instance = instance.now; host = option_map (λ h. h.0) host; cost = offer.0; precedence = offer.1 }))) }
{
    match host {
        Some(no) => put_hosted(alloc, text, rows, ends, no.0, instance, offer),
        None => put_offer(alloc, text, rows, ends, None, instance, offer),
    }
}
