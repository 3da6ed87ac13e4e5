// The values that a command gives in the fields of its form, family by family.
ghost use Rattle.std.specs.Prelude.{◌≡◌, true, OnOk};
ghost use Rattle.serde_json.specs.View.{members_view};
ghost use Rattle.ctrl_model.specs.SpelledCommands.{is_spelled};
ghost use Rattle.command_bodies.specs.CommandFields.{fields_of, given_fields, values_between};
ghost use Rattle.ctrl_model.specs.CommandValues.{form_of};
ghost use Rattle.command_bodies.specs.WrittenFields.{with_fields};
ghost use Rattle.ctrl_model.specs.BodyForms.{fields_in};

use crate::field_values::BodyMembers;
use crate::field_values::FieldValue::{
    Address, Addresses, Flag, Instance, Name, NameOrNone, Names, Number, Numbers, Potentials,
    Protocols, Ranges, Roles, Word,
};
use crate::spelling::{precedence_word, protocol_word, relation_word, semantic_word};
use ctrl_model::Command;
use std::alloc::AllocError;

// Puts what a command on identities, services or edge routers gives. Of another command nothing is put.
fn put_entities(body: &mut BodyMembers, command: &Command) -> Result<(), AllocError>
    ensures fields { body.new.fields ≡ body.old.fields }
    ensures put { OnOk result (members_view body.new.members.entries ≡ with_fields (given_fields body.old.fields.now (values_between 1000 1100 command.now)) (members_view body.old.members.entries)) }
{
    match command {
        Command::CreateIdentity { name, attributes }
        | Command::UpdateIdentity { name, attributes }
        | Command::CreateService { name, attributes }
        | Command::UpdateService { name, attributes } => body.put(&[Name(name), Names(attributes)]),
        Command::CreateRouter {
            name,
            attributes,
            cost,
            no_traversal,
        }
        | Command::UpdateRouter {
            name,
            attributes,
            cost,
            no_traversal,
        } => body.put(&[
            Name(name),
            Names(attributes),
            Number(*cost),
            Flag(*no_traversal),
        ]),
        Command::DeleteIdentity { name }
        | Command::DeleteService { name }
        | Command::DeleteRouter { name }
        | Command::ConnectRouter { name }
        | Command::DisconnectRouter { name } => body.put(&[Name(name)]),
        _ => Ok(()),
    }
}

// Puts what a command on service policies gives. Of another command nothing is put.
fn put_service_policies(body: &mut BodyMembers, command: &Command) -> Result<(), AllocError>
    ensures fields { body.new.fields ≡ body.old.fields }
    ensures put { OnOk result (members_view body.new.members.entries ≡ with_fields (given_fields body.old.fields.now (values_between 1100 1110 command.now)) (members_view body.old.members.entries)) }
{
    match command {
        Command::CreateServicePolicy {
            name,
            relation,
            semantic,
            identity_roles,
            service_roles,
        }
        | Command::UpdateServicePolicy {
            name,
            relation,
            semantic,
            identity_roles,
            service_roles,
        } => body.put(&[
            Name(name),
            Word(relation_word(*relation)),
            Word(semantic_word(*semantic)),
            Roles(identity_roles),
            Roles(service_roles),
        ]),
        Command::DeleteServicePolicy { name } => body.put(&[Name(name)]),
        _ => Ok(()),
    }
}

// Puts what a command on policies that give routers gives. Of another command nothing is put.
fn put_router_policies(body: &mut BodyMembers, command: &Command) -> Result<(), AllocError>
    ensures fields { body.new.fields ≡ body.old.fields }
    ensures put { OnOk result (members_view body.new.members.entries ≡ with_fields (given_fields body.old.fields.now (values_between 1110 1200 command.now)) (members_view body.old.members.entries)) }
{
    match command {
        Command::CreateEdgeRouterPolicy {
            name,
            semantic,
            identity_roles: roles,
            router_roles,
        }
        | Command::UpdateEdgeRouterPolicy {
            name,
            semantic,
            identity_roles: roles,
            router_roles,
        }
        | Command::CreateServiceEdgeRouterPolicy {
            name,
            semantic,
            service_roles: roles,
            router_roles,
        }
        | Command::UpdateServiceEdgeRouterPolicy {
            name,
            semantic,
            service_roles: roles,
            router_roles,
        } => body.put(&[
            Name(name),
            Word(semantic_word(*semantic)),
            Roles(roles),
            Roles(router_roles),
        ]),
        Command::DeleteEdgeRouterPolicy { name }
        | Command::DeleteServiceEdgeRouterPolicy { name } => body.put(&[Name(name)]),
        _ => Ok(()),
    }
}

// Puts what a command on links or the least router cost gives. Of another command nothing is put.
fn put_links(body: &mut BodyMembers, command: &Command) -> Result<(), AllocError>
    ensures fields { body.new.fields ≡ body.old.fields }
    ensures put { OnOk result (members_view body.new.members.entries ≡ with_fields (given_fields body.old.fields.now (values_between 1200 1300 command.now)) (members_view body.old.members.entries)) }
{
    match command {
        Command::CreateLink {
            name,
            a,
            b,
            cost,
            latency_a,
            latency_b,
        } => body.put(&[
            Name(name),
            Name(a),
            Name(b),
            Number(*cost),
            Number(*latency_a),
            Number(*latency_b),
        ]),
        Command::SetLinkCost { link, cost } => body.put(&[Name(link), Number(*cost)]),
        Command::ReportLatency {
            link,
            router,
            latency,
        } => body.put(&[Name(link), Name(router), Number(*latency)]),
        Command::ReportState { link, router, up } => body.put(&[
            Name(link),
            Name(router),
            Flag(*up),
        ]),
        Command::DeleteLink { link } => body.put(&[Name(link)]),
        Command::SetLeastRouterCost { cost } => body.put(&[Number(*cost)]),
        _ => Ok(()),
    }
}

// Puts what a command on terminators gives. Of another command nothing is put.
fn put_terminators(body: &mut BodyMembers, command: &Command) -> Result<(), AllocError>
    ensures fields { body.new.fields ≡ body.old.fields }
    ensures put { OnOk result (members_view body.new.members.entries ≡ with_fields (given_fields body.old.fields.now (values_between 1300 1400 command.now)) (members_view body.old.members.entries)) }
{
    match command {
        Command::CreateTerminator {
            service,
            router,
            instance,
            host,
            cost,
            precedence,
        } => body.put(&[
            Name(service),
            Name(router),
            Instance(instance),
            NameOrNone(host),
            Number(*cost),
            Word(precedence_word(*precedence)),
        ]),
        Command::UpdateTerminator {
            no,
            cost,
            precedence,
        } => body.put(&[
            Number(*no),
            Number(*cost),
            Word(precedence_word(*precedence)),
        ]),
        Command::DeleteTerminator { no } => body.put(&[Number(*no)]),
        _ => Ok(()),
    }
}

// Puts what VerifyRoute gives. Of another command nothing is put.
fn put_route(body: &mut BodyMembers, command: &Command) -> Result<(), AllocError>
    ensures fields { body.new.fields ≡ body.old.fields }
    ensures put { OnOk result (members_view body.new.members.entries ≡ with_fields (given_fields body.old.fields.now (values_between 1403 1404 command.now)) (members_view body.old.members.entries)) }
{
    match command {
        Command::VerifyRoute {
            identity,
            service,
            ingress,
            instance,
            chosen,
            links,
            potentials,
            routers,
            terminator,
            total,
        } => body.put(&[
            Name(identity),
            Name(service),
            NameOrNone(ingress),
            Instance(instance),
            Name(chosen),
            Numbers(links),
            Potentials(potentials),
            Numbers(routers),
            Number(*terminator),
            Number(*total),
        ]),
        _ => Ok(()),
    }
}

// Puts what a command on circuits or routes gives, or one that shows what there is. Of another command nothing is put.
fn put_circuits(body: &mut BodyMembers, command: &Command) -> Result<(), AllocError>
    ensures fields { body.new.fields ≡ body.old.fields }
    ensures put { OnOk result (members_view body.new.members.entries ≡ with_fields (given_fields body.old.fields.now (values_between 1400 1600 command.now)) (members_view body.old.members.entries)) }
{
    match command {
        Command::CreateCircuit {
            identity,
            service,
            ingress,
            instance,
        }
        | Command::Explain {
            identity,
            service,
            ingress,
            instance,
        } => body.put(&[
            Name(identity),
            Name(service),
            NameOrNone(ingress),
            Instance(instance),
        ]),
        Command::DeleteCircuit { no } | Command::ShowCircuit { no } => body.put(&[Number(*no)]),
        Command::ShowGrants { identity } | Command::ListServices { identity } => body.put(&[Name(
            identity,
        )]),
        _ => put_route(body, command),
    }
}

// Puts what a command on intercepts gives. Of another command nothing is put.
fn put_intercepts(body: &mut BodyMembers, command: &Command) -> Result<(), AllocError>
    requires { is_spelled command.now ≡ true }
    ensures fields { body.new.fields ≡ body.old.fields }
    ensures put { OnOk result (members_view body.new.members.entries ≡ with_fields (given_fields body.old.fields.now (values_between 1600 1700 command.now)) (members_view body.old.members.entries)) }
{
    match command {
        Command::SetIntercept { service, intercept } => body.put(&[
            Name(service),
            Protocols(intercept.tcp, intercept.udp),
            Addresses(&intercept.addresses),
            Ranges(&intercept.ports),
        ]),
        Command::ClearIntercept { service } => body.put(&[Name(service)]),
        Command::Pick {
            identity,
            udp,
            address,
            port,
        } => body.put(&[
            Name(identity),
            Word(protocol_word(*udp)),
            Address(address),
            Number(*port),
        ]),
        Command::ListClashes { identity, service } => body.put(&[Name(identity), Name(service)]),
        _ => Ok(()),
    }
}

/// Puts the fields of a command that some body spells: every field of its form, but a host or an ingress that is none.
pub(crate) fn put_fields(body: &mut BodyMembers, command: &Command) -> Result<(), AllocError>
    requires spelled { is_spelled command.now ≡ true }
    requires fields { body.old.fields.now ≡ fields_in (form_of command.now) }
    ensures { OnOk result (members_view body.new.members.entries ≡ with_fields (fields_of command.now) (members_view body.old.members.entries)) }
{
    put_entities(body, command)?;
    put_service_policies(body, command)?;
    put_router_policies(body, command)?;
    put_links(body, command)?;
    put_terminators(body, command)?;
    put_circuits(body, command)?;
    put_intercepts(body, command)
}
