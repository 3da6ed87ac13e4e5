ghost use Rattle.std.specs.Prelude.{◌≡◌, [], ◌∷◌, ◌++◌, true, false, not, cond, IfOk, OnOk};
ghost use Rattle.std.specs.List.{flat_map};
ghost use Rattle.ctrl_model.specs.SpelledCommands.{is_spelled};
ghost use Rattle.ctrl_model.specs.declared.commands.Command.TheVariants as command;
ghost use Rattle.ctrl_model.specs.declared.kinds.Kind.TheVariants as kind;
ghost use Rattle.ctrl_model.specs.NameForm.{is_name};
ghost use Rattle.state_building.specs.BuiltStates.{state_in};
ghost use Rattle.dump_lines.specs.Dumps.{are_spelled, command_line, making_intercept, making_link, making_router};
ghost use Rattle.record_lines.specs.RecordNames.{name_of as named};

use crate::writing::put_command;
use ctrl_model::{
    Command, Copies, Intercept, Kind, Name, NameFault, Names, Relation, Semantic, Side,
};
use record_lines::name_of;
use row_codec::Row;
use std::alloc::{AllocError, Global};

/// The name of the record of a kind and a number.
pub(crate) fn name_at(alloc: Global, rows: &[Row], kind: Kind, no: u32) -> Result<Name, AllocError>
    requires { is_name (named kind (state_in rows.now) no) ≡ true }
    ensures { IfOk result (λ name. name ≡ named kind (state_in rows.now) no) }
{
    match Name::of(alloc, name_of(rows, kind, no)) {
        Ok(name) => Ok(name),
        Err(NameFault::NoMemory) => Err(AllocError),
        Err(NameFault::BadName) => unreachable!(),
    }
}

/// Puts the line that makes an identity.
pub(crate) fn put_identity(
    alloc: Global,
    text: &mut Vec<u8>,
    name: &Name,
    attributes: &Names,
) -> Result<(), AllocError>
    requires { is_spelled (command.CreateIdentity name.now attributes.now) ≡ true }
    ensures { OnOk result (text.new.items ≡ text.old.items ++ command_line (command.CreateIdentity name.now attributes.now)) }
{
    let name = name.copy()?;
    let attributes = attributes.copy()?;
    put_command(alloc, text, Command::CreateIdentity { name, attributes })
}

/// Puts the line that makes a service.
pub(crate) fn put_service(
    alloc: Global,
    text: &mut Vec<u8>,
    name: &Name,
    attributes: &Names,
) -> Result<(), AllocError>
    requires { is_spelled (command.CreateService name.now attributes.now) ≡ true }
    ensures { OnOk result (text.new.items ≡ text.old.items ++ command_line (command.CreateService name.now attributes.now)) }
{
    let name = name.copy()?;
    let attributes = attributes.copy()?;
    put_command(alloc, text, Command::CreateService { name, attributes })
}

// Puts the line that makes a router, which is not connected then.
fn put_new_router(
    alloc: Global,
    text: &mut Vec<u8>,
    name: &Name,
    attributes: &Names,
    cost: u32,
    through: bool,
) -> Result<(), AllocError>
    requires { is_spelled (command.CreateRouter name.now attributes.now cost (not through)) ≡ true }
    ensures { OnOk result (text.new.items ≡ text.old.items ++ command_line (command.CreateRouter name.now attributes.now cost (not through))) }
{
    let name = name.copy()?;
    let attributes = attributes.copy()?;
    let no_traversal = !through;
    put_command(
        alloc,
        text,
        Command::CreateRouter {
            name,
            attributes,
            cost,
            no_traversal,
        },
    )
}

// Puts the line that connects a router, where it is connected.
fn put_connected(
    alloc: Global,
    text: &mut Vec<u8>,
    name: &Name,
    connected: bool,
) -> Result<(), AllocError>
    requires { is_name name.now ≡ true }
    ensures { OnOk result (text.new.items ≡ text.old.items ++ flat_map command_line (cond connected (command.ConnectRouter name.now ∷ []) [])) }
{
    if !connected {
        return Ok(());
    }
    let name = name.copy()?;
    put_command(alloc, text, Command::ConnectRouter { name })
}

/// Puts the lines that make a router.
pub(crate) fn put_router(
    alloc: Global,
    text: &mut Vec<u8>,
    name: &Name,
    attributes: &Names,
    cost: u32,
    through: bool,
    connected: bool,
) -> Result<(), AllocError>
    requires { are_spelled (making_router (record { name = name.now; attributes = attributes.now; cost = cost; through = through; connected = connected })) ≡ true }
    ensures { OnOk result (text.new.items ≡ text.old.items ++ flat_map command_line (making_router (record { name = name.now; attributes = attributes.now; cost = cost; through = through; connected = connected }))) }
{
    put_new_router(alloc, text, name, attributes, cost, through)?;
    put_connected(alloc, text, name, connected)
}

// Puts the line that makes a link, which is up then.
fn put_new_link(
    alloc: Global,
    text: &mut Vec<u8>,
    rows: &[Row],
    name: &Name,
    ends: (u32, u32),
    costs: (u32, (u32, u32)),
) -> Result<(), AllocError>
    requires a { is_name (named kind.Router (state_in rows.now) ends.0) ≡ true }
    requires b { is_name (named kind.Router (state_in rows.now) ends.1) ≡ true }
    requires spelled { is_spelled (command.CreateLink name.now (named kind.Router (state_in rows.now) ends.0) (named kind.Router (state_in rows.now) ends.1) costs.0 costs.1.0 costs.1.1) ≡ true }
    ensures { OnOk result (text.new.items ≡ text.old.items ++ command_line (command.CreateLink name.now (named kind.Router (state_in rows.now) ends.0) (named kind.Router (state_in rows.now) ends.1) costs.0 costs.1.0 costs.1.1)) }
{
    let name = name.copy()?;
    let a = name_at(alloc, rows, Kind::Router, ends.0)?;
    let b = name_at(alloc, rows, Kind::Router, ends.1)?;
    let (cost, (latency_a, latency_b)) = costs;
    put_command(
        alloc,
        text,
        Command::CreateLink {
            name,
            a,
            b,
            cost,
            latency_a,
            latency_b,
        },
    )
}

// Puts the line that reports a link down by one of its routers, where it is down.
fn put_down(
    alloc: Global,
    text: &mut Vec<u8>,
    rows: &[Row],
    name: &Name,
    router: u32,
    up: bool,
) -> Result<(), AllocError>
    requires name { is_name name.now ≡ true }
    requires router { is_name (named kind.Router (state_in rows.now) router) ≡ true }
    ensures { OnOk result (text.new.items ≡ text.old.items ++ flat_map command_line (cond up [] (command.ReportState name.now (named kind.Router (state_in rows.now) router) false ∷ []))) }
{
    if up {
        return Ok(());
    }
    let link = name.copy()?;
    let router = name_at(alloc, rows, Kind::Router, router)?;
    put_command(alloc, text, Command::ReportState { link, router, up })
}

/// Puts the lines that make a link.
pub(crate) fn put_link(
    alloc: Global,
    text: &mut Vec<u8>,
    rows: &[Row],
    name: &Name,
    ends: (u32, u32),
    costs: (u32, (u32, u32)),
    up: bool,
) -> Result<(), AllocError>
    requires { are_spelled (making_link (state_in rows.now) (record { name = name.now; a = ends.0; b = ends.1; cost = costs.0; latency_a = costs.1.0; latency_b = costs.1.1; up = up })) ≡ true }
    ensures { OnOk result (text.new.items ≡ text.old.items ++ flat_map command_line (making_link (state_in rows.now) (record { name = name.now; a = ends.0; b = ends.1; cost = costs.0; latency_a = costs.1.0; latency_b = costs.1.1; up = up }))) }
{
    put_new_link(alloc, text, rows, name, ends, costs)?;
    put_down(alloc, text, rows, name, ends.0, up)
}

// An equal side.
fn copied(side: &Side) -> Result<Side, AllocError>
    ensures { IfOk result (λ c. c ≡ side.now) }
{
    let ids = side.ids.copy()?;
    let attributes = side.attributes.copy()?;
    Ok(Side {
        all: side.all,
        ids,
        attributes,
    })
}

/// Puts the line that makes a service policy.
pub(crate) fn put_service_policy(
    alloc: Global,
    text: &mut Vec<u8>,
    name: &Name,
    grants: (Relation, Semantic),
    identities: &Side,
    services: &Side,
) -> Result<(), AllocError>
    requires { is_spelled (command.CreateServicePolicy name.now grants.0 grants.1 identities.now services.now) ≡ true }
    ensures { OnOk result (text.new.items ≡ text.old.items ++ command_line (command.CreateServicePolicy name.now grants.0 grants.1 identities.now services.now)) }
{
    let name = name.copy()?;
    let identity_roles = copied(identities)?;
    let service_roles = copied(services)?;
    let (relation, semantic) = grants;
    put_command(
        alloc,
        text,
        Command::CreateServicePolicy {
            name,
            relation,
            semantic,
            identity_roles,
            service_roles,
        },
    )
}

/// Puts the line that makes a policy that gives routers to identities.
pub(crate) fn put_edge_router_policy(
    alloc: Global,
    text: &mut Vec<u8>,
    name: &Name,
    semantic: Semantic,
    identities: &Side,
    routers: &Side,
) -> Result<(), AllocError>
    requires { is_spelled (command.CreateEdgeRouterPolicy name.now semantic identities.now routers.now) ≡ true }
    ensures { OnOk result (text.new.items ≡ text.old.items ++ command_line (command.CreateEdgeRouterPolicy name.now semantic identities.now routers.now)) }
{
    let name = name.copy()?;
    let identity_roles = copied(identities)?;
    let router_roles = copied(routers)?;
    put_command(
        alloc,
        text,
        Command::CreateEdgeRouterPolicy {
            name,
            semantic,
            identity_roles,
            router_roles,
        },
    )
}

/// Puts the line that makes a policy that gives routers to services.
pub(crate) fn put_service_edge_router_policy(
    alloc: Global,
    text: &mut Vec<u8>,
    name: &Name,
    semantic: Semantic,
    services: &Side,
    routers: &Side,
) -> Result<(), AllocError>
    requires { is_spelled (command.CreateServiceEdgeRouterPolicy name.now semantic services.now routers.now) ≡ true }
    ensures { OnOk result (text.new.items ≡ text.old.items ++ command_line (command.CreateServiceEdgeRouterPolicy name.now semantic services.now routers.now)) }
{
    let name = name.copy()?;
    let service_roles = copied(services)?;
    let router_roles = copied(routers)?;
    put_command(
        alloc,
        text,
        Command::CreateServiceEdgeRouterPolicy {
            name,
            semantic,
            service_roles,
            router_roles,
        },
    )
}

/// Puts the line that sets the intercept of a service.
pub(crate) fn put_intercept(
    alloc: Global,
    text: &mut Vec<u8>,
    rows: &[Row],
    service: u32,
    intercept: &Intercept,
) -> Result<(), AllocError>
    requires { are_spelled (making_intercept (state_in rows.now) (service, intercept.now)) ≡ true }
    ensures { OnOk result (text.new.items ≡ text.old.items ++ flat_map command_line (making_intercept (state_in rows.now) (service, intercept.now))) }
{
    let service = name_at(alloc, rows, Kind::Service, service)?;
    let intercept = intercept.copy()?;
    put_command(alloc, text, Command::SetIntercept { service, intercept })
}
