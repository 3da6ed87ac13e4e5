// The command that is made of the values of an object's fields, under each content type. What the object says is judged before.
ghost use Rattle.std.specs.Prelude.{◌≡◌, ◌<◌, ◌≤◌};
ghost use Rattle.json_body.specs.FieldKinds.{object_of};
ghost use Rattle.body_fields.specs.ReadResults.{Gives};
ghost use Rattle.command_codec.specs.BodyMeaning.{given, given_under};
ghost use Rattle.ctrl_model.specs.CommandForms.{circuit_rows, claim, entity_rows, intercept_rows, link_rows, made_link, made_router, made_terminator, policy_rows, row_at, row_in, show_rows, terminator_rows, updated_router};

use crate::attribute_lists::{attributes, attributes_or_none};
use crate::command_parts::{claimed, made, request, router_policy, service_policy, updated};
use crate::content_types::{
    CLEAR_INTERCEPT, COMPACT, CONNECT_ROUTER, CREATE_CIRCUIT, CREATE_EDGE_ROUTER_POLICY,
    CREATE_IDENTITY, CREATE_LINK, CREATE_ROUTER, CREATE_SERVICE, CREATE_SERVICE_EDGE_ROUTER_POLICY,
    CREATE_SERVICE_POLICY, CREATE_TERMINATOR, DELETE_CIRCUIT, DELETE_EDGE_ROUTER_POLICY,
    DELETE_IDENTITY, DELETE_LINK, DELETE_ROUTER, DELETE_SERVICE, DELETE_SERVICE_EDGE_ROUTER_POLICY,
    DELETE_SERVICE_POLICY, DELETE_TERMINATOR, DISCONNECT_ROUTER, EXPLAIN, LIST_CLASHES,
    LIST_SERVICES, PICK, REPORT_LATENCY, REPORT_STATE, SET_INTERCEPT, SET_LEAST_ROUTER_COST,
    SET_LINK_COST, SHOW_CIRCUIT, SHOW_COUNTS, SHOW_GRANTS, UPDATE_EDGE_ROUTER_POLICY,
    UPDATE_IDENTITY, UPDATE_ROUTER, UPDATE_SERVICE, UPDATE_SERVICE_EDGE_ROUTER_POLICY,
    UPDATE_SERVICE_POLICY, UPDATE_TERMINATOR, VERIFY_ROUTE,
};
use body_fields::{
    addresses, destination, flag_or_not, instance_or_empty, name_or_none, number_or, precedence,
    precedence_or_default, protocol, protocols, ranges,
};
use ctrl_model::{Command, Field, Intercept, MOST_COST, MOST_LATENCY, MOST_PORT};
use json_body::{FieldFault, Fields};
use std::alloc::Global;

// The command on an identity or a service.
fn entity_command(alloc: Global, content: u32, fields: &Fields) -> Result<Command, FieldFault>
    requires { content < 1020 }
    ensures { Gives FieldFault.NoMemory (λ c. c) result (given_under (row_in entity_rows content) (object_of fields.now)) }
{
    match content {
        CREATE_IDENTITY => {
            let (name, attributes) = made(alloc, fields)?;
            Ok(Command::CreateIdentity { name, attributes })
        }
        UPDATE_IDENTITY => {
            let (name, attributes) = updated(alloc, fields)?;
            Ok(Command::UpdateIdentity { name, attributes })
        }
        DELETE_IDENTITY => Ok(Command::DeleteIdentity {
            name: fields.name(alloc, Field::Name)?,
        }),
        CREATE_SERVICE => {
            let (name, attributes) = made(alloc, fields)?;
            Ok(Command::CreateService { name, attributes })
        }
        UPDATE_SERVICE => {
            let (name, attributes) = updated(alloc, fields)?;
            Ok(Command::UpdateService { name, attributes })
        }
        DELETE_SERVICE => Ok(Command::DeleteService {
            name: fields.name(alloc, Field::Name)?,
        }),
        _ => Err(FieldFault::Unknown),
    }
}

// The command that makes a router.
fn create_router(alloc: Global, fields: &Fields) -> Result<Command, FieldFault>
    ensures { Gives FieldFault.NoMemory (λ c. c) result (given made_router Command.CreateRouter (object_of fields.now)) }
{
    Ok(Command::CreateRouter {
        name: fields.name(alloc, Field::Name)?,
        attributes: attributes_or_none(alloc, fields)?,
        cost: number_or(fields, Field::Cost, 0, MOST_COST, 0)?,
        no_traversal: flag_or_not(fields, Field::NoTraversal)?,
    })
}

// The command that updates a router.
fn update_router(alloc: Global, fields: &Fields) -> Result<Command, FieldFault>
    ensures { Gives FieldFault.NoMemory (λ c. c) result (given updated_router Command.UpdateRouter (object_of fields.now)) }
{
    Ok(Command::UpdateRouter {
        name: fields.name(alloc, Field::Name)?,
        attributes: attributes(alloc, fields)?,
        cost: fields.number(Field::Cost, 0, MOST_COST)?,
        no_traversal: fields.flag(Field::NoTraversal)?,
    })
}

// The command on an edge router.
fn router_command(alloc: Global, content: u32, fields: &Fields) -> Result<Command, FieldFault>
    requires { 1020 ≤ content }
    ensures { Gives FieldFault.NoMemory (λ c. c) result (given_under (row_in entity_rows content) (object_of fields.now)) }
{
    match content {
        CREATE_ROUTER => create_router(alloc, fields),
        UPDATE_ROUTER => update_router(alloc, fields),
        DELETE_ROUTER => Ok(Command::DeleteRouter {
            name: fields.name(alloc, Field::Name)?,
        }),
        CONNECT_ROUTER => Ok(Command::ConnectRouter {
            name: fields.name(alloc, Field::Name)?,
        }),
        DISCONNECT_ROUTER => Ok(Command::DisconnectRouter {
            name: fields.name(alloc, Field::Name)?,
        }),
        _ => Err(FieldFault::Unknown),
    }
}

// The command on a service policy.
fn service_policy_command(
    alloc: Global,
    content: u32,
    fields: &Fields,
) -> Result<Command, FieldFault>
    requires { content < 1110 }
    ensures { Gives FieldFault.NoMemory (λ c. c) result (given_under (row_in policy_rows content) (object_of fields.now)) }
{
    match content {
        CREATE_SERVICE_POLICY => {
            let policy = service_policy(alloc, fields)?;
            Ok(Command::CreateServicePolicy {
                name: policy.name,
                relation: policy.relation,
                semantic: policy.semantic,
                identity_roles: policy.identity_roles,
                service_roles: policy.service_roles,
            })
        }
        UPDATE_SERVICE_POLICY => {
            let policy = service_policy(alloc, fields)?;
            Ok(Command::UpdateServicePolicy {
                name: policy.name,
                relation: policy.relation,
                semantic: policy.semantic,
                identity_roles: policy.identity_roles,
                service_roles: policy.service_roles,
            })
        }
        DELETE_SERVICE_POLICY => Ok(Command::DeleteServicePolicy {
            name: fields.name(alloc, Field::Name)?,
        }),
        _ => Err(FieldFault::Unknown),
    }
}

// The command on a policy that gives routers to identities.
fn edge_router_policy_command(
    alloc: Global,
    content: u32,
    fields: &Fields,
) -> Result<Command, FieldFault>
    requires least { 1110 ≤ content }
    requires most { content < 1120 }
    ensures { Gives FieldFault.NoMemory (λ c. c) result (given_under (row_in policy_rows content) (object_of fields.now)) }
{
    match content {
        CREATE_EDGE_ROUTER_POLICY => {
            let policy = router_policy(alloc, Field::IdentityRoles, fields)?;
            Ok(Command::CreateEdgeRouterPolicy {
                name: policy.name,
                semantic: policy.semantic,
                identity_roles: policy.left,
                router_roles: policy.router_roles,
            })
        }
        UPDATE_EDGE_ROUTER_POLICY => {
            let policy = router_policy(alloc, Field::IdentityRoles, fields)?;
            Ok(Command::UpdateEdgeRouterPolicy {
                name: policy.name,
                semantic: policy.semantic,
                identity_roles: policy.left,
                router_roles: policy.router_roles,
            })
        }
        DELETE_EDGE_ROUTER_POLICY => Ok(Command::DeleteEdgeRouterPolicy {
            name: fields.name(alloc, Field::Name)?,
        }),
        _ => Err(FieldFault::Unknown),
    }
}

// The command on a policy that gives routers to services.
fn service_edge_router_policy_command(
    alloc: Global,
    content: u32,
    fields: &Fields,
) -> Result<Command, FieldFault>
    requires { 1120 ≤ content }
    ensures { Gives FieldFault.NoMemory (λ c. c) result (given_under (row_in policy_rows content) (object_of fields.now)) }
{
    match content {
        CREATE_SERVICE_EDGE_ROUTER_POLICY => {
            let policy = router_policy(alloc, Field::ServiceRoles, fields)?;
            Ok(Command::CreateServiceEdgeRouterPolicy {
                name: policy.name,
                semantic: policy.semantic,
                service_roles: policy.left,
                router_roles: policy.router_roles,
            })
        }
        UPDATE_SERVICE_EDGE_ROUTER_POLICY => {
            let policy = router_policy(alloc, Field::ServiceRoles, fields)?;
            Ok(Command::UpdateServiceEdgeRouterPolicy {
                name: policy.name,
                semantic: policy.semantic,
                service_roles: policy.left,
                router_roles: policy.router_roles,
            })
        }
        DELETE_SERVICE_EDGE_ROUTER_POLICY => Ok(Command::DeleteServiceEdgeRouterPolicy {
            name: fields.name(alloc, Field::Name)?,
        }),
        _ => Err(FieldFault::Unknown),
    }
}

// The command on a policy.
fn policy_command(alloc: Global, content: u32, fields: &Fields) -> Result<Command, FieldFault>
    ensures { Gives FieldFault.NoMemory (λ c. c) result (given_under (row_in policy_rows content) (object_of fields.now)) }
{
    if content < CREATE_EDGE_ROUTER_POLICY {
        service_policy_command(alloc, content, fields)
    } else if content < CREATE_SERVICE_EDGE_ROUTER_POLICY {
        edge_router_policy_command(alloc, content, fields)
    } else {
        service_edge_router_policy_command(alloc, content, fields)
    }
}

// The command that makes a link.
fn create_link(alloc: Global, fields: &Fields) -> Result<Command, FieldFault>
    ensures { Gives FieldFault.NoMemory (λ c. c) result (given made_link Command.CreateLink (object_of fields.now)) }
{
    Ok(Command::CreateLink {
        name: fields.name(alloc, Field::Name)?,
        a: fields.name(alloc, Field::A)?,
        b: fields.name(alloc, Field::B)?,
        cost: number_or(fields, Field::Cost, 1, MOST_COST, 1)?,
        latency_a: number_or(fields, Field::LatencyA, 0, MOST_LATENCY, 0)?,
        latency_b: number_or(fields, Field::LatencyB, 0, MOST_LATENCY, 0)?,
    })
}

// The command by which an end of a link reports its latency.
fn report_latency(alloc: Global, fields: &Fields) -> Result<Command, FieldFault>
    ensures { Gives FieldFault.NoMemory (λ c. c) result (given_under (row_in link_rows 1202) (object_of fields.now)) }
{
    Ok(Command::ReportLatency {
        link: fields.name(alloc, Field::Link)?,
        router: fields.name(alloc, Field::Router)?,
        latency: fields.number(Field::Latency, 0, MOST_LATENCY)?,
    })
}

// The command by which an end of a link reports its state.
fn report_state(alloc: Global, fields: &Fields) -> Result<Command, FieldFault>
    ensures { Gives FieldFault.NoMemory (λ c. c) result (given_under (row_in link_rows 1203) (object_of fields.now)) }
{
    Ok(Command::ReportState {
        link: fields.name(alloc, Field::Link)?,
        router: fields.name(alloc, Field::Router)?,
        up: fields.flag(Field::Up)?,
    })
}

// The command on links, or on the least router cost.
fn link_command(alloc: Global, content: u32, fields: &Fields) -> Result<Command, FieldFault>
    ensures { Gives FieldFault.NoMemory (λ c. c) result (given_under (row_in link_rows content) (object_of fields.now)) }
{
    match content {
        CREATE_LINK => create_link(alloc, fields),
        SET_LINK_COST => Ok(Command::SetLinkCost {
            link: fields.name(alloc, Field::Link)?,
            cost: fields.number(Field::Cost, 1, MOST_COST)?,
        }),
        REPORT_LATENCY => report_latency(alloc, fields),
        REPORT_STATE => report_state(alloc, fields),
        DELETE_LINK => Ok(Command::DeleteLink {
            link: fields.name(alloc, Field::Link)?,
        }),
        SET_LEAST_ROUTER_COST => Ok(Command::SetLeastRouterCost {
            cost: fields.number(Field::Cost, 1, MOST_COST)?,
        }),
        _ => Err(FieldFault::Unknown),
    }
}

// The command that makes a terminator.
fn create_terminator(alloc: Global, fields: &Fields) -> Result<Command, FieldFault>
    ensures { Gives FieldFault.NoMemory (λ c. c) result (given made_terminator Command.CreateTerminator (object_of fields.now)) }
{
    Ok(Command::CreateTerminator {
        service: fields.name(alloc, Field::Service)?,
        router: fields.name(alloc, Field::Router)?,
        instance: instance_or_empty(alloc, fields)?,
        host: name_or_none(alloc, fields, Field::Host)?,
        cost: number_or(fields, Field::Cost, 0, MOST_COST, 0)?,
        precedence: precedence_or_default(fields)?,
    })
}

// The command on a terminator.
fn terminator_command(alloc: Global, content: u32, fields: &Fields) -> Result<Command, FieldFault>
    ensures { Gives FieldFault.NoMemory (λ c. c) result (given_under (row_in terminator_rows content) (object_of fields.now)) }
{
    match content {
        CREATE_TERMINATOR => create_terminator(alloc, fields),
        UPDATE_TERMINATOR => Ok(Command::UpdateTerminator {
            no: fields.number(Field::No, 1, u32::MAX)?,
            cost: fields.number(Field::Cost, 0, MOST_COST)?,
            precedence: precedence(fields)?,
        }),
        DELETE_TERMINATOR => Ok(Command::DeleteTerminator {
            no: fields.number(Field::No, 1, u32::MAX)?,
        }),
        _ => Err(FieldFault::Unknown),
    }
}

// The command that verifies a claimed route.
fn verify_route(alloc: Global, fields: &Fields) -> Result<Command, FieldFault>
    ensures { Gives FieldFault.NoMemory (λ c. c) result (given claim Command.VerifyRoute (object_of fields.now)) }
{
    let asked = request(alloc, fields)?;
    let route = claimed(alloc, fields)?;
    Ok(Command::VerifyRoute {
        identity: asked.identity,
        service: asked.service,
        ingress: asked.ingress,
        instance: asked.instance,
        chosen: route.chosen,
        links: route.links,
        potentials: route.potentials,
        routers: route.routers,
        terminator: route.terminator,
        total: route.total,
    })
}

// The command on a circuit or a route.
fn circuit_command(alloc: Global, content: u32, fields: &Fields) -> Result<Command, FieldFault>
    ensures { Gives FieldFault.NoMemory (λ c. c) result (given_under (row_in circuit_rows content) (object_of fields.now)) }
{
    match content {
        CREATE_CIRCUIT => {
            let asked = request(alloc, fields)?;
            Ok(Command::CreateCircuit {
                identity: asked.identity,
                service: asked.service,
                ingress: asked.ingress,
                instance: asked.instance,
            })
        }
        DELETE_CIRCUIT => Ok(Command::DeleteCircuit {
            no: fields.number(Field::No, 1, u32::MAX)?,
        }),
        EXPLAIN => {
            let asked = request(alloc, fields)?;
            Ok(Command::Explain {
                identity: asked.identity,
                service: asked.service,
                ingress: asked.ingress,
                instance: asked.instance,
            })
        }
        VERIFY_ROUTE => verify_route(alloc, fields),
        SHOW_CIRCUIT => Ok(Command::ShowCircuit {
            no: fields.number(Field::No, 1, u32::MAX)?,
        }),
        _ => Err(FieldFault::Unknown),
    }
}

// The command that shows grants, services or counts, or Compact.
fn show_command(alloc: Global, content: u32, fields: &Fields) -> Result<Command, FieldFault>
    ensures { Gives FieldFault.NoMemory (λ c. c) result (given_under (row_in show_rows content) (object_of fields.now)) }
{
    match content {
        SHOW_GRANTS => Ok(Command::ShowGrants {
            identity: fields.name(alloc, Field::Identity)?,
        }),
        LIST_SERVICES => Ok(Command::ListServices {
            identity: fields.name(alloc, Field::Identity)?,
        }),
        SHOW_COUNTS => Ok(Command::ShowCounts),
        COMPACT => Ok(Command::Compact),
        _ => Err(FieldFault::Unknown),
    }
}

// The command that sets an intercept.
fn set_intercept(alloc: Global, fields: &Fields) -> Result<Command, FieldFault>
    ensures { Gives FieldFault.NoMemory (λ c. c) result (given_under (row_in intercept_rows 1600) (object_of fields.now)) }
{
    let service = fields.name(alloc, Field::Service)?;
    let protocols = protocols(fields)?;
    Ok(Command::SetIntercept {
        service,
        intercept: Intercept {
            tcp: protocols.tcp,
            udp: protocols.udp,
            addresses: addresses(alloc, fields)?,
            ports: ranges(alloc, fields)?,
        },
    })
}

// The command that picks the service of a destination.
fn pick(alloc: Global, fields: &Fields) -> Result<Command, FieldFault>
    ensures { Gives FieldFault.NoMemory (λ c. c) result (given_under (row_in intercept_rows 1610) (object_of fields.now)) }
{
    Ok(Command::Pick {
        identity: fields.name(alloc, Field::Identity)?,
        udp: protocol(fields)?,
        address: destination(alloc, fields)?,
        port: fields.number(Field::Port, 1, MOST_PORT)?,
    })
}

// The command on intercepts.
fn intercept_command(alloc: Global, content: u32, fields: &Fields) -> Result<Command, FieldFault>
    ensures { Gives FieldFault.NoMemory (λ c. c) result (given_under (row_in intercept_rows content) (object_of fields.now)) }
{
    match content {
        SET_INTERCEPT => set_intercept(alloc, fields),
        CLEAR_INTERCEPT => Ok(Command::ClearIntercept {
            service: fields.name(alloc, Field::Service)?,
        }),
        PICK => pick(alloc, fields),
        LIST_CLASHES => Ok(Command::ListClashes {
            identity: fields.name(alloc, Field::Identity)?,
            service: fields.name(alloc, Field::Service)?,
        }),
        _ => Err(FieldFault::Unknown),
    }
}

// The command of a content type that is made of the values which an object gives.
pub(crate) fn command_of(
    alloc: Global,
    content: u32,
    fields: &Fields,
) -> Result<Command, FieldFault>
    ensures { Gives FieldFault.NoMemory (λ c. c) result (given_under (row_at content) (object_of fields.now)) }
{
    match content {
        CREATE_IDENTITY..=DELETE_SERVICE => entity_command(alloc, content, fields),
        CREATE_ROUTER..=DISCONNECT_ROUTER => router_command(alloc, content, fields),
        CREATE_SERVICE_POLICY..=DELETE_SERVICE_EDGE_ROUTER_POLICY => {
            policy_command(alloc, content, fields)
        }
        CREATE_LINK..=SET_LEAST_ROUTER_COST => link_command(alloc, content, fields),
        CREATE_TERMINATOR..=DELETE_TERMINATOR => terminator_command(alloc, content, fields),
        CREATE_CIRCUIT..=VERIFY_ROUTE | SHOW_CIRCUIT => circuit_command(alloc, content, fields),
        SHOW_GRANTS..=SHOW_COUNTS | COMPACT => show_command(alloc, content, fields),
        // What is left is a command on intercepts, or none.
        _ => intercept_command(alloc, content, fields),
    }
}
