ghost use Rattle.std.specs.Prelude.{◌≡◌, option_map};
ghost use Rattle.ctrl_model.specs.CommandForms.{entity_rows, policy_rows, link_rows, terminator_rows, circuit_rows, show_rows, intercept_rows, form_at, row_at, row_in};
ghost use Rattle.ctrl_model.specs.BodyForms.{fields_in};
ghost use Rattle.command_codec.specs.FormRules.{form_asks, row_asks};

use crate::body_kinds::BodyKind;
use crate::content_types::{
    CLEAR_INTERCEPT, COMPACT, CONNECT_ROUTER, CREATE_CIRCUIT, CREATE_EDGE_ROUTER_POLICY,
    CREATE_IDENTITY, CREATE_LINK, CREATE_ROUTER, CREATE_SERVICE, CREATE_SERVICE_EDGE_ROUTER_POLICY,
    CREATE_SERVICE_POLICY, CREATE_TERMINATOR, DELETE_CIRCUIT, DELETE_EDGE_ROUTER_POLICY,
    DELETE_IDENTITY, DELETE_LINK, DELETE_ROUTER, DELETE_SERVICE, DELETE_SERVICE_EDGE_ROUTER_POLICY,
    DELETE_SERVICE_POLICY, DELETE_TERMINATOR, DISCONNECT_ROUTER, EXPLAIN, LIST_CLASHES,
    LIST_SERVICES, PICK, REPORT_LATENCY, REPORT_STATE, SET_INTERCEPT, SET_LEAST_ROUTER_COST,
    SET_LINK_COST, SHOW_CIRCUIT, SHOW_COUNTS, SHOW_GRANTS, UPDATE_EDGE_ROUTER_POLICY,
    UPDATE_IDENTITY, UPDATE_ROUTER, UPDATE_SERVICE, UPDATE_SERVICE_EDGE_ROUTER_POLICY,
    UPDATE_SERVICE_POLICY, UPDATE_TERMINATOR, VERIFY_ROUTE,
};
use body_fields::AskedField::{self, Needed, Optional};
use ctrl_model::Field;

// What a command asks of the object that is its body: the rules of its fields, and which fields there may be.
#[derive(Clone, Copy)]
pub(crate) struct BodyForm {
    pub(crate) rules: &'static [AskedField<BodyKind>],
    pub(crate) allowed: &'static [Field],
}

// One name.
const NAME: BodyForm = BodyForm {
    rules: &[Needed(Field::Name, BodyKind::NAME)],
    allowed: &[Field::Name],
};

// The name of a link.
const LINK_NAME: BodyForm = BodyForm {
    rules: &[Needed(Field::Link, BodyKind::NAME)],
    allowed: &[Field::Link],
};

// The name of an identity.
const IDENTITY_NAME: BodyForm = BodyForm {
    rules: &[Needed(Field::Identity, BodyKind::NAME)],
    allowed: &[Field::Identity],
};

// The name of a service.
const SERVICE_NAME: BodyForm = BodyForm {
    rules: &[Needed(Field::Service, BodyKind::NAME)],
    allowed: &[Field::Service],
};

// The number of a record.
const RECORD: BodyForm = BodyForm {
    rules: &[Needed(Field::No, BodyKind::NUMBER_OF_RECORD)],
    allowed: &[Field::No],
};

// No fields.
const NOTHING: BodyForm = BodyForm {
    rules: &[],
    allowed: &[],
};

// An identity or a service that is made, and one that is updated.
const MADE: BodyForm = BodyForm {
    rules: &[
        Needed(Field::Name, BodyKind::NAME),
        Optional(Field::Attributes, BodyKind::ATTRIBUTES),
    ],
    allowed: &[Field::Name, Field::Attributes],
};

const UPDATED: BodyForm = BodyForm {
    rules: &[
        Needed(Field::Name, BodyKind::NAME),
        Needed(Field::Attributes, BodyKind::ATTRIBUTES),
    ],
    allowed: &[Field::Name, Field::Attributes],
};

// A router that is made, and one that is updated.
const MADE_ROUTER: BodyForm = BodyForm {
    rules: &[
        Needed(Field::Name, BodyKind::NAME),
        Optional(Field::Attributes, BodyKind::ATTRIBUTES),
        Optional(Field::Cost, BodyKind::COST),
        Optional(Field::NoTraversal, BodyKind::FLAG),
    ],
    allowed: &[
        Field::Name,
        Field::Attributes,
        Field::Cost,
        Field::NoTraversal,
    ],
};

const UPDATED_ROUTER: BodyForm = BodyForm {
    rules: &[
        Needed(Field::Name, BodyKind::NAME),
        Needed(Field::Attributes, BodyKind::ATTRIBUTES),
        Needed(Field::Cost, BodyKind::COST),
        Needed(Field::NoTraversal, BodyKind::FLAG),
    ],
    allowed: &[
        Field::Name,
        Field::Attributes,
        Field::Cost,
        Field::NoTraversal,
    ],
};

// A policy of each kind.
const SERVICE_POLICY: BodyForm = BodyForm {
    rules: &[
        Needed(Field::Name, BodyKind::NAME),
        Needed(Field::PolicyType, BodyKind::RELATION),
        Needed(Field::Semantic, BodyKind::SEMANTIC),
        Needed(Field::IdentityRoles, BodyKind::SIDE),
        Needed(Field::ServiceRoles, BodyKind::SIDE),
    ],
    allowed: &[
        Field::Name,
        Field::PolicyType,
        Field::Semantic,
        Field::IdentityRoles,
        Field::ServiceRoles,
    ],
};

const EDGE_ROUTER_POLICY: BodyForm = BodyForm {
    rules: &[
        Needed(Field::Name, BodyKind::NAME),
        Needed(Field::Semantic, BodyKind::SEMANTIC),
        Needed(Field::IdentityRoles, BodyKind::SIDE),
        Needed(Field::RouterRoles, BodyKind::SIDE),
    ],
    allowed: &[
        Field::Name,
        Field::Semantic,
        Field::IdentityRoles,
        Field::RouterRoles,
    ],
};

const SERVICE_EDGE_ROUTER_POLICY: BodyForm = BodyForm {
    rules: &[
        Needed(Field::Name, BodyKind::NAME),
        Needed(Field::Semantic, BodyKind::SEMANTIC),
        Needed(Field::ServiceRoles, BodyKind::SIDE),
        Needed(Field::RouterRoles, BodyKind::SIDE),
    ],
    allowed: &[
        Field::Name,
        Field::Semantic,
        Field::ServiceRoles,
        Field::RouterRoles,
    ],
};

// A link that is made, and what is set or reported of one.
const MADE_LINK: BodyForm = BodyForm {
    rules: &[
        Needed(Field::Name, BodyKind::NAME),
        Needed(Field::A, BodyKind::NAME),
        Needed(Field::B, BodyKind::NAME),
        Optional(Field::Cost, BodyKind::LINK_COST),
        Optional(Field::LatencyA, BodyKind::LATENCY),
        Optional(Field::LatencyB, BodyKind::LATENCY),
    ],
    allowed: &[
        Field::Name,
        Field::A,
        Field::B,
        Field::Cost,
        Field::LatencyA,
        Field::LatencyB,
    ],
};

const COST_OF_LINK: BodyForm = BodyForm {
    rules: &[
        Needed(Field::Link, BodyKind::NAME),
        Needed(Field::Cost, BodyKind::LINK_COST),
    ],
    allowed: &[Field::Link, Field::Cost],
};

const REPORTED_LATENCY: BodyForm = BodyForm {
    rules: &[
        Needed(Field::Link, BodyKind::NAME),
        Needed(Field::Router, BodyKind::NAME),
        Needed(Field::Latency, BodyKind::LATENCY),
    ],
    allowed: &[Field::Link, Field::Router, Field::Latency],
};

const REPORTED_STATE: BodyForm = BodyForm {
    rules: &[
        Needed(Field::Link, BodyKind::NAME),
        Needed(Field::Router, BodyKind::NAME),
        Needed(Field::Up, BodyKind::FLAG),
    ],
    allowed: &[Field::Link, Field::Router, Field::Up],
};

// The least router cost.
const LEAST_ROUTER_COST: BodyForm = BodyForm {
    rules: &[Needed(Field::Cost, BodyKind::LINK_COST)],
    allowed: &[Field::Cost],
};

// A terminator that is made, and one that is updated.
const MADE_TERMINATOR: BodyForm = BodyForm {
    rules: &[
        Needed(Field::Service, BodyKind::NAME),
        Needed(Field::Router, BodyKind::NAME),
        Optional(Field::Instance, BodyKind::INSTANCE),
        Optional(Field::Host, BodyKind::NAME_OR_NONE),
        Optional(Field::Cost, BodyKind::COST),
        Optional(Field::Precedence, BodyKind::PRECEDENCE),
    ],
    allowed: &[
        Field::Service,
        Field::Router,
        Field::Instance,
        Field::Host,
        Field::Cost,
        Field::Precedence,
    ],
};

const UPDATED_TERMINATOR: BodyForm = BodyForm {
    rules: &[
        Needed(Field::No, BodyKind::NUMBER_OF_RECORD),
        Needed(Field::Cost, BodyKind::COST),
        Needed(Field::Precedence, BodyKind::PRECEDENCE),
    ],
    allowed: &[Field::No, Field::Cost, Field::Precedence],
};

// A circuit that is asked for, and a route that is claimed.
const ASKED_CIRCUIT: BodyForm = BodyForm {
    rules: &[
        Needed(Field::Identity, BodyKind::NAME),
        Needed(Field::Service, BodyKind::NAME),
        Optional(Field::Ingress, BodyKind::NAME_OR_NONE),
        Optional(Field::Instance, BodyKind::INSTANCE),
    ],
    allowed: &[
        Field::Identity,
        Field::Service,
        Field::Ingress,
        Field::Instance,
    ],
};

const CLAIMED_ROUTE: BodyForm = BodyForm {
    rules: &[
        Needed(Field::Identity, BodyKind::NAME),
        Needed(Field::Service, BodyKind::NAME),
        Optional(Field::Ingress, BodyKind::NAME_OR_NONE),
        Optional(Field::Instance, BodyKind::INSTANCE),
        Needed(Field::Chosen, BodyKind::NAME),
        Needed(Field::Links, BodyKind::PATH),
        Needed(Field::Potentials, BodyKind::POTENTIALS),
        Needed(Field::Routers, BodyKind::ROUTERS),
        Needed(Field::Terminator, BodyKind::NUMBER_OF_RECORD),
        Needed(Field::Total, BodyKind::TOTAL),
    ],
    allowed: &[
        Field::Identity,
        Field::Service,
        Field::Ingress,
        Field::Instance,
        Field::Chosen,
        Field::Links,
        Field::Potentials,
        Field::Routers,
        Field::Terminator,
        Field::Total,
    ],
};

// An intercept that is set, a destination whose service is picked, and a service whose clashes are listed.
const CLAIM: BodyForm = BodyForm {
    rules: &[
        Needed(Field::Service, BodyKind::NAME),
        Needed(Field::Protocols, BodyKind::PROTOCOLS),
        Needed(Field::Addresses, BodyKind::ADDRESSES),
        Needed(Field::Ports, BodyKind::RANGES),
    ],
    allowed: &[
        Field::Service,
        Field::Protocols,
        Field::Addresses,
        Field::Ports,
    ],
};

const DESTINATION: BodyForm = BodyForm {
    rules: &[
        Needed(Field::Identity, BodyKind::NAME),
        Needed(Field::Protocol, BodyKind::PROTOCOL),
        Needed(Field::Address, BodyKind::DESTINATION),
        Needed(Field::Port, BodyKind::PORT),
    ],
    allowed: &[
        Field::Identity,
        Field::Protocol,
        Field::Address,
        Field::Port,
    ],
};

const CLASHES: BodyForm = BodyForm {
    rules: &[
        Needed(Field::Identity, BodyKind::NAME),
        Needed(Field::Service, BodyKind::NAME),
    ],
    allowed: &[Field::Identity, Field::Service],
};

// The forms of the content types of identities, services and routers.
fn entity_form(content: u32) -> Option<BodyForm>
    ensures { option_map form_asks result ≡ option_map row_asks (row_in entity_rows content) }
{
    match content {
        CREATE_IDENTITY | CREATE_SERVICE => Some(MADE),
        UPDATE_IDENTITY | UPDATE_SERVICE => Some(UPDATED),
        CREATE_ROUTER => Some(MADE_ROUTER),
        UPDATE_ROUTER => Some(UPDATED_ROUTER),
        DELETE_IDENTITY | DELETE_SERVICE | DELETE_ROUTER | CONNECT_ROUTER | DISCONNECT_ROUTER =>
            Some(NAME),
        _ => None,
    }
}

// Those of policies.
fn policy_form(content: u32) -> Option<BodyForm>
    ensures { option_map form_asks result ≡ option_map row_asks (row_in policy_rows content) }
{
    match content {
        CREATE_SERVICE_POLICY | UPDATE_SERVICE_POLICY => Some(SERVICE_POLICY),
        CREATE_EDGE_ROUTER_POLICY | UPDATE_EDGE_ROUTER_POLICY => Some(EDGE_ROUTER_POLICY),
        CREATE_SERVICE_EDGE_ROUTER_POLICY | UPDATE_SERVICE_EDGE_ROUTER_POLICY => Some(
            SERVICE_EDGE_ROUTER_POLICY,
        ),
        DELETE_SERVICE_POLICY | DELETE_EDGE_ROUTER_POLICY | DELETE_SERVICE_EDGE_ROUTER_POLICY =>
            Some(NAME),
        _ => None,
    }
}

// Those of links, and of the least router cost.
fn link_form(content: u32) -> Option<BodyForm>
    ensures { option_map form_asks result ≡ option_map row_asks (row_in link_rows content) }
{
    match content {
        CREATE_LINK => Some(MADE_LINK),
        SET_LINK_COST => Some(COST_OF_LINK),
        REPORT_LATENCY => Some(REPORTED_LATENCY),
        REPORT_STATE => Some(REPORTED_STATE),
        DELETE_LINK => Some(LINK_NAME),
        SET_LEAST_ROUTER_COST => Some(LEAST_ROUTER_COST),
        _ => None,
    }
}

// Those of terminators.
fn terminator_form(content: u32) -> Option<BodyForm>
    ensures { option_map form_asks result ≡ option_map row_asks (row_in terminator_rows content) }
{
    match content {
        CREATE_TERMINATOR => Some(MADE_TERMINATOR),
        UPDATE_TERMINATOR => Some(UPDATED_TERMINATOR),
        DELETE_TERMINATOR => Some(RECORD),
        _ => None,
    }
}

// Those of circuits and routes.
fn circuit_form(content: u32) -> Option<BodyForm>
    ensures { option_map form_asks result ≡ option_map row_asks (row_in circuit_rows content) }
{
    match content {
        CREATE_CIRCUIT | EXPLAIN => Some(ASKED_CIRCUIT),
        DELETE_CIRCUIT | SHOW_CIRCUIT => Some(RECORD),
        VERIFY_ROUTE => Some(CLAIMED_ROUTE),
        _ => None,
    }
}

// Those of what is shown, and of Compact.
fn show_form(content: u32) -> Option<BodyForm>
    ensures { option_map form_asks result ≡ option_map row_asks (row_in show_rows content) }
{
    match content {
        SHOW_GRANTS | LIST_SERVICES => Some(IDENTITY_NAME),
        SHOW_COUNTS | COMPACT => Some(NOTHING),
        _ => None,
    }
}

// Those of intercepts.
fn intercept_form(content: u32) -> Option<BodyForm>
    ensures { option_map form_asks result ≡ option_map row_asks (row_in intercept_rows content) }
{
    match content {
        SET_INTERCEPT => Some(CLAIM),
        CLEAR_INTERCEPT => Some(SERVICE_NAME),
        PICK => Some(DESTINATION),
        LIST_CLASHES => Some(CLASHES),
        _ => None,
    }
}

// What the command asks whose content type it is, if it is one but that of Hello.
pub(crate) fn form_of(content: u32) -> Option<BodyForm>
    ensures { option_map form_asks result ≡ option_map row_asks (row_at content) }
{
    match content {
        CREATE_IDENTITY..=DISCONNECT_ROUTER => entity_form(content),
        CREATE_SERVICE_POLICY..=DELETE_SERVICE_EDGE_ROUTER_POLICY => policy_form(content),
        CREATE_LINK..=SET_LEAST_ROUTER_COST => link_form(content),
        CREATE_TERMINATOR..=DELETE_TERMINATOR => terminator_form(content),
        CREATE_CIRCUIT..=VERIFY_ROUTE | SHOW_CIRCUIT => circuit_form(content),
        SHOW_GRANTS..=SHOW_COUNTS | COMPACT => show_form(content),
        SET_INTERCEPT..=LIST_CLASHES => intercept_form(content),
        _ => None,
    }
}

/// The fields of the bodies under a content type, in the order in which the first cause counts: none of Hello, nor where no command
/// has the type.
pub fn fields_of(content: u32) -> &'static [Field]
    ensures { result.now ≡ fields_in (form_at content) }
{
    match form_of(content) {
        Some(form) => form.allowed,
        None => &[],
    }
}
