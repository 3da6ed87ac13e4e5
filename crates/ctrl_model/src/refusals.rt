ghost use Rattle.std.specs.Prelude.{◌≡◌};
ghost use Rattle.ctrl_model.specs.Words.{word_of};

use crate::kinds::Kind;
use crate::texts::Name;

/// A field of a command.
#[derive(Clone, Copy, Debug, PartialEq, Eq)]
pub enum Field {
    Name,
    Attributes,
    Cost,
    NoTraversal,
    /// Written `type`.
    PolicyType,
    Semantic,
    IdentityRoles,
    ServiceRoles,
    RouterRoles,
    A,
    B,
    LatencyA,
    LatencyB,
    Link,
    Router,
    Latency,
    Up,
    Service,
    Instance,
    Host,
    Precedence,
    No,
    Identity,
    Ingress,
    Chosen,
    Links,
    Potentials,
    Routers,
    Terminator,
    Total,
    Protocols,
    Addresses,
    Ports,
    Protocol,
    Address,
    Port,
    /// No field at all: written as the empty text.
    Nothing,
}

impl Field {
    /// The field's word in a body and in a refusal (docs/FORMATS.md, "Refusals").
    pub fn word(&self) -> &str
        ensures { result.now ≡ word_of self.now }
    {
        match self {
            Field::Name => "name",
            Field::Attributes => "attributes",
            Field::Cost => "cost",
            Field::NoTraversal => "no_traversal",
            Field::PolicyType => "type",
            Field::Semantic => "semantic",
            Field::IdentityRoles => "identity_roles",
            Field::ServiceRoles => "service_roles",
            Field::RouterRoles => "router_roles",
            Field::A => "a",
            Field::B => "b",
            Field::LatencyA => "latency_a",
            Field::LatencyB => "latency_b",
            Field::Link => "link",
            Field::Router => "router",
            Field::Latency => "latency",
            Field::Up => "up",
            Field::Service => "service",
            Field::Instance => "instance",
            Field::Host => "host",
            Field::Precedence => "precedence",
            Field::No => "no",
            Field::Identity => "identity",
            Field::Ingress => "ingress",
            Field::Chosen => "chosen",
            Field::Links => "links",
            Field::Potentials => "potentials",
            Field::Routers => "routers",
            Field::Terminator => "terminator",
            Field::Total => "total",
            Field::Protocols => "protocols",
            Field::Addresses => "addresses",
            Field::Ports => "ports",
            Field::Protocol => "protocol",
            Field::Address => "address",
            Field::Port => "port",
            Field::Nothing => "",
        }
    }
}

/// Why a body spells no command.
#[derive(Clone, Copy, Debug, PartialEq, Eq)]
pub enum Reason {
    /// The body is no JSON object.
    NotObject,
    /// A field is required and absent.
    Missing,
    /// A field is there and is not of its kind.
    WrongKind,
    /// The object has a key that is no field of the command.
    Unknown,
}

/// The rules of a circuit request, each by what fails (docs/RULES.md, "Circuits").
#[derive(Clone, Copy, Debug, PartialEq, Eq)]
pub enum Denial {
    UnknownIdentity,
    UnknownService,
    UnknownRouter,
    NoDial,
    NoSharedRouter,
    SharedRoutersOffline,
    NoTerminators,
    NoAdmissibleTerminator,
    NoPath,
    CircuitsFull,
}

/// Why a command is refused (docs/RULES.md, "Refusals"). A refused command changes nothing.
#[derive(Drop)]
pub enum Refusal {
    /// No command has the content type.
    UnsupportedType,
    /// The body spells no command of its type: the first cause, and the field that it is about.
    BadBody { field: Field, reason: Reason },
    /// The role of the session may not send the command.
    NotPermitted,
    /// A record of the kind has the name already.
    Exists,
    /// No record has the name or the number that the field gives.
    Unknown { field: Field },
    /// A role list names an entity that is absent: the list's field and the name.
    UnknownRef { field: Field, name: Name },
    /// No record of the kind can be added, or no attribute.
    Full { kind: Kind },
    /// A link would join a router with itself.
    SameRouter,
    /// The host of a terminator lacks Bind on the service.
    NotBindable,
    /// A circuit request fails a rule: the first that fails.
    Denied(Denial),
    /// The journal's slot would pass its bound.
    JournalFull,
    /// The mark has reached its bound.
    MarkFull,
    /// No service that the identity may dial has an intercept of the destination.
    NoIntercept,
}
