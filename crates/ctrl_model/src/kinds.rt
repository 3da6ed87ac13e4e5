use crate::numbering::RouterNo;
use crate::texts::{Name, Names};

/// The kinds of record, in the order of their numbers in the folder, and the attributes, which have a limit too.
#[derive(Clone, Copy, Debug, PartialEq, Eq)]
pub enum Kind {
    Identity,
    Service,
    Router,
    Link,
    ServicePolicy,
    EdgeRouterPolicy,
    ServiceEdgeRouterPolicy,
    Terminator,
    Circuit,
    Attribute,
}

/// Who sends: the role of a session.
#[derive(Drop)]
pub enum Who {
    Admin,
    Router(Name),
    Identity(Name),
}

/// Whether an entity needs one of a side's attributes or all of them.
#[derive(Clone, Copy, PartialEq, Eq)]
pub enum Semantic {
    AnyOf,
    AllOf,
}

/// The precedence of a terminator: a required one comes before a default one, and this before a failed one.
#[derive(Clone, Copy, PartialEq, Eq, PartialOrd, Ord)]
pub enum Precedence {
    Required,
    /// Written `default`.
    Normal,
    Failed,
}

/// What policies grant: Dial and Bind of an identity on a service, a router to an identity, a router to a service.
#[derive(Clone, Copy, PartialEq, Eq)]
pub enum Relation {
    Dial,
    Bind,
    IdentityRouter,
    ServiceRouter,
}

/// One entry of a role list: `#all`, `@` with an entity's name, or `#` with an attribute.
#[derive(Drop)]
pub enum Role {
    All,
    Id(Name),
    Attribute(Name),
}

/// One side of a policy, as a role list says it: whether it is `#all`, the names with `@`, the attributes with `#`.
#[derive(Drop)]
pub struct Side {
    pub all: bool,
    pub ids: Names,
    pub attributes: Names,
}

/// A present router as routes see it. `through` is false for a router that no path may pass through.
#[derive(Clone, Copy, PartialEq, Eq)]
pub struct RouterSeen {
    pub no: RouterNo,
    /// What a path pays to enter the router, 0 to 65,535.
    pub cost: u32,
    pub through: bool,
    pub connected: bool,
}
