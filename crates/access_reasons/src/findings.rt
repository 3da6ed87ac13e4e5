use ctrl_model::{Bytes, Denial, Items};

/// What meets a rule or fails it: items under a key (docs/FORMATS.md, "Reasons").
#[derive(Drop)]
pub struct Part {
    pub key: Bytes,
    /// Names, numbers in decimal and words.
    pub items: Items<Bytes>,
}

/// What was found of a rule of a circuit request, which is named by the denial that it gives where it fails.
#[derive(Drop)]
pub struct Finding {
    pub rule: Denial,
    /// Whether the rule fails.
    pub fails: bool,
    pub parts: Items<Part>,
}

/// Findings in the order of their rules.
pub type Findings = Items<Finding>;

/// Which sides of a policy match.
#[derive(Clone, Copy, PartialEq, Eq)]
pub enum Sides {
    /// Both.
    Both,
    /// That of identities, and not that of services.
    IdentityOnly,
    /// That of services, and not that of identities.
    ServiceOnly,
}

/// Whether a circuit may end at a terminator, or the first cause why not.
#[derive(Clone, Copy, PartialEq, Eq)]
pub enum Standing {
    Admissible,
    /// Its router is not connected.
    RouterOffline,
    /// Its host has no Bind on the service.
    HostWithoutBind,
    /// Its host does not share the router with the service.
    HostWithoutRouter,
}
