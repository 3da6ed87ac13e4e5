use ctrl_model::{
    CircuitNo, IdentityNo, Instance, Intercept, LinkNo, Name, Names, Numbers, PolicyNo, Precedence,
    Relation, RouterNo, Semantic, ServiceNo, Side, TermNo,
};

/// A row of the folder: one variant for each table, with the fields of its key and then those of its value
/// (docs/FORMATS.md, "Rows").
#[derive(Drop)]
pub enum Row {
    /// The next number of a kind, which is numbered 1 to 9 in the order of `Kind`. There where it is above 1.
    Next {
        kind: u8,
        next: u32,
    },
    /// The least router cost. There where it is not 10.
    Setting {
        cost: u32,
    },
    Identity {
        no: IdentityNo,
        name: Name,
        attributes: Names,
    },
    Service {
        no: ServiceNo,
        name: Name,
        attributes: Names,
    },
    Router {
        no: RouterNo,
        name: Name,
        attributes: Names,
        cost: u32,
        /// False for a router that no path may pass through.
        through: bool,
        connected: bool,
    },
    Link {
        no: LinkNo,
        name: Name,
        a: RouterNo,
        b: RouterNo,
        cost: u32,
        latency_a: u32,
        latency_b: u32,
        up: bool,
    },
    ServicePolicy {
        no: PolicyNo,
        name: Name,
        /// Dial or Bind.
        relation: Relation,
        semantic: Semantic,
        identities: Side,
        services: Side,
    },
    EdgeRouterPolicy {
        no: PolicyNo,
        name: Name,
        semantic: Semantic,
        identities: Side,
        routers: Side,
    },
    ServiceEdgeRouterPolicy {
        no: PolicyNo,
        name: Name,
        semantic: Semantic,
        services: Side,
        routers: Side,
    },
    Terminator {
        no: TermNo,
        service: ServiceNo,
        router: RouterNo,
        host: Option<IdentityNo>,
        instance: Instance,
        cost: u32,
        precedence: Precedence,
    },
    Circuit {
        no: CircuitNo,
        identity: IdentityNo,
        service: ServiceNo,
        terminator: TermNo,
        ingress: RouterNo,
        links: Numbers,
    },
    /// How many policies grant an identity Dial on a service. There where it is above 0, as in the next three.
    Dial {
        identity: IdentityNo,
        service: ServiceNo,
        count: u32,
    },
    Bind {
        identity: IdentityNo,
        service: ServiceNo,
        count: u32,
    },
    IdentityRouter {
        identity: IdentityNo,
        router: RouterNo,
        count: u32,
    },
    ServiceRouter {
        service: ServiceNo,
        router: RouterNo,
        count: u32,
    },
    /// What a service claims, in the second format, as the next one.
    Intercept {
        service: ServiceNo,
        intercept: Intercept,
    },
    /// How many changes were kept. There where it is above 0.
    Serial {
        serial: u64,
    },
}
