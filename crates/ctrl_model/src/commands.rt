use crate::addresses::Address;
use crate::claims::Reaches;
use crate::intercepts::Intercept;
use crate::kinds::{Precedence, Relation, Semantic, Side};
use crate::numbering::Numbers;
use crate::texts::{Instance, Name, Names};

/// A command: one variant a row of the table of commands, with that row's fields in its order (docs/FORMATS.md,
/// "Commands", which gives each field's range too).
#[derive(Drop)]
pub enum Command {
    Hello,
    CreateIdentity {
        name: Name,
        attributes: Names,
    },
    UpdateIdentity {
        name: Name,
        attributes: Names,
    },
    DeleteIdentity {
        name: Name,
    },
    CreateService {
        name: Name,
        attributes: Names,
    },
    UpdateService {
        name: Name,
        attributes: Names,
    },
    DeleteService {
        name: Name,
    },
    CreateRouter {
        name: Name,
        attributes: Names,
        cost: u32,
        no_traversal: bool,
    },
    UpdateRouter {
        name: Name,
        attributes: Names,
        cost: u32,
        no_traversal: bool,
    },
    DeleteRouter {
        name: Name,
    },
    ConnectRouter {
        name: Name,
    },
    DisconnectRouter {
        name: Name,
    },
    CreateServicePolicy {
        name: Name,
        relation: Relation,
        semantic: Semantic,
        identity_roles: Side,
        service_roles: Side,
    },
    UpdateServicePolicy {
        name: Name,
        relation: Relation,
        semantic: Semantic,
        identity_roles: Side,
        service_roles: Side,
    },
    DeleteServicePolicy {
        name: Name,
    },
    CreateEdgeRouterPolicy {
        name: Name,
        semantic: Semantic,
        identity_roles: Side,
        router_roles: Side,
    },
    UpdateEdgeRouterPolicy {
        name: Name,
        semantic: Semantic,
        identity_roles: Side,
        router_roles: Side,
    },
    DeleteEdgeRouterPolicy {
        name: Name,
    },
    CreateServiceEdgeRouterPolicy {
        name: Name,
        semantic: Semantic,
        service_roles: Side,
        router_roles: Side,
    },
    UpdateServiceEdgeRouterPolicy {
        name: Name,
        semantic: Semantic,
        service_roles: Side,
        router_roles: Side,
    },
    DeleteServiceEdgeRouterPolicy {
        name: Name,
    },
    CreateLink {
        name: Name,
        a: Name,
        b: Name,
        cost: u32,
        latency_a: u32,
        latency_b: u32,
    },
    SetLinkCost {
        link: Name,
        cost: u32,
    },
    ReportLatency {
        link: Name,
        router: Name,
        latency: u32,
    },
    ReportState {
        link: Name,
        router: Name,
        up: bool,
    },
    DeleteLink {
        link: Name,
    },
    SetLeastRouterCost {
        cost: u32,
    },
    CreateTerminator {
        service: Name,
        router: Name,
        instance: Instance,
        host: Option<Name>,
        cost: u32,
        precedence: Precedence,
    },
    UpdateTerminator {
        no: u32,
        cost: u32,
        precedence: Precedence,
    },
    DeleteTerminator {
        no: u32,
    },
    CreateCircuit {
        identity: Name,
        service: Name,
        ingress: Option<Name>,
        instance: Instance,
    },
    DeleteCircuit {
        no: u32,
    },
    Explain {
        identity: Name,
        service: Name,
        ingress: Option<Name>,
        instance: Instance,
    },
    VerifyRoute {
        identity: Name,
        service: Name,
        ingress: Option<Name>,
        instance: Instance,
        chosen: Name,
        links: Numbers,
        potentials: Reaches,
        routers: Numbers,
        terminator: u32,
        total: u32,
    },
    ShowGrants {
        identity: Name,
    },
    ListServices {
        identity: Name,
    },
    ShowCounts,
    ShowCircuit {
        no: u32,
    },
    Compact,
    SetIntercept {
        service: Name,
        intercept: Intercept,
    },
    ClearIntercept {
        service: Name,
    },
    Pick {
        identity: Name,
        /// False for tcp.
        udp: bool,
        address: Address,
        port: u32,
    },
    ListClashes {
        identity: Name,
        service: Name,
    },
}
