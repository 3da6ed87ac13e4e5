/// The groups of frames of a load, in their order.
#[derive(Clone, Copy)]
pub enum Group {
    Identities,
    Services,
    Routers,
    Links,
    ServicePolicies,
    EdgeRouterPolicies,
    ServiceEdgeRouterPolicies,
    Terminators,
    Requests,
}
