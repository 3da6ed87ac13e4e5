ghost use Rattle.std.specs.Prelude.{◌≡◌, ◌+◌, length};

use crate::policies::Policies;
use ctrl_model::Kind;

/// How many policies of all kinds there are.
pub fn count_all_policies(kept: &Policies) -> u32
    ensures { result ≡ length kept.now.service_policies.rows + length kept.now.edge_router_policies.rows + length kept.now.service_edge_router_policies.rows }
{
    let service = kept.count(Kind::ServicePolicy);
    let edge_router = kept.count(Kind::EdgeRouterPolicy);
    let service_edge_router = kept.count(Kind::ServiceEdgeRouterPolicy);
    (service + edge_router + service_edge_router) as u32
}
