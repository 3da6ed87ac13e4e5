ghost use Rattle.std.specs.Prelude.{◌≡◌, IfOk};
ghost use Rattle.core_stores.specs.SaidRecords.{circuit_in, link_in, policy_in, term_in};

use circuits::Circuit;
use ctrl_model::{Copies, Relation};
use fabric_graph::LinkRow;
use policy_store::{Policy, policy_of};
use row_codec::Row;
use std::alloc::AllocError;
use terminators::Term;

/// The link that a row says. None is a row of another table.
pub(crate) fn link_in(row: &Row) -> Result<Option<LinkRow>, AllocError>
    ensures { IfOk result (λ o. o ≡ link_in row.now) }
{
    match row {
        Row::Link {
            name,
            a,
            b,
            cost,
            latency_a,
            latency_b,
            up,
            ..
        } => Ok(Some(LinkRow {
            name: name.copy()?,
            a: *a,
            b: *b,
            cost: *cost,
            latency_a: *latency_a,
            latency_b: *latency_b,
            up: *up,
        })),
        _ => Ok(None),
    }
}

/// The policy that a row says, of any of the three kinds. None is a row of another table.
pub(crate) fn policy_in(row: &Row) -> Result<Option<Policy>, AllocError>
    ensures { IfOk result (λ o. o ≡ policy_in row.now) }
{
    match row {
        Row::ServicePolicy {
            name,
            relation,
            semantic,
            identities,
            services,
            ..
        } => Ok(Some(policy_of(name, *relation, *semantic, identities, services)?)),
        Row::EdgeRouterPolicy {
            name,
            semantic,
            identities,
            routers,
            ..
        } => {
            let relation = Relation::IdentityRouter;
            Ok(Some(policy_of(name, relation, *semantic, identities, routers)?))
        }
        Row::ServiceEdgeRouterPolicy {
            name,
            semantic,
            services,
            routers,
            ..
        } => {
            let relation = Relation::ServiceRouter;
            Ok(Some(policy_of(name, relation, *semantic, services, routers)?))
        }
        _ => Ok(None),
    }
}

/// The terminator that a row says. None is a row of another table.
pub(crate) fn term_in(row: &Row) -> Result<Option<Term>, AllocError>
    ensures { IfOk result (λ o. o ≡ term_in row.now) }
{
    match row {
        Row::Terminator {
            service,
            router,
            host,
            instance,
            cost,
            precedence,
            ..
        } => Ok(Some(Term {
            service: *service,
            router: *router,
            instance: instance.copy()?,
            host: *host,
            cost: *cost,
            precedence: *precedence,
        })),
        _ => Ok(None),
    }
}

/// The circuit that a row says. None is a row of another table.
pub(crate) fn circuit_in(row: &Row) -> Result<Option<Circuit>, AllocError>
    ensures { IfOk result (λ o. o ≡ circuit_in row.now) }
{
    match row {
        Row::Circuit {
            identity,
            service,
            terminator,
            ingress,
            links,
            ..
        } => Ok(Some(Circuit {
            identity: *identity,
            service: *service,
            terminator: *terminator,
            ingress: *ingress,
            links: links.copy()?,
        })),
        _ => Ok(None),
    }
}
