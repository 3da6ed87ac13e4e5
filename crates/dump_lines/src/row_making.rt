ghost use Rattle.std.specs.Prelude.{◌≡◌, ◌++◌, ◌||◌, true, codes, OnOk};
ghost use Rattle.std.specs.List.{flat_map};
ghost use Rattle.state_building.specs.BuiltStates.{state_in};
ghost use Rattle.dump_lines.specs.Dumps.{are_spelled, command_line};
ghost use Rattle.dump_lines.specs.RowDumps.{entity_making, is_unnamed as lacks_a_name, policy_making, row_making, row_says_all, says_all as has_all, use_making};

use crate::hosting::put_terminator;
use crate::making::{
    put_edge_router_policy, put_identity, put_intercept, put_link, put_router, put_service,
    put_service_edge_router_policy, put_service_policy,
};
use ctrl_model::Side;
use row_codec::Row;
use std::alloc::{AllocError, Global};

// Whether a side has the attribute `all`.
fn says_all(side: &Side) -> bool
    ensures { result ≡ has_all side.now }
{
    side.attributes
        .as_slice()
        .iter()
        .any(|name| name.bytes() == b"all".as_slice())
}

/// Whether a side of a row has the attribute `all`, which no role list says.
pub(crate) fn is_unsaid(row: &Row) -> bool
    ensures { result ≡ row_says_all row.now }
{
    match row {
        Row::ServicePolicy {
            identities,
            services,
            ..
        } => says_all(identities) || says_all(services),
        Row::EdgeRouterPolicy {
            identities,
            routers,
            ..
        } => says_all(identities) || says_all(routers),
        Row::ServiceEdgeRouterPolicy {
            services,
            routers,
            ..
        } => says_all(services) || says_all(routers),
        _ => false,
    }
}

// Whether a row is a record without a name.
fn is_unnamed(row: &Row) -> bool
    ensures { result ≡ lacks_a_name row.now }
{
    matches!(row, Row::Terminator { .. } | Row::Circuit { .. })
}

/// Whether a row is told as a remark: a side of it has the attribute `all`, or it is a record without a name.
pub(crate) fn is_remarked(row: &Row) -> bool
    ensures { result ≡ (row_says_all row.now || lacks_a_name row.now) }
{
    is_unsaid(row) || is_unnamed(row)
}

// Puts the lines of a row that is an identity, a service or a router; none of another.
fn put_entity(alloc: Global, text: &mut Vec<u8>, rows: &[Row], row: &Row) -> Result<(), AllocError>
    requires { are_spelled (entity_making (state_in rows.now) row.now) ≡ true }
    ensures { OnOk result (text.new.items ≡ text.old.items ++ flat_map command_line (entity_making (state_in rows.now) row.now)) }
{
    match row {
        Row::Identity {
            name,
            attributes,
            ..
        } => put_identity(alloc, text, name, attributes),
        Row::Service {
            name,
            attributes,
            ..
        } => put_service(alloc, text, name, attributes),
        Row::Router {
            name,
            attributes,
            cost,
            through,
            connected,
            ..
        } => put_router(alloc, text, name, attributes, *cost, *through, *connected),
        _ => Ok(()),
    }
}

// Puts the lines of a row that is a policy; none of another.
fn put_policy(alloc: Global, text: &mut Vec<u8>, row: &Row) -> Result<(), AllocError>
    requires { are_spelled (policy_making row.now) ≡ true }
    ensures { OnOk result (text.new.items ≡ text.old.items ++ flat_map command_line (policy_making row.now)) }
{
    match row {
        Row::ServicePolicy {
            name,
            relation,
            semantic,
            identities,
            services,
            ..
        } => {
            let grants = (*relation, *semantic);
            put_service_policy(alloc, text, name, grants, identities, services)
        }
        Row::EdgeRouterPolicy {
            name,
            semantic,
            identities,
            routers,
            ..
        } => put_edge_router_policy(alloc, text, name, *semantic, identities, routers),
        Row::ServiceEdgeRouterPolicy {
            name,
            semantic,
            services,
            routers,
            ..
        } => put_service_edge_router_policy(alloc, text, name, *semantic, services, routers),
        _ => Ok(()),
    }
}

// Puts the lines of a row that is a link, a terminator or an intercept; none of another.
fn put_use(alloc: Global, text: &mut Vec<u8>, rows: &[Row], row: &Row) -> Result<(), AllocError>
    requires { are_spelled (use_making (state_in rows.now) row.now) ≡ true }
    ensures { OnOk result (text.new.items ≡ text.old.items ++ flat_map command_line (use_making (state_in rows.now) row.now)) }
{
    match row {
        Row::Link {
            name,
            a,
            b,
            cost,
            latency_a,
            latency_b,
            up,
            ..
        } => {
            let costs = (*cost, (*latency_a, *latency_b));
            put_link(alloc, text, rows, name, (a.0, b.0), costs, *up)
        }
        Row::Terminator {
            service,
            router,
            host,
            instance,
            cost,
            precedence,
            ..
        } => {
            let ends = (service.0, router.0);
            let offer = (*cost, *precedence);
            put_terminator(alloc, text, rows, ends, *host, instance, offer)
        }
        Row::Intercept { service, intercept } => put_intercept(
            alloc, text, rows, service.0, intercept,
        ),
        _ => Ok(()),
    }
}

/// Puts the lines of the commands that make the record of a row, or set its intercept.
#[tactic(auto, using(crate::proofs::DumpedRows::making_by_family))]
pub(crate) fn put_making(
    alloc: Global,
    text: &mut Vec<u8>,
    rows: &[Row],
    row: &Row,
) -> Result<(), AllocError>
    requires { are_spelled (row_making (state_in rows.now) row.now) ≡ true }
    ensures { OnOk result (text.new.items ≡ text.old.items ++ flat_map command_line (row_making (state_in rows.now) row.now)) }
{
    put_entity(alloc, text, rows, row)?;
    put_policy(alloc, text, row)?;
    put_use(alloc, text, rows, row)
}
