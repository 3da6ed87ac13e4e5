ghost use Rattle.std.specs.Prelude.{◌≡◌, ℕ, List, Some};
ghost use Rattle.ctrl_model.specs.declared.formats.Format.{Format};
ghost use Rattle.ctrl_model.specs.declared.formats.Format.TheVariants.{Two};
ghost use Rattle.ctrl_model.specs.declared.kinds.Kind.TheVariants as kind;
ghost use Rattle.row_codec.specs.RowKeys.RowTable.{Next, Setting, Counts, Intercepts, Serial};
ghost use Rattle.row_codec.specs.FieldReading.{alone, front_number};
ghost use Rattle.row_reading.specs.RowReading.{Gives, front_entity, front_router_policy, record_read, count_read, table_read, table_seen, row_of};

use crate::intercepts::{intercept_at, intercept_of};
use crate::lists::{links_of, names_of, side_of};
use crate::lone_fields::{
    lone_count, lone_kind, lone_next, lone_number, lone_pair, lone_serial, lone_setting,
};
use crate::naming::{instance_named, named};
use crate::tables::{Table, row_table_of};
use crate::values::{
    circuit_at, entity_at, link_at, router_at, router_policy_at, service_policy_at, terminator_at,
};
use ctrl_model::{
    CircuitNo, Format, IdentityNo, Kind, LinkNo, Name, Names, PolicyNo, Relation, RouterNo,
    Semantic, ServiceNo, Side, TermNo,
};
use row_codec::{Row, RowFault, split_byte};
use std::alloc::Global;

// The name and the attributes of an identity or a service.
fn entity_of(alloc: Global, value: &[u8]) -> Result<(Name, Names), RowFault>
    ensures { Gives (λ x. (x.0, x.1)) result (alone front_entity value.now) }
{
    let Some((name, attributes)) = entity_at(value) else {
        return Err(RowFault::BadRow);
    };
    let name = named(alloc, name)?;
    let attributes = names_of(alloc, attributes)?;
    Ok((name, attributes))
}

// The name of a policy of a kind that has no relation, its semantic and its two sides.
fn router_policy_of(
    alloc: Global,
    value: &[u8],
) -> Result<(Name, (Semantic, (Side, Side))), RowFault>
    ensures { Gives (λ x. (x.0, x.1)) result (alone front_router_policy value.now) }
{
    let Some((name, (semantic, (left, right)))) = router_policy_at(value) else {
        return Err(RowFault::BadRow);
    };
    let name = named(alloc, name)?;
    let left = side_of(alloc, left)?;
    let right = side_of(alloc, right)?;
    Ok((name, (semantic, (left, right))))
}

fn identity_row(alloc: Global, no: u32, value: &[u8]) -> Result<Row, RowFault>
    ensures { (rest : List ℕ) → alone front_number rest ≡ Some no → Gives (λ r. r) result (record_read kind.Identity rest value.now) }
{
    let (name, attributes) = entity_of(alloc, value)?;
    Ok(Row::Identity {
        no: IdentityNo(no),
        name,
        attributes,
    })
}

fn service_row(alloc: Global, no: u32, value: &[u8]) -> Result<Row, RowFault>
    ensures { (rest : List ℕ) → alone front_number rest ≡ Some no → Gives (λ r. r) result (record_read kind.Service rest value.now) }
{
    let (name, attributes) = entity_of(alloc, value)?;
    Ok(Row::Service {
        no: ServiceNo(no),
        name,
        attributes,
    })
}

fn router_row(alloc: Global, no: u32, value: &[u8]) -> Result<Row, RowFault>
    ensures { (rest : List ℕ) → alone front_number rest ≡ Some no → Gives (λ r. r) result (record_read kind.Router rest value.now) }
{
    let Some((name, (attributes, (cost, (through, connected))))) = router_at(value) else {
        return Err(RowFault::BadRow);
    };
    let name = named(alloc, name)?;
    let attributes = names_of(alloc, attributes)?;
    Ok(Row::Router {
        no: RouterNo(no),
        name,
        attributes,
        cost,
        through,
        connected,
    })
}

fn link_row(alloc: Global, no: u32, value: &[u8]) -> Result<Row, RowFault>
    ensures { (rest : List ℕ) → alone front_number rest ≡ Some no → Gives (λ r. r) result (record_read kind.Link rest value.now) }
{
    let Some((name, (a, (b, (cost, (latency_a, (latency_b, up))))))) = link_at(value) else {
        return Err(RowFault::BadRow);
    };
    let name = named(alloc, name)?;
    Ok(Row::Link {
        no: LinkNo(no),
        name,
        a: RouterNo(a),
        b: RouterNo(b),
        cost,
        latency_a,
        latency_b,
        up,
    })
}

fn service_policy_row(alloc: Global, no: u32, value: &[u8]) -> Result<Row, RowFault>
    ensures { (rest : List ℕ) → alone front_number rest ≡ Some no → Gives (λ r. r) result (record_read kind.ServicePolicy rest value.now) }
{
    let Some((name, (relation, (semantic, (identities, services))))) = service_policy_at(value)
    else {
        return Err(RowFault::BadRow);
    };
    let name = named(alloc, name)?;
    let identities = side_of(alloc, identities)?;
    let services = side_of(alloc, services)?;
    Ok(Row::ServicePolicy {
        no: PolicyNo(no),
        name,
        relation,
        semantic,
        identities,
        services,
    })
}

fn edge_router_policy_row(alloc: Global, no: u32, value: &[u8]) -> Result<Row, RowFault>
    ensures { (rest : List ℕ) → alone front_number rest ≡ Some no → Gives (λ r. r) result (record_read kind.EdgeRouterPolicy rest value.now) }
{
    let (name, (semantic, (identities, routers))) = router_policy_of(alloc, value)?;
    Ok(Row::EdgeRouterPolicy {
        no: PolicyNo(no),
        name,
        semantic,
        identities,
        routers,
    })
}

fn service_edge_router_policy_row(alloc: Global, no: u32, value: &[u8]) -> Result<Row, RowFault>
    ensures { (rest : List ℕ) → alone front_number rest ≡ Some no → Gives (λ r. r) result (record_read kind.ServiceEdgeRouterPolicy rest value.now) }
{
    let (name, (semantic, (services, routers))) = router_policy_of(alloc, value)?;
    Ok(Row::ServiceEdgeRouterPolicy {
        no: PolicyNo(no),
        name,
        semantic,
        services,
        routers,
    })
}

fn terminator_row(alloc: Global, no: u32, value: &[u8]) -> Result<Row, RowFault>
    ensures { (rest : List ℕ) → alone front_number rest ≡ Some no → Gives (λ r. r) result (record_read kind.Terminator rest value.now) }
{
    let Some((service, (router, (host, (instance, (cost, precedence)))))) = terminator_at(value)
    else {
        return Err(RowFault::BadRow);
    };
    let instance = instance_named(alloc, instance)?;
    Ok(Row::Terminator {
        no: TermNo(no),
        service: ServiceNo(service),
        router: RouterNo(router),
        host,
        instance,
        cost,
        precedence,
    })
}

fn circuit_row(alloc: Global, no: u32, value: &[u8]) -> Result<Row, RowFault>
    ensures { (rest : List ℕ) → alone front_number rest ≡ Some no → Gives (λ r. r) result (record_read kind.Circuit rest value.now) }
{
    let Some((identity, (service, (terminator, (ingress, links))))) = circuit_at(value) else {
        return Err(RowFault::BadRow);
    };
    let links = links_of(alloc, links)?;
    Ok(Row::Circuit {
        no: CircuitNo(no),
        identity: IdentityNo(identity),
        service: ServiceNo(service),
        terminator: TermNo(terminator),
        ingress: RouterNo(ingress),
        links,
    })
}

fn record_row(alloc: Global, kind: Kind, rest: &[u8], value: &[u8]) -> Result<Row, RowFault>
    ensures { Gives (λ r. r) result (record_read kind rest.now value.now) }
{
    let Some(no) = lone_number(rest) else {
        return Err(RowFault::BadRow);
    };
    match kind {
        Kind::Identity => identity_row(alloc, no, value),
        Kind::Service => service_row(alloc, no, value),
        Kind::Router => router_row(alloc, no, value),
        Kind::Link => link_row(alloc, no, value),
        Kind::ServicePolicy => service_policy_row(alloc, no, value),
        Kind::EdgeRouterPolicy => edge_router_policy_row(alloc, no, value),
        Kind::ServiceEdgeRouterPolicy => service_edge_router_policy_row(alloc, no, value),
        Kind::Terminator => terminator_row(alloc, no, value),
        Kind::Circuit => circuit_row(alloc, no, value),
        Kind::Attribute => Err(RowFault::BadRow),
    }
}

fn count_row(format: Format, relation: Relation, rest: &[u8], value: &[u8]) -> Result<Row, RowFault>
    ensures { Gives (λ r. r) result (count_read format relation rest.now value.now) }
{
    let Some((first, second)) = lone_pair(rest) else {
        return Err(RowFault::BadRow);
    };
    let Some(count) = lone_count(format, value) else {
        return Err(RowFault::BadRow);
    };
    match relation {
        Relation::Dial => Ok(Row::Dial {
            identity: IdentityNo(first),
            service: ServiceNo(second),
            count,
        }),
        Relation::Bind => Ok(Row::Bind {
            identity: IdentityNo(first),
            service: ServiceNo(second),
            count,
        }),
        Relation::IdentityRouter => {
            Ok(Row::IdentityRouter {
                identity: IdentityNo(first),
                router: RouterNo(second),
                count,
            })
        }
        Relation::ServiceRouter => {
            Ok(Row::ServiceRouter {
                service: ServiceNo(first),
                router: RouterNo(second),
                count,
            })
        }
    }
}

fn next_row(rest: &[u8], value: &[u8]) -> Result<Row, RowFault>
    ensures { (f : Format) → Gives (λ r. r) result (table_read f Next rest.now value.now) }
{
    let Some(kind) = lone_kind(rest) else {
        return Err(RowFault::BadRow);
    };
    let Some(next) = lone_next(value) else {
        return Err(RowFault::BadRow);
    };
    Ok(Row::Next { kind, next })
}

fn setting_row(rest: &[u8], value: &[u8]) -> Result<Row, RowFault>
    ensures { (f : Format) → Gives (λ r. r) result (table_read f Setting rest.now value.now) }
{
    if !rest.is_empty() {
        return Err(RowFault::BadRow);
    }
    let Some(cost) = lone_setting(value) else {
        return Err(RowFault::BadRow);
    };
    Ok(Row::Setting { cost })
}

fn intercept_row(alloc: Global, rest: &[u8], value: &[u8]) -> Result<Row, RowFault>
    ensures { Gives (λ r. r) result (table_read Two Intercepts rest.now value.now) }
{
    let Some(service) = lone_number(rest) else {
        return Err(RowFault::BadRow);
    };
    let Some(parts) = intercept_at(value) else {
        return Err(RowFault::BadRow);
    };
    let intercept = intercept_of(alloc, parts)?;
    Ok(Row::Intercept {
        service: ServiceNo(service),
        intercept,
    })
}

fn serial_row(rest: &[u8], value: &[u8]) -> Result<Row, RowFault>
    ensures { Gives (λ r. r) result (table_read Two Serial rest.now value.now) }
{
    if !rest.is_empty() {
        return Err(RowFault::BadRow);
    }
    let Some(serial) = lone_serial(value) else {
        return Err(RowFault::BadRow);
    };
    Ok(Row::Serial { serial })
}

fn row_in(
    alloc: Global,
    format: Format,
    table: Table,
    rest: &[u8],
    value: &[u8],
) -> Result<Row, RowFault>
    ensures { Gives (λ r. r) result (table_read format (table_seen table) rest.now value.now) }
{
    match table {
        Table::Next => next_row(rest, value),
        Table::Setting => setting_row(rest, value),
        Table::Records(kind) => record_row(alloc, kind, rest, value),
        Table::Counts(relation) => count_row(format, relation, rest, value),
        Table::Intercepts => match format {
            Format::Two => intercept_row(alloc, rest, value),
            Format::One => Err(RowFault::BadRow),
        },
        Table::Serial => match format {
            Format::Two => serial_row(rest, value),
            Format::One => Err(RowFault::BadRow),
        },
    }
}

/// The row that a key and a value are read as in a format.
pub(crate) fn build_row(
    alloc: Global,
    format: Format,
    key: &[u8],
    value: &[u8],
) -> Result<Row, RowFault>
    ensures { Gives (λ r. r) result (row_of format key.now value.now) }
{
    let Some((number, rest)) = split_byte(key) else {
        return Err(RowFault::BadRow);
    };
    match row_table_of(number) {
        None => Err(RowFault::BadRow),
        Some(table) => row_in(alloc, format, table, rest, value),
    }
}
