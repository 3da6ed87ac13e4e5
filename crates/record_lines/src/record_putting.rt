ghost use Rattle.std.specs.Prelude.{◌≡◌, ◌++◌, not, OnOk, codes, decimal};
ghost use Rattle.std.specs.Option.{option_map};
ghost use Rattle.ctrl_model.specs.declared.kinds.Kind.TheVariants as kind;
ghost use Rattle.ctrl_model.specs.declared.kinds.Relation.TheVariants.{IdentityRouter};
ghost use Rattle.ctrl_model.specs.State.{State};
ghost use Rattle.row_codec.specs.RowForm.{policy_of};
ghost use Rattle.state_building.specs.BuiltStates.{state_in};
ghost use Rattle.command_bodies.specs.WrittenWords.{precedence_word as word_of_precedence, relation_word as word_of_relation, semantic_word as word_of_semantic};
ghost use Rattle.record_lines.specs.RecordLines.{entity_line, link_line, router_line, router_policy_line, service_policy_line, terminator_line};
ghost use Rattle.record_lines.specs.RecordNames.{name_of as named};
ghost use Rattle.record_lines.specs.RecordWords.{flag_word, keyed, keyed_if_any, side_words};
ghost use Rattle.record_lines.specs.RowTexts.{is_entity, is_policy, is_use, is_way, line_where, row_line};

use crate::circuit_putting::{put_circuit, put_named};
use crate::intercept_putting::put_intercept;
use crate::word_putting::{
    precedence_word, put_attributes, put_count, put_flag, put_head, put_keyed, put_number,
    put_side, relation_word, semantic_word,
};
use ctrl_model::{IdentityNo, Instance, Kind, Name, Names, Precedence, Relation, Semantic, Side};
use row_codec::Row;
use std::alloc::AllocError;

fn put_entity(
    text: &mut Vec<u8>,
    no: u32,
    name: &Name,
    attributes: &Names,
) -> Result<(), AllocError>
    ensures { OnOk result (text.new.items ≡ text.old.items ++ entity_line no (record { name = name.now; attributes = attributes.now })) }
{
    put_head(text, no, name)?;
    put_attributes(text, attributes.as_slice())?;
    text.extend_from_slice(b"\n")
}

// Puts what a path pays to enter a router, whether no path may pass through it, and whether it is connected.
fn put_router_fields(
    text: &mut Vec<u8>,
    cost: u32,
    through: bool,
    connected: bool,
) -> Result<(), AllocError>
    ensures { OnOk result (text.new.items ≡ text.old.items ++ (keyed (codes "cost") (decimal cost) ++ (keyed (codes "no_traversal") (flag_word (not through)) ++ keyed (codes "connected") (flag_word connected)))) }
{
    put_count(text, b"cost", cost)?;
    put_flag(text, b"no_traversal", !through)?;
    put_flag(text, b"connected", connected)
}

fn put_router(
    text: &mut Vec<u8>,
    no: u32,
    name: &Name,
    attributes: &Names,
    cost: u32,
    through: bool,
    connected: bool,
) -> Result<(), AllocError>
    ensures { OnOk result (text.new.items ≡ text.old.items ++ router_line no (record { name = name.now; attributes = attributes.now; cost = cost; through = through; connected = connected })) }
{
    put_head(text, no, name)?;
    put_router_fields(text, cost, through, connected)?;
    put_attributes(text, attributes.as_slice())?;
    text.extend_from_slice(b"\n")
}

// Puts what a link costs, and whether it is up.
fn put_costs(text: &mut Vec<u8>, costs: (u32, (u32, u32)), up: bool) -> Result<(), AllocError>
    ensures { OnOk result (text.new.items ≡ text.old.items ++ (keyed (codes "cost") (decimal costs.0) ++ (keyed (codes "latency_a") (decimal costs.1.0) ++ (keyed (codes "latency_b") (decimal costs.1.1) ++ (keyed (codes "up") (flag_word up) ++ codes "\n"))))) }
{
    put_count(text, b"cost", costs.0)?;
    put_count(text, b"latency_a", costs.1.0)?;
    put_count(text, b"latency_b", costs.1.1)?;
    put_flag(text, b"up", up)?;
    text.extend_from_slice(b"\n")
}

fn put_link(
    text: &mut Vec<u8>,
    rows: &[Row],
    no: u32,
    name: &Name,
    ends: (u32, u32),
    costs: (u32, (u32, u32)),
    up: bool,
) -> Result<(), AllocError>
    ensures { OnOk result (text.new.items ≡ text.old.items ++ link_line (state_in rows.now) no (record { name = name.now; a = ends.0; b = ends.1; cost = costs.0; latency_a = costs.1.0; latency_b = costs.1.1; up = up })) }
{
    put_head(text, no, name)?;
    put_named(text, rows, b"a", Kind::Router, ends.0)?;
    put_named(text, rows, b"b", Kind::Router, ends.1)?;
    put_costs(text, costs, up)
}

// Puts the two sides of a policy, and before them how they take attributes.
fn put_sides(
    text: &mut Vec<u8>,
    semantic: Semantic,
    left: &Side,
    right: &Side,
) -> Result<(), AllocError>
    ensures { OnOk result (text.new.items ≡ text.old.items ++ (keyed (codes "semantic") (word_of_semantic semantic) ++ (side_words left.now ++ (codes " ->" ++ (side_words right.now ++ codes "\n"))))) }
{
    put_keyed(text, b"semantic", semantic_word(semantic))?;
    put_side(text, left)?;
    text.extend_from_slice(b" ->")?;
    put_side(text, right)?;
    text.extend_from_slice(b"\n")
}

fn put_service_policy(
    text: &mut Vec<u8>,
    no: u32,
    name: &Name,
    relation: Relation,
    semantic: Semantic,
    identities: &Side,
    services: &Side,
) -> Result<(), AllocError>
    ensures { OnOk result (text.new.items ≡ text.old.items ++ service_policy_line no (policy_of name.now relation semantic identities.now services.now)) }
{
    put_head(text, no, name)?;
    put_keyed(text, b"type", relation_word(relation))?;
    put_sides(text, semantic, identities, services)
}

fn put_router_policy(
    text: &mut Vec<u8>,
    no: u32,
    name: &Name,
    semantic: Semantic,
    left: &Side,
    routers: &Side,
) -> Result<(), AllocError>
    ensures { OnOk result (text.new.items ≡ text.old.items ++ router_policy_line no (policy_of name.now IdentityRouter semantic left.now routers.now)) }
{
    put_head(text, no, name)?;
    put_sides(text, semantic, left, routers)
}

// Puts the name of a host as a field, if there is one.
fn put_host(text: &mut Vec<u8>, rows: &[Row], host: Option<IdentityNo>) -> Result<(), AllocError>
    ensures { OnOk result (text.new.items ≡ text.old.items ++ keyed_if_any (codes "host") (option_map (named kind.Identity (state_in rows.now)) (option_map (λ h. h.0) host))) }
{
    match host {
        Some(no) => put_named(text, rows, b"host", Kind::Identity, no.0),
        None => Ok(()),
    }
}

// Puts where a terminator stands.
fn put_place(text: &mut Vec<u8>, rows: &[Row], ends: (u32, u32)) -> Result<(), AllocError>
    ensures { OnOk result (text.new.items ≡ text.old.items ++ (keyed (codes "service") (named kind.Service (state_in rows.now) ends.0) ++ keyed (codes "router") (named kind.Router (state_in rows.now) ends.1))) }
{
    put_named(text, rows, b"service", Kind::Service, ends.0)?;
    put_named(text, rows, b"router", Kind::Router, ends.1)
}

fn put_instance(text: &mut Vec<u8>, instance: &Instance) -> Result<(), AllocError>
    ensures { OnOk result (text.new.items ≡ text.old.items ++ keyed (codes "instance") instance.now) }
{
    put_keyed(text, b"instance", instance.bytes())
}

fn put_precedence(text: &mut Vec<u8>, precedence: Precedence) -> Result<(), AllocError>
    ensures { OnOk result (text.new.items ≡ text.old.items ++ keyed (codes "precedence") (word_of_precedence precedence)) }
{
    put_keyed(text, b"precedence", precedence_word(precedence))
}

// Puts what a terminator offers.
fn put_offer(
    text: &mut Vec<u8>,
    instance: &Instance,
    cost: u32,
    precedence: Precedence,
) -> Result<(), AllocError>
    ensures { OnOk result (text.new.items ≡ text.old.items ++ (keyed (codes "instance") instance.now ++ (keyed (codes "cost") (decimal cost) ++ keyed (codes "precedence") (word_of_precedence precedence)))) }
{
    put_instance(text, instance)?;
    put_count(text, b"cost", cost)?;
    put_precedence(text, precedence)
}

fn put_terminator(
    text: &mut Vec<u8>,
    rows: &[Row],
    no: u32,
    ends: (u32, u32),
    host: Option<IdentityNo>,
    instance: &Instance,
    cost: u32,
    precedence: Precedence,
) -> Result<(), AllocError>
    ensures { OnOk result (text.new.items ≡ text.old.items ++ terminator_line (state_in rows.now) no (record { service = ends.0; router = ends.1; instance = instance.now; host = option_map (λ h. h.0) host; cost = cost; precedence = precedence })) }
{
    put_number(text, no)?;
    put_place(text, rows, ends)?;
    put_offer(text, instance, cost, precedence)?;
    put_host(text, rows, host)?;
    text.extend_from_slice(b"\n")
}

// Puts the line of a row that is an identity, a service or a router.
fn put_entity_row(text: &mut Vec<u8>, row: &Row) -> Result<(), AllocError>
    ensures { (s : State) → OnOk result (text.new.items ≡ text.old.items ++ line_where is_entity s row.now) }
{
    match row {
        Row::Identity {
            no,
            name,
            attributes,
        } => put_entity(text, no.0, name, attributes),
        Row::Service {
            no,
            name,
            attributes,
        } => put_entity(text, no.0, name, attributes),
        Row::Router {
            no,
            name,
            attributes,
            cost,
            through,
            connected,
        } => put_router(text, no.0, name, attributes, *cost, *through, *connected),
        _ => Ok(()),
    }
}

// Puts the line of a row that is a policy.
fn put_policy_row(text: &mut Vec<u8>, row: &Row) -> Result<(), AllocError>
    ensures { (s : State) → OnOk result (text.new.items ≡ text.old.items ++ line_where is_policy s row.now) }
{
    match row {
        Row::ServicePolicy {
            no,
            name,
            relation,
            semantic,
            identities,
            services,
        } => put_service_policy(text, no.0, name, *relation, *semantic, identities, services),
        Row::EdgeRouterPolicy {
            no,
            name,
            semantic,
            identities,
            routers,
        } => put_router_policy(text, no.0, name, *semantic, identities, routers),
        Row::ServiceEdgeRouterPolicy {
            no,
            name,
            semantic,
            services,
            routers,
        } => put_router_policy(text, no.0, name, *semantic, services, routers),
        _ => Ok(()),
    }
}

// Puts the line of a row that is a link or a terminator.
fn put_way_row(text: &mut Vec<u8>, rows: &[Row], row: &Row) -> Result<(), AllocError>
    ensures { OnOk result (text.new.items ≡ text.old.items ++ line_where is_way (state_in rows.now) row.now) }
{
    match row {
        Row::Link {
            no,
            name,
            a,
            b,
            cost,
            latency_a,
            latency_b,
            up,
        } => {
            let costs = (*cost, (*latency_a, *latency_b));
            put_link(text, rows, no.0, name, (a.0, b.0), costs, *up)
        }
        Row::Terminator {
            no,
            service,
            router,
            host,
            instance,
            cost,
            precedence,
        } => {
            let ends = (service.0, router.0);
            put_terminator(text, rows, no.0, ends, *host, instance, *cost, *precedence)
        }
        _ => Ok(()),
    }
}

// Puts the line of a row that is a circuit or an intercept.
fn put_use_row(text: &mut Vec<u8>, rows: &[Row], row: &Row) -> Result<(), AllocError>
    ensures { OnOk result (text.new.items ≡ text.old.items ++ line_where is_use (state_in rows.now) row.now) }
{
    match row {
        Row::Circuit {
            no,
            identity,
            service,
            terminator,
            ingress,
            links,
        } => {
            let user = (identity.0, service.0);
            put_circuit(text, rows, no.0, user, terminator.0, ingress.0, links)
        }
        Row::Intercept { service, intercept } => put_intercept(text, rows, service.0, intercept),
        _ => Ok(()),
    }
}

/// Puts the line of the record or of the intercept that a row is behind a text, in the state that rows give; nothing where it is
/// neither (docs/FORMATS.md, "Lines of records"). An `Err` is want of memory.
#[tactic(auto, using(crate::proofs::RowRecords::line_by_family))]
pub fn put_row(text: &mut Vec<u8>, rows: &[Row], row: &Row) -> Result<(), AllocError>
    ensures { OnOk result (text.new.items ≡ text.old.items ++ row_line (state_in rows.now) row.now) }
{
    put_entity_row(text, row)?;
    put_policy_row(text, row)?;
    put_way_row(text, rows, row)?;
    put_use_row(text, rows, row)
}
