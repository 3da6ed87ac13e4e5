ghost use Rattle.std.specs.Prelude.{◌≡◌, ◌∷◌, ◌++◌, [], ◌&&◌, ◌≤◌, ◌<◌, true, nat_le, OnOk, length, map};
ghost use Rattle.std.specs.List.{flat_map};
ghost use Rattle.std.specs.Option.{option_map};
ghost use Rattle.ctrl_model.specs.declared.formats.Format.TheVariants.{Two};
ghost use Rattle.row_codec.specs.RowForm.{is_row, is_short, are_listed, is_listed_side, value_of};
ghost use Rattle.row_codec.specs.RowValues.{long, short, text, texts, flag, side_bytes, relation_byte, semantic_byte, precedence_byte, router_marks, host_number};
ghost use Rattle.row_writing.specs.TableValues.{value_between};

use crate::intercepts::push_intercept;
use crate::writing::{push_longs, push_name, push_names, push_short, push_side};
use ctrl_model::{
    Format, IdentityNo, Instance, Name, Names, Numbers, Precedence, Relation, RouterNo, Semantic,
    Side,
};
use row_codec::{Row, push_count, push_long, push_text, push_wide};
use std::alloc::AllocError;

fn relation_byte(relation: Relation) -> u8
    ensures { result ≡ relation_byte relation }
{
    match relation {
        Relation::Dial => 1,
        Relation::Bind => 2,
        Relation::IdentityRouter | Relation::ServiceRouter => 0,
    }
}

fn semantic_byte(semantic: Semantic) -> u8
    ensures { result ≡ semantic_byte semantic }
{
    match semantic {
        Semantic::AnyOf => 1,
        Semantic::AllOf => 2,
    }
}

fn precedence_byte(precedence: Precedence) -> u8
    ensures { result ≡ precedence_byte precedence }
{
    match precedence {
        Precedence::Required => 1,
        Precedence::Normal => 2,
        Precedence::Failed => 3,
    }
}

fn router_marks(through: bool, connected: bool) -> u8
    ensures { result ≡ router_marks through connected }
{
    let marks = if through { 0 } else { 1 };
    if connected { marks + 2 } else { marks }
}

fn host_number(host: Option<IdentityNo>) -> u32
    ensures { result ≡ host_number (option_map (λ h. h.0) host) }
{
    match host {
        None => 0,
        Some(no) => no.0,
    }
}

fn push_entity(out: &mut Vec<u8>, name: &Name, attributes: &Names) -> Result<(), AllocError>
    requires { are_listed attributes.now ≡ true }
    ensures { OnOk result (out.new.items ≡ out.old.items ++ (text name.now ++ texts attributes.now)) }
{
    push_name(out, name)?;
    push_names(out, attributes.as_slice())
}

fn push_router(
    out: &mut Vec<u8>,
    name: &Name,
    attributes: &Names,
    cost: u32,
    marks: (bool, bool),
) -> Result<(), AllocError>
    requires attributes { are_listed attributes.now ≡ true }
    requires cost { is_short cost ≡ true }
    ensures { OnOk result (out.new.items ≡ out.old.items ++ (text name.now ++ (texts attributes.now ++ (short cost ++ router_marks marks.0 marks.1 ∷ [])))) }
{
    push_name(out, name)?;
    push_names(out, attributes.as_slice())?;
    push_short(out, cost)?;
    Ok(out.push(router_marks(marks.0, marks.1))?)
}

fn push_costs(
    out: &mut Vec<u8>,
    cost: u32,
    latencies: (u32, u32),
    up: bool,
) -> Result<(), AllocError>
    requires cost { is_short cost ≡ true }
    requires first { is_short latencies.0 ≡ true }
    requires second { is_short latencies.1 ≡ true }
    ensures { OnOk result (out.new.items ≡ out.old.items ++ (short cost ++ (short latencies.0 ++ (short latencies.1 ++ flag up ∷ [])))) }
{
    push_short(out, cost)?;
    push_short(out, latencies.0)?;
    push_short(out, latencies.1)?;
    Ok(out.push(u8::from(up))?)
}

fn push_link(
    out: &mut Vec<u8>,
    name: &Name,
    ends: (RouterNo, RouterNo),
    cost: u32,
    latencies: (u32, u32),
    up: bool,
) -> Result<(), AllocError>
    requires cost { is_short cost ≡ true }
    requires first { is_short latencies.0 ≡ true }
    requires second { is_short latencies.1 ≡ true }
    ensures { OnOk result (out.new.items ≡ out.old.items
        ++ (text name.now ++ (long ends.0.0 ++ (long ends.1.0 ++ (short cost ++ (short latencies.0 ++ (short latencies.1 ++ flag up ∷ []))))))) }
{
    push_name(out, name)?;
    push_longs(out, &[ends.0.0, ends.1.0])?;
    push_costs(out, cost, latencies, up)
}

fn push_sides(
    out: &mut Vec<u8>,
    semantic: Semantic,
    left: &Side,
    right: &Side,
) -> Result<(), AllocError>
    requires left { is_listed_side left.now ≡ true }
    requires right { is_listed_side right.now ≡ true }
    ensures { OnOk result (out.new.items ≡ out.old.items ++ semantic_byte semantic ∷ (side_bytes left.now ++ side_bytes right.now)) }
{
    out.push(semantic_byte(semantic))?;
    push_side(out, left)?;
    push_side(out, right)
}

fn push_service_policy(
    out: &mut Vec<u8>,
    name: &Name,
    relation: Relation,
    semantic: Semantic,
    left: &Side,
    right: &Side,
) -> Result<(), AllocError>
    requires left { is_listed_side left.now ≡ true }
    requires right { is_listed_side right.now ≡ true }
    ensures { OnOk result (out.new.items ≡ out.old.items
        ++ (text name.now ++ relation_byte relation ∷ semantic_byte semantic ∷ (side_bytes left.now ++ side_bytes right.now))) }
{
    push_name(out, name)?;
    out.push(relation_byte(relation))?;
    push_sides(out, semantic, left, right)
}

fn push_router_policy(
    out: &mut Vec<u8>,
    name: &Name,
    semantic: Semantic,
    left: &Side,
    right: &Side,
) -> Result<(), AllocError>
    requires left { is_listed_side left.now ≡ true }
    requires right { is_listed_side right.now ≡ true }
    ensures { OnOk result (out.new.items ≡ out.old.items ++ (text name.now ++ semantic_byte semantic ∷ (side_bytes left.now ++ side_bytes right.now))) }
{
    push_name(out, name)?;
    push_sides(out, semantic, left, right)
}

fn push_place(
    out: &mut Vec<u8>,
    instance: &Instance,
    cost: u32,
    precedence: Precedence,
) -> Result<(), AllocError>
    requires { is_short cost ≡ true }
    ensures { OnOk result (out.new.items ≡ out.old.items ++ (text instance.now ++ (short cost ++ precedence_byte precedence ∷ []))) }
{
    push_text(out, instance.bytes())?;
    push_short(out, cost)?;
    Ok(out.push(precedence_byte(precedence))?)
}

fn push_circuit(out: &mut Vec<u8>, numbers: [u32; 4], links: &Numbers) -> Result<(), AllocError>
    requires { length links.now ≤ 255 }
    ensures { OnOk result (out.new.items ≡ out.old.items ++ (flat_map long numbers ++ length links.now ∷ flat_map long links.now)) }
{
    push_longs(out, &numbers)?;
    out.push(links.len() as u8)?;
    push_longs(out, links.as_slice())
}

// Writes the value of a row of a policy, and nothing of another row.
fn push_policy(out: &mut Vec<u8>, row: &Row) -> Result<(), AllocError>
    requires { is_row Two row.now ≡ true }
    ensures { OnOk result (out.new.items ≡ out.old.items ++ value_between 7 10 row.now) }
{
    match row {
        Row::ServicePolicy {
            name,
            relation,
            semantic,
            identities,
            services,
            ..
        } => { push_service_policy(out, name, *relation, *semantic, identities, services) }
        Row::EdgeRouterPolicy {
            name,
            semantic,
            identities,
            routers,
            ..
        } => { push_router_policy(out, name, *semantic, identities, routers) }
        Row::ServiceEdgeRouterPolicy {
            name,
            semantic,
            services,
            routers,
            ..
        } => { push_router_policy(out, name, *semantic, services, routers) }
        _ => Ok(()),
    }
}

// Writes the value of a row of what joins entities, a link, a policy, a terminator or a circuit, and nothing of another row.
fn push_joining(out: &mut Vec<u8>, row: &Row) -> Result<(), AllocError>
    requires { is_row Two row.now ≡ true }
    ensures { OnOk result (out.new.items ≡ out.old.items ++ value_between 6 12 row.now) }
{
    match row {
        Row::Link {
            name,
            a,
            b,
            cost,
            latency_a,
            latency_b,
            up,
            ..
        } => { push_link(out, name, (*a, *b), *cost, (*latency_a, *latency_b), *up) }
        Row::Terminator {
            service,
            router,
            host,
            instance,
            cost,
            precedence,
            ..
        } => {
            push_longs(out, &[service.0, router.0, host_number(*host)])?;
            push_place(out, instance, *cost, *precedence)
        }
        Row::Circuit {
            identity,
            service,
            terminator,
            ingress,
            links,
            ..
        } => { push_circuit(out, [identity.0, service.0, terminator.0, ingress.0], links) }
        _ => push_policy(out, row),
    }
}

/// Writes the value of a row of a format.
pub(crate) fn push_value(out: &mut Vec<u8>, format: Format, row: &Row) -> Result<(), AllocError>
    requires { is_row format row.now ≡ true }
    ensures { OnOk result (out.new.items ≡ out.old.items ++ value_of format row.now) }
{
    match row {
        Row::Next { next, .. } => push_long(out, *next),
        Row::Setting { cost } => push_long(out, *cost),
        Row::Identity {
            name,
            attributes,
            ..
        } => push_entity(out, name, attributes),
        Row::Service {
            name,
            attributes,
            ..
        } => push_entity(out, name, attributes),
        Row::Router {
            name,
            attributes,
            cost,
            through,
            connected,
            ..
        } => { push_router(out, name, attributes, *cost, (*through, *connected)) }
        Row::Dial { count, .. } => push_count(out, format, *count),
        Row::Bind { count, .. } => push_count(out, format, *count),
        Row::IdentityRouter { count, .. } => push_count(out, format, *count),
        Row::ServiceRouter { count, .. } => push_count(out, format, *count),
        Row::Intercept { intercept, .. } => push_intercept(out, intercept),
        Row::Serial { serial } => push_wide(out, *serial),
        _ => push_joining(out, row),
    }
}
