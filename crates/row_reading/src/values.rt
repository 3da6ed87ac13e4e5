ghost use Rattle.std.specs.Prelude.{◌≡◌};
ghost use Rattle.std.specs.Option.{option_map};
ghost use Rattle.row_codec.specs.FieldReading.{alone, both, front_code, front_short, front_long, marks_meant, side_of};
ghost use Rattle.row_reading.specs.RowReading.{host_named, names_of, links_of, front_entity, front_router, front_costs, front_link, front_sides, front_service_policy, front_router_policy, front_place, front_terminator, front_circuit};

use crate::lists::{SideAt, split_links, split_names, split_side};
use ctrl_model::{IdentityNo, Precedence, Relation, Semantic};
use row_codec::{
    split_flag, split_instance, split_long, split_marks, split_name, split_precedence,
    split_relation, split_semantic, split_short,
};

/// The name and the attributes of an identity or a service. Here and below a list is the bytes that it begins.
pub(crate) fn entity_at(value: &[u8]) -> Option<(&[u8], &[u8])>
    ensures { option_map (λ x. (x.0.now, names_of x.1.now)) result ≡ alone front_entity value.now }
{
    let (name, rest) = split_name(value)?;
    let Some((attributes, [])) = split_names(rest) else {
        return None;
    };
    Some((name, attributes))
}

fn router_end(bytes: &[u8]) -> Option<((u32, (bool, bool)), &[u8])>
    ensures { option_map (λ x. (x.0, x.1.now)) result ≡ both front_short (front_code marks_meant) bytes.now }
{
    let (cost, rest) = split_short(bytes)?;
    let (marks, rest) = split_marks(rest)?;
    Some(((cost, marks), rest))
}

/// The name, the attributes, the cost and the marks of a router.
pub(crate) fn router_at(value: &[u8]) -> Option<(&[u8], (&[u8], (u32, (bool, bool))))>
    ensures { option_map (λ x. (x.0.now, (names_of x.1.0.now, x.1.1))) result ≡ alone front_router value.now }
{
    let (name, rest) = split_name(value)?;
    let (attributes, rest) = split_names(rest)?;
    let (numbers, end) = router_end(rest)?;
    match end {
        [] => Some((name, (attributes, numbers))),
        _ => None,
    }
}

fn costs_at(bytes: &[u8]) -> Option<((u32, (u32, (u32, bool))), &[u8])>
    ensures { option_map (λ x. (x.0, x.1.now)) result ≡ front_costs bytes.now }
{
    let (cost, rest) = split_short(bytes)?;
    let (first, rest) = split_short(rest)?;
    let (second, rest) = split_short(rest)?;
    let (up, rest) = split_flag(rest)?;
    Some(((cost, (first, (second, up))), rest))
}

fn link_end(bytes: &[u8]) -> Option<((u32, (u32, (u32, (u32, (u32, bool))))), &[u8])>
    ensures { option_map (λ x. (x.0, x.1.now)) result ≡ both front_long (both front_long front_costs) bytes.now }
{
    let (a, rest) = split_long(bytes)?;
    let (b, rest) = split_long(rest)?;
    let (costs, rest) = costs_at(rest)?;
    Some(((a, (b, costs)), rest))
}

/// The name of a link, its two routers, its cost, the latencies of its two ends, and whether it is up.
pub(crate) fn link_at(value: &[u8]) -> Option<(&[u8], (u32, (u32, (u32, (u32, (u32, bool))))))>
    ensures { option_map (λ x. (x.0.now, x.1)) result ≡ alone front_link value.now }
{
    let (name, rest) = split_name(value)?;
    let (numbers, end) = link_end(rest)?;
    match end {
        [] => Some((name, numbers)),
        _ => None,
    }
}

fn sides_at(bytes: &[u8]) -> Option<((Semantic, (SideAt<'_>, SideAt<'_>)), &[u8])>
    ensures { option_map (λ x. ((x.0.0, (side_of (x.0.1.0.0, (names_of x.0.1.0.1.0.now, names_of x.0.1.0.1.1.now)), side_of (x.0.1.1.0, (names_of x.0.1.1.1.0.now, names_of x.0.1.1.1.1.now)))), x.1.now)) result
        ≡ front_sides bytes.now }
{
    let (semantic, rest) = split_semantic(bytes)?;
    let (left, rest) = split_side(rest)?;
    let (right, rest) = split_side(rest)?;
    Some(((semantic, (left, right)), rest))
}

/// The name of a service policy, its relation, its semantic and its two sides.
pub(crate) fn service_policy_at(
    value: &[u8],
) -> Option<(&[u8], (Relation, (Semantic, (SideAt<'_>, SideAt<'_>))))>
    ensures { option_map (λ x. (x.0.now, (x.1.0, (x.1.1.0, (side_of (x.1.1.1.0.0, (names_of x.1.1.1.0.1.0.now, names_of x.1.1.1.0.1.1.now)), side_of (x.1.1.1.1.0, (names_of x.1.1.1.1.1.0.now, names_of x.1.1.1.1.1.1.now))))))) result
        ≡ alone front_service_policy value.now }
{
    let (name, rest) = split_name(value)?;
    let (relation, rest) = split_relation(rest)?;
    let (sides, end) = sides_at(rest)?;
    match end {
        [] => Some((name, (relation, sides))),
        _ => None,
    }
}

/// The name of a policy of another kind, its semantic and its two sides.
pub(crate) fn router_policy_at(
    value: &[u8],
) -> Option<(&[u8], (Semantic, (SideAt<'_>, SideAt<'_>)))>
    ensures { option_map (λ x. (x.0.now, (x.1.0, (side_of (x.1.1.0.0, (names_of x.1.1.0.1.0.now, names_of x.1.1.0.1.1.now)), side_of (x.1.1.1.0, (names_of x.1.1.1.1.0.now, names_of x.1.1.1.1.1.now)))))) result
        ≡ alone front_router_policy value.now }
{
    let (name, rest) = split_name(value)?;
    let Some((sides, [])) = sides_at(rest) else {
        return None;
    };
    Some((name, sides))
}

fn place_at(bytes: &[u8]) -> Option<((&[u8], (u32, Precedence)), &[u8])>
    ensures { option_map (λ x. ((x.0.0.now, x.0.1), x.1.now)) result ≡ front_place bytes.now }
{
    let (instance, rest) = split_instance(bytes)?;
    let (cost, rest) = split_short(rest)?;
    let (precedence, rest) = split_precedence(rest)?;
    Some(((instance, (cost, precedence)), rest))
}

fn host_named(number: u32) -> Option<IdentityNo>
    ensures { option_map (λ h. h.0) result ≡ host_named number }
{
    if number == 0 {
        None
    } else {
        Some(IdentityNo(number))
    }
}

/// The service of a terminator, its router, its host, its instance, its cost and its precedence.
pub(crate) fn terminator_at(
    value: &[u8],
) -> Option<(u32, (u32, (Option<IdentityNo>, (&[u8], (u32, Precedence)))))>
    ensures { option_map (λ x. (x.0, (x.1.0, (option_map (λ h. h.0) x.1.1.0, (x.1.1.1.0.now, x.1.1.1.1))))) result ≡ alone front_terminator value.now }
{
    let (service, rest) = split_long(value)?;
    let (router, rest) = split_long(rest)?;
    let (host, rest) = split_long(rest)?;
    let (place, end) = place_at(rest)?;
    match end {
        [] => Some((service, (router, (host_named(host), place)))),
        _ => None,
    }
}

/// The identity of a circuit, its service, its terminator, its ingress and its links.
pub(crate) fn circuit_at(value: &[u8]) -> Option<(u32, (u32, (u32, (u32, &[u8]))))>
    ensures { option_map (λ x. (x.0, (x.1.0, (x.1.1.0, (x.1.1.1.0, links_of x.1.1.1.1.now))))) result ≡ alone front_circuit value.now }
{
    let (identity, rest) = split_long(value)?;
    let (service, rest) = split_long(rest)?;
    let (terminator, rest) = split_long(rest)?;
    let (ingress, rest) = split_long(rest)?;
    let (links, end) = split_links(rest)?;
    match end {
        [] => Some((identity, (service, (terminator, (ingress, links))))),
        _ => None,
    }
}
