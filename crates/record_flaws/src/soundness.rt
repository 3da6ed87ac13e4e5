ghost use Rattle.std.specs.Prelude.{◌≡◌, ◌==◌, ◌+◌, ◌||◌, ◌&&◌, true, not, nat_le, length};
ghost use Rattle.ctrl_model.specs.declared.formats.Format.{Format};
ghost use Rattle.ctrl_model.specs.ValueForms.{are_attributes, is_distinct, is_stored_side, is_cost, is_link_cost, is_latency};
ghost use Rattle.ctrl_model.specs.Matches.{has_name, is_nothing};
ghost use Rattle.row_codec.specs.RowForm.{is_row, are_listed, is_listed_side};
ghost use Rattle.record_flaws.specs.SoundRows as sound;

use ctrl_model::{MOST_COST, MOST_ENTRIES, MOST_LATENCY, Name, Names, RouterNo, Side};
use row_codec::Row;

// Whether a name stands among some.
fn has_name(names: &[Name], name: &Name) -> bool
    ensures { result ≡ has_name names.now name.now }
{
    names.iter().any(|kept| kept.bytes() == name.bytes())
}

// Whether no name stands twice among some.
fn are_distinct(names: &[Name]) -> bool
    ensures { result ≡ is_distinct names.now }
{
    let mut rest = names;
    'names: while let Some((name, others)) = rest.split_first() {
        if has_name(others, name) {
            return false;
        }
        rest = others;
    }
    true
}

// Whether the attributes of a row have no repeats.
fn are_sound_attributes(attributes: &Names) -> bool
    requires { are_listed attributes.now ≡ true }
    ensures { result ≡ are_attributes attributes.now }
{
    are_distinct(attributes.as_slice())
}

// Whether a number is a cost of a router or a terminator.
fn is_sound_cost(cost: u32) -> bool
    ensures { result ≡ is_cost cost }
{
    cost <= MOST_COST
}

// Whether a number is a cost of a link.
fn is_sound_link_cost(cost: u32) -> bool
    ensures { result ≡ is_link_cost cost }
{
    1 <= cost && cost <= MOST_COST
}

// Whether a number is a latency of one end of a link.
fn is_sound_latency(latency: u32) -> bool
    ensures { result ≡ is_latency latency }
{
    latency <= MOST_LATENCY
}

// Whether a link has two different routers, and costs in their ranges.
fn is_sound_link(a: RouterNo, b: RouterNo, cost: u32, latency_a: u32, latency_b: u32) -> bool
    ensures { result ≡ (not (a.0 == b.0) && (is_link_cost cost && (is_latency latency_a && is_latency latency_b))) }
{
    a.0 != b.0
        && is_sound_link_cost(cost)
        && is_sound_latency(latency_a)
        && is_sound_latency(latency_b)
}

// Whether a side that is `#all` has no entries.
fn is_alone(side: &Side) -> bool
    ensures { result ≡ (not side.now.all || (is_nothing side.now.ids && is_nothing side.now.attributes)) }
{
    !side.all || (side.ids.is_empty() && side.attributes.is_empty())
}

// Whether both lists of a side together keep the limit.
fn are_few(side: &Side) -> bool
    requires { is_listed_side side.now ≡ true }
    ensures { result ≡ nat_le (length side.now.ids + length side.now.attributes) 64 }
{
    side.ids.len() + side.attributes.len() <= MOST_ENTRIES
}

// Whether a side may be stored: `#all` stands alone, and its two lists have no repeats and together keep the limit.
fn is_sound_side(side: &Side) -> bool
    requires { is_listed_side side.now ≡ true }
    ensures { result ≡ is_stored_side side.now }
{
    is_alone(side)
        && are_few(side)
        && are_distinct(side.ids.as_slice())
        && are_distinct(side.attributes.as_slice())
}

// Whether both sides of a policy may be stored.
fn are_sound_sides(left: &Side, right: &Side) -> bool
    requires { (is_listed_side left.now && is_listed_side right.now) ≡ true }
    ensures { result ≡ (is_stored_side left.now && is_stored_side right.now) }
{
    is_sound_side(left) && is_sound_side(right)
}

/// Whether the record of a row of a format is valid as far as that can be told of it alone: its numbers are in their ranges, its lists have no repeats
/// and keep their limits, and a side that is `#all` has none. Other rows have no record, and are.
pub fn is_sound_row(row: &Row) -> bool
    requires { (f : Format) × (is_row f row.now ≡ true) }
    ensures { result ≡ sound.is_sound_row row.now }
{
    match row {
        Row::Identity { attributes, .. } => are_sound_attributes(attributes),
        Row::Service { attributes, .. } => are_sound_attributes(attributes),
        Row::Router {
            attributes,
            cost,
            ..
        } => are_sound_attributes(attributes) && is_sound_cost(*cost),
        Row::Link {
            a,
            b,
            cost,
            latency_a,
            latency_b,
            ..
        } => is_sound_link(*a, *b, *cost, *latency_a, *latency_b),
        Row::ServicePolicy {
            identities,
            services,
            ..
        } => are_sound_sides(identities, services),
        Row::EdgeRouterPolicy {
            identities,
            routers,
            ..
        } => are_sound_sides(identities, routers),
        Row::ServiceEdgeRouterPolicy {
            services,
            routers,
            ..
        } => are_sound_sides(services, routers),
        Row::Terminator { cost, .. } => is_sound_cost(*cost),
        _ => true,
    }
}
