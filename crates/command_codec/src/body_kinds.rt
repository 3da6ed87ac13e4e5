ghost use Rattle.std.specs.Prelude.{◌≡◌, is_some};
ghost use Rattle.serde_json.specs.View.{view};
ghost use Rattle.command_codec.specs.BodyKinds.{is_of_kind};
ghost use Rattle.command_codec.specs.NameLists.{as_attributes};

use crate::role_lists::is_side;
use body_fields::{
    FieldKind, ItemName, Potential, RecordNumber, are_addresses, are_ranges, is_destination,
    is_instance, is_list_of, precedence_in, protocol_in, protocols_in, relation_in, semantic_in,
};
use ctrl_model::{
    LONGEST_PATH, MOST_COST, MOST_ENTRIES, MOST_LATENCY, MOST_PORT, MOST_ROUTERS, Name, Reach,
    ValueKind,
};
use json_body::{as_number_in, is_name};
use serde_json::Value;

/// The kind of the values of a field of a body.
#[derive(Clone, Copy)]
pub struct BodyKind(pub ValueKind);

impl BodyKind {
    pub(crate) const NAME: BodyKind = BodyKind(ValueKind::Name);

    pub(crate) const NAME_OR_NONE: BodyKind = BodyKind(ValueKind::NameOrNone);

    pub(crate) const ATTRIBUTES: BodyKind = BodyKind(ValueKind::Attributes);

    pub(crate) const SIDE: BodyKind = BodyKind(ValueKind::Side);

    pub(crate) const FLAG: BodyKind = BodyKind(ValueKind::Flag);

    pub(crate) const RELATION: BodyKind = BodyKind(ValueKind::Relation);

    pub(crate) const SEMANTIC: BodyKind = BodyKind(ValueKind::Semantic);

    pub(crate) const PRECEDENCE: BodyKind = BodyKind(ValueKind::Precedence);

    pub(crate) const INSTANCE: BodyKind = BodyKind(ValueKind::Instance);

    pub(crate) const POTENTIALS: BodyKind = BodyKind(ValueKind::Potentials);

    pub(crate) const PROTOCOL: BodyKind = BodyKind(ValueKind::Protocol);

    pub(crate) const PROTOCOLS: BodyKind = BodyKind(ValueKind::Protocols);

    pub(crate) const DESTINATION: BodyKind = BodyKind(ValueKind::Destination);

    pub(crate) const ADDRESSES: BodyKind = BodyKind(ValueKind::Addresses);

    pub(crate) const RANGES: BodyKind = BodyKind(ValueKind::Ranges);

    // A whole number from one to another, both included.
    pub(crate) const COST: BodyKind = BodyKind(ValueKind::Number(0, MOST_COST));

    pub(crate) const LINK_COST: BodyKind = BodyKind(ValueKind::Number(1, MOST_COST));

    pub(crate) const LATENCY: BodyKind = BodyKind(ValueKind::Number(0, MOST_LATENCY));

    pub(crate) const TOTAL: BodyKind = BodyKind(ValueKind::Number(0, u32::MAX));

    pub(crate) const NUMBER_OF_RECORD: BodyKind = BodyKind(ValueKind::Number(1, u32::MAX));

    pub(crate) const PORT: BodyKind = BodyKind(ValueKind::Number(1, MOST_PORT));

    // The numbers of the links of a path, and of routers.
    pub(crate) const PATH: BodyKind = BodyKind(ValueKind::Numbers(LONGEST_PATH));

    pub(crate) const ROUTERS: BodyKind = BodyKind(ValueKind::Numbers(MOST_ROUTERS));
}

fn are_attributes(value: &Value) -> bool
    ensures { result ≡ is_some (as_attributes (view value.now)) }
{
    is_list_of::<Name, ItemName>(value, MOST_ENTRIES)
}

// Whether a value is of a kind.
fn is_of_kind(kind: &ValueKind, value: &Value) -> bool
    ensures { result ≡ is_of_kind kind.now (view value.now) }
{
    match kind {
        ValueKind::Name | ValueKind::NameOrNone => is_name(value),
        ValueKind::Attributes => are_attributes(value),
        ValueKind::Side => is_side(value),
        ValueKind::Number(low, high) => as_number_in(value, *low, *high).is_some(),
        ValueKind::Flag => value.as_bool().is_some(),
        ValueKind::Relation => relation_in(value).is_some(),
        ValueKind::Semantic => semantic_in(value).is_some(),
        ValueKind::Precedence => precedence_in(value).is_some(),
        ValueKind::Instance => is_instance(value),
        ValueKind::Numbers(most) => is_list_of::<u32, RecordNumber>(value, *most),
        ValueKind::Potentials => is_list_of::<Reach, Potential>(value, MOST_ROUTERS),
        ValueKind::Protocol => protocol_in(value).is_some(),
        ValueKind::Protocols => protocols_in(value).is_some(),
        ValueKind::Destination => is_destination(value),
        ValueKind::Addresses => are_addresses(value),
        ValueKind::Ranges => are_ranges(value),
    }
}

impl FieldKind for BodyKind {
    ghost use Rattle.command_codec.specs.FormRules.{is_of_body_kind};

    ghost is_of = { is_of_body_kind };

    fn is_of(&self, value: &Value) -> bool {
        is_of_kind(&self.0, value)
    }
}
