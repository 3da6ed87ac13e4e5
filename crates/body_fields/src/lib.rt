//! The fields of the bodies of commands: the value that a body is, its fields by kind, and the first fault of an object by rules.
#![tactic(auto)]

mod bodies;
mod field_rules;
mod field_words;
mod intercept_fields;
mod item_lists;
mod optional_fields;
mod route_claims;

pub use bodies::value_in;
pub use field_rules::{AskedField, FieldKind, keep_rules};
pub use field_words::{precedence, precedence_in, relation, relation_in, semantic, semantic_in};
pub use intercept_fields::{
    ItemAddress, ItemRange, addresses, are_addresses, are_ranges, destination, is_destination,
    protocol, protocol_in, protocols, protocols_in, ranges,
};
pub use item_lists::{
    ItemKind, ItemName, SameItems, are_said, each_in, each_once_in, is_list_of, is_some_list_of,
};
pub use optional_fields::{
    flag_or_not, instance_or_empty, is_instance, name_or_none, number_or, precedence_or_default,
};
pub use route_claims::{Potential, RecordNumber, numbers, potentials};
