ghost use Rattle.std.specs.Prelude.{◌≡◌, [], true, OnOk, map};
ghost use Rattle.std.specs.List.{list_all};
ghost use Rattle.serde_json.specs.View.{members_view};
ghost use Rattle.command_bodies.specs.CommandFields.{given_fields, with_given};
ghost use Rattle.command_bodies.specs.ValueTexts.{given_by, has_spelling};
ghost use Rattle.command_bodies.specs.WrittenFields.{with_fields};

use crate::listing::{
    address_value, addresses_value, names_value, numbers_value, protocols_value, ranges_value,
    reaches_value, roles_value,
};
use crate::putting::{put_text, put_value};
use crate::spelling::{instance_text, name_text};
use ctrl_model::{
    Address, Addresses, Field, Instance, Name, Names, Numbers, PortRanges, Reaches, Side,
};
use serde_json::{Map, Value};
use std::alloc::{AllocError, Global};

// The value of a field that is written.
#[derive(Clone, Copy)]
pub(crate) enum FieldValue<'a> {
    Name(&'a Name),
    // A name that is written where it is one.
    NameOrNone(&'a Option<Name>),
    Instance(&'a Instance),
    Word(&'static str),
    Number(u32),
    Flag(bool),
    Names(&'a Names),
    Roles(&'a Side),
    Numbers(&'a Numbers),
    Potentials(&'a Reaches),
    // Whether tcp, and whether udp.
    Protocols(bool, bool),
    Address(&'a Address),
    Addresses(&'a Addresses),
    Ranges(&'a PortRanges),
}

// Puts what is written of a value.
fn put_given(
    alloc: Global,
    members: &mut Map<String, Value>,
    field: Field,
    value: &FieldValue,
) -> Result<(), AllocError>
    requires { has_spelling value.now ≡ true }
    ensures { OnOk result (members_view members.new.entries ≡ with_fields (with_given field (given_by value.now) []) (members_view members.old.entries)) }
{
    let written = match *value {
        FieldValue::Name(name) => return put_text(alloc, members, field, name_text(name)),
        FieldValue::NameOrNone(None) => return Ok(()),
        FieldValue::NameOrNone(Some(name)) => {
            return put_text(alloc, members, field, name_text(name));
        }
        FieldValue::Instance(instance) => {
            return put_text(alloc, members, field, instance_text(instance));
        }
        FieldValue::Word(word) => return put_text(alloc, members, field, word),
        FieldValue::Number(number) => Value::from(number),
        FieldValue::Flag(flag) => Value::Bool(flag),
        FieldValue::Names(names) => names_value(alloc, names)?,
        FieldValue::Roles(side) => roles_value(alloc, side)?,
        FieldValue::Numbers(numbers) => numbers_value(alloc, numbers)?,
        FieldValue::Potentials(reaches) => reaches_value(alloc, reaches)?,
        FieldValue::Protocols(tcp, udp) => protocols_value(alloc, tcp, udp)?,
        FieldValue::Address(address) => address_value(alloc, address)?,
        FieldValue::Addresses(addresses) => addresses_value(alloc, addresses)?,
        FieldValue::Ranges(ranges) => ranges_value(alloc, ranges)?,
    };
    put_value(alloc, members, field, written)
}

// Puts what is written of each value, in the field at its place.
fn put_each(
    alloc: Global,
    members: &mut Map<String, Value>,
    fields: &[Field],
    values: &[FieldValue],
) -> Result<(), AllocError>
    requires { list_all has_spelling values.now ≡ true }
    ensures { OnOk result (members_view members.new.entries ≡ with_fields (given_fields fields.now (map given_by values.now)) (members_view members.old.entries)) }
{
    'values: for (place, value) in values.iter().enumerate() {
        let Some(field) = fields.get(place) else {
            return Ok(());
        };
        put_given(alloc, members, *field, value)?;
    }
    Ok(())
}

// The members of a body that were put, and the fields of its form.
#[derive(Drop)]
pub(crate) struct BodyMembers {
    pub(crate) alloc: Global,
    pub(crate) fields: &'static [Field],
    pub(crate) members: Map<String, Value>,
}

impl BodyMembers {
    // Puts what is written of a value for each field.
    pub(crate) fn put(&mut self, values: &[FieldValue]) -> Result<(), AllocError>
        requires { list_all has_spelling values.now ≡ true }
        ensures fields { self.new.fields ≡ self.old.fields }
        ensures put { OnOk result (members_view self.new.members.entries ≡ with_fields (given_fields self.old.fields.now (map given_by values.now)) (members_view self.old.members.entries)) }
    {
        put_each(self.alloc, &mut self.members, self.fields, values)
    }
}
