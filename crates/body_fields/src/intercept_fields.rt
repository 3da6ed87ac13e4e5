ghost use Rattle.std.specs.Prelude.{◌≡◌, IfOk, IsErrOf, IsOk, IsSome, OnErr, is_some, option_and_then};
ghost use Rattle.serde_json.specs.View.{view};
ghost use Rattle.ctrl_model.specs.AddressForm.{address_of};
ghost use Rattle.json_body.specs.FieldKinds.{object_of, required};
ghost use Rattle.body_fields.specs.InterceptFields.{as_addresses, as_destination, as_port, as_protocol, as_protocols, as_range, as_ranges, destination_of, protocol_of, range_from};
ghost use Rattle.body_fields.specs.PlaceMarks.{has_no_star, is_unmarked};
ghost use Rattle.body_fields.specs.ReadResults.{Gives};

use crate::item_lists::{ItemKind, SameItems, is_some_list_of, some_once};
use ctrl_model::{
    Address, AddressFault, Addresses, Field, MOST_CLAIMED, MOST_PORT, PortRange, PortRanges,
    ProtocolSet,
};
use json_body::{FieldFault, Fields, as_list_of, as_number_in};
use serde_json::Value;
use std::alloc::{AllocError, Global};

// ---- protocols

fn protocol_of(word: &str) -> Option<bool>
    ensures { result ≡ protocol_of word.now }
{
    match word {
        "tcp" => Some(false),
        "udp" => Some(true),
        _ => None,
    }
}

/// Whether a protocol is udp, or else tcp, where a value says one.
pub fn protocol_in(value: &Value) -> Option<bool>
    ensures { result ≡ as_protocol (view value.now) }
{
    protocol_of(value.as_str()?)
}

/// Whether the protocol of a pick is udp, or else tcp.
pub fn protocol(fields: &Fields) -> Result<bool, FieldFault>
    ensures { result ≡ required as_protocol Field.Protocol (object_of fields.now) }
{
    let word = fields.text(Field::Protocol)?;
    protocol_of(word).ok_or(FieldFault::WrongKind(Field::Protocol))
}

/// The protocols that a value says.
pub fn protocols_in(value: &Value) -> Option<ProtocolSet>
    ensures { result ≡ as_protocols (view value.now) }
{
    match as_list_of(value, 2)? {
        [only] => {
            let udp = protocol_in(only)?;
            Some(ProtocolSet { tcp: !udp, udp })
        }
        [first, second] => {
            let (first, second) = (protocol_in(first)?, protocol_in(second)?);
            Some(ProtocolSet {
                tcp: !first || !second,
                udp: first || second,
            })
        }
        _ => None,
    }
}

/// The protocols of an intercept.
pub fn protocols(fields: &Fields) -> Result<ProtocolSet, FieldFault>
    ensures { result ≡ required as_protocols Field.Protocols (object_of fields.now) }
{
    match fields.value(Field::Protocols) {
        Some(value) => protocols_in(value).ok_or(FieldFault::WrongKind(Field::Protocols)),
        None => Err(FieldFault::Missing(Field::Protocols)),
    }
}

// ---- addresses

// The address that some bytes are, if they are one.
fn address_of(alloc: Global, bytes: &[u8]) -> Result<Option<Address>, AllocError>
    ensures address { IfOk result (λ a. a ≡ address_of bytes.now) }
    ensures memory { OnErr result (IsSome (address_of bytes.now)) }
{
    match Address::of(alloc, bytes) {
        Ok(address) => Ok(Some(address)),
        Err(AddressFault::BadAddress) => Ok(None),
        Err(AddressFault::NoMemory) => Err(AllocError),
    }
}

// Whether bytes are an address. Want of memory for the address changes nothing of it.
fn is_address(alloc: Global, bytes: &[u8]) -> bool
    ensures { result ≡ is_some (address_of bytes.now) }
{
    match address_of(alloc, bytes) {
        Ok(address) => address.is_some(),
        Err(_wanting) => true,
    }
}

/// An address.
pub struct ItemAddress;

impl ItemKind<Address> for ItemAddress {
    ghost use Rattle.body_fields.specs.InterceptFields.{as_address};

    ghost kind = { as_address };

    fn is_said(value: &Value) -> bool {
        match value {
            Value::String(text) => is_address(*text.allocator(), text.as_bytes()),
            _ => false,
        }
    }

    fn said_by(alloc: Global, value: &Value) -> Result<Option<Address>, AllocError> {
        match value.as_str() {
            Some(text) => address_of(alloc, text.as_bytes()),
            None => Ok(None),
        }
    }
}

impl SameItems<Address> for ItemAddress {
    ghost use Rattle.ctrl_model.specs.AddressForm.{same_address};
    ghost use Rattle.ctrl_model.proofs.AddressLaws.{same_is};

    ghost same = { same_address };

    ghost are_equal = { same_is };

    fn is_same(item: &Address, other: &Address) -> bool {
        item.is_same(other)
    }
}

/// Whether a value is the list of the addresses of an intercept. Want of memory changes nothing of it.
pub fn are_addresses(value: &Value) -> bool
    ensures { result ≡ is_some (as_addresses (view value.now)) }
{
    is_some_list_of::<Address, ItemAddress>(value, MOST_CLAIMED)
}

/// The addresses of an intercept; faults as those of `Fields::name`.
pub fn addresses(alloc: Global, fields: &Fields) -> Result<Addresses, FieldFault>
    ensures given { Gives FieldFault.NoMemory (λ a. a) result (required as_addresses Field.Addresses (object_of fields.now)) }
    // Memory can be wanting for addresses alone.
    ensures memory { IsErrOf result FieldFault.NoMemory → IsOk (required as_addresses Field.Addresses (object_of fields.now)) }
{
    Ok(Addresses::of(some_once::<Address, ItemAddress>(
        alloc,
        fields,
        Field::Addresses,
        MOST_CLAIMED,
    )?))
}

fn has_no_star(bytes: &[u8]) -> bool
    ensures { result ≡ has_no_star bytes.now }
{
    !matches!(bytes, [b'*', ..])
}

// Whether bytes that are an address are one place: no `/` but the one before all bits, and no `*` at the beginning.
fn is_unmarked(bytes: &[u8]) -> bool
    ensures { result ≡ is_unmarked bytes.now }
{
    match bytes.iter().position(|byte| *byte == b'/') {
        Some(place) => &bytes[place + 1..] == b"32".as_slice(),
        None => has_no_star(bytes),
    }
}

// Whether bytes are an address that is one place. Want of memory for the address changes nothing of it.
fn is_place(alloc: Global, bytes: &[u8]) -> bool
    ensures { result ≡ is_some (option_and_then destination_of (address_of bytes.now)) }
{
    is_address(alloc, bytes) && is_unmarked(bytes)
}

// The destination that some bytes are, if they are one.
fn destination_in(alloc: Global, bytes: &[u8]) -> Result<Option<Address>, AllocError>
    ensures address { IfOk result (λ a. a ≡ option_and_then destination_of (address_of bytes.now)) }
    ensures memory { OnErr result (IsSome (option_and_then destination_of (address_of bytes.now))) }
{
    if !is_place(alloc, bytes) {
        return Ok(None);
    }
    address_of(alloc, bytes)
}

/// Whether a value is the destination of a pick. Want of memory changes nothing of it.
pub fn is_destination(value: &Value) -> bool
    ensures { result ≡ is_some (as_destination (view value.now)) }
{
    match value {
        Value::String(text) => is_place(*text.allocator(), text.as_bytes()),
        _ => false,
    }
}

/// The destination of a pick; faults as those of `Fields::name`.
pub fn destination(alloc: Global, fields: &Fields) -> Result<Address, FieldFault>
    ensures given { Gives FieldFault.NoMemory (λ a. a) result (required as_destination Field.Address (object_of fields.now)) }
    // Memory can be wanting for a destination alone.
    ensures memory { IsErrOf result FieldFault.NoMemory → IsOk (required as_destination Field.Address (object_of fields.now)) }
{
    let text = fields.text(Field::Address)?;
    destination_in(alloc, text.as_bytes())?.ok_or(FieldFault::WrongKind(Field::Address))
}

// ---- ports

// The port that a value is, if it is one.
fn port_in(value: &Value) -> Option<u16>
    ensures { result ≡ as_port (view value.now) }
{
    let port = as_number_in(value, 1, MOST_PORT)?;
    Some(port as u16)
}

fn range_from(low: u16, high: u16) -> Option<PortRange>
    ensures { result ≡ range_from low high }
{
    if low <= high {
        Some(PortRange { low, high })
    } else {
        None
    }
}

// The range of ports that a value is, if it is one.
fn range_in(value: &Value) -> Option<PortRange>
    ensures { result ≡ as_range (view value.now) }
{
    match as_list_of(value, 2)? {
        [low, high] => {
            let (low, high) = (port_in(low)?, port_in(high)?);
            range_from(low, high)
        }
        _ => None,
    }
}

/// A range of ports.
pub struct ItemRange;

impl ItemKind<PortRange> for ItemRange {
    ghost use Rattle.body_fields.specs.InterceptFields.{as_range};

    ghost kind = { as_range };

    fn is_said(value: &Value) -> bool {
        range_in(value).is_some()
    }

    fn said_by(_alloc: Global, value: &Value) -> Result<Option<PortRange>, AllocError> {
        Ok(range_in(value))
    }
}

impl SameItems<PortRange> for ItemRange {
    ghost use Rattle.ctrl_model.specs.InterceptForm.{same_ports};
    ghost use Rattle.body_fields.specs.SamePorts.{same_range};

    ghost same = { same_ports };

    ghost are_equal = { same_range };

    fn is_same(item: &PortRange, other: &PortRange) -> bool {
        item.is_same(other)
    }
}

/// Whether a value is the list of the ranges of ports of an intercept. No memory is taken.
pub fn are_ranges(value: &Value) -> bool
    ensures { result ≡ is_some (as_ranges (view value.now)) }
{
    is_some_list_of::<PortRange, ItemRange>(value, MOST_CLAIMED)
}

/// The ranges of ports of an intercept; faults as those of `Fields::name`.
pub fn ranges(alloc: Global, fields: &Fields) -> Result<PortRanges, FieldFault>
    ensures given { Gives FieldFault.NoMemory (λ r. r) result (required as_ranges Field.Ports (object_of fields.now)) }
    // Memory can be wanting for ranges alone.
    ensures memory { IsErrOf result FieldFault.NoMemory → IsOk (required as_ranges Field.Ports (object_of fields.now)) }
{
    Ok(PortRanges::of(some_once::<PortRange, ItemRange>(
        alloc,
        fields,
        Field::Ports,
        MOST_CLAIMED,
    )?))
}
