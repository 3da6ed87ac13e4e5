ghost use Rattle.std.specs.Prelude.{◌≡◌, ◌++◌, OnOk, codes};
ghost use Rattle.ctrl_model.specs.AddressForm.{address_text};
ghost use Rattle.ctrl_model.specs.declared.kinds.Kind.TheVariants as kind;
ghost use Rattle.state_building.specs.BuiltStates.{state_in};
ghost use Rattle.command_bodies.specs.WrittenWords.{protocol_words};
ghost use Rattle.record_lines.specs.RecordLines.{claim_fields, intercept_line};
ghost use Rattle.record_lines.specs.RecordNames.{name_of as named};
ghost use Rattle.record_lines.specs.RecordWords.{behind_commas, head, keyed, list_word, quoted_word, range_word, with_commas};

use crate::naming::name_of;
use crate::word_putting::{put_key, put_keyed, put_number, put_spaced};
use ctrl_model::{Address, Intercept, Kind, PortRange};
use row_codec::Row;
use std::alloc::AllocError;

// The list of the protocols of an intercept.
fn protocols_word(tcp: bool, udp: bool) -> &'static [u8]
    ensures { result.now ≡ list_word quoted_word (protocol_words tcp udp) }
{
    match (tcp, udp) {
        (true, true) => b"[\"tcp\",\"udp\"]",
        (true, false) => b"[\"tcp\"]",
        (false, true) => b"[\"udp\"]",
        (false, false) => b"[]",
    }
}

// Puts this list as a field.
fn put_protocols(text: &mut Vec<u8>, tcp: bool, udp: bool) -> Result<(), AllocError>
    ensures { OnOk result (text.new.items ≡ text.old.items ++ keyed (codes "protocols") (list_word quoted_word (protocol_words tcp udp))) }
{
    put_keyed(text, b"protocols", protocols_word(tcp, udp))
}

// Puts an address in its one spelling, in quotes.
fn put_address(text: &mut Vec<u8>, address: &Address) -> Result<(), AllocError>
    ensures { OnOk result (text.new.items ≡ text.old.items ++ quoted_word (address_text address.now)) }
{
    let spelling = address.text(*text.allocator())?;
    text.extend_from_slice(b"\"")?;
    text.extend_from_slice(spelling.as_slice())?;
    text.extend_from_slice(b"\"")
}

// Puts addresses, each behind a comma.
fn put_more_addresses(text: &mut Vec<u8>, addresses: &[Address]) -> Result<(), AllocError>
    ensures { OnOk result (text.new.items ≡ text.old.items ++ behind_commas (λ a. quoted_word (address_text a)) addresses.now) }
{
    'addresses: for address in addresses {
        text.extend_from_slice(b",")?;
        put_address(text, address)?;
    }
    Ok(())
}

// Puts addresses with a comma between two.
fn put_addresses(text: &mut Vec<u8>, addresses: &[Address]) -> Result<(), AllocError>
    ensures { OnOk result (text.new.items ≡ text.old.items ++ with_commas (λ a. quoted_word (address_text a)) addresses.now) }
{
    match addresses {
        [] => Ok(()),
        [first, rest @ ..] => {
            put_address(text, first)?;
            put_more_addresses(text, rest)
        }
    }
}

// Puts a range of ports.
fn put_range(text: &mut Vec<u8>, range: &PortRange) -> Result<(), AllocError>
    ensures { OnOk result (text.new.items ≡ text.old.items ++ range_word range.now) }
{
    text.extend_from_slice(b"[")?;
    put_number(text, u32::from(range.low))?;
    text.extend_from_slice(b",")?;
    put_number(text, u32::from(range.high))?;
    text.extend_from_slice(b"]")
}

// Puts ranges of ports, each behind a comma.
fn put_more_ranges(text: &mut Vec<u8>, ranges: &[PortRange]) -> Result<(), AllocError>
    ensures { OnOk result (text.new.items ≡ text.old.items ++ behind_commas range_word ranges.now) }
{
    'pairs: for range in ranges {
        text.extend_from_slice(b",")?;
        put_range(text, range)?;
    }
    Ok(())
}

// Puts ranges of ports with a comma between two.
fn put_ranges(text: &mut Vec<u8>, ranges: &[PortRange]) -> Result<(), AllocError>
    ensures { OnOk result (text.new.items ≡ text.old.items ++ with_commas range_word ranges.now) }
{
    match ranges {
        [] => Ok(()),
        [first, rest @ ..] => {
            put_range(text, first)?;
            put_more_ranges(text, rest)
        }
    }
}

// Puts the list of the addresses of an intercept as a field.
fn put_address_list(text: &mut Vec<u8>, addresses: &[Address]) -> Result<(), AllocError>
    ensures { OnOk result (text.new.items ≡ text.old.items ++ keyed (codes "addresses") (list_word (λ a. quoted_word (address_text a)) addresses.now)) }
{
    put_key(text, b"addresses")?;
    text.extend_from_slice(b"[")?;
    put_addresses(text, addresses)?;
    text.extend_from_slice(b"]")
}

// Puts the list of its ranges of ports as a field.
fn put_range_list(text: &mut Vec<u8>, ranges: &[PortRange]) -> Result<(), AllocError>
    ensures { OnOk result (text.new.items ≡ text.old.items ++ keyed (codes "ports") (list_word range_word ranges.now)) }
{
    put_key(text, b"ports")?;
    text.extend_from_slice(b"[")?;
    put_ranges(text, ranges)?;
    text.extend_from_slice(b"]")
}

// Puts what an intercept claims.
fn put_claim(text: &mut Vec<u8>, intercept: &Intercept) -> Result<(), AllocError>
    ensures { OnOk result (text.new.items ≡ text.old.items ++ claim_fields intercept.now) }
{
    put_protocols(text, intercept.tcp, intercept.udp)?;
    put_address_list(text, intercept.addresses.as_slice())?;
    put_range_list(text, intercept.ports.as_slice())
}

// Puts the number and the name of a service.
fn put_service(text: &mut Vec<u8>, rows: &[Row], service: u32) -> Result<(), AllocError>
    ensures { OnOk result (text.new.items ≡ text.old.items ++ head service (named kind.Service (state_in rows.now) service)) }
{
    put_number(text, service)?;
    put_spaced(text, name_of(rows, Kind::Service, service))
}

/// Puts the line of the intercept of a service.
pub(crate) fn put_intercept(
    text: &mut Vec<u8>,
    rows: &[Row],
    service: u32,
    intercept: &Intercept,
) -> Result<(), AllocError>
    ensures { OnOk result (text.new.items ≡ text.old.items ++ intercept_line (state_in rows.now) service intercept.now) }
{
    put_service(text, rows, service)?;
    put_claim(text, intercept)?;
    text.extend_from_slice(b"\n")
}
