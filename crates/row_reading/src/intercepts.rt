ghost use Rattle.std.specs.Prelude.{◌≡◌, bytes_eq, IfOk, Some};
ghost use Rattle.std.specs.List.{list_any};
ghost use Rattle.std.specs.Option.{option_map};
ghost use Rattle.ctrl_model.specs.AddressForm.{address_of, address_text, same_address};
ghost use Rattle.ctrl_model.specs.InterceptForm.{is_port_range, is_without_repeats, same_ports};
ghost use Rattle.ctrl_model.specs.Limits.{most_claimed};
ghost use Rattle.row_codec.specs.FieldReading.{alone, behind, both, front_code, front_each, front_list, front_short};
ghost use Rattle.row_reading.specs.RowReading.{addresses_of, front_address, front_intercept, front_parts, front_port_range, front_spelling, intercept_of, is_claimed, port_range_of, port_ranges_of, protocols_meant, things_in};

use ctrl_model::{Address, Addresses, Intercept, MOST_CLAIMED, PortRange, PortRanges};
use row_codec::{split_byte, split_text};
use std::alloc::{AllocError, Global};

/// An intercept as it stands in bytes: whether it has tcp and udp, its addresses and its ranges of ports, each list as the bytes that it
/// begins.
pub(crate) type InterceptAt<'a> = ((bool, bool), (&'a [u8], &'a [u8]));

fn split_protocols(bytes: &[u8]) -> Option<((bool, bool), &[u8])>
    ensures { option_map (λ p. (p.0, p.1.now)) result ≡ front_code protocols_meant bytes.now }
{
    let (byte, rest) = split_byte(bytes)?;
    match byte {
        1 => Some(((true, false), rest)),
        2 => Some(((false, true), rest)),
        3 => Some(((true, true), rest)),
        _ => None,
    }
}

// The text of an address, and what follows it.
fn split_spelling(bytes: &[u8]) -> Option<(&[u8], &[u8])>
    ensures { option_map (λ p. (p.0.now, p.1.now)) result ≡ front_spelling bytes.now }
{
    let (text, rest) = split_text(bytes)?;
    if Address::is_spelling(text) {
        Some((text, rest))
    } else {
        None
    }
}

fn split_port(bytes: &[u8]) -> Option<(u16, &[u8])>
    ensures { option_map (λ p. (p.0, p.1.now)) result ≡ front_short bytes.now }
{
    let (part, rest) = bytes.split_first_chunk::<2>()?;
    Some((u16::from_le_bytes(*part), rest))
}

fn is_port_range(low: u16, high: u16) -> bool
    ensures { result ≡ is_port_range (port_range_of (low, high)) }
{
    1 <= low && low <= high
}

fn split_port_range(bytes: &[u8]) -> Option<(PortRange, &[u8])>
    ensures { option_map (λ p. (p.0, p.1.now)) result ≡ front_port_range bytes.now }
{
    let (low, rest) = split_port(bytes)?;
    let (high, after) = split_port(rest)?;
    if !is_port_range(low, high) {
        return None;
    }
    Some((PortRange { low, high }, after))
}

// ---- what follows a list

fn past_each_spelling(count: u8, bytes: &[u8]) -> Option<&[u8]>
    ensures { option_map (λ r. r.now) result ≡ behind (front_each front_address count bytes.now) }
{
    let mut rest = bytes;
    'texts: for _ in 0..count {
        let (_, after) = split_spelling(rest)?;
        rest = after;
    }
    Some(rest)
}

fn past_addresses(bytes: &[u8]) -> Option<&[u8]>
    ensures { option_map (λ r. r.now) result ≡ behind (front_list most_claimed front_address bytes.now) }
{
    let (count, rest) = split_byte(bytes)?;
    if count as usize > MOST_CLAIMED {
        return None;
    }
    past_each_spelling(count, rest)
}

fn split_addresses(bytes: &[u8]) -> Option<(&[u8], &[u8])>
    ensures { option_map (λ p. (addresses_of p.0.now, p.1.now)) result ≡ front_list most_claimed front_address bytes.now }
{
    let rest = past_addresses(bytes)?;
    Some((bytes, rest))
}

fn past_each_port_range(count: u8, bytes: &[u8]) -> Option<&[u8]>
    ensures { option_map (λ r. r.now) result ≡ behind (front_each front_port_range count bytes.now) }
{
    let mut rest = bytes;
    'ports: for _ in 0..count {
        let (_, after) = split_port_range(rest)?;
        rest = after;
    }
    Some(rest)
}

fn past_port_ranges(bytes: &[u8]) -> Option<&[u8]>
    ensures { option_map (λ r. r.now) result ≡ behind (front_list most_claimed front_port_range bytes.now) }
{
    let (count, rest) = split_byte(bytes)?;
    if count as usize > MOST_CLAIMED {
        return None;
    }
    past_each_port_range(count, rest)
}

fn split_port_ranges(bytes: &[u8]) -> Option<(&[u8], &[u8])>
    ensures { option_map (λ p. (port_ranges_of p.0.now, p.1.now)) result ≡ front_list most_claimed front_port_range bytes.now }
{
    let rest = past_port_ranges(bytes)?;
    Some((bytes, rest))
}

// ---- repeats, which are looked for before memory is wanted

fn same_text(text: &[u8], other: &[u8]) -> bool
    ensures { result ≡ bytes_eq text.now other.now }
{
    text == other
}

// Whether one of so many texts of addresses is a given one.
fn has_spelling(count: u8, bytes: &[u8], text: &[u8]) -> bool
    ensures { result ≡ list_any (λ a. bytes_eq text.now (address_text a)) (things_in front_address count bytes.now) }
{
    let mut rest = bytes;
    'texts: for _ in 0..count {
        let Some((next, after)) = split_spelling(rest) else {
            return false;
        };
        if same_text(text, next) {
            return true;
        }
        rest = after;
    }
    false
}

fn spellings_differ(count: u8, bytes: &[u8]) -> bool
    ensures { result ≡ is_without_repeats same_address (things_in front_address count bytes.now) }
{
    let mut rest = bytes;
    'texts: for done in 0..count {
        let Some((text, after)) = split_spelling(rest) else {
            return true;
        };
        if has_spelling(count - done - 1, after, text) {
            return false;
        }
        rest = after;
    }
    true
}

// Whether one of so many ranges of ports is a given one.
fn has_port_range(count: u8, bytes: &[u8], range: PortRange) -> bool
    ensures { result ≡ list_any (same_ports range) (things_in front_port_range count bytes.now) }
{
    let mut rest = bytes;
    'ports: for _ in 0..count {
        let Some((next, after)) = split_port_range(rest) else {
            return false;
        };
        if range.is_same(&next) {
            return true;
        }
        rest = after;
    }
    false
}

fn port_ranges_differ(count: u8, bytes: &[u8]) -> bool
    ensures { result ≡ is_without_repeats same_ports (things_in front_port_range count bytes.now) }
{
    let mut rest = bytes;
    'ports: for done in 0..count {
        let Some((range, after)) = split_port_range(rest) else {
            return true;
        };
        if has_port_range(count - done - 1, after, range) {
            return false;
        }
        rest = after;
    }
    true
}

fn are_addresses_claimed(bytes: &[u8]) -> bool
    ensures { result ≡ is_claimed same_address (addresses_of bytes.now) }
{
    let Some((count, rest)) = split_byte(bytes) else {
        return false;
    };
    if count == 0 {
        return false;
    }
    match split_spelling(rest) {
        None => false,
        Some(_) => spellings_differ(count, rest),
    }
}

fn are_port_ranges_claimed(bytes: &[u8]) -> bool
    ensures { result ≡ is_claimed same_ports (port_ranges_of bytes.now) }
{
    let Some((count, rest)) = split_byte(bytes) else {
        return false;
    };
    if count == 0 {
        return false;
    }
    match split_port_range(rest) {
        None => false,
        Some(_) => port_ranges_differ(count, rest),
    }
}

// ---- an intercept

// The two lists of an intercept, and what follows them.
fn lists_at(bytes: &[u8]) -> Option<((&[u8], &[u8]), &[u8])>
    ensures { option_map (λ x. ((addresses_of x.0.0.now, port_ranges_of x.0.1.now), x.1.now)) result
        ≡ both (front_list most_claimed front_address) (front_list most_claimed front_port_range) bytes.now }
{
    let (addresses, rest) = split_addresses(bytes)?;
    let (ports, rest) = split_port_ranges(rest)?;
    Some(((addresses, ports), rest))
}

fn parts_at(value: &[u8]) -> Option<InterceptAt<'_>>
    ensures { option_map (λ x. (x.0, (addresses_of x.1.0.now, port_ranges_of x.1.1.now))) result ≡ alone front_parts value.now }
{
    let (protocols, rest) = split_protocols(value)?;
    let Some((lists, [])) = lists_at(rest) else {
        return None;
    };
    Some((protocols, lists))
}

/// The protocols, the addresses and the ranges of ports of an intercept. No memory is taken.
pub(crate) fn intercept_at(value: &[u8]) -> Option<InterceptAt<'_>>
    ensures { option_map (λ x. intercept_of (x.0, (addresses_of x.1.0.now, port_ranges_of x.1.1.now))) result ≡ alone front_intercept value.now }
{
    let parts = parts_at(value)?;
    if !are_addresses_claimed(parts.1.0) {
        return None;
    }
    if !are_port_ranges_claimed(parts.1.1) {
        return None;
    }
    Some(parts)
}

fn address_named(alloc: Global, text: &[u8]) -> Result<Address, AllocError>
    ensures { IfOk result (λ address. Some address ≡ address_of text.now) }
{
    match Address::of(alloc, text) {
        Ok(address) => Ok(address),
        Err(_) => Err(AllocError),
    }
}

fn each_address(alloc: Global, count: u8, bytes: &[u8]) -> Result<Vec<Address>, AllocError>
    ensures { IfOk result (λ addresses. addresses.items ≡ things_in front_address count bytes.now) }
{
    let mut addresses = Vec::new(alloc);
    let mut rest = bytes;
    'texts: for _ in 0..count {
        let Some((text, after)) = split_spelling(rest) else {
            return Ok(addresses);
        };
        addresses.push(address_named(alloc, text)?)?;
        rest = after;
    }
    Ok(addresses)
}

fn addresses_of(alloc: Global, bytes: &[u8]) -> Result<Addresses, AllocError>
    ensures { IfOk result (λ addresses. addresses ≡ addresses_of bytes.now) }
{
    let Some((count, rest)) = split_byte(bytes) else {
        return Ok(Addresses::of(Vec::new(alloc)));
    };
    Ok(Addresses::of(each_address(alloc, count, rest)?))
}

fn each_port_range(alloc: Global, count: u8, bytes: &[u8]) -> Result<Vec<PortRange>, AllocError>
    ensures { IfOk result (λ ranges. ranges.items ≡ things_in front_port_range count bytes.now) }
{
    let mut ranges = Vec::new(alloc);
    let mut rest = bytes;
    'ports: for _ in 0..count {
        let Some((range, after)) = split_port_range(rest) else {
            return Ok(ranges);
        };
        ranges.push(range)?;
        rest = after;
    }
    Ok(ranges)
}

fn port_ranges_of(alloc: Global, bytes: &[u8]) -> Result<PortRanges, AllocError>
    ensures { IfOk result (λ ranges. ranges ≡ port_ranges_of bytes.now) }
{
    let Some((count, rest)) = split_byte(bytes) else {
        return Ok(PortRanges::of(Vec::new(alloc)));
    };
    Ok(PortRanges::of(each_port_range(alloc, count, rest)?))
}

/// The intercept that stands in bytes.
pub(crate) fn intercept_of(alloc: Global, at: InterceptAt<'_>) -> Result<Intercept, AllocError>
    ensures { IfOk result (λ i. i ≡ intercept_of (at.entry.0, (addresses_of at.entry.1.0.now, port_ranges_of at.entry.1.1.now))) }
{
    let ((tcp, udp), (addresses, ports)) = at;
    let addresses = addresses_of(alloc, addresses)?;
    let ports = port_ranges_of(alloc, ports)?;
    Ok(Intercept {
        tcp,
        udp,
        addresses,
        ports,
    })
}
