ghost use Rattle.std.specs.Prelude.{◌≡◌, ◌↔◌, ◌∷◌, ◌++◌, ◌≤◌, ◌==◌, ◌&&◌, [], not, map, length, IfOk, IfSome, IsErrOf, Some, None, true, false, option_map, decimal};
ghost use Rattle.std.specs.Char.{is_ascii_digit};
ghost use Rattle.std.specs.List.{list_all, list_any};
ghost use Rattle.std.specs.Option.{option_map_or};
ghost use Rattle.std.specs.String.{string_bytes};
ghost use Rattle.ctrl_model.specs.AddressForm.{lowered, is_label_byte, is_label, is_host, under_of, parts_at, last_part, is_padded, number_to, ip_of, first_bits, range_of, address_of, ip_text, address_text, same_address, is_address, is_spelling, is_range_spelling};
ghost use Rattle.ctrl_model.specs.declared.addresses.Address.TheVariants.{Range, Under};

use crate::items::{Copies, Items};
use crate::limits::{LONGEST_HOST, LONGEST_LABEL, MOST_BITS};
use crate::texts::Bytes;
use std::alloc::{AllocError, Global};
use std::net::Ipv4Addr;
use std::str;
use thiserror::Error;

/// An address of an intercept (docs/RULES.md, "Intercepts").
#[derive(Drop)]
pub enum Address {
    /// A host, in small letters.
    Host { text: Bytes },
    /// What is under a host: each name that ends in a dot and the host.
    Under { text: Bytes },
    /// The addresses of four numbers whose first bits are those of `ip`. Its other bits are 0.
    Range { ip: u32, bits: u8 },
}

/// Why bytes are no address.
#[derive(Clone, Copy, Debug, PartialEq, Eq, Error)]
pub enum AddressFault {
    /// The bytes are not of the form.
    #[error("the bytes are no address")]
    BadAddress,
    /// There is no memory for a copy of them.
    #[error("no memory")]
    NoMemory,
}

impl From<AllocError> for AddressFault {
    ghost use Rattle.std.specs.Prelude.{◌≡◌};
    ghost use Rattle.ctrl_model.specs.declared.addresses.AddressFault.TheVariants.{NoMemory};

    ghost from_gives = { λ _ e. e ≡ NoMemory };

    fn from(_error: AllocError) -> AddressFault {
        AddressFault::NoMemory
    }
}

fn lowered(byte: u8) -> u8
    ensures { result ≡ lowered byte }
{
    byte.to_ascii_lowercase()
}

fn is_label_byte(byte: u8) -> bool
    ensures { result ≡ is_label_byte byte }
{
    byte.is_ascii_alphanumeric() || byte == b'-' || byte == b'_'
}

fn are_label_bytes(bytes: &[u8]) -> bool
    ensures { result ≡ list_all is_label_byte bytes.now }
{
    bytes.iter().all(|byte| is_label_byte(*byte))
}

fn is_label(bytes: &[u8]) -> bool
    ensures { result ≡ is_label bytes.now }
{
    !bytes.is_empty() && bytes.len() <= LONGEST_LABEL && are_label_bytes(bytes)
}

fn has_another_byte_than_digits(bytes: &[u8]) -> bool
    ensures { result ≡ list_any (λ b. not (is_ascii_digit b)) bytes.now }
{
    bytes.iter().any(|byte| !byte.is_ascii_digit())
}

fn are_labels(bytes: &[u8]) -> bool
    ensures { result ≡ list_all is_label (parts_at 46 bytes.now) }
{
    bytes
        .split(|byte| *byte == b'.')
        .all(|label| is_label(label))
}

// In small letters.
fn small(alloc: Global, bytes: &[u8]) -> Result<Bytes, AllocError>
    ensures { IfOk result (λ text. text ≡ map lowered bytes.now) }
{
    let text = bytes.iter().map(|byte| lowered(*byte)).collect(alloc)?;
    Ok(Bytes::of(text))
}

// Bytes up to the first place where a byte stands, and what is behind that place, if it stands anywhere.
fn cut_at(at: u8, bytes: &[u8]) -> (&[u8], Option<&[u8]>)
    ensures parts { parts_at at bytes.now ≡ result.0.now ∷ option_map_or (λ rest. parts_at at rest.now) result.1 [] }
    ensures more { IfSome result.1 (λ rest. 1 ≤ length (parts_at at rest.now)) }
{
    match bytes.iter().position(|byte| *byte == at) {
        Some(place) => (&bytes[..place], Some(&bytes[place + 1..])),
        None => (bytes, None),
    }
}

fn last_label(bytes: &[u8]) -> &[u8]
    ensures { result.now ≡ last_part (parts_at 46 bytes.now) }
{
    bytes.split(|byte| *byte == b'.').last().unwrap_or(bytes)
}

fn is_host(bytes: &[u8]) -> bool
    ensures { result ≡ is_host bytes.now }
{
    bytes.len() <= LONGEST_HOST
        && are_labels(bytes)
        && has_another_byte_than_digits(last_label(bytes))
}

// The host that bytes have behind `*.`, if they are one that has so.
fn host_behind(bytes: &[u8]) -> Option<&[u8]>
    ensures { option_map (λ host. map lowered host.now) result ≡ under_of bytes.now }
{
    if bytes.len() < 2 || bytes[0] != b'*' || bytes[1] != b'.' {
        return None;
    }
    let host = &bytes[2..];
    if is_host(host) { Some(host) } else { None }
}

// Whether a text begins with a plus, or with a zero before another byte.
fn is_padded(text: &[u8]) -> bool
    ensures { result ≡ is_padded text.now }
{
    matches!(text, [b'+', ..] | [b'0', _, ..])
}

// The number of eight bits that plain bytes say, if they say one.
fn plain_number(bytes: &[u8]) -> Option<u8>
    requires plain { is_padded bytes.now ≡ false }
    ensures { result ≡ number_to 255 bytes.now }
{
    match str::from_utf8(bytes) {
        Ok(text) => text.parse::<u8>().ok(),
        Err(_) => None,
    }
}

fn number_to(most: u8, bytes: &[u8]) -> Option<u8>
    ensures { result ≡ number_to most bytes.now }
{
    if is_padded(bytes) {
        return None;
    }
    match plain_number(bytes) {
        Some(number) if number <= most => Some(number),
        _ => None,
    }
}

fn ip_of(bytes: &[u8]) -> Option<u32>
    ensures { result ≡ ip_of bytes.now }
{
    match Ipv4Addr::parse_ascii(bytes) {
        Ok(ip) => Some(ip.to_bits()),
        Err(_) => None,
    }
}

fn first_bits(bits: u8, ip: u32) -> u32
    requires { bits ≤ 32 }
    ensures { result ≡ first_bits bits ip }
{
    let size = 2_u64.pow(u32::from(MOST_BITS - bits));
    let past = u64::from(ip) % size;
    ip - past as u32
}

fn range_of(bytes: &[u8]) -> Option<(u32, u8)>
    ensures { result ≡ range_of bytes.now }
{
    let (ip, rest) = cut_at(b'/', bytes);
    let Some(rest) = rest else {
        return Some((ip_of(ip)?, MOST_BITS));
    };
    let (bits, rest) = cut_at(b'/', rest);
    if rest.is_some() {
        return None;
    }
    let ip = ip_of(ip)?;
    let bits = number_to(MOST_BITS, bits)?;
    Some((first_bits(bits, ip), bits))
}

fn under_text(alloc: Global, host: &[u8]) -> Result<Bytes, AllocError>
    ensures { IfOk result (λ text. text ≡ address_text (Under host.now)) }
{
    let mut text = Vec::from_slice(alloc, b"*.")?;
    text.extend_from_slice(host)?;
    Ok(Bytes::of(text))
}

fn whole_text(alloc: Global, ip: u32) -> Result<String, AllocError>
    ensures { IfOk result (λ text. string_bytes text ≡ ip_text ip) }
{
    let (first, second) = (ip / 16_777_216, ip / 65_536 % 256);
    let (third, fourth) = (ip / 256 % 256, ip % 256);
    format!(in alloc; "{first}.{second}.{third}.{fourth}")
}

fn part_text(alloc: Global, ip: u32, bits: u8) -> Result<String, AllocError>
    ensures { IfOk result (λ text. string_bytes text ≡ ip_text ip ++ 47 ∷ decimal bits) }
{
    let (first, second) = (ip / 16_777_216, ip / 65_536 % 256);
    let (third, fourth) = (ip / 256 % 256, ip % 256);
    format!(in alloc; "{first}.{second}.{third}.{fourth}/{bits}")
}

fn range_text(alloc: Global, ip: u32, bits: u8) -> Result<String, AllocError>
    ensures { IfOk result (λ text. string_bytes text ≡ address_text (Range ip bits)) }
{
    if bits == MOST_BITS {
        whole_text(alloc, ip)
    } else {
        part_text(alloc, ip, bits)
    }
}

fn address_of(alloc: Global, bytes: &[u8]) -> Result<Address, AddressFault>
    ensures named { IfOk result (λ address. Some address ≡ address_of bytes.now) }
    ensures bad { IsErrOf result AddressFault.BadAddress ↔ (address_of bytes.now ≡ None) }
{
    if let Some((ip, bits)) = range_of(bytes) {
        return Ok(Address::Range { ip, bits });
    }
    if let Some(host) = host_behind(bytes) {
        let text = small(alloc, host)?;
        return Ok(Address::Under { text });
    }
    if !is_host(bytes) {
        return Err(AddressFault::BadAddress);
    }
    let text = small(alloc, bytes)?;
    Ok(Address::Host { text })
}

// Whether bytes have no capital letter.
fn is_small(bytes: &[u8]) -> bool
    ensures { result ≡ list_all (λ b. lowered b == b) bytes.now }
{
    bytes.iter().all(|byte| lowered(*byte) == *byte)
}

// Whether an address and bits are a range's own: all other bits are 0, and 32 bits are not said.
fn is_own_range(ip: &[u8], bits: &[u8]) -> bool
    ensures { result ≡ option_map_or (λ n. option_map_or (λ k. not (k == 32) && (first_bits k n == n)) (number_to 32 bits.now) false) (ip_of ip.now) false }
{
    match (ip_of(ip), number_to(MOST_BITS, bits)) {
        (Some(ip), Some(bits)) => bits != MOST_BITS && first_bits(bits, ip) == ip,
        _ => false,
    }
}

fn is_range_spelling(bytes: &[u8]) -> bool
    ensures { result ≡ is_range_spelling bytes.now }
{
    let (ip, rest) = cut_at(b'/', bytes);
    let Some(rest) = rest else {
        return ip_of(ip).is_some();
    };
    let (bits, rest) = cut_at(b'/', rest);
    rest.is_none() && is_own_range(ip, bits)
}

impl Address {
    /// Whether the bytes are the one spelling of an address. No memory is taken.
    pub fn is_spelling(bytes: &[u8]) -> bool
        ensures form { result ≡ is_spelling bytes.now }
    {
        if range_of(bytes).is_some() {
            return is_range_spelling(bytes);
        }
        (host_behind(bytes).is_some() || is_host(bytes)) && is_small(bytes)
    }

    /// The address that the bytes are.
    ///
    /// `BadAddress` comes exactly where the bytes are none; else only memory can be wanting.
    pub fn of(alloc: Global, bytes: &[u8]) -> Result<Address, AddressFault>
        ensures named { IfOk result (λ address. (Some address ≡ address_of bytes.now) × (is_address address ≡ true)) }
        ensures bad { IsErrOf result AddressFault.BadAddress ↔ (address_of bytes.now ≡ None) }
    {
        address_of(alloc, bytes)
    }

    /// Whether it is the same address as another. No memory is taken.
    pub fn is_same(&self, other: &Address) -> bool
        ensures { result ≡ same_address self.now other.now }
    {
        match (self, other) {
            (Address::Host { text }, Address::Host { text: other }) => text.as_slice()
                == other.as_slice(),
            (Address::Under { text }, Address::Under { text: other }) => text.as_slice()
                == other.as_slice(),
            (
                Address::Range { ip, bits },
                Address::Range {
                    ip: other,
                    bits: others,
                },
            ) => ip == other && bits == others,
            _ => false,
        }
    }

    /// The one spelling of the address: small letters, and no `/32`. An Err is want of memory.
    pub fn text(&self, alloc: Global) -> Result<Bytes, AllocError>
        ensures { IfOk result (λ text. text ≡ address_text self.now) }
    {
        match self {
            Address::Host { text } => Bytes::from_slice(alloc, text.as_slice()),
            Address::Under { text } => under_text(alloc, text.as_slice()),
            Address::Range { ip, bits } => {
                let text = range_text(alloc, *ip, *bits)?;
                Ok(Bytes::of(text.into_bytes()))
            }
        }
    }
}

impl Copies for Address {
    fn copy(&self) -> Result<Address, AllocError> {
        match self {
            Address::Host { text } => Ok(Address::Host { text: text.copy()? }),
            Address::Under { text } => Ok(Address::Under { text: text.copy()? }),
            Address::Range { ip, bits } => Ok(Address::Range {
                ip: *ip,
                bits: *bits,
            }),
        }
    }
}

/// A list of addresses.
pub type Addresses = Items<Address>;
