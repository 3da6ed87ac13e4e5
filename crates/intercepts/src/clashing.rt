ghost use Rattle.std.specs.Prelude.{◌≡◌};
ghost use Rattle.std.specs.List.{list_any};
ghost use Rattle.ctrl_model.specs.AddressForm.{same_address};
ghost use Rattle.ctrl_model.specs.Hits.{do_clash};
ghost use Rattle.ctrl_model.specs.InterceptForm.{same_ports};

use ctrl_model::{Address, Intercept, PortRange};

// Whether an address is one of some.
fn is_among_addresses(address: &Address, others: &[Address]) -> bool
    ensures { result ≡ list_any (same_address address.now) others.now }
{
    others.iter().any(|other| address.is_same(other))
}

// Whether some addresses have one in common.
fn share_address(addresses: &[Address], others: &[Address]) -> bool
    ensures { result ≡ list_any (λ a. list_any (same_address a) others.now) addresses.now }
{
    addresses
        .iter()
        .any(|address| is_among_addresses(address, others))
}

// Whether a range of ports is one of some.
fn is_among_ranges(range: &PortRange, others: &[PortRange]) -> bool
    ensures { result ≡ list_any (same_ports range.now) others.now }
{
    others.iter().any(|other| range.is_same(other))
}

// Whether some ranges of ports have one in common.
fn share_range(ranges: &[PortRange], others: &[PortRange]) -> bool
    ensures { result ≡ list_any (λ r. list_any (same_ports r) others.now) ranges.now }
{
    ranges.iter().any(|range| is_among_ranges(range, others))
}

/// Whether two intercepts have a protocol, an address and a range of ports in common.
pub fn do_clash(intercept: &Intercept, other: &Intercept) -> bool
    ensures { result ≡ do_clash intercept.now other.now }
{
    ((intercept.tcp && other.tcp) || (intercept.udp && other.udp))
        && share_address(intercept.addresses.as_slice(), other.addresses.as_slice())
        && share_range(intercept.ports.as_slice(), other.ports.as_slice())
}
