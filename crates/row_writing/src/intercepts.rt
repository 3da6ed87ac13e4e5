ghost use Rattle.std.specs.Prelude.{◌≡◌, ◌++◌, true, OnOk};
ghost use Rattle.std.specs.List.{flat_map, list_all};
ghost use Rattle.ctrl_model.specs.AddressForm.{is_address};
ghost use Rattle.ctrl_model.specs.InterceptForm.{is_intercept};
ghost use Rattle.row_codec.specs.RowValues.{address_value, intercept_value, port_range_value, protocols_byte};

use ctrl_model::{Address, Intercept, PortRange};
use row_codec::push_text;
use std::alloc::AllocError;

fn protocols_byte(tcp: bool, udp: bool) -> u8
    ensures { result ≡ protocols_byte tcp udp }
{
    let tcp = if tcp { 1 } else { 0 };
    if udp { tcp + 2 } else { tcp }
}

fn push_address(out: &mut Vec<u8>, address: &Address) -> Result<(), AllocError>
    requires { is_address address.now ≡ true }
    ensures { OnOk result (out.new.items ≡ out.old.items ++ address_value address.now) }
{
    let text = address.text(*out.allocator())?;
    push_text(out, text.as_slice())
}

fn push_addresses(out: &mut Vec<u8>, addresses: &[Address]) -> Result<(), AllocError>
    requires { list_all is_address addresses.now ≡ true }
    ensures { OnOk result (out.new.items ≡ out.old.items ++ flat_map address_value addresses.now) }
{
    'addresses: for address in addresses {
        push_address(out, address)?;
    }
    Ok(())
}

fn push_port_range(out: &mut Vec<u8>, range: PortRange) -> Result<(), AllocError>
    ensures { OnOk result (out.new.items ≡ out.old.items ++ port_range_value range) }
{
    out.extend_from_slice(&range.low.to_le_bytes())?;
    out.extend_from_slice(&range.high.to_le_bytes())
}

fn push_port_ranges(out: &mut Vec<u8>, ranges: &[PortRange]) -> Result<(), AllocError>
    ensures { OnOk result (out.new.items ≡ out.old.items ++ flat_map port_range_value ranges.now) }
{
    'ports: for range in ranges {
        push_port_range(out, *range)?;
    }
    Ok(())
}

/// Writes an intercept: its protocols, its addresses and its ranges of ports.
pub(crate) fn push_intercept(out: &mut Vec<u8>, intercept: &Intercept) -> Result<(), AllocError>
    requires { is_intercept intercept.now ≡ true }
    ensures { OnOk result (out.new.items ≡ out.old.items ++ intercept_value intercept.now) }
{
    out.push(protocols_byte(intercept.tcp, intercept.udp))?;
    out.push(intercept.addresses.len() as u8)?;
    push_addresses(out, intercept.addresses.as_slice())?;
    out.push(intercept.ports.len() as u8)?;
    push_port_ranges(out, intercept.ports.as_slice())
}
