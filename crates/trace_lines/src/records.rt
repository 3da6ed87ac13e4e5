ghost use Rattle.std.specs.Prelude.{◌≡◌, ◌++◌, ◌≤◌, OnOk, length};
ghost use Rattle.session_mux.specs.Arrivals.{Open, Close, record_bytes, role_byte, name_bytes};

use ctrl_model::Who;
use std::alloc::AllocError;

fn role_byte(who: &Who) -> u8
    ensures { result ≡ role_byte who.now }
{
    match who {
        Who::Admin => 0,
        Who::Router(_) => 1,
        Who::Identity(_) => 2,
    }
}

fn name_bytes(who: &Who) -> &[u8]
    ensures name { result.now ≡ name_bytes who.now }
    ensures few { length result.now ≤ 64 }
{
    match who {
        Who::Admin => b"",
        Who::Router(name) => name.bytes(),
        Who::Identity(name) => name.bytes(),
    }
}

/// Puts the record down by which a session is opened by someone.
pub fn put_open(out: &mut Vec<u8>, session: u8, who: &Who) -> Result<(), AllocError>
    ensures { OnOk result (out.new.items ≡ out.old.items ++ record_bytes (Open session who.now)) }
{
    let name = name_bytes(who);
    out.push(1)?;
    out.push(session)?;
    out.push(role_byte(who))?;
    out.push(name.len() as u8)?;
    out.extend_from_slice(name)
}

/// Puts the record down by which a session is closed.
pub fn put_close(out: &mut Vec<u8>, session: u8) -> Result<(), AllocError>
    ensures { OnOk result (out.new.items ≡ out.old.items ++ record_bytes (Close session)) }
{
    out.push(3)?;
    out.push(session)?;
    Ok(())
}
