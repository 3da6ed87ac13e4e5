ghost use Rattle.std.specs.Prelude.{◌≡◌, ◌<◌, length, slice_index};
ghost use Rattle.session_mux.specs.RecordSteps.{IsLook, says_role};

use ctrl_model::Name;

/// What stands at the front of a trace, before it is known which sessions are open.
#[derive(Clone, Copy, PartialEq, Eq)]
pub enum Look {
    /// Less than a record.
    Unfinished,
    /// No record, whatever sessions are open.
    Bad,
    /// An open, with its role and the length of its name.
    Opens { session: u8, role: u8, len: u8 },
    /// Data, with its length.
    Brings { session: u8, len: u16 },
    /// A close.
    Closes { session: u8 },
}

fn is_role(role: u8, name: &[u8]) -> bool
    ensures { result ≡ says_role role name.now }
{
    match role {
        0 => name.is_empty(),
        1 => Name::is(name),
        2 => Name::is(name),
        _ => false,
    }
}

fn look_open(bytes: &[u8]) -> Look
    requires { (slice_index bytes.now 0 ≡ 1) × (0 < length bytes.now) }
    ensures { IsLook bytes.now result }
{
    if bytes.len() < 4 {
        return Look::Unfinished;
    }
    let len = bytes[3];
    if bytes.len() < 4 + len as usize {
        return Look::Unfinished;
    }
    let (session, role) = (bytes[1], bytes[2]);
    let (_, after) = bytes.split_at(4);
    let (name, _) = after.split_at(len as usize);
    if !is_role(role, name) {
        return Look::Bad;
    }
    Look::Opens { session, role, len }
}

fn look_data(bytes: &[u8]) -> Look
    requires { (slice_index bytes.now 0 ≡ 2) × (0 < length bytes.now) }
    ensures { IsLook bytes.now result }
{
    if bytes.len() < 4 {
        return Look::Unfinished;
    }
    let session = bytes[1];
    let len = u16::from_le_bytes([bytes[2], bytes[3]]);
    if bytes.len() < 4 + len as usize {
        return Look::Unfinished;
    }
    Look::Brings { session, len }
}

fn look_close(bytes: &[u8]) -> Look
    requires { (slice_index bytes.now 0 ≡ 3) × (0 < length bytes.now) }
    ensures { IsLook bytes.now result }
{
    if bytes.len() < 2 {
        return Look::Unfinished;
    }
    Look::Closes { session: bytes[1] }
}

/// What stands at the front of a trace.
pub fn peek(bytes: &[u8]) -> Look
    ensures { IsLook bytes.now result }
{
    if bytes.is_empty() {
        Look::Unfinished
    } else if bytes[0] == 1 {
        look_open(bytes)
    } else if bytes[0] == 2 {
        look_data(bytes)
    } else if bytes[0] == 3 {
        look_close(bytes)
    } else {
        Look::Bad
    }
}
