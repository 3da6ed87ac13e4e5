ghost use Rattle.std.specs.Prelude.{◌≡◌};
ghost use Rattle.std.specs.Str.{bytes_eq};
ghost use Rattle.ctrl_model.specs.Permitted.{router_may, identity_may, is_permitted};

use ctrl_model::{Command, Name, Who};

fn is_named(me: &Name, name: &Name) -> bool
    ensures { result ≡ bytes_eq me.now name.now }
{
    me.bytes() == name.bytes()
}

// Whether a router session of this name may send a command.
fn router_may(me: &Name, command: &Command) -> bool
    ensures { result ≡ router_may me.now command.now }
{
    match command {
        Command::Hello => true,
        Command::ConnectRouter { name } | Command::DisconnectRouter { name } => is_named(me, name),
        Command::ReportLatency { router, .. } | Command::ReportState { router, .. } => {
            is_named(me, router)
        }
        Command::CreateTerminator {
            router,
            host: None,
            ..
        } => is_named(me, router),
        _ => false,
    }
}

// Whether an identity session of this name may send a command.
fn identity_may(me: &Name, command: &Command) -> bool
    ensures { result ≡ identity_may me.now command.now }
{
    match command {
        Command::Hello => true,
        Command::CreateTerminator {
            host: Some(host),
            ..
        } => is_named(me, host),
        Command::CreateCircuit { identity, .. } | Command::Explain { identity, .. } => {
            is_named(me, identity)
        }
        Command::ShowGrants { identity } | Command::ListServices { identity } => {
            is_named(me, identity)
        }
        Command::Pick { identity, .. } | Command::ListClashes { identity, .. } => {
            is_named(me, identity)
        }
        _ => false,
    }
}

/// Whether a session may send a command: an admin session every command, a router session what concerns the router of its name
/// alone, and an identity session what concerns the identity of its name alone (docs/RULES.md, "Who may send what").
pub fn permitted(who: &Who, command: &Command) -> bool
    ensures { result ≡ is_permitted who.now command.now }
{
    match who {
        Who::Admin => true,
        Who::Router(me) => router_may(me, command),
        Who::Identity(me) => identity_may(me, command),
    }
}
