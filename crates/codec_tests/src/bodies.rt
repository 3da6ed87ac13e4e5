//! Bodies of the commands on intercepts, read and written again: no run writes such a command.

ghost use Rattle.std.specs.Prelude.{◌≡◌, true, IfSome};
ghost use Rattle.ctrl_model.specs.SpelledCommands.{is_spelled};

use crate::checks::are_bytes;
use command_bodies::write;
use command_codec::read;
use ctrl_model::Command;
use std::alloc::Global;
use std::process::Abort;
use std::test::Fail;

/// A content type, a body of it, and behind ` -> ` the body that is written for the command which it spells.
const BODIES: &str = r#"
1600 {"service":"web","protocols":["udp","tcp"],"addresses":["Web.Example-1.com","_sip._tcp","10.1.2.9/16","*.A","10.1.0.0/16","10.1.2.3/32"],"ports":[[443,443],[1,65535],[443,443]]} -> {"addresses":["web.example-1.com","_sip._tcp","10.1.0.0/16","*.a","10.1.2.3"],"ports":[[443,443],[1,65535]],"protocols":["tcp","udp"],"service":"web"}
1600 {"service":"web","protocols":["udp","udp"],"addresses":["0.0.0.0/0"],"ports":[[1,1]]} -> {"addresses":["0.0.0.0/0"],"ports":[[1,1]],"protocols":["udp"],"service":"web"}
1601 {"service":"web"} -> {"service":"web"}
1610 {"identity":"ann","protocol":"tcp","address":"API.example.org","port":443} -> {"address":"api.example.org","identity":"ann","port":443,"protocol":"tcp"}
1610 {"identity":"ann","protocol":"udp","address":"10.1.2.3/32","port":65535} -> {"address":"10.1.2.3","identity":"ann","port":65535,"protocol":"udp"}
1611 {"identity":"ann","service":"web"} -> {"identity":"ann","service":"web"}
"#;

// The command that a body spells under a content type.
fn command_of(alloc: Global, content: u32, body: &str) -> Option<Command>
    ensures { IfSome result (λ c. is_spelled c ≡ true) }
{
    read(alloc, content, body.as_bytes()).ok()
}

// The content type and the body of a row, and the body that is written.
fn row_of(row: &str) -> Option<(u32, &str, &str)> {
    let (request, written) = row.split_once(" -> ")?;
    let (content, body) = request.split_once(' ')?;
    Some((content.parse::<u32>().ok()?, body, written))
}

fn is_written(rt: &impl Abort, alloc: Global, row: &str) -> Result<(), Fail> {
    let (content, body, wanted) = row_of(row).ok_or("a line is no row")?;
    let command = command_of(alloc, content, body).ok_or("a body spells no command")?;
    let written = write(alloc, &command);
    drop(command);
    are_bytes(rt, written?.as_slice(), wanted.as_bytes());
    Ok(())
}

#[test]
fn commands_on_intercepts_are_written(rt: HostRuntime) -> Result<(), Fail> {
    for row in BODIES.trim_ascii().lines() {
        is_written(&rt, rt.alloc(), row)?;
    }
    Ok(())
}
