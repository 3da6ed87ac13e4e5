//! Two sessions: what comes first by its last byte is answered first, and each session's replies are numbered.

use crate::checks::{has_ended, run_input, steady_desk};
use ctrl_serve::Status;
use sample_runs::{Talk, push_reply, push_request};
use std::alloc::{AllocError, Global};
use std::process::Abort;
use std::test::Fail;
use ziti_desk::MemDesk;

/// Traces behind the records that open session 0 by an administrator and session 1 by the identity ann, on a folder with the line, where her route
/// has both links. A line is a session and a whole frame, the first 20 bytes of one, or the rest of it; or a session and the next reply to it.
const TRACES: &str = r#"
# The deletion ends first.
1 first 1400 {"identity":"ann","service":"web"}
0 whole 1102 {"name":"d"}
1 rest 1400 {"identity":"ann","service":"web"}
0 replies 0 {}
1 replies 0 {"code":33,"name":"NoDial"}

# The request ends before the deletion.
0 first 1102 {"name":"d"}
1 whole 1400 {"identity":"ann","service":"web"}
0 rest 1102 {"name":"d"}
1 replies 0 {"circuit":1,"ingress":"r1","links":[1,2],"terminator":1,"total":42}
0 replies 0 {}

# An open circuit makes the terminator dearer by one.
1 whole 1400 {"identity":"ann","service":"web"}
1 whole 1400 {"identity":"ann","service":"web"}
1 replies 0 {"circuit":1,"ingress":"r1","links":[1,2],"terminator":1,"total":42}
1 replies 1 {"circuit":2,"ingress":"r1","links":[1,2],"terminator":1,"total":43}

# The same request of both sessions in turn, twice.
0 whole 1000 {"name":"bob"}
1 whole 1000 {"name":"bob"}
0 whole 1000 {"name":"bob"}
1 whole 1000 {"name":"bob"}
0 replies 0 {"no":2}
1 replies 0 {"code":12,"name":"NotPermitted"}
0 replies 1 {"code":20,"name":"Exists"}
1 replies 1 {"code":12,"name":"NotPermitted"}

# Ann asks for herself alone, and sets nothing.
1 whole 1601 {"service":"web"}
1 whole 1610 {"identity":"bob","protocol":"tcp","address":"example.org","port":443}
1 whole 1610 {"identity":"ann","protocol":"tcp","address":"example.org","port":443}
1 whole 1611 {"identity":"ann","service":"web"}
1 replies 0 {"code":12,"name":"NotPermitted"}
1 replies 1 {"code":12,"name":"NotPermitted"}
1 replies 2 {"code":50,"name":"NoIntercept"}
1 replies 3 {"clashes":[]}
"#;

/// Session 0 is opened by an administrator, and session 1 by the identity ann.
const OPENS: &[u8] = b"\x01\0\0\0\x01\x01\x02\x03ann";

/// A trace, and what is said to it.
#[derive(Drop)]
struct Exchange {
    trace: Vec<u8>,
    wanted: Vec<u8>,
}

// A line: the session, what it is, its number, and the body.
fn line_of(line: &str) -> Option<(u8, &str, u32, &str)> {
    let (session, rest) = line.split_once(' ')?;
    let (kind, rest) = rest.split_once(' ')?;
    let (number, body) = rest.split_once(' ')?;
    Some((
        session.parse::<u8>().ok()?,
        kind,
        number.parse::<u32>().ok()?,
        body,
    ))
}

// Puts a data record of a session behind a trace.
fn push_data(trace: &mut Vec<u8>, session: u8, bytes: &[u8]) -> Result<(), AllocError> {
    let len = u16::try_from(bytes.len()).unwrap_or(u16::MAX);
    trace.extend_from_slice(&[2, session])?;
    trace.extend_from_slice(&len.to_le_bytes())?;
    trace.extend_from_slice(bytes)
}

// Puts a data record with a whole frame of a request behind a trace, with the first 20 bytes of it, or with the rest.
fn push_frame(
    alloc: Global,
    trace: &mut Vec<u8>,
    session: u8,
    kind: &str,
    content: u32,
    body: &str,
) -> Result<(), AllocError> {
    let mut frame = Vec::new(alloc);
    push_request(&mut frame, content, body)?;
    let (first, rest) = frame.split_at(20.min(frame.len()));
    match kind {
        "first" => push_data(trace, session, first),
        "rest" => push_data(trace, session, rest),
        _ => push_data(trace, session, frame.as_slice()),
    }
}

impl Exchange {
    // Puts a line behind the others.
    fn put(&mut self, alloc: Global, line: &str) -> Result<(), AllocError> {
        let Some((session, kind, number, body)) = line_of(line) else {
            return Ok(());
        };
        if kind == "replies" {
            self.wanted.extend_from_slice(&[4, session])?;
            return push_reply(&mut self.wanted, number, body);
        }
        push_frame(alloc, &mut self.trace, session, kind, number, body)
    }

    fn put_lines(&mut self, alloc: Global, lines: &str) -> Result<(), AllocError> {
        for line in lines.lines() {
            self.put(alloc, line)?;
        }
        Ok(())
    }
}

// The trace and the replies of some lines, behind the replies that were said before.
fn exchange_of(alloc: Global, said: &[u8], lines: &str) -> Result<Exchange, AllocError> {
    let mut exchange = Exchange {
        trace: Vec::from_slice(alloc, OPENS)?,
        wanted: Vec::from_slice(alloc, said)?,
    };
    exchange.put_lines(alloc, lines)?;
    Ok(exchange)
}

// Replays the line on a desk, and then a trace on the folder that has it. All replies are compared.
fn replays_on(
    rt: &impl Abort,
    alloc: Global,
    lines: &str,
    line: &Talk,
    exchange: &Exchange,
    desk: &mut MemDesk,
) -> Result<(), AllocError> {
    let made = run_input(alloc, &["replay"], line.input(), desk)?;
    has_ended(rt, lines, made, desk, (Status::Done, line.wanted(), b""));
    let trace = exchange.trace.as_slice();
    let status = run_input(alloc, &["replay", "--sessions"], trace, desk)?;
    let ended = (Status::Done, exchange.wanted.as_slice(), b"".as_slice());
    has_ended(rt, lines, status, desk, ended);
    Ok(())
}

fn replays(
    rt: &impl Abort,
    alloc: Global,
    lines: &str,
    line: &Talk,
    exchange: &Exchange,
) -> Result<(), AllocError> {
    let mut desk = steady_desk(alloc)?;
    replays_on(rt, alloc, lines, line, exchange, &mut desk)
}

fn check_lines(rt: &impl Abort, alloc: Global, line: &Talk, lines: &str) -> Result<(), AllocError> {
    let exchange = exchange_of(alloc, line.wanted(), lines)?;
    replays(rt, alloc, lines, line, &exchange)
}

#[test]
fn answers_what_ends_first(rt: HostRuntime) -> Result<(), Fail> {
    let line = Talk::of(rt.alloc(), "PAIR ENTRY LINE")?;
    for lines in TRACES.split("\n\n") {
        check_lines(&rt, rt.alloc(), &line, lines)?;
    }
    Ok(())
}
