//! A realistic network: 300 identities, 40 services, 12 routers with 30 links, 25 policies, 40 terminators and 200 circuits.

use crate::checks::{are_bytes, holds, is_status, run_input, steady_desk};
use ctrl_serve::Status;
use sample_runs::{FIRST, model, parts_of, push_reply, push_request};
use std::alloc::{AllocError, Global};
use std::process::Abort;
use std::test::Fail;
use ziti_desk::MemDesk;

/// What is counted behind all frames.
const COUNTS: &str =
    r#"{"circuits":200,"grants":16520,"identities":300,"links":30,"policies":25,"routers":12,"services":40,"terminators":40}"#;

/// Replies to frames of the model, each by its place and with its body: to the requests of two circuits, and the last one.
const REPLIES: [(u32, &str); 3] = [
    (
        459,
        r#"{"circuit":1,"ingress":"r1","links":[2],"terminator":1,"total":11}"#,
    ),
    (
        462,
        r#"{"circuit":4,"ingress":"r9","links":[],"terminator":4,"total":0}"#,
    ),
    (659, COUNTS),
];

/// How many bytes the slot has that keeps the model.
const SLOT_SIZE: usize = 318_440;

/// Their digest by FNV-1a. Both were found by a program of its own, which laid the slot out from the layout of rows and the rules of
/// routes alone: 659 records with the serials from 1 to 659, and behind them 17,177 rows, of which 16,520 are grants and one is the serial.
const SLOT_DIGEST: u64 = 0x25f1_e94c_2a91_f914;

// Whether the frame stands somewhere in the bytes.
fn has_frame(bytes: &[u8], frame: &[u8]) -> bool {
    let mut places = 0..bytes.len();
    places.any(|place| bytes[place..].starts_with(frame))
}

// A reply was said.
fn has_reply(
    rt: &impl Abort,
    alloc: Global,
    said: &[u8],
    sequence: u32,
    body: &str,
) -> Result<(), AllocError> {
    let mut reply = Vec::new(alloc);
    push_reply(&mut reply, sequence, body)?;
    holds(rt, body, has_frame(said, reply.as_slice()));
    Ok(())
}

// The replies were said.
fn has_replies(rt: &impl Abort, alloc: Global, said: &[u8]) -> Result<(), AllocError> {
    for (sequence, body) in REPLIES {
        has_reply(rt, alloc, said, sequence, body)?;
    }
    Ok(())
}

// The counts were said last, as the reply of this number.
fn ends_with(rt: &impl Abort, alloc: Global, said: &[u8], sequence: u32) -> Result<(), AllocError> {
    let mut last = Vec::new(alloc);
    push_reply(&mut last, sequence, COUNTS)?;
    holds(rt, COUNTS, said.ends_with(last.as_slice()));
    Ok(())
}

// Runs the model on a desk, which says the replies, and the counts last.
fn says_model(
    rt: &impl Abort,
    alloc: Global,
    word: &str,
    input: &[u8],
    desk: &mut MemDesk,
) -> Result<(), AllocError> {
    let status = run_input(alloc, &[word], input, desk)?;
    is_status(rt, word, status, Status::Done);
    has_replies(rt, alloc, desk.said())?;
    ends_with(rt, alloc, desk.said(), 659)
}

fn answers(rt: &impl Abort, alloc: Global, input: &[u8]) -> Result<(), AllocError> {
    let mut desk = steady_desk(alloc)?;
    says_model(rt, alloc, "dry", input, &mut desk)
}

#[test]
fn answers_a_realistic_network(rt: HostRuntime) -> Result<(), Fail> {
    let input = model(rt.alloc())?;
    answers(&rt, rt.alloc(), input.as_slice())?;
    Ok(())
}

// The digest of bytes.
fn digest(bytes: &[u8]) -> u64 {
    let mut state = 0xcbf2_9ce4_8422_2325u64;
    for byte in bytes {
        state = (state ^ u64::from(*byte)).wrapping_mul(0x0100_0000_01b3);
    }
    state
}

// The folder keeps the model.
fn has_model(rt: &impl Abort, desk: &MemDesk) {
    let [zero, one, mark] = parts_of(desk);
    holds(rt, "size", zero.len() == SLOT_SIZE);
    holds(rt, "digest", digest(zero) == SLOT_DIGEST);
    are_bytes(rt, "other slot", one, b"");
    are_bytes(rt, "mark", mark, FIRST);
}

// Behind the model a run on some frames keeps it.
fn keeps_model(
    rt: &impl Abort,
    alloc: Global,
    desk: &mut MemDesk,
    input: &[u8],
) -> Result<(), AllocError> {
    let status = run_input(alloc, &["replay"], input, desk)?;
    is_status(rt, "replay", status, Status::Done);
    has_model(rt, desk);
    Ok(())
}

// The counts of the model are shown by another run, and nothing is asked by a third.
fn shows_model(rt: &impl Abort, alloc: Global, desk: &mut MemDesk) -> Result<(), AllocError> {
    let mut asks = Vec::new(alloc);
    push_request(&mut asks, 1502, "{}")?;
    keeps_model(rt, alloc, desk, asks.as_slice())?;
    ends_with(rt, alloc, desk.said(), 0)?;
    let said = desk.said().len();
    keeps_model(rt, alloc, desk, b"")?;
    holds(rt, "said", desk.said().len() == said);
    Ok(())
}

fn keeps(rt: &impl Abort, alloc: Global, input: &[u8]) -> Result<(), AllocError> {
    let mut desk = steady_desk(alloc)?;
    says_model(rt, alloc, "replay", input, &mut desk)?;
    has_model(rt, &desk);
    shows_model(rt, alloc, &mut desk)
}

#[test]
fn keeps_a_realistic_network(rt: HostRuntime) -> Result<(), Fail> {
    let input = model(rt.alloc())?;
    keeps(&rt, rt.alloc(), input.as_slice())?;
    Ok(())
}
