//! Circuits that go over another path in runs on a folder: the rows that are put for them, what the next run shows, and a command by which one goes over
//! another path and another one ends, which stops at each moment: both are so, or neither.

use crate::checks::{
    COMPACT, EMPTY, Run, answers, answers_leaving, has_rows, holds, leaves, left_at, ran,
    says_one_of,
};
use crate::stops::CHOICES;
use ctrl_serve::Status;
use sample_runs::{ANN, FIRST, How, Talk, parts_in, parts_of};
use std::alloc::{AllocError, Global};
use std::process::Abort;
use std::test::Fail;
use ziti_desk::MemDesk;
use ziti_outside::Part;

/// The record of the router r2 through which no path may pass, alone, with the serial 17 behind the 16 changes of the network.
const CLOSED_ALONE: &[u8] =
    b"\x01\x21\0\0\0\x01\x05\x05\0\0\0\x02\x07\0\0\0\x02r2\0\0\0\x03\x01\x01\x11\x08\0\0\0\x11\0\0\0\0\0\0\0";

/// That of the policy by which ann may dial web, which goes, and of its count. The circuit stays, as in a folder of a program that did not
/// end the circuits which nothing grants any more.
const GRANT_GONE: &[u8] =
    b"\x01\x21\0\0\0\x02\x05\x07\0\0\0\x01\x02\x09\x0c\0\0\0\x01\0\0\0\x01\x01\x01\x11\x08\0\0\0\x11\0\0\0\0\0\0\0";

/// A run on the folder that has the former record: it is damaged at the closed gate.
const DAMAGED: Run<'static> = Run {
    what: "path",
    words: &["replay"],
    how: How::AMPLE,
    input: ANN,
    ended: (Status::Damaged, b"", b"zitictl: damaged: file 0 at 973\n"),
};

/// What the folder answers that has the latter one.
const UNGRANTED: &str = "ON_LINE\n1000 {\"name\":\"bob\"} -> {\"no\":2}\nGONE";

/// A run on the folder of the one before, and the record that it puts behind that one's, with the next serial.
type Step = (&'static str, &'static [u8]);

const STEPS: &[Step] = &[
    // The router r2, and the circuit that then goes over the link 3: the identity, the service, the terminator and the ingress are each the first.
    (
        "ON_LINE CLOSED ON_DEAR_LINK",
        b"\x01\x41\0\0\0\x01\x05\x05\0\0\0\x02\x07\0\0\0\x02r2\0\0\0\x03\x01\x05\x0b\0\0\0\x01\x15\0\0\0\x01\0\0\0\x01\0\0\0\x01\0\0\0\x01\0\0\0\x01\x03\0\0\0\x01\x01\x11\x08\0\0\0\x11\0\0\0\0\0\0\0",
    ),
    // The router through which paths may pass again: the circuit stays, so its row is not put.
    (
        "ON_DEAR_LINK OPENED ON_DEAR_LINK",
        b"\x01\x21\0\0\0\x01\x05\x05\0\0\0\x02\x07\0\0\0\x02r2\0\0\0\x02\x01\x01\x11\x08\0\0\0\x12\0\0\0\0\0\0\0",
    ),
    // The link 3, which goes, and the circuit, which goes back over the links 1 and 2.
    (
        "ON_DEAR_LINK\n1204 {\"link\":\"l3\"} -> {}\nON_LINE",
        b"\x01\x3a\0\0\0\x02\x05\x06\0\0\0\x03\x01\x05\x0b\0\0\0\x01\x19\0\0\0\x01\0\0\0\x01\0\0\0\x01\0\0\0\x01\0\0\0\x02\x01\0\0\0\x02\0\0\0\x01\x01\x11\x08\0\0\0\x13\0\0\0\0\0\0\0",
    ),
    // The router r1, which is off, and the circuit, which goes.
    (
        "ON_LINE\n1024 {\"name\":\"r1\"} -> {}\nGONE",
        b"\x01\x28\0\0\0\x01\x05\x05\0\0\0\x01\x07\0\0\0\x02r1\0\0\0\0\x02\x05\x0b\0\0\0\x01\x01\x01\x11\x08\0\0\0\x14\0\0\0\0\0\0\0",
    ),
    // The router r1, which is connected again.
    (
        "GONE\n1023 {\"name\":\"r1\"} -> {}\nGONE",
        b"\x01\x21\0\0\0\x01\x05\x05\0\0\0\x01\x07\0\0\0\x02r1\0\0\0\x02\x01\x01\x11\x08\0\0\0\x15\0\0\0\0\0\0\0",
    ),
];

// The slot that keeps the circuit on the line, and the dear link.
fn network(rt: &impl Abort, alloc: Global) -> Result<Vec<u8>, AllocError> {
    let desk = answers(rt, alloc, EMPTY, "PAIR ENTRY LINE OVER_LINE DEAR_LINK")?;
    Vec::from_slice(alloc, desk.part(Part::Zero))
}

// A slot with one record more.
fn with_record(alloc: Global, slot: &[u8], record: &[u8]) -> Result<Vec<u8>, AllocError> {
    let mut longer = Vec::from_slice(alloc, slot)?;
    longer.pop();
    longer.extend_from_slice(record)?;
    longer.push(0)?;
    Ok(longer)
}

// The rows of a step are answered on a slot, and leave a longer one.
fn lengthens(
    rt: &impl Abort,
    alloc: Global,
    rows: &str,
    slot: &[u8],
    longer: &[u8],
) -> Result<(), AllocError> {
    let (before, behind) = ([slot, b"", FIRST], [longer, b"", FIRST]);
    answers_leaving(rt, alloc, How::AMPLE, rows, before, behind)
}

// A step on a slot, which is then the longer one.
fn steps(
    rt: &impl Abort,
    alloc: Global,
    slot: &mut Vec<u8>,
    step: &Step,
) -> Result<(), AllocError> {
    let (rows, record) = *step;
    let longer = with_record(alloc, slot.as_slice(), record)?;
    lengthens(rt, alloc, rows, slot.as_slice(), longer.as_slice())?;
    *slot = longer;
    Ok(())
}

// A folder in which a circuit's path has failed keeps no valid state, though there is another path: none is found for it as it opens.
fn opens_to_nothing(rt: &impl Abort, alloc: Global, slot: &[u8]) -> Result<(), AllocError> {
    let slot = with_record(alloc, slot, CLOSED_ALONE)?;
    let parts = [slot.as_slice(), b"", FIRST];
    leaves(rt, alloc, &DAMAGED, parts, parts)
}

// A folder in which a circuit stands that nothing grants opens as it is: the circuit is shown, and ends with the first command that
// changes something.
fn ends_ungranted(rt: &impl Abort, alloc: Global, slot: &[u8]) -> Result<(), AllocError> {
    let slot = with_record(alloc, slot, GRANT_GONE)?;
    let parts = [slot.as_slice(), b"", FIRST];
    answers(rt, alloc, parts, UNGRANTED)?;
    Ok(())
}

#[test]
fn keeps_the_path_that_a_circuit_goes_over(rt: HostRuntime) -> Result<(), Fail> {
    let mut slot = network(&rt, rt.alloc())?;
    opens_to_nothing(&rt, rt.alloc(), slot.as_slice())?;
    ends_ungranted(&rt, rt.alloc(), slot.as_slice())?;
    for step in STEPS {
        steps(&rt, rt.alloc(), &mut slot, step)?;
    }
    Ok(())
}

/// What is shown of both circuits before the command, and behind it.
#[derive(Drop)]
struct Shown {
    before: Talk,
    behind: Talk,
}

// The slot that has the rows of a desk's folder in one record. The first slot of the folder stands.
fn compacted(rt: &impl Abort, alloc: Global, desk: &MemDesk) -> Result<Vec<u8>, AllocError> {
    let compact = ran(rt, alloc, &COMPACT, parts_of(desk))?;
    Vec::from_slice(alloc, compact.part(Part::One))
}

// Whether a folder of these parts keeps the circuits as they are behind the command. Else it keeps them as they were before. It has all rows of then too.
fn is_behind(
    rt: &impl Abort,
    alloc: Global,
    parts: [&[u8]; 3],
    slots: [&[u8]; 2],
    shown: &Shown,
) -> Result<bool, AllocError> {
    let texts = [shown.before.wanted(), shown.behind.wanted()];
    let input = shown.behind.input();
    let place = says_one_of(rt, alloc, &["replay"], input, parts, &texts)?;
    has_rows(rt, alloc, parts, slots.get(place).unwrap_or(&slots[0]))?;
    Ok(place == 1)
}

// The folder that a stop leaves has the circuits and all rows of before the command or of behind it; at first the former, and the
// latter where the reply was taken.
fn stops_at(
    rt: &impl Abort,
    alloc: Global,
    desk: &MemDesk,
    stop: [u64; 2],
    slots: [&[u8]; 2],
    shown: &Shown,
) -> Result<bool, AllocError> {
    let [moment, choice] = stop;
    let left = left_at(rt, alloc, desk, moment, choice)?;
    let behind = is_behind(rt, alloc, parts_in(&left.images), slots, shown)?;
    holds(rt, "answered", behind || left.taken < desk.said().len());
    holds(rt, "at first", moment > 0 || !behind);
    Ok(behind)
}

// In the end it has those of behind the command.
fn stops_by(
    rt: &impl Abort,
    alloc: Global,
    desk: &MemDesk,
    choice: u64,
    slots: [&[u8]; 2],
    shown: &Shown,
) -> Result<(), AllocError> {
    let mut behind = false;
    for moment in 0u64..desk.moments().saturating_add(1) {
        behind = stops_at(rt, alloc, desk, [moment, choice], slots, shown)?;
    }
    holds(rt, "in the end", behind);
    Ok(())
}

// Stops the command on a folder at each moment, by each choice: a record takes two writes and two syncs, and the reply one say.
fn stops(
    rt: &impl Abort,
    alloc: Global,
    desk: &MemDesk,
    slots: [&[u8]; 2],
    shown: &Shown,
) -> Result<(), AllocError> {
    holds(rt, "five moments", desk.moments() >= 5);
    for choice in CHOICES {
        stops_by(rt, alloc, desk, choice, slots, shown)?;
    }
    Ok(())
}

// Makes the command on a folder that keeps both circuits.
fn stops_from(
    rt: &impl Abort,
    alloc: Global,
    first: &MemDesk,
    shown: &Shown,
) -> Result<(), AllocError> {
    let before = compacted(rt, alloc, first)?;
    let desk = answers(rt, alloc, parts_of(first), "SECOND_OFF")?;
    let behind = compacted(rt, alloc, &desk)?;
    let slots = [before.as_slice(), behind.as_slice()];
    stops(rt, alloc, &desk, slots, shown)
}

fn check_stops(rt: &impl Abort, alloc: Global, shown: &Shown) -> Result<(), AllocError> {
    let first = answers(rt, alloc, EMPTY, "PAIR ENTRY LINE TWO_CIRCUITS")?;
    stops_from(rt, alloc, &first, shown)
}

fn both_shown(alloc: Global) -> Result<Shown, AllocError> {
    Ok(Shown {
        before: Talk::of(alloc, "ON_LINE SECOND_ON_LINK")?,
        behind: Talk::of(alloc, "ON_DEAR_LINK SECOND_GONE")?,
    })
}

#[test]
fn finds_both_circuits_judged_or_neither(rt: HostRuntime) -> Result<(), Fail> {
    let shown = both_shown(rt.alloc())?;
    check_stops(&rt, rt.alloc(), &shown)?;
    Ok(())
}
