//! Folders with a byte changed, cut off or made up: where they are damaged, and to what the others open.

use crate::checks::{Run, answers, holds, leaves};
use ctrl_serve::Status;
use sample_runs::{FIRST, How, bytes_of};
use std::alloc::{AllocError, Global};
use std::process::Abort;
use std::test::Fail;

/// How a byte is changed: it goes up by one, all its bits are turned, or its last one is.
#[derive(Clone, Copy, Debug)]
enum Change {
    Rises,
    Turns,
    LastTurns,
}

/// What comes of each byte so changed in the slot of ann, web and the policy by which all may dial all: in its header, its three
/// records and its closed gate. Damaged is the place 0, a gate, by its number, or, as the rows are those of no valid state, the closed
/// gate, which is the fourth; at a dot the slot opens. A record has an open gate, a length, and puts, each with a key and a
/// value behind their lengths.
///
/// A slot opens where an open gate closes, as it does by any other byte; where a next number rises; and where a letter of a name
/// becomes another one, or a semantic that says nothing of `#all` the other one. Keys that do not rise, as behind a table whose bits
/// are turned, are no batch, and the next number of services that is put twice is no change. Each record ends in the put of the serial, one
/// more in each: where the first one's is another number, the second does not raise it.
const CHANGES: &[(Change, [&[u8]; 5])] = &[
    (
        Change::Rises,
        [
            b"00000000",
            b".111111421111....114444411114...4112111122222222",
            b".222222442222....224444422224...4222222222222222",
            b".333333443333....334444433334.4.44444433444444444333344333333333333333",
            b"4",
        ],
    ),
    (
        Change::Turns,
        [
            b"00000000",
            b".111111141111....1114444111144444112111122222222",
            b".222222242222....2224444222244444222222222222222",
            b".333333343333....33344443333444444444433344444444333344333333333333333",
            b".",
        ],
    ),
    (
        Change::LastTurns,
        [
            b"00000000",
            b".111111441111....1144444111144..4112111122222222",
            b".222222442222....224444422224...4222222222222222",
            b".333333443333....334444433334.4444444433444444444333344333333333333333",
            b"4",
        ],
    ),
];

/// The place of a byte that goes up by one, and what then is answered: gates that close, next numbers, and names.
const OPENED: &str = r#"
8 1502 {} -> {"circuits":0,"grants":0,"identities":0,"links":0,"policies":0,"routers":0,"services":0,"terminators":0}
56 1502 {} -> {"circuits":0,"grants":0,"identities":1,"links":0,"policies":0,"routers":0,"services":0,"terminators":0}
104 1502 {} -> {"circuits":0,"grants":0,"identities":1,"links":0,"policies":0,"routers":0,"services":1,"terminators":0}
21 1000 {"name":"bob"} -> {"no":3}
72 1010 {"name":"app"} -> {"no":16777218}
37 1500 {"identity":"bnn"} -> {"bind":[],"dial":[["web",1]],"routers":[]}
85 1501 {"identity":"ann"} -> {"services":["xeb"]}
133 1102 {"name":"q"} -> {}
135 1501 {"identity":"ann"} -> {"services":["web"]}
"#;

// The slot of ann, web and the policy with its count.
fn whole_slot(alloc: Global) -> Result<Vec<u8>, AllocError> {
    bytes_of(alloc, r"HEADER+ANN_KEPT+WEB_KEPT+GRANT_KEPT+\0")
}

fn changed_byte(change: Change, byte: u8) -> u8 {
    match change {
        Change::Rises => byte.wrapping_add(1),
        Change::Turns => !byte,
        Change::LastTurns => byte ^ 1,
    }
}

// A slot with one byte changed.
fn changed(
    alloc: Global,
    slot: &[u8],
    place: usize,
    change: Change,
) -> Result<Vec<u8>, AllocError> {
    let mut slot = Vec::from_slice(alloc, slot)?;
    if let Some(byte) = slot.get_mut(place) {
        *byte = changed_byte(change, *byte);
    }
    Ok(slot)
}

// What is noted of the slot, by its letter.
fn note_of(letter: u8) -> &'static str {
    match letter {
        b'0' => "zitictl: damaged: file 0 at 0\n",
        b'1' => "zitictl: damaged: file 0 at 8\n",
        b'2' => "zitictl: damaged: file 0 at 56\n",
        b'3' => "zitictl: damaged: file 0 at 104\n",
        b'4' => "zitictl: damaged: file 0 at 174\n",
        _ => "",
    }
}

// A folder whose first slot has these bytes is damaged where that is noted, or opens, and reads as before. Nothing is said.
fn check_slot(rt: &impl Abort, alloc: Global, slot: &[u8], letter: u8) -> Result<(), AllocError> {
    let parts = [slot, b"", FIRST];
    let noted = note_of(letter);
    let status = if noted.is_empty() {
        Status::Done
    } else {
        Status::Damaged
    };
    let run = Run {
        what: "byte",
        words: "replay",
        how: How::AMPLE,
        input: b"",
        ended: (status, b"", noted.as_bytes()),
    };
    leaves(rt, alloc, &run, parts, parts)?;
    Ok(())
}

fn check_changed(
    rt: &impl Abort,
    alloc: Global,
    slot: &[u8],
    place: usize,
    change: Change,
    letter: u8,
) -> Result<(), AllocError> {
    let slot = changed(alloc, slot, place, change)?;
    check_slot(rt, alloc, slot.as_slice(), letter)
}

// What comes of each byte of a stretch.
fn check_stretch(
    rt: &impl Abort,
    alloc: Global,
    slot: &[u8],
    first: usize,
    change: Change,
    letters: &[u8],
) -> Result<usize, AllocError> {
    let mut place = first;
    for letter in letters {
        check_changed(rt, alloc, slot, place, change, *letter)?;
        place = place.saturating_add(1);
    }
    Ok(place)
}

// What comes of each byte of the slot.
fn check_changes(
    rt: &impl Abort,
    alloc: Global,
    slot: &[u8],
    change: Change,
    stretches: [&[u8]; 5],
) -> Result<(), AllocError> {
    let mut place = 0usize;
    for letters in stretches {
        place = check_stretch(rt, alloc, slot, place, change, letters)?;
    }
    holds(rt, "each byte", place == slot.len());
    Ok(())
}

#[test]
fn finds_each_changed_byte(rt: HostRuntime) -> Result<(), Fail> {
    let slot = whole_slot(rt.alloc())?;
    for (change, stretches) in CHANGES {
        check_changes(&rt, rt.alloc(), slot.as_slice(), *change, *stretches)?;
    }
    Ok(())
}

// What the folder answers whose slot has one byte more at a place.
fn check_opened(
    rt: &impl Abort,
    alloc: Global,
    whole: &[u8],
    place: &str,
    row: &str,
) -> Result<(), AllocError> {
    let place = place.parse::<usize>().unwrap_or(0);
    let slot = changed(alloc, whole, place, Change::Rises)?;
    answers(rt, alloc, [slot.as_slice(), b"", FIRST], row)?;
    Ok(())
}

#[test]
fn opens_to_what_other_bytes_say(rt: HostRuntime) -> Result<(), Fail> {
    let whole = whole_slot(rt.alloc())?;
    for line in OPENED.trim_ascii().lines() {
        let (place, row) = line.split_once(' ').ok_or("a line has no place")?;
        check_opened(&rt, rt.alloc(), whole.as_slice(), place, row)?;
    }
    Ok(())
}

/// The letters of a slot of which so many bytes are left, from none to all: at its start, at a gate that is gone, or whose record is
/// cut, or at the closed gate, which is gone.
const CUTS: &[(usize, u8)] = &[
    (8, b'0'),
    (56, b'1'),
    (104, b'2'),
    (174, b'3'),
    (175, b'4'),
    (176, b'.'),
];

// What comes of the fronts of the slot from one length to before another.
fn check_fronts(
    rt: &impl Abort,
    alloc: Global,
    slot: &[u8],
    first: usize,
    behind: usize,
    letter: u8,
) -> Result<(), AllocError> {
    for left in first..behind {
        check_slot(rt, alloc, slot.get(..left).unwrap_or(b""), letter)?;
    }
    Ok(())
}

#[test]
fn finds_each_cut(rt: HostRuntime) -> Result<(), Fail> {
    let slot = whole_slot(rt.alloc())?;
    let mut first = 0usize;
    for (behind, letter) in CUTS {
        check_fronts(&rt, rt.alloc(), slot.as_slice(), first, *behind, *letter)?;
        first = *behind;
    }
    Ok(())
}
