//! Frames that are followed, each case with its replies, and what is shipped of one folder into another.

use crate::checks::{EMPTY, Run, are_bytes, desk_on, has_parts, is_status, leaves, run_words};
use ctrl_serve::Status;
use sample_runs::{How, bytes_of, folder_of, parts_in, push_reply};
use std::alloc::{AllocError, Global};
use std::process::Abort;
use std::test::Fail;
use ziti_desk::MemDesk;

/// Cases: behind `| ` a folder, its bounds and the folder behind the frames; and a line for each frame: its content type (1900 is a Whole, 1901 a Next), its
/// headers, its body, and the body of its reply. The headers are those of a serial, of a piece's number and of a count of pieces, or, behind `=`, a part.
const FOLLOWED: &str = r##"
# No piece of a batch: another content type, a header that is wanting or of another length, a count of none or of too many, a number that is none of
# so many, and a body of another size.
| ANN_SLOT - FIRST | - | ANN_SLOT - FIRST
1902 2 0 1 | BATCH_BOB | {"code":60,"name":"BadShip"}
1000 2 0 1 | BATCH_BOB | {"code":60,"name":"BadShip"}
1901 = NO_COUNT | BATCH_BOB | {"code":60,"name":"BadShip"}
1901 = SHORT_SERIAL | BATCH_BOB | {"code":60,"name":"BadShip"}
1901 2 0 0 | BATCH_BOB | {"code":60,"name":"BadShip"}
1901 2 0 1025 | BATCH_BOB | {"code":60,"name":"BadShip"}
1901 2 1 1 | BATCH_BOB | {"code":60,"name":"BadShip"}
1901 2 0 2 | BATCH_BOB | {"code":60,"name":"BadShip"}
1901 2 0 1 | - | {"code":60,"name":"BadShip"}

# Of a header that stands twice the last counts.
| ANN_SLOT - FIRST | - | HEADER+ANN_KEPT+BOB_KEPT+\0 - FIRST
1901 = COUNT_TWICE | BATCH_BOB | {"own":2,"taken":"Took"}

# A piece that goes on with no batch in parts.
| ANN_SLOT - FIRST | - | ANN_SLOT - FIRST
1901 2 1 2 | BATCH_BOB | {"code":64,"name":"Skipped"}
1901 2 0 2 | a*1048576 | {"own":1,"taken":"Piece"}
1901 3 1 2 | BATCH_BOB | {"code":64,"name":"Skipped"}
1900 2 1 2 | BATCH_BOB | {"code":64,"name":"Skipped"}
1902 2 1 2 | BATCH_BOB | {"code":60,"name":"BadShip"}
1901 2 1 2 | BATCH_BOB | {"code":61,"name":"BadBatch"}
1901 2 1 2 | BATCH_BOB | {"code":64,"name":"Skipped"}

# Bytes that are no batch, also of what comes late; and a Whole that is no difference of no rows, or gives another serial.
| ANN_SLOT - FIRST | - | ANN_SLOT - FIRST
1901 2 0 1 | \x03 | {"code":61,"name":"BadBatch"}
1901 1 0 1 | \x03 | {"code":61,"name":"BadBatch"}
1900 2 0 1 | BATCH_ANN | {"code":61,"name":"BadBatch"}
1900 1 0 1 | BATCH_GOES | {"code":61,"name":"BadBatch"}

# What is kept already, what differs from it, and what is kept no more.
| ANN_SLOT - FIRST | - | ANN_SLOT - FIRST
1900 1 0 1 | BATCH_ANN | {"own":1,"taken":"Repeat"}
1900 1 0 1 | BATCH_ANM | {"at":26,"code":62,"name":"Differs","serial":1}
1900 1 0 1 | BATCH_TAGGED | {"at":19,"code":62,"name":"Differs","serial":1}
1901 1 0 1 | BATCH_BOB | {"own":1,"taken":"Old"}
1901 0 0 1 | BATCH_BOB | {"own":1,"taken":"Old"}
1900 0 0 1 | BATCH_UNCOUNTED | {"own":1,"taken":"Old"}

| ANN_SLOT - FIRST | - | ANN_SLOT - FIRST
1901 3 0 1 | BATCH_BOB_THIRD | {"code":63,"name":"Ahead","own":1}

| - - - | - | BARE_SLOT - FIRST
1901 1 0 1 | BATCH_ANN | {"code":63,"name":"Ahead","own":0}

# Rows of another serial, of no state, and a put that changes nothing.
| ANN_SLOT - FIRST | - | ANN_SLOT - FIRST
1901 2 0 1 | BATCH_BOB_THIRD | {"code":61,"name":"BadBatch"}

| ANN_SLOT - FIRST | - | ANN_SLOT - FIRST
1901 2 0 1 | BATCH_UNNUMBERED | {"code":61,"name":"BadBatch"}

| ANN_SLOT - FIRST | - | ANN_SLOT - FIRST
1901 2 0 1 | BATCH_EQUAL | {"code":61,"name":"BadBatch"}

# No room.
| ANN_SLOT - FIRST | slot=64 | ANN_SLOT - FIRST
1901 2 0 1 | BATCH_BOB | {"code":40,"name":"JournalFull"}

| ANN_SLOT - FIRST | slot=64 | ANN_SLOT - FIRST
1900 2 0 1 | BATCH_BOTH | {"code":40,"name":"JournalFull"}

| ANN_SLOT - FIRST | mark=1 | ANN_SLOT - FIRST
1900 2 0 1 | BATCH_BOTH | {"code":41,"name":"MarkFull"}

# What is taken, in pieces of the input of any size.
| ANN_SLOT - FIRST | - | HEADER+ANN_KEPT+BOB_KEPT+\0 - FIRST
1901 2 0 1 | BATCH_BOB | {"own":2,"taken":"Took"}

| ANN_SLOT - FIRST | piece=1 | HEADER+ANN_KEPT+BOB_KEPT+\0 - FIRST
1901 2 0 1 | BATCH_BOB | {"own":2,"taken":"Took"}

| ANN_SLOT - FIRST | - | - BOTH_SLOT SECOND
1900 2 0 1 | BATCH_BOTH | {"own":2,"taken":"Took"}

| ANN_SLOT - FIRST | - | - HEADER+\x01\x3b\0\0\0\x01\x02\x01\x01\x04\0\0\0\x03\0\0\0\x01\x05\x03\0\0\0\x01\x05\0\0\0\x03ann\0\x01\x05\x03\0\0\0\x02\x05\0\0\0\x03bob\0\x01\x01\x11\x08\0\0\0\x09\0\0\0\0\0\0\0\0 SECOND
1900 9 0 1 | BATCH_BOTH_NINTH | {"own":9,"taken":"Took"}

| - - - | - | HEADER+ANN_KEPT+BOB_KEPT+\0 - FIRST
1900 1 0 1 | BATCH_ANN | {"own":1,"taken":"Took"}
1901 2 0 1 | BATCH_BOB | {"own":2,"taken":"Took"}
1901 2 0 1 | BATCH_BOB | {"own":2,"taken":"Repeat"}
1900 1 0 1 | BATCH_ANN | {"own":2,"taken":"Repeat"}

# A folder of the first format is migrated before, and has no serial.
| OLD_ANN - FIRST | - | - NEW_ANN SECOND
1900 0 0 1 | BATCH_UNCOUNTED | {"own":0,"taken":"Repeat"}

# No frame.
| - - - | - | BARE_SLOT - FIRST
"##;

/// Folders that are shipped, and those that their frames make of an empty one.
const COPIES: &[(&str, &str)] = &[
    ("ANN_SLOT - FIRST", "ANN_SLOT - FIRST"),
    (
        r"HEADER+ANN_KEPT+BOB_KEPT+\0 - FIRST",
        r"HEADER+ANN_KEPT+BOB_KEPT+\0 - FIRST",
    ),
    ("- BOTH_SLOT SECOND", "BOTH_SLOT - FIRST"),
    (
        r"HEADER+ANN_KEPT+BOB_KEPT+WEB_THIRD+\0 - FIRST",
        r"HEADER+ANN_KEPT+BOB_KEPT+WEB_THIRD+\0 - FIRST",
    ),
    (
        r"HEADER+ANN_KEPT+WEB_KEPT+GRANT_KEPT+\0 - FIRST",
        r"HEADER+ANN_KEPT+WEB_KEPT+GRANT_KEPT+\0 - FIRST",
    ),
    ("OLD_ANN - FIRST", "NEW_ANN - FIRST"),
    ("OLD_BARE - FIRST", "BARE_SLOT - FIRST"),
    ("- - -", "BARE_SLOT - FIRST"),
];

/// The frames of a case, and the replies that are wanted.
#[derive(Drop)]
struct Exchange {
    input: Vec<u8>,
    wanted: Vec<u8>,
    replies: u32,
}

// Puts the header of a number in so many bytes.
fn push_header(bytes: &mut Vec<u8>, key: u32, len: usize, word: &str) -> Result<(), AllocError> {
    let number = word.parse::<u64>().unwrap_or(0).to_le_bytes();
    let (value, _) = number.split_at(len.min(8));
    bytes.extend_from_slice(&key.to_le_bytes())?;
    push_len(bytes, value)?;
    bytes.extend_from_slice(value)
}

// Puts three headers by their numbers.
fn push_headers(bytes: &mut Vec<u8>, numbers: &str) -> Result<(), AllocError> {
    let (serial, rest) = numbers.split_once(' ').unwrap_or((numbers, ""));
    let (number, count) = rest.split_once(' ').unwrap_or((rest, ""));
    push_header(bytes, 1000, 8, serial)?;
    push_header(bytes, 1001, 4, number)?;
    push_header(bytes, 1002, 4, count)
}

// Three headers by their numbers, or as they are spelled.
fn headers_of(alloc: Global, headers: &str) -> Result<Vec<u8>, AllocError> {
    if let Some(spelled) = headers.strip_prefix("= ") {
        return bytes_of(alloc, spelled);
    }
    let mut bytes = Vec::new(alloc);
    push_headers(&mut bytes, headers)?;
    Ok(bytes)
}

fn push_len(bytes: &mut Vec<u8>, part: &[u8]) -> Result<(), AllocError> {
    bytes.extend_from_slice(&u32::try_from(part.len()).unwrap_or(0).to_le_bytes())
}

// Puts a frame of the sequence number 7 behind the others.
fn push_sent(
    bytes: &mut Vec<u8>,
    content: u32,
    headers: &[u8],
    body: &[u8],
) -> Result<(), AllocError> {
    bytes.extend_from_slice(b"\x03\x06\x09\x0c")?;
    bytes.extend_from_slice(&content.to_le_bytes())?;
    bytes.extend_from_slice(b"\x07\0\0\0")?;
    push_len(bytes, headers)?;
    push_len(bytes, body)?;
    bytes.extend_from_slice(headers)?;
    bytes.extend_from_slice(body)
}

// A line of a frame: the content type, the headers, the body, and the body of its reply.
fn sent_of(line: &str) -> Option<(u32, &str, &str, &str)> {
    let (head, rest) = line.split_once(" | ")?;
    let (content, headers) = head.split_once(' ')?;
    let (body, reply) = rest.split_once(" | ")?;
    Some((content.parse::<u32>().ok()?, headers, body, reply))
}

impl Exchange {
    // Puts the frame of a line behind the others.
    fn put(
        &mut self,
        alloc: Global,
        content: u32,
        headers: &str,
        body: &str,
    ) -> Result<(), AllocError> {
        let headers = headers_of(alloc, headers)?;
        let body = bytes_of(alloc, body)?;
        push_sent(
            &mut self.input,
            content,
            headers.as_slice(),
            body.as_slice(),
        )
    }

    // Puts a line, if it is one of a frame.
    fn put_line(&mut self, alloc: Global, line: &str) -> Result<(), AllocError> {
        if line.starts_with('#') {
            return Ok(());
        }
        let Some((content, headers, body, reply)) = sent_of(line) else {
            return Ok(());
        };
        self.put(alloc, content, headers, body)?;
        push_reply(&mut self.wanted, self.replies, reply)?;
        self.replies = self.replies.wrapping_add(1);
        Ok(())
    }

    fn put_lines(&mut self, alloc: Global, lines: &str) -> Result<(), AllocError> {
        for line in lines.lines() {
            self.put_line(alloc, line)?;
        }
        Ok(())
    }
}

// The frames and the replies of a case.
fn exchange_of(alloc: Global, lines: &str) -> Result<Exchange, AllocError> {
    let mut exchange = Exchange {
        input: Vec::new(alloc),
        wanted: Vec::new(alloc),
        replies: 0,
    };
    exchange.put_lines(alloc, lines)?;
    Ok(exchange)
}

// The folder of a case, its bounds, the folder behind it, and the lines of the frames.
fn case_of(case: &str) -> Option<(&str, &str, &str, &str)> {
    let (_, rest) = case.split_once("| ")?;
    let (folder, rest) = rest.split_once(" | ")?;
    let (how, rest) = rest.split_once(" | ")?;
    let (behind, lines) = rest.split_once('\n').unwrap_or((rest, ""));
    Some((folder, how, behind, lines))
}

// The run that follows the frames of a case.
fn run_of<'r>(what: &'r str, how: How, exchange: &'r Exchange) -> Run<'r> {
    Run {
        what,
        words: "follow",
        how,
        input: exchange.input.as_slice(),
        ended: (Status::Done, exchange.wanted.as_slice(), b""),
    }
}

// Follows frames on a folder, which are answered as they have to be, and leave that folder.
fn follows(
    rt: &impl Abort,
    alloc: Global,
    lines: &str,
    how: How,
    folder: [&[u8]; 3],
    behind: [&[u8]; 3],
) -> Result<(), AllocError> {
    let exchange = exchange_of(alloc, lines)?;
    leaves(rt, alloc, &run_of(lines, how, &exchange), folder, behind)?;
    Ok(())
}

fn check_case(
    rt: &impl Abort,
    alloc: Global,
    case: (&str, &str, &str, &str),
) -> Result<(), AllocError> {
    let (folder, how, behind, lines) = case;
    let folder = folder_of(alloc, folder)?;
    let behind = folder_of(alloc, behind)?;
    let how = How::AMPLE.by(how);
    follows(rt, alloc, lines, how, parts_in(&folder), parts_in(&behind))
}

#[test]
fn answers_each_case(rt: HostRuntime) -> Result<(), Fail> {
    for case in FOLLOWED.split("\n\n") {
        let case = case_of(case).ok_or("a case has no head")?;
        check_case(&rt, rt.alloc(), case)?;
    }
    Ok(())
}

fn says(
    rt: &impl Abort,
    alloc: Global,
    words: &str,
    input: &[u8],
    desk: &mut MemDesk,
) -> Result<Vec<u8>, AllocError> {
    let status = run_words(alloc, words, How::AMPLE, input, desk)?;
    is_status(rt, words, status, Status::Done);
    are_bytes(rt, words, desk.noted(), b"");
    Vec::from_slice(alloc, desk.said())
}

// What words say of a folder.
fn said_by(
    rt: &impl Abort,
    alloc: Global,
    words: &str,
    parts: [&[u8]; 3],
) -> Result<Vec<u8>, AllocError> {
    let mut desk = desk_on(alloc, parts, &[])?;
    says(rt, alloc, words, b"", &mut desk)
}

// What is shipped of a folder makes a copy of an empty one.
fn copies(
    rt: &impl Abort,
    alloc: Global,
    leader: [&[u8]; 3],
    copy: [&[u8]; 3],
) -> Result<(), AllocError> {
    let shipped = said_by(rt, alloc, "ship,0", leader)?;
    let mut desk = desk_on(alloc, EMPTY, &[])?;
    says(rt, alloc, "follow", shipped.as_slice(), &mut desk)?;
    has_parts(rt, "copies", &desk, copy);
    Ok(())
}

// The counts of two folders are the same.
fn counts_same(
    rt: &impl Abort,
    alloc: Global,
    leader: [&[u8]; 3],
    copy: [&[u8]; 3],
) -> Result<(), AllocError> {
    let counts = said_by(rt, alloc, "audit", leader)?;
    let copied = said_by(rt, alloc, "audit", copy)?;
    are_bytes(rt, "counts", copied.as_slice(), counts.as_slice());
    Ok(())
}

fn check_copy(rt: &impl Abort, alloc: Global, leader: &str, copy: &str) -> Result<(), AllocError> {
    let leader = folder_of(alloc, leader)?;
    let copy = folder_of(alloc, copy)?;
    copies(rt, alloc, parts_in(&leader), parts_in(&copy))?;
    counts_same(rt, alloc, parts_in(&leader), parts_in(&copy))
}

#[test]
fn makes_a_copy_of_what_is_shipped(rt: HostRuntime) -> Result<(), Fail> {
    for (leader, copy) in COPIES {
        check_copy(&rt, rt.alloc(), leader, copy)?;
    }
    Ok(())
}
