//! Texts that say traces, and tagged replies told as lines.

use crate::checks::{are_bytes, is_told};
use std::alloc::{AllocError, Global};
use std::process::Abort;
use std::test::Fail;
use trace_lines::{TraceFault, tell_replies, trace};

/// Texts, the records that they say, and what is said of a line at which that ends. By the first session 0 is opened by an administrator, sends a frame of 34 bytes
/// and is closed.
const TRACED: &[(&[u8], &[u8], &str)] = &[
    (
        b"# ann\n0 open admin\r\n0 7 CreateIdentity {\"name\":\"ann\"}\n\n0 close\n",
        b"\x01\0\0\0\x02\0\x22\0\x03\x06\x09\x0c\xe8\x03\0\0\x07\0\0\0\0\0\0\0\x0e\0\0\0{\"name\":\"ann\"}\x03\0",
        "",
    ),
    (
        b"2 open router r1\n0 open admin x\n2 close\n",
        b"\x01\x02\x01\x02r1",
        "line 2: bad role",
    ),
    (
        b"7 open identity ann\n7 close\n7 Hello\n",
        b"\x01\x07\x02\x03ann\x03\x07",
        "line 3: session not open",
    ),
    (
        b"7 open admin\n7 Helo\n",
        b"\x01\x07\0\0",
        "line 2: unknown type",
    ),
];

// What is said of a fault, and nothing where there is none.
fn words_of(alloc: Global, fault: Option<TraceFault>) -> Result<String, AllocError> {
    match fault {
        Some(fault) => fault.text(alloc),
        None => Ok(String::new(alloc)),
    }
}

// A text says the records with these bytes, up to a line of which that is said.
fn says(
    rt: &impl Abort,
    alloc: Global,
    text: &[u8],
    bytes: &[u8],
    words: &str,
) -> Result<(), AllocError> {
    let traced = trace(alloc, text)?;
    are_bytes(rt, traced.bytes.as_slice(), bytes);
    let found = words_of(alloc, traced.fault)?;
    are_bytes(rt, found.as_bytes(), words.as_bytes());
    Ok(())
}

// A long frame is cut into pieces.
fn is_cut(rt: &impl Abort, alloc: Global) -> Result<(), AllocError> {
    let mut text = b"0 open admin\n0 Hello ".to_vec(alloc)?;
    text.resize(text.len() + 65_520, b'x')?;
    let traced = trace(alloc, text.as_slice())?;
    let bytes = traced.bytes.as_slice();
    assert!(rt; bytes.len() == 4 + 4 + 65_535 + 4 + 5);
    are_bytes(rt, &bytes[4..8], &[2, 0, 255, 255]);
    are_bytes(rt, &bytes[65_543..], b"\x02\0\x05\0xxxxx");
    Ok(())
}

#[test]
fn texts_say_traces(rt: HostRuntime) -> Result<(), Fail> {
    for (text, bytes, words) in TRACED {
        says(&rt, rt.alloc(), text, bytes, words)?;
    }
    is_cut(&rt, rt.alloc())?;
    Ok(())
}

/// Replies that are tagged with session 3, the text that tells them, and what is said of a reply at which that ends: the reply to the frame above and one that is
/// unfinished, and one without its tag.
const TOLD: &[(&[u8], &str, &str)] = &[
    (
        b"\x04\x03\x03\x06\x09\x0c\x02\0\0\0\0\0\0\0\x15\0\0\0\x08\0\0\0\x01\0\0\0\x04\0\0\0\x07\0\0\0\x02\0\0\0\x01\0\0\0\x01{\"no\":1}\x04\x03\x03\x06\x09\x0c\x02\0\0\0\0\0\0\0\x15\0\0\0\x08\0\0\0\x01\0\0\0\x04\0\0\0\x07\0\0\0\x02\0\0\0\x01\0\0\0\x01{\"no\":1",
        "3 7 ok {\"no\":1}\n",
        "frame 2: unfinished at 51",
    ),
    (
        b"\x03\x06\x09\x0c\x02\0\0\0\0\0\0\0\x15\0\0\0\x08\0\0\0\x01\0\0\0\x04\0\0\0\x07\0\0\0\x02\0\0\0\x01\0\0\0\x01{\"no\":1}",
        "",
        "frame 1: no tag at 0",
    ),
];

// Bytes are told by this text, up to a reply of which that is said.
fn tells(
    rt: &impl Abort,
    alloc: Global,
    bytes: &[u8],
    text: &str,
    words: &str,
) -> Result<(), AllocError> {
    let told = tell_replies(alloc, bytes)?;
    is_told(rt, alloc, &told, text, words)
}

#[test]
fn tagged_replies_are_told(rt: HostRuntime) -> Result<(), Fail> {
    for (bytes, text, words) in TOLD {
        tells(&rt, rt.alloc(), bytes, text, words)?;
    }
    Ok(())
}
