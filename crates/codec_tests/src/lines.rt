//! Frames told as lines, and lines that say frames. The run of `zitiline` shows where the latter end at a fault.

use crate::checks::{are_bytes, is_told};
use crate::samples::ANN;
use frame_lines::{check, decode, encode};
use std::alloc::{AllocError, Global};
use std::process::Abort;
use std::test::Fail;

/// A frame of each command on intercepts, with an object without members as its body: 1600, 1601, 1610 and 1611.
const INTERCEPTS: &[u8] =
    b"\x03\x06\x09\x0c\x40\x06\0\0\x01\0\0\0\0\0\0\0\x02\0\0\0{}\x03\x06\x09\x0c\x41\x06\0\0\x02\0\0\0\0\0\0\0\x02\0\0\0{}\x03\x06\x09\x0c\x4a\x06\0\0\x03\0\0\0\0\0\0\0\x02\0\0\0{}\x03\x06\x09\x0c\x4b\x06\0\0\x04\0\0\0\0\0\0\0\x02\0\0\0{}";

/// The lines that tell them.
const INTERCEPT_LINES: &str =
    "1 SetIntercept {}\n2 ClearIntercept {}\n3 Pick {}\n4 ListClashes {}\n";

/// Bytes, the text that tells them, and what is said of the frame at which that ends: a frame that makes ann with its reply, the reply with an unfinished frame,
/// commands on intercepts, and a Hello of sequence 7 whose body is one byte that is no text.
const TOLD: &[(&[u8], &str, &str)] = &[
    (
        b"\x03\x06\x09\x0c\xe8\x03\0\0\x07\0\0\0\0\0\0\0\x0e\0\0\0{\"name\":\"ann\"}\x03\x06\x09\x0c\x02\0\0\0\0\0\0\0\x15\0\0\0\x08\0\0\0\x01\0\0\0\x04\0\0\0\x07\0\0\0\x02\0\0\0\x01\0\0\0\x01{\"no\":1}",
        "7 CreateIdentity {\"name\":\"ann\"}\n7 ok {\"no\":1}\n",
        "",
    ),
    (
        b"\x03\x06\x09\x0c\x02\0\0\0\0\0\0\0\x15\0\0\0\x08\0\0\0\x01\0\0\0\x04\0\0\0\x07\0\0\0\x02\0\0\0\x01\0\0\0\x01{\"no\":1}\x03\x06\x09\x0c\xe8\x03\0\0\x07\0\0\0\0\0\0\0\x0e\0\0\0{\"name\":\"ann\"",
        "7 ok {\"no\":1}\n",
        "frame 2: unfinished at 49",
    ),
    (INTERCEPTS, INTERCEPT_LINES, ""),
    (
        b"\x03\x06\x09\x0c\0\0\0\0\x07\0\0\0\0\0\0\0\x01\0\0\0\xff",
        "",
        "frame 1: body that is no text",
    ),
];

// Bytes are told by this text, up to a frame of which that is said.
fn tells(
    rt: &impl Abort,
    alloc: Global,
    bytes: &[u8],
    text: &str,
    words: &str,
) -> Result<(), AllocError> {
    let decoded = decode(alloc, bytes)?;
    is_told(rt, alloc, &decoded, text, words)
}

#[test]
fn frames_are_told(rt: HostRuntime) -> Result<(), Fail> {
    for (bytes, text, words) in TOLD {
        tells(&rt, rt.alloc(), bytes, text, words)?;
    }
    Ok(())
}

// A text says frames.
fn says(rt: &impl Abort, alloc: Global, text: &[u8], frames: &[u8]) -> Result<(), AllocError> {
    let encoded = encode(alloc, text)?;
    are_bytes(rt, encoded.bytes.as_slice(), frames);
    assert!(rt; encoded.fault.is_none());
    Ok(())
}

#[test]
fn a_text_says_frames(rt: HostRuntime) -> Result<(), Fail> {
    let ann = b"# ann\r\n\n7 CreateIdentity {\"name\":\"ann\"}\r\n".as_slice();
    says(&rt, rt.alloc(), ann, ANN)?;
    says(&rt, rt.alloc(), INTERCEPT_LINES.as_bytes(), INTERCEPTS)?;
    Ok(())
}

// All faults of a text are told so, and where there are none it is encoded.
fn is_checked(rt: &impl Abort, alloc: Global, text: &[u8], told: &str) -> Result<(), AllocError> {
    let checked = check(alloc, text)?;
    are_bytes(rt, checked.told.as_slice(), told.as_bytes());
    let encoded = encode(alloc, text)?;
    assert_eq!(rt; checked.fault, encoded.fault);
    Ok(())
}

/// Texts, and what is told of their faults.
const CHECKED: &[(&[u8], &str)] = &[
    (b"# ann\n7 CreateIdentity {\"name\":\"ann\"}\n", ""),
    (
        b"Helo\r\n\nHello\n007 Hello\n",
        "line 1: unknown type at column 1: NAME is the name of a command; near is Hello\n\
         line 4: bad sequence at column 1: SEQUENCE is 0 to 4294967295 without zeros before it\n",
    ),
    (
        b"7 createLink {}\n12 03",
        "line 1: unknown type at column 3: NAME is the name of a command, or 0 to 4294967295 without zeros before it; \
         near is CreateLink\n\
         line 2: unknown type at column 4: NAME is the name of a command, or 0 to 4294967295 without zeros before it\n",
    ),
];

// A body that is too long is told.
fn checks_long(rt: &impl Abort, alloc: Global) -> Result<(), AllocError> {
    let mut text = b"7 Hello ".to_vec(alloc)?;
    text.resize(text.len() + 1_048_577, b'x')?;
    let told = "line 1: body too long at column 9: BODY has at most 1048576 bytes\n";
    is_checked(rt, alloc, text.as_slice(), told)
}

#[test]
fn all_faults_are_told(rt: HostRuntime) -> Result<(), Fail> {
    for (text, told) in CHECKED {
        is_checked(&rt, rt.alloc(), text, told)?;
    }
    checks_long(&rt, rt.alloc())?;
    Ok(())
}
