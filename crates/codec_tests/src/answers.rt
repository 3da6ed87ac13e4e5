//! Requests with their replies. The run of `zitiline` shows how an input ends.

use crate::checks::are_bytes;
use answer_lines::answers;
use std::alloc::{AllocError, Global};
use std::process::Abort;
use std::test::Fail;

/// Texts of requests and replies, what is told of them, and whether that has a refusal.
const ANSWERED: &[(&[u8], &str, bool)] = &[
    (
        b"# ann\r\n7 CreateIdentity {\"name\":\"ann\"}\r\n\r\nHello\r\n---\r\n7 ok {\"no\":1}\r\n8 ok\r\n",
        "2 CreateIdentity {\"name\":\"ann\"} -> ok {\"no\":1}\n4 Hello -> ok\n",
        false,
    ),
    (
        b"Hello a\n4294967295 Hello b\nHello c\n---\n0 refused {}\n4294967295 ok\n1 ok x\n",
        "1 Hello a -> ok x\n2 Hello b -> ok\n3 Hello c -> refused {}\n",
        true,
    ),
    (
        b"Hello\nHello\n---\n2 ok\n9 ok {}",
        "1 Hello -> unanswered\n2 Hello -> ok\nno request -> 9 ok {}\n",
        true,
    ),
];

// A text of requests and replies is answered so, and has a refusal or none.
fn is_answered(
    rt: &impl Abort,
    alloc: Global,
    text: &[u8],
    told: &str,
    refused: bool,
) -> Result<(), AllocError> {
    let answered = answers(alloc, text)?;
    are_bytes(rt, answered.told.as_slice(), told.as_bytes());
    assert_eq!(rt; answered.refused, refused);
    assert!(rt; answered.fault.is_none());
    Ok(())
}

#[test]
fn replies_stand_beside_their_requests(rt: HostRuntime) -> Result<(), Fail> {
    for (text, told, refused) in ANSWERED {
        is_answered(&rt, rt.alloc(), text, told, *refused)?;
    }
    Ok(())
}

/// Texts with a fault in the requests and in the replies, and what is said of it.
const FAULTS: &[(&[u8], &str)] = &[
    (b"Hello\nHelo\n---\nnone\n", "line 2: unknown type"),
    (b"Hello\n\n---\n1 ok\n3 7 ok\n", "line 5: no reply"),
];

// A text has a fault, in these words, and nothing is told of it.
fn is_at_fault(rt: &impl Abort, alloc: Global, text: &[u8], words: &str) -> Result<(), AllocError> {
    let answered = answers(alloc, text)?;
    are_bytes(rt, answered.told.as_slice(), b"");
    let Some(fault) = answered.fault else {
        assert!(rt; false, "no fault");
        return Ok(());
    };
    let told = fault.text(alloc)?;
    are_bytes(rt, told.as_bytes(), words.as_bytes());
    Ok(())
}

#[test]
fn faults_of_requests_and_replies(rt: HostRuntime) -> Result<(), Fail> {
    for (text, words) in FAULTS {
        is_at_fault(&rt, rt.alloc(), text, words)?;
    }
    Ok(())
}
