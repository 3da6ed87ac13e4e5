//! Runs of generated loads, which say a line, and of words that are in no line of the table.

use crate::checks::{Ended, failing_desk, has_ended, has_no_folder, run_input};
use ctrl_serve::Status;
use sample_runs::ANN;
use std::alloc::{AllocError, Global};
use std::process::Abort;
use std::test::Fail;

/// Numbers of loads, and the counts lines of them, which an independent model of the rules gave. In that of 126 four times a circuit goes over another
/// path, ten end without one, and twenty are revoked. The load says the same line each time.
const LOADS: &[(&str, &str)] = &[
    (
        "0",
        "{\"circuits\":1,\"grants\":4118,\"identities\":200,\"links\":29,\"policies\":30,\"routers\":12,\"services\":40,\"terminators\":40}\n",
    ),
    (
        "1",
        "{\"circuits\":2,\"grants\":5671,\"identities\":200,\"links\":30,\"policies\":30,\"routers\":12,\"services\":40,\"terminators\":40}\n",
    ),
    ("7", LINE_OF_7),
    ("7", LINE_OF_7),
    (
        "126",
        "{\"circuits\":10,\"grants\":5491,\"identities\":200,\"links\":29,\"policies\":30,\"routers\":12,\"services\":40,\"terminators\":40}\n",
    ),
];

const LINE_OF_7: &str =
    "{\"circuits\":1,\"grants\":4558,\"identities\":200,\"links\":27,\"policies\":30,\"routers\":12,\"services\":40,\"terminators\":40}\n";

/// Lines of words that are none of the table.
const NO_LINES: &[&[&str]] = &[
    &[],
    &[""],
    &["Dry"],
    &["load"],
    &["Replay"],
    &["--help"],
    &["load", ""],
    &["load", "01"],
    &["load", "07"],
    &["load", "+7"],
    &["load", "x"],
    &["load", "4294967296"],
    &["load", "7", "7"],
    &["dry", "7"],
    &["advise"],
    &["advise", "ann"],
    &["advise", "ann", "web", "api"],
    &["advise", "", "web"],
    &["advise", "@ann", "web"],
    &["advise", "ann", "#web"],
    &["follow", "0"],
];

const USAGE: &[u8] =
    b"zitictl: usage: zitictl dry | replay [--sessions] | audit | compact | load N | advise I S | ship N | follow\n";

// Runs words at an input that they do not read, which ends so and leaves the folder empty.
fn ends(
    rt: &impl Abort,
    alloc: Global,
    words: &[&str],
    failing: &[u32],
    ended: Ended<'_>,
) -> Result<(), AllocError> {
    let mut desk = failing_desk(alloc, failing)?;
    let status = run_input(alloc, words, ANN, &mut desk)?;
    has_ended(rt, "words", status, &desk, ended);
    has_no_folder(rt, "words", &desk);
    Ok(())
}

// A load says its line.
fn says_counts(rt: &impl Abort, alloc: Global, number: &str, line: &str) -> Result<(), AllocError> {
    let words = ["load", number];
    ends(rt, alloc, &words, &[], (Status::Done, line.as_bytes(), b""))
}

#[test]
fn says_the_counts_of_the_loads(rt: HostRuntime) -> Result<(), Fail> {
    for (number, line) in LOADS {
        says_counts(&rt, rt.alloc(), number, line)?;
    }
    Ok(())
}

/// A line that was not taken is told.
const UNSAID: Ended<'static> = (Status::WriteFault, b"", b"zitictl: write fault\n");

#[test]
fn tells_a_line_that_was_not_taken_and_words_that_are_none(rt: HostRuntime) -> Result<(), Fail> {
    ends(&rt, rt.alloc(), &["load", "7"], &[0], UNSAID)?;
    for words in NO_LINES {
        ends(&rt, rt.alloc(), words, &[], (Status::Usage, b"", USAGE))?;
    }
    Ok(())
}
