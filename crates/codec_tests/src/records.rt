//! Records told as lines, and one of them alone. The run of `zitilook` shows what a dump says.

use crate::checks::are_bytes;
use ctrl_model::{Format, Kind};
use record_lines::{Listed, list, show};
use row_codec::Row;
use row_reading::read_row;
use std::alloc::{AllocError, Global};
use std::process::Abort;
use std::test::Fail;

/// The keys and the values of rows: the identity ann of number 1, the service web of number 3, and the terminator of web of number 4 that ann hosts on the router of
/// number 2, which is absent.
pub(crate) const ROWS: &[(&[u8], &[u8])] = &[
    (b"\x03\0\0\0\x01", b"\x03ann\0"),
    (b"\x04\0\0\0\x03", b"\x03web\0"),
    (
        b"\x0a\0\0\0\x04",
        b"\x03\0\0\0\x02\0\0\0\x01\0\0\0\0\0\0\x02",
    ),
];

// Puts the row of a key and a value behind the others. What is none is left out, and then the lines differ.
fn push_row(
    alloc: Global,
    rows: &mut Vec<Row>,
    key: &[u8],
    value: &[u8],
) -> Result<(), AllocError> {
    if let Ok(row) = read_row(alloc, Format::Two, key, value) {
        rows.push(row)?;
    }
    Ok(())
}

/// Puts the rows of some keys and values.
pub(crate) fn push_rows(
    alloc: Global,
    rows: &mut Vec<Row>,
    spelled: &[(&[u8], &[u8])],
) -> Result<(), AllocError> {
    for (key, value) in spelled {
        push_row(alloc, rows, key, value)?;
    }
    Ok(())
}

/// The line of the terminator.
const TERMINATOR: &str = "4 service=web router= instance= cost=0 precedence=default host=ann\n";

/// A kind, a word that asks for one of it by its name or number, and its line, if there is one.
const SHOWN: &[(Kind, &str, &str)] = &[
    (Kind::Identity, "ann", "1 ann\n"),
    (Kind::Service, "ann", ""),
    (Kind::Terminator, "4", TERMINATOR),
    (Kind::Terminator, "04", ""),
];

// The one of a kind that a word asks for has this line.
fn is_shown(
    rt: &impl Abort,
    alloc: Global,
    rows: &[Row],
    kind: Kind,
    word: &str,
    line: &str,
) -> Result<(), AllocError> {
    let shown = show(alloc, rows, Listed::Records(kind), word.as_bytes())?;
    are_bytes(rt, shown.as_slice(), line.as_bytes());
    Ok(())
}

fn are_told(rt: &impl Abort, alloc: Global, rows: &[Row]) -> Result<(), AllocError> {
    let lines = list(alloc, rows, Listed::Records(Kind::Terminator))?;
    are_bytes(rt, lines.as_slice(), TERMINATOR.as_bytes());
    for (kind, word, line) in SHOWN {
        is_shown(rt, alloc, rows, *kind, word, line)?;
    }
    Ok(())
}

#[test]
fn records_are_listed_and_shown(rt: HostRuntime) -> Result<(), Fail> {
    let mut rows = Vec::new(rt.alloc());
    push_rows(rt.alloc(), &mut rows, ROWS)?;
    are_told(&rt, rt.alloc(), rows.as_slice())?;
    Ok(())
}
