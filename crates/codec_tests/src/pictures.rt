//! Networks drawn, and the way of a circuit in them.

use crate::checks::are_bytes;
use crate::records::{ROWS, push_rows};
use network_picture::{picture, picture_asked};
use row_codec::Row;
use std::alloc::{AllocError, Global};
use std::process::Abort;
use std::test::Fail;

/// The circuit of number 7, of the first identity to the terminator, which goes over no link.
const CIRCUIT: &[(&[u8], &[u8])] = &[(
    b"\x0b\0\0\0\x07",
    b"\x01\0\0\0\x03\0\0\0\x04\0\0\0\x02\0\0\0\0",
)];

/// The network without the circuit.
const NETWORK: &str =
    "flowchart LR\n  classDef off stroke-dasharray:5 5\n  s3([\"web\"])\n  r2 -->|\"terminator 4: 0\"| s3\n";

/// Words that ask for the way of a circuit by its number, and the pictures.
const ASKED: &[(&str, &str)] = &[
    (
        "7",
        "flowchart LR\n  classDef off stroke-dasharray:5 5\n  s3([\"web\"])\n  r2 ==>|\"terminator 4: 0\"| s3\n  c7([\"ann\"]) ==> r2\n",
    ),
    ("07", ""),
    ("4", ""),
];

// The picture of the network is this one.
fn is_network(rt: &impl Abort, alloc: Global, rows: &[Row]) -> Result<(), AllocError> {
    let drawn = picture(alloc, rows)?;
    are_bytes(rt, drawn.as_slice(), NETWORK.as_bytes());
    Ok(())
}

// The picture that a word asks for is this one.
fn is_drawn(
    rt: &impl Abort,
    alloc: Global,
    rows: &[Row],
    word: &str,
    text: &str,
) -> Result<(), AllocError> {
    let drawn = picture_asked(alloc, rows, word.as_bytes())?;
    are_bytes(rt, drawn.as_slice(), text.as_bytes());
    Ok(())
}

fn are_drawn(rt: &impl Abort, alloc: Global, rows: &mut Vec<Row>) -> Result<(), AllocError> {
    push_rows(alloc, rows, ROWS)?;
    is_network(rt, alloc, rows.as_slice())?;
    push_rows(alloc, rows, CIRCUIT)?;
    for (word, text) in ASKED {
        is_drawn(rt, alloc, rows.as_slice(), word, text)?;
    }
    Ok(())
}

#[test]
fn a_network_is_drawn_and_the_way_of_a_circuit_marked(rt: HostRuntime) -> Result<(), Fail> {
    let mut rows = Vec::new(rt.alloc());
    are_drawn(&rt, rt.alloc(), &mut rows)?;
    Ok(())
}
