//! Short traces: their replies, statuses and notes.

use crate::cases::check_cases;
use std::test::Fail;

/// Whole traces, with their replies.
const WHOLE_TRACES: &str = r"
nothing at all | - | - | Done | - | -
one session | OPEN_0 ANN_OF_0 CLOSE_0 | MADE_OF_0 | Done | - | -
left open | OPEN_0 ANN_OF_0 | MADE_OF_0 | Done | - | -
two sessions | OPEN_1 OPEN_0 ANN_OF_1 ANN_OF_0 CLOSE_1 | REFUSED_OF_1 MADE_OF_0 | Done | - | -
a service of ann | OPEN_1 WEB_OF_1 | REFUSED_OF_1 | Done | - | -
one within the other | OPEN_0 OPEN_1 HEAD_OF_0 LIST_OF_1 BODY_OF_0 | UNKNOWN_OF_1 MADE_OF_0 | Done | - | -
";

const BAD_RECORDS: &str = r"
its kind alone | OPEN_0 \x05 | - | BadInput | trace: BadRecord at 4 | -
opened at once again | OPEN_0 OPEN_0 | - | BadInput | trace: BadRecord at 4 | -
opened when closed | OPEN_0 CLOSE_0 OPEN_0 | - | BadInput | trace: BadRecord at 6 | -
closed | OPEN_0 CLOSE_0 ANN_OF_0 | - | BadInput | trace: BadRecord at 6 | -
closed and not open | OPEN_0 CLOSE_1 ANN_OF_0 | - | BadInput | trace: BadRecord at 4 | -
a named admin | \x01\0\0\x03ann ANN_OF_0 | - | BadInput | trace: BadRecord at 0 | -
a third role | \x01\0\x03\x03ann ANN_OF_0 | - | BadInput | trace: BadRecord at 0 | -
a router unnamed | \x01\0\x01\0 ANN_OF_0 | - | BadInput | trace: BadRecord at 0 | -
";

const RESTS: &str = r"
within the first data | OPEN_0 \x02\0\x22 | - | Truncated | trace: 3 bytes left | -
within a record | OPEN_0 ANN_OF_0 \x02\0\x22 | MADE_OF_0 | Truncated | trace: 3 bytes left | -
within a frame | OPEN_0 CUT_OF_0 | - | Truncated | session 0: 19 bytes left | -
closed within a frame | OPEN_1 OPEN_0 CUT_OF_0 CLOSE_0 ANN_OF_1 | REFUSED_OF_1 | Truncated | session 0: 19 bytes left | -
each of them | OPEN_0 OPEN_1 CUT_OF_0 \x02\x01\x01\0\x03 \x01 | - | Truncated | session 0: 19 bytes left; session 1: 1 bytes left; trace: 1 bytes left | -
";

/// Faults of traces and of their sessions; at the last one the reading fails behind a session's fault, by which the run ends.
const FAULTS: &str = r"
a bad record | OPEN_0 \x05 ANN_OF_0 | - | BadInput | trace: BadRecord at 4 | piece=7
opened twice | OPEN_0 ANN_OF_0 OPEN_0 | MADE_OF_0 | BadInput | trace: BadRecord at 42 | piece=7
the other goes on | OPEN_0 OPEN_1 UNMARKED_OF_0 ANN_OF_0 ANN_OF_1 | REFUSED_OF_1 | BadInput | session 0: BadMarker at 0 | piece=7
behind a reply | OPEN_0 ANN_OF_0 UNMARKED_OF_0 OPEN_1 \x02 | MADE_OF_0 | BadInput | session 0: BadMarker at 34 | piece=7
never opened | OPEN_1 ANN_OF_0 | - | BadInput | trace: BadRecord at 7 | piece=7
and a bad record | OPEN_0 UNMARKED_OF_0 \x05 | - | BadInput | session 0: BadMarker at 0; trace: BadRecord at 28 | piece=7
of two | OPEN_0 OPEN_1 LONG_OF_1 HEADERS_OF_0 | - | BadInput | session 1: TooLong at 0; session 0: BadHeaders at 0 | piece=7
and more of the same | OPEN_0 UNMARKED_OF_0 CUT_OF_0 CLOSE_0 | - | BadInput | session 0: BadMarker at 0 | piece=7
and a rest of the other | OPEN_0 OPEN_1 UNMARKED_OF_0 \x02\x01\x01\0\x03 | - | BadInput | session 0: BadMarker at 0 | piece=7
and a failed take | OPEN_0 UNMARKED_OF_0 | - | ReadFault | session 0: BadMarker at 0; read fault | take=1
";

#[test]
fn answers_each_session(rt: HostRuntime) -> Result<(), Fail> {
    let words = ["replay", "--sessions"];
    for (piece, table) in [
        (4_096usize, WHOLE_TRACES),
        (1, WHOLE_TRACES),
        (4_096, BAD_RECORDS),
        (1, BAD_RECORDS),
        (4_096, RESTS),
        (4_096, FAULTS),
    ] {
        check_cases(&rt, rt.alloc(), &words, piece, table)?;
    }
    Ok(())
}
