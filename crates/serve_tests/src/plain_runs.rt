//! Runs over plain input: whole frames, rests and bounds, faults, calls that fail, and hostile input.

use crate::cases::check_cases;
use std::test::Fail;

/// Whole frames, with their replies.
const WHOLE_INPUTS: &str = r"
nothing at all | - | - | Done | - | -
ann | ANN | MADE | Done | - | -
ann twice | ANN ANN | MADE EXISTS | Done | - | -
another type | RESULT ANN | UNSUPPORTED MADE_SECOND | Done | - | -
a greeting | HELLO ANN | GREETED MADE_SECOND | Done | - | -
of sequence 0 | OPENING | OPENED | Done | - | -
ann goes | ANN DELETED | MADE DONE_SECOND | Done | - | -
a bad body | NAMELESS ANN | BAD_BODY MADE_SECOND | Done | - | -
";

const RESTS_AND_BOUNDS: &str = r"
19 bytes | CUT | - | Truncated | session 0: 19 bytes left | -
a cut frame | ANN CUT | MADE | Truncated | session 0: 19 bytes left | -
one byte | ANN \x03 | MADE | Truncated | session 0: 1 bytes left | -
the bound | ANN | MADE | Done | - | most=34
one byte more | ANN \x03 | MADE | InputTooLong | input too long | most=34
one frame used | ANN ANN | MADE | InputTooLong | input too long | most=34
cut and too long | ANN CUT | MADE | InputTooLong | input too long | most=40
";

/// Behind a fault nothing is taken, and nothing before it is lost.
const FRAME_FAULTS: &str = r"
no take behind | ANN UNMARKED | MADE | BadInput | session 0: BadMarker at 34 | take=1
known in the seventh piece | UNMARKED ANN | - | BadInput | session 0: BadMarker at 0 | piece=3 take=7
a wrong marker | ANN UNMARKED | MADE | BadInput | session 0: BadMarker at 34 | -
in 54 pieces | ANN UNMARKED | MADE | BadInput | session 0: BadMarker at 34 | piece=1
a body too long | LONG ANN | - | BadInput | session 0: TooLong at 0 | -
a body of 2^31 bytes | LONGEST | - | BadInput | session 0: TooLong at 0 | -
bad headers | HEADERS | - | BadInput | session 0: BadHeaders at 0 | -
bad headers behind | ANN HEADERS | MADE | BadInput | session 0: BadHeaders at 34 | -
faulty and too long | UNMARKED ANN | - | BadInput | session 0: BadMarker at 0 | most=20
";

/// A failed note, as in the last three, changes no status, and nothing is noted after it.
const FAILING_CALLS: &str = r"
the second take | ANN | MADE | ReadFault | read fault | take=1
the first take | ANN | - | ReadFault | read fault | take=0
behind a cut frame | ANN CUT | MADE | ReadFault | read fault | take=1
the first say | ANN UNMARKED | - | WriteFault | write fault | call=0
the second say | ANN ANN | MADE | WriteFault | write fault | call=1
the note of a fault | ANN UNMARKED | MADE | BadInput | - | call=1
the note of a rest | CUT | - | Truncated | - | call=0
the note of a failed take | CUT | - | ReadFault | - | take=1 call=0
";

/// The longest body; headers that are too long, the longest, and endless; and lists in lists, 200 deep.
const HOSTILE: &str = r"
the longest body | LONGEST_BODY x*1048576 | UNSUPPORTED | Done | - | -
headers too long | LONG_HEADERS | - | BadInput | session 0: TooLong at 0 | piece=65536
the longest header | LONGEST_HEADER a*65528 | GREETED_7 | Done | - | piece=65536
an endless header | ENDLESS_HEADER | - | BadInput | session 0: BadHeaders at 0 | piece=65536
lists in lists | NESTED [*200 ]*200 | NO_OBJECT | Done | - | piece=65536
";

// However the input is cut into pieces, the same bytes are said.
#[test]
fn answers_in_pieces(rt: HostRuntime) -> Result<(), Fail> {
    for piece in [1usize, 7, 4_096] {
        check_cases(&rt, rt.alloc(), &["dry"], piece, WHOLE_INPUTS)?;
    }
    Ok(())
}

#[test]
fn ends_as_the_input_does(rt: HostRuntime) -> Result<(), Fail> {
    for table in [RESTS_AND_BOUNDS, FRAME_FAULTS, FAILING_CALLS, HOSTILE] {
        check_cases(&rt, rt.alloc(), &["dry"], 4_096, table)?;
    }
    Ok(())
}
