//! Replays on a folder: what is answered by room, what is then kept, and that it is kept where nothing at all is asked of it.

use crate::checks::answers_leaving;
use sample_runs::{How, folder_of, parts_in};
use std::alloc::{AllocError, Global};
use std::process::Abort;
use std::test::Fail;

/// Runs, with the folder before, how it is bounded, and the folder behind the run. A slot has 9 bytes beside its records; the records of identities and of
/// web have 48 bytes, that of the policy 70, and those of the router 50 and 38. Compacted, ann, bob and web take 14 bytes and a batch of 87.
const RUNS: &str = r##"
# no room for bob | ANN_SLOT - FIRST | slot=104 mark=1 | ANN_SLOT - FIRST
1000 {"name":"bob"} -> {"code":40,"name":"JournalFull"}
1000 {"name":"ann"} -> {"code":20,"name":"Exists"}

# room for bob | ANN_SLOT - FIRST | slot=105 mark=1 | HEADER+ANN_KEPT+BOB_KEPT+\0 - FIRST
1000 {"name":"bob"} -> {"no":2}

# a full slot | HEADER+ANN_KEPT+BOB_KEPT+\0 - FIRST | slot=105 mark=1 | HEADER+ANN_KEPT+BOB_KEPT+\0 - FIRST
1000 {"name":"ann"} -> {"code":20,"name":"Exists"}

# the least slot | - - - | slot=64 mark=1 | ANN_SLOT - FIRST
1000 {"name":"ann"} -> {"no":1}
1000 {"name":"bob"} -> {"code":40,"name":"JournalFull"}

# room for a policy | - - - | slot=175 mark=1 | HEADER+ANN_KEPT+WEB_KEPT+GRANT_KEPT+\0 - FIRST
PAIR
1100 {"name":"p","type":"Dial","semantic":"AnyOf","identity_roles":["#all"],"service_roles":["#all"]} -> {"no":1}

# no room for it | - - - | slot=174 mark=1 | HEADER+ANN_KEPT+WEB_KEPT+\0 - FIRST
PAIR
1100 {"name":"p","type":"Dial","semantic":"AnyOf","identity_roles":["#all"],"service_roles":["#all"]} -> {"code":40,"name":"JournalFull"}

# a command that changes nothing | - - - | slot=97 mark=1 | HEADER+ROUTER_KEPT+CONNECTED_KEPT+\0 - FIRST
1020 {"name":"r1"} -> {"no":1}
1023 {"name":"r1"} -> {}
1023 {"name":"r1"} -> {}
1024 {"name":"r1"} -> {"code":40,"name":"JournalFull"}

# no room to compact | HEADER+ANN_KEPT+BOB_KEPT+WEB_THIRD+\0 - FIRST | slot=100 mark=1 | HEADER+ANN_KEPT+BOB_KEPT+WEB_THIRD+\0 - FIRST
1510 {} -> {"code":40,"name":"JournalFull"}

# a full mark | HEADER+ANN_KEPT+BOB_KEPT+WEB_THIRD+\0 - FIRST | slot=101 mark=1 | HEADER+ANN_KEPT+BOB_KEPT+WEB_THIRD+\0 - FIRST
1510 {} -> {"code":41,"name":"MarkFull"}

# goes on in the other slot | - - - | slot=1024 mark=2 | - HEADER+ANN_KEPT+BOB_KEPT+\0 SECOND
1000 {"name":"ann"} -> {"no":1}
1510 {} -> {}
1000 {"name":"bob"} -> {"no":2}
1510 {} -> {"code":41,"name":"MarkFull"}

# has room again: behind ann, who is made and deleted, the slot has 84 bytes, and with bob 132; compacted, 41 and 89 | - - - | slot=89 mark=2 | - HEADER+NEXT_KEPT+BOB_THIRD+\0 SECOND
1000 {"name":"ann"} -> {"no":1}
1002 {"name":"ann"} -> {}
1000 {"name":"bob"} -> {"code":40,"name":"JournalFull"}
1510 {} -> {}
1000 {"name":"bob"} -> {"no":2}

# begins anew where the mark is empty | \xff*65 \xff*3 - | slot=105 mark=1 | ANN_SLOT+\xff*8 \xff*3 FIRST
1000 {"name":"ann"} -> {"no":1}

# goes on in the slot that stands | ANN_SLOT ANN_SLOT SECOND | slot=105 mark=1 | ANN_SLOT HEADER+ANN_KEPT+BOB_KEPT+\0 SECOND
1000 {"name":"bob"} -> {"no":2}

# bob's record is written over web's, so a closed gate stands where the policy's was | HEADER+ANN_KEPT+WEB_CLOSED+GRANT_KEPT+\0 - FIRST | slot=105 mark=1 | HEADER+ANN_KEPT+BOB_KEPT+GRANT_CLOSED+\0 - FIRST
1000 {"name":"bob"} -> {"no":2}

# ann's folder, which was never compacted, and then answers the same | ANN_SLOT - FIRST | - | HEADER+ANN_KEPT+BOB_KEPT+ANN_GOES+ANN_FOURTH+\0 - FIRST
1000 {"name":"ann"} -> {"code":20,"name":"Exists"}
1500 {"identity":"ann"} -> {"bind":[],"dial":[],"routers":[]}
1000 {"name":"bob"} -> {"no":2}
1002 {"name":"ann"} -> {}
1000 {"name":"ann"} -> {"no":3}

# the one that was compacted once | - ANN_SLOT SECOND | - | - HEADER+ANN_KEPT+BOB_KEPT+ANN_GOES+ANN_FOURTH+\0 SECOND
1000 {"name":"ann"} -> {"code":20,"name":"Exists"}
1500 {"identity":"ann"} -> {"bind":[],"dial":[],"routers":[]}
1000 {"name":"bob"} -> {"no":2}
1002 {"name":"ann"} -> {}
1000 {"name":"ann"} -> {"no":3}

# and twice | ANN_SLOT - THIRD | - | HEADER+ANN_KEPT+BOB_KEPT+ANN_GOES+ANN_FOURTH+\0 - THIRD
1000 {"name":"ann"} -> {"code":20,"name":"Exists"}
1500 {"identity":"ann"} -> {"bind":[],"dial":[],"routers":[]}
1000 {"name":"bob"} -> {"no":2}
1002 {"name":"ann"} -> {}
1000 {"name":"ann"} -> {"no":3}
"##;

// The folder before a run, how it is bounded, and the folder behind it, of its first line.
fn head_of(run: &str) -> Option<(&str, &str, &str)> {
    let (head, _) = run.trim_ascii().split_once('\n')?;
    let (_, rest) = head.split_once(" | ")?;
    let (before, rest) = rest.split_once(" | ")?;
    let (how, after) = rest.split_once(" | ")?;
    Some((before, how, after))
}

// A run on a folder keeps another one, as does one at which nothing is asked.
fn keeps(
    rt: &impl Abort,
    alloc: Global,
    run: &str,
    how: How,
    before: [&[u8]; 3],
    after: [&[u8]; 3],
) -> Result<(), AllocError> {
    answers_leaving(rt, alloc, how, run, before, after)?;
    answers_leaving(rt, alloc, how.by("slot=64"), "", after, after)
}

fn check_run(
    rt: &impl Abort,
    alloc: Global,
    run: &str,
    head: (&str, &str, &str),
) -> Result<(), AllocError> {
    let (before, how, after) = head;
    let how = How::AMPLE.by(how);
    let before = folder_of(alloc, before)?;
    let after = folder_of(alloc, after)?;
    keeps(rt, alloc, run, how, parts_in(&before), parts_in(&after))
}

#[test]
fn keeps_what_has_room(rt: HostRuntime) -> Result<(), Fail> {
    for run in RUNS.split("\n\n") {
        let head = head_of(run).ok_or("a run has no head")?;
        check_run(&rt, rt.alloc(), run, head)?;
    }
    Ok(())
}
