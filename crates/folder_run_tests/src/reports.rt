//! Advice on two names by a folder that keeps a line of routers and some more rows, and the counts line of one that keeps a network.

use crate::checks::{EMPTY, Run, answers, holds, leaves};
use ctrl_serve::Status;
use sample_runs::{How, bytes_of, parts_of};
use std::alloc::{AllocError, Global};
use std::process::Abort;
use std::test::Fail;
use ziti_desk::MemDesk;

/// Looks: the words, and what is said of a folder that keeps the rows below. What one command makes other, and names that nothing has. No path past r2
/// makes nothing other, nor does a terminator of an instance.
const LOOKS: &str = r##"
# advise,ann,web {"admissible":[1],"bind":0,"common":["r1"],"dial":1,"online":["r1"],"policies":[["d",true,true]],"rule":0,"terminators":[1],"yes":true}
PAIR ENTRY LINE

# advise,ann,web {"admissible":[],"bind":0,"common":["r1"],"dial":1,"online":["r1"],"policies":[["d",true,true]],"rule":37,"terminators":[1],"yes":false}
PAIR ENTRY LINE
1024 {"name":"r3"} -> {}

# advise,ann,web {"admissible":[1],"bind":0,"common":["r1"],"dial":1,"online":[],"policies":[["d",true,true]],"rule":35,"terminators":[1],"yes":false}
PAIR ENTRY LINE
1024 {"name":"r1"} -> {}

# advise,ann,web {"admissible":[1],"bind":0,"common":["r1"],"dial":0,"online":["r1"],"policies":[],"rule":33,"terminators":[1],"yes":false}
PAIR ENTRY LINE
1102 {"name":"d"} -> {}

# advise,ann,web {"admissible":[1],"bind":0,"common":[],"dial":1,"online":[],"policies":[["d",true,true]],"rule":34,"terminators":[1],"yes":false}
PAIR ENTRY LINE
1112 {"name":"e"} -> {}

# advise,ann,web {"admissible":[],"bind":0,"common":["r1"],"dial":1,"online":["r1"],"policies":[["d",true,true]],"rule":36,"terminators":[],"yes":false}
PAIR ENTRY LINE
1302 {"no":1} -> {}

# advise,ann,web {"admissible":[1],"bind":0,"common":["r1"],"dial":1,"online":["r1"],"policies":[["d",true,true]],"rule":0,"terminators":[1],"yes":true}
PAIR ENTRY LINE CLOSED

# advise,ann,web {"admissible":[1],"bind":0,"common":["r1"],"dial":1,"online":["r1"],"policies":[["d",true,true]],"rule":0,"terminators":[1],"yes":true}
PAIR ENTRY LINE
1300 {"service":"web","router":"r3","instance":"blue"} -> {"no":2}

# advise,ann,web {"admissible":[1],"bind":1,"common":["r1"],"dial":1,"online":["r1"],"policies":[["d",true,true]],"rule":0,"terminators":[1],"yes":true}
PAIR ENTRY LINE
1100 {"name":"h","type":"Bind","semantic":"AnyOf","identity_roles":["@ann"],"service_roles":["@web"]} -> {"no":2}

# advise,bob,web {"admissible":[1],"bind":0,"common":[],"dial":0,"online":[],"policies":[["d",false,true]],"rule":30,"terminators":[1],"yes":false}
PAIR ENTRY LINE

# advise,ann,nosuch {"admissible":[],"bind":0,"common":[],"dial":0,"online":[],"policies":[["d",true,false]],"rule":31,"terminators":[],"yes":false}
PAIR ENTRY LINE

# advise,bob,nosuch {"admissible":[],"bind":0,"common":[],"dial":0,"online":[],"policies":[["d",false,false],["b",false,false]],"rule":30,"terminators":[],"yes":false}
PAIR ENTRY LINE
1100 {"name":"b","type":"Dial","semantic":"AnyOf","identity_roles":["#all"],"service_roles":["#all"]} -> {"no":2}

# audit {"circuits":2,"grants":5,"identities":1,"links":3,"policies":3,"routers":3,"services":1,"terminators":2}
PAIR ENTRY LINE TWO_CIRCUITS
"##;

// The words of a run, and what is said, in its first line.
fn look_of(run: &str) -> Option<(&str, &str)> {
    let (head, _) = run.trim_ascii().split_once('\n')?;
    head.strip_prefix("# ")?.split_once(' ')
}

// A look at a folder of these parts, which stays as it is and says that: the one moment is that of the say.
fn looks<'x>(
    rt: &impl Abort,
    alloc: Global,
    words: &'x str,
    said: &'x [u8],
    parts: [&[u8]; 3],
) -> Result<(), AllocError> {
    let run = Run {
        what: words,
        words,
        how: How::AMPLE,
        input: b"",
        ended: (Status::Done, said, b""),
    };
    let moments = leaves(rt, alloc, &run, parts, parts)?;
    holds(rt, "one moment", moments == 1);
    Ok(())
}

fn says(
    rt: &impl Abort,
    alloc: Global,
    words: &str,
    said: &str,
    kept: &MemDesk,
) -> Result<(), AllocError> {
    let mut line = bytes_of(alloc, said)?;
    line.push(b'\n')?;
    looks(rt, alloc, words, line.as_slice(), parts_of(kept))
}

fn check_look(
    rt: &impl Abort,
    alloc: Global,
    run: &str,
    words: &str,
    said: &str,
) -> Result<(), AllocError> {
    let kept = answers(rt, alloc, EMPTY, run)?;
    says(rt, alloc, words, said, &kept)
}

#[test]
fn says_why_and_changes_nothing(rt: HostRuntime) -> Result<(), Fail> {
    for run in LOOKS.split("\n\n") {
        let (words, said) = look_of(run).ok_or("a run has no head")?;
        check_look(&rt, rt.alloc(), run, words, said)?;
    }
    Ok(())
}
