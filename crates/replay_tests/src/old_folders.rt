//! A folder of the first format, as a program of before the second one wrote it: what is counted in it, how requests are answered on it, and the rows
//! to which it is migrated.

use crate::checks::{COMPACT, REST, Run, answers_leaving, leaves};
use ctrl_serve::Status;
use sample_runs::{FIRST, How, SECOND};
use std::alloc::{AllocError, Global};
use std::process::Abort;
use std::test::Fail;

/// The first slot of the folder: the header, a record for each change, and a closed gate. All records but the last one were written by the program of
/// commit `f81fce92`, as it was made of the sources without proof; that one answered the requests below on the folder with the last record.
const WRITTEN: &[&[u8]] = &[
    b"ZCTL\x01\0\0\0",
    // The identity ann, with the attribute staff.
    b"\x01\x22\0\0\0\x01\x02\x01\x01\x04\0\0\0\x02\0\0\0\x01\x05\x03\0\0\0\x01\x0b\0\0\0\x03ann\x01\x05staff",
    // Bob.
    b"\x01\x1c\0\0\0\x01\x02\x01\x01\x04\0\0\0\x03\0\0\0\x01\x05\x03\0\0\0\x02\x05\0\0\0\x03bob\0",
    // Cyd.
    b"\x01\x1c\0\0\0\x01\x02\x01\x01\x04\0\0\0\x04\0\0\0\x01\x05\x03\0\0\0\x03\x05\0\0\0\x03cyd\0",
    // Bob, who goes: the number 2 is in use no more.
    b"\x01\x07\0\0\0\x02\x05\x03\0\0\0\x02",
    // The service web, with the attribute apps.
    b"\x01!\0\0\0\x01\x02\x01\x02\x04\0\0\0\x02\0\0\0\x01\x05\x04\0\0\0\x01\x0a\0\0\0\x03web\x01\x04apps",
    // The service api.
    b"\x01\x1c\0\0\0\x01\x02\x01\x02\x04\0\0\0\x03\0\0\0\x01\x05\x04\0\0\0\x02\x05\0\0\0\x03api\0",
    // The router r1.
    b"\x01\x1e\0\0\0\x01\x02\x01\x03\x04\0\0\0\x02\0\0\0\x01\x05\x05\0\0\0\x01\x07\0\0\0\x02r1\0\0\0\0",
    // The router r2, which costs 5, and through which no path may pass.
    b"\x01\x1e\0\0\0\x01\x02\x01\x03\x04\0\0\0\x03\0\0\0\x01\x05\x05\0\0\0\x02\x07\0\0\0\x02r2\0\x05\0\x01",
    // The router r1, connected.
    b"\x01\x12\0\0\0\x01\x05\x05\0\0\0\x01\x07\0\0\0\x02r1\0\0\0\x02",
    // The router r2, connected.
    b"\x01\x12\0\0\0\x01\x05\x05\0\0\0\x02\x07\0\0\0\x02r2\0\x05\0\x03",
    // The link from r1 to r2, which costs 11 and 5 of latency.
    b"\x01)\0\0\0\x01\x02\x01\x04\x04\0\0\0\x02\0\0\0\x01\x05\x06\0\0\0\x01\x12\0\0\0\x02l1\x01\0\0\0\x02\0\0\0\x0b\0\x05\0\0\0\x01",
    // The policy dial: those of the staff may dial the apps, so ann may dial web.
    b"\x01B\0\0\0\x01\x02\x01\x05\x04\0\0\0\x02\0\0\0\x01\x05\x07\0\0\0\x01\x18\0\0\0\x04dial\x01\x01\0\0\x01\x05staff\0\0\x01\x04apps\x01\x09\x0c\0\0\0\x01\0\0\0\x01\x04\0\0\0\x01\0\0\0",
    // The policy more: ann may dial all services, so web by two policies.
    b"\x01N\0\0\0\x01\x02\x01\x05\x04\0\0\0\x03\0\0\0\x01\x05\x07\0\0\0\x02\x11\0\0\0\x04more\x01\x01\0\x01\x03ann\0\x01\0\0\x01\x09\x0c\0\0\0\x01\0\0\0\x01\x04\0\0\0\x02\0\0\0\x01\x09\x0c\0\0\0\x01\0\0\0\x02\x04\0\0\0\x01\0\0\0",
    // The policy bind: cyd may bind web.
    b"\x01?\0\0\0\x01\x02\x01\x05\x04\0\0\0\x04\0\0\0\x01\x05\x07\0\0\0\x03\x15\0\0\0\x04bind\x02\x02\0\x01\x03cyd\0\0\x01\x03web\0\x01\x09\x0d\0\0\0\x03\0\0\0\x01\x04\0\0\0\x01\0\0\0",
    // The policy edges: all may enter by r1.
    b"\x01M\0\0\0\x01\x02\x01\x06\x04\0\0\0\x02\0\0\0\x01\x05\x08\0\0\0\x01\x10\0\0\0\x05edges\x01\x01\0\0\0\x01\x02r1\0\x01\x09\x0e\0\0\0\x01\0\0\0\x01\x04\0\0\0\x01\0\0\0\x01\x09\x0e\0\0\0\x03\0\0\0\x01\x04\0\0\0\x01\0\0\0",
    // The policy hosts: cyd has all routers, so r1 by two policies.
    b"\x01N\0\0\0\x01\x02\x01\x06\x04\0\0\0\x03\0\0\0\x01\x05\x08\0\0\0\x02\x11\0\0\0\x05hosts\x01\0\x01\x03cyd\0\x01\0\0\x01\x09\x0e\0\0\0\x03\0\0\0\x01\x04\0\0\0\x02\0\0\0\x01\x09\x0e\0\0\0\x03\0\0\0\x02\x04\0\0\0\x01\0\0\0",
    // The policy services: all services have all routers.
    b"\x01s\0\0\0\x01\x02\x01\x07\x04\0\0\0\x02\0\0\0\x01\x05\x09\0\0\0\x01\x10\0\0\0\x08services\x01\x01\0\0\x01\0\0\x01\x09\x0f\0\0\0\x01\0\0\0\x01\x04\0\0\0\x01\0\0\0\x01\x09\x0f\0\0\0\x01\0\0\0\x02\x04\0\0\0\x01\0\0\0\x01\x09\x0f\0\0\0\x02\0\0\0\x01\x04\0\0\0\x01\0\0\0\x01\x09\x0f\0\0\0\x02\0\0\0\x02\x04\0\0\0\x01\0\0\0",
    // The least router cost, 20.
    b"\x01\x0b\0\0\0\x01\x01\x02\x04\0\0\0\x14\0\0\0",
    // The terminator of web at r2, a required one, which cyd hosts and which costs 3.
    b"\x01'\0\0\0\x01\x02\x01\x08\x04\0\0\0\x02\0\0\0\x01\x05\x0a\0\0\0\x01\x10\0\0\0\x01\0\0\0\x02\0\0\0\x03\0\0\0\0\x03\0\x01",
    // The terminator of api at r1, of the instance one.
    b"\x01*\0\0\0\x01\x02\x01\x08\x04\0\0\0\x03\0\0\0\x01\x05\x0a\0\0\0\x02\x13\0\0\0\x02\0\0\0\x01\0\0\0\0\0\0\0\x03one\0\0\x02",
    // Ann's circuit to web: from r1 over the link.
    b"\x01,\0\0\0\x01\x02\x01\x09\x04\0\0\0\x02\0\0\0\x01\x05\x0b\0\0\0\x01\x15\0\0\0\x01\0\0\0\x01\0\0\0\x01\0\0\0\x01\0\0\0\x01\x01\0\0\0",
    // Ann's circuit to api, which ends where it enters.
    b"\x01(\0\0\0\x01\x02\x01\x09\x04\0\0\0\x03\0\0\0\x01\x05\x0b\0\0\0\x02\x11\0\0\0\x01\0\0\0\x02\0\0\0\x02\0\0\0\x01\0\0\0\0",
    // By hand: the policy more goes and with it one of two counts, and the other falls to 1. The circuit to api stays, as in a folder of a program that did
    // not end the circuits which nothing grants any more.
    b"\x01%\0\0\0\x02\x05\x07\0\0\0\x02\x01\x09\x0c\0\0\0\x01\0\0\0\x01\x04\0\0\0\x01\0\0\0\x02\x09\x0c\0\0\0\x01\0\0\0\x02",
    b"\0",
];

/// The slot to which it is migrated, worked from the bytes above: what the records leave, in one batch of 678 bytes, with counts of two bytes.
const MIGRATED: &[&[u8]] = &[
    b"ZCTL\x02\0\0\0\x01\xa6\x02\0\0",
    // The next numbers of the nine kinds.
    b"\x01\x02\x01\x01\x04\0\0\0\x04\0\0\0",
    b"\x01\x02\x01\x02\x04\0\0\0\x03\0\0\0",
    b"\x01\x02\x01\x03\x04\0\0\0\x03\0\0\0",
    b"\x01\x02\x01\x04\x04\0\0\0\x02\0\0\0",
    b"\x01\x02\x01\x05\x04\0\0\0\x04\0\0\0",
    b"\x01\x02\x01\x06\x04\0\0\0\x03\0\0\0",
    b"\x01\x02\x01\x07\x04\0\0\0\x02\0\0\0",
    b"\x01\x02\x01\x08\x04\0\0\0\x03\0\0\0",
    b"\x01\x02\x01\x09\x04\0\0\0\x03\0\0\0",
    // The least router cost.
    b"\x01\x01\x02\x04\0\0\0\x14\0\0\0",
    // Identities 1 and 3.
    b"\x01\x05\x03\0\0\0\x01\x0b\0\0\0\x03ann\x01\x05staff",
    b"\x01\x05\x03\0\0\0\x03\x05\0\0\0\x03cyd\0",
    // Services.
    b"\x01\x05\x04\0\0\0\x01\x0a\0\0\0\x03web\x01\x04apps",
    b"\x01\x05\x04\0\0\0\x02\x05\0\0\0\x03api\0",
    // Routers.
    b"\x01\x05\x05\0\0\0\x01\x07\0\0\0\x02r1\0\0\0\x02",
    b"\x01\x05\x05\0\0\0\x02\x07\0\0\0\x02r2\0\x05\0\x03",
    // The link.
    b"\x01\x05\x06\0\0\0\x01\x12\0\0\0\x02l1\x01\0\0\0\x02\0\0\0\x0b\0\x05\0\0\0\x01",
    // The service policies 1 and 3.
    b"\x01\x05\x07\0\0\0\x01\x18\0\0\0\x04dial\x01\x01\0\0\x01\x05staff\0\0\x01\x04apps",
    b"\x01\x05\x07\0\0\0\x03\x15\0\0\0\x04bind\x02\x02\0\x01\x03cyd\0\0\x01\x03web\0",
    // Edge-router policies.
    b"\x01\x05\x08\0\0\0\x01\x10\0\0\0\x05edges\x01\x01\0\0\0\x01\x02r1\0",
    b"\x01\x05\x08\0\0\0\x02\x11\0\0\0\x05hosts\x01\0\x01\x03cyd\0\x01\0\0",
    // The service-edge-router policy.
    b"\x01\x05\x09\0\0\0\x01\x10\0\0\0\x08services\x01\x01\0\0\x01\0\0",
    // Terminators.
    b"\x01\x05\x0a\0\0\0\x01\x10\0\0\0\x01\0\0\0\x02\0\0\0\x03\0\0\0\0\x03\0\x01",
    b"\x01\x05\x0a\0\0\0\x02\x13\0\0\0\x02\0\0\0\x01\0\0\0\0\0\0\0\x03one\0\0\x02",
    // Circuits.
    b"\x01\x05\x0b\0\0\0\x01\x15\0\0\0\x01\0\0\0\x01\0\0\0\x01\0\0\0\x01\0\0\0\x01\x01\0\0\0",
    b"\x01\x05\x0b\0\0\0\x02\x11\0\0\0\x01\0\0\0\x02\0\0\0\x02\0\0\0\x01\0\0\0\0",
    // The counts of Dial and Bind, of two bytes each.
    b"\x01\x09\x0c\0\0\0\x01\0\0\0\x01\x02\0\0\0\x01\0",
    b"\x01\x09\x0d\0\0\0\x03\0\0\0\x01\x02\0\0\0\x01\0",
    // Of routers of identities.
    b"\x01\x09\x0e\0\0\0\x01\0\0\0\x01\x02\0\0\0\x01\0",
    b"\x01\x09\x0e\0\0\0\x03\0\0\0\x01\x02\0\0\0\x02\0",
    b"\x01\x09\x0e\0\0\0\x03\0\0\0\x02\x02\0\0\0\x01\0",
    // Of routers of services.
    b"\x01\x09\x0f\0\0\0\x01\0\0\0\x01\x02\0\0\0\x01\0",
    b"\x01\x09\x0f\0\0\0\x01\0\0\0\x02\x02\0\0\0\x01\0",
    b"\x01\x09\x0f\0\0\0\x02\0\0\0\x01\x02\0\0\0\x01\0",
    b"\x01\x09\x0f\0\0\0\x02\0\0\0\x02\x02\0\0\0\x01\0",
];

/// The records behind the requests, and the closed gate: those that the program of before wrote, with counts of two bytes and the serials behind a migration.
const LATER: &[&[u8]] = &[
    // Bob, the number 4, who may enter by r1; and the circuit to api, which ends.
    b"\x01C\0\0\0\x01\x02\x01\x01\x04\0\0\0\x05\0\0\0\x01\x05\x03\0\0\0\x04\x05\0\0\0\x03bob\0\x02\x05\x0b\0\0\0\x02\x01\x09\x0e\0\0\0\x04\0\0\0\x01\x02\0\0\0\x01\0\x01\x01\x11\x08\0\0\0\x01\0\0\0\0\0\0\0",
    // Another policy more, the number 4: bob may dial all services.
    b"\x01Y\0\0\0\x01\x02\x01\x05\x04\0\0\0\x05\0\0\0\x01\x05\x07\0\0\0\x04\x11\0\0\0\x04more\x01\x01\0\x01\x03bob\0\x01\0\0\x01\x09\x0c\0\0\0\x04\0\0\0\x01\x02\0\0\0\x01\0\x01\x09\x0c\0\0\0\x04\0\0\0\x02\x02\0\0\0\x01\0\x01\x01\x11\x08\0\0\0\x02\0\0\0\0\0\0\0",
    // Bob's circuit to api.
    b"\x017\0\0\0\x01\x02\x01\x09\x04\0\0\0\x04\0\0\0\x01\x05\x0b\0\0\0\x03\x11\0\0\0\x04\0\0\0\x02\0\0\0\x02\0\0\0\x01\0\0\0\0\x01\x01\x11\x08\0\0\0\x03\0\0\0\0\0\0\0",
    // Bob's circuit to web.
    b"\x01;\0\0\0\x01\x02\x01\x09\x04\0\0\0\x05\0\0\0\x01\x05\x0b\0\0\0\x04\x15\0\0\0\x04\0\0\0\x01\0\0\0\x01\0\0\0\x01\0\0\0\x01\x01\0\0\0\x01\x01\x11\x08\0\0\0\x04\0\0\0\0\0\0\0",
    // Cyd, who goes: from the policies bind and hosts too, with the terminator of web and the circuits that end there.
    b"\x01\x80\0\0\0\x02\x05\x03\0\0\0\x03\x01\x05\x07\0\0\0\x03\x11\0\0\0\x04bind\x02\x02\0\0\0\0\x01\x03web\0\x01\x05\x08\0\0\0\x02\x0d\0\0\0\x05hosts\x01\0\0\0\x01\0\0\x02\x05\x0a\0\0\0\x01\x02\x05\x0b\0\0\0\x01\x02\x05\x0b\0\0\0\x04\x02\x09\x0d\0\0\0\x03\0\0\0\x01\x02\x09\x0e\0\0\0\x03\0\0\0\x01\x02\x09\x0e\0\0\0\x03\0\0\0\x02\x01\x01\x11\x08\0\0\0\x05\0\0\0\0\0\0\0",
    b"\0",
];

/// What is counted before the requests.
const COUNTED: &[u8] =
    b"{\"circuits\":2,\"grants\":9,\"identities\":2,\"links\":1,\"policies\":5,\"routers\":2,\"services\":2,\"terminators\":2}\n";

/// The requests, and the replies that the program of before gave on this folder. The circuit to api, which nothing grants, ends at the first change; bob
/// is another identity than the first of his name.
const ASKED: &str = r##"
1502 {} -> {"circuits":2,"grants":9,"identities":2,"links":1,"policies":5,"routers":2,"services":2,"terminators":2}
1503 {"no":1} -> {"identity":"ann","ingress":"r1","links":[1],"service":"web","terminator":1}
1503 {"no":2} -> {"identity":"ann","ingress":"r1","links":[],"service":"api","terminator":2}
1500 {"identity":"ann"} -> {"bind":[],"dial":[["web",1]],"routers":[["r1",1]]}
1500 {"identity":"cyd"} -> {"bind":[["web",1]],"dial":[],"routers":[["r1",2],["r2",1]]}
1501 {"identity":"ann"} -> {"services":["web"]}
1402 {"identity":"ann","service":"web"} -> {"ingress":"r1","links":[1],"potentials":[{"router":2,"values":[36,0]}],"routers":[1,2],"terminator":1,"total":40}
1400 {"identity":"ann","instance":"one","service":"api"} -> {"code":33,"name":"NoDial"}
1000 {"name":"ann"} -> {"code":20,"name":"Exists"}
1500 {"identity":"bob"} -> {"code":21,"field":"identity","name":"Unknown"}
1503 {"no":2} -> {"identity":"ann","ingress":"r1","links":[],"service":"api","terminator":2}
1000 {"name":"bob"} -> {"no":4}
1503 {"no":2} -> {"code":21,"field":"no","name":"Unknown"}
1503 {"no":1} -> {"identity":"ann","ingress":"r1","links":[1],"service":"web","terminator":1}
1502 {} -> {"circuits":1,"grants":10,"identities":3,"links":1,"policies":5,"routers":2,"services":2,"terminators":2}
1100 {"identity_roles":["@bob"],"name":"more","semantic":"AnyOf","service_roles":["#all"],"type":"Dial"} -> {"no":4}
1400 {"identity":"bob","instance":"one","service":"api"} -> {"circuit":3,"ingress":"r1","links":[],"terminator":2,"total":0}
1400 {"identity":"bob","service":"web"} -> {"circuit":4,"ingress":"r1","links":[1],"terminator":1,"total":40}
1002 {"name":"cyd"} -> {}
1503 {"no":1} -> {"code":21,"field":"no","name":"Unknown"}
1402 {"identity":"ann","service":"web"} -> {"code":36,"name":"NoTerminators"}
1502 {} -> {"circuits":1,"grants":9,"identities":2,"links":1,"policies":6,"routers":2,"services":2,"terminators":1}
"##;

/// The look at the folder.
const COUNTS: Run<'static> = Run {
    what: "audit",
    words: &["audit"],
    how: How::AMPLE,
    input: b"",
    ended: (Status::Done, COUNTED, b""),
};

// Puts some pieces behind the bytes.
fn push_all(bytes: &mut Vec<u8>, pieces: &[&[u8]]) -> Result<(), AllocError> {
    for piece in pieces {
        bytes.extend_from_slice(piece)?;
    }
    Ok(())
}

// The slot of some pieces, with later ones behind them.
fn slot_with(alloc: Global, pieces: &[&[u8]], later: &[&[u8]]) -> Result<Vec<u8>, AllocError> {
    let mut slot = Vec::new(alloc);
    push_all(&mut slot, pieces)?;
    push_all(&mut slot, later)?;
    Ok(slot)
}

// The folder is counted as it was written, and left as it is; so is the one to which it is migrated, by a replay of nothing or by a compaction.
fn migrates<'x>(
    rt: &impl Abort,
    alloc: Global,
    before: [&'x [u8]; 3],
    once: [&'x [u8]; 3],
    twice: [&'x [u8]; 3],
) -> Result<(), AllocError> {
    for parts in [before, once, twice] {
        leaves(rt, alloc, &COUNTS, parts, parts)?;
    }
    leaves(rt, alloc, &REST, before, once)?;
    leaves(rt, alloc, &COMPACT, before, twice)?;
    leaves(rt, alloc, &REST, once, once)
}

fn check_migrations<'x>(
    rt: &impl Abort,
    alloc: Global,
    old: &'x [u8],
    new: &'x [u8],
) -> Result<(), AllocError> {
    let before = [old, b"", FIRST];
    let once = [b"".as_slice(), new, SECOND];
    let twice = [new, b"", b"\0\0\0"];
    migrates(rt, alloc, before, once, twice)
}

// It answers as before, whether or not it was migrated.
fn check_answers<'x>(
    rt: &impl Abort,
    alloc: Global,
    old: &'x [u8],
    new: &'x [u8],
    later: &[u8],
) -> Result<(), AllocError> {
    let behind = [b"".as_slice(), later, SECOND];
    for parts in [[old, b"", FIRST], [b"".as_slice(), new, SECOND]] {
        answers_leaving(rt, alloc, How::AMPLE, ASKED, parts, behind)?;
    }
    Ok(())
}

fn check_folders(rt: &impl Abort, alloc: Global, old: &[u8], new: &[u8]) -> Result<(), AllocError> {
    let later = slot_with(alloc, MIGRATED, LATER)?;
    check_migrations(rt, alloc, old, new)?;
    check_answers(rt, alloc, old, new, later.as_slice())
}

#[test]
fn migrates_an_old_folder_and_answers_on_it_as_before(rt: HostRuntime) -> Result<(), Fail> {
    let old = slot_with(rt.alloc(), WRITTEN, &[])?;
    let new = slot_with(rt.alloc(), MIGRATED, &[b"\0"])?;
    check_folders(&rt, rt.alloc(), old.as_slice(), new.as_slice())?;
    Ok(())
}
