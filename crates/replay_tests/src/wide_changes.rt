//! A change of ten thousand rows that stops at each moment: all of them are found, or none.

use crate::checks::{holds, left_at, ran, replay_of, says_one_of};
use crate::stops::CHOICES;
use sample_runs::{How, Talk, parts_in, wide_folder};
use std::alloc::{AllocError, Global};
use std::process::Abort;
use std::test::Fail;
use ziti_desk::{Images, MemDesk};

/// The change: a policy by which all may dial all, so each of the 200 identities each of the 50 services.
const GRANT: &str =
    r##"1100 {"name":"p","type":"Dial","semantic":"AnyOf","identity_roles":["#all"],"service_roles":["#all"]} -> {"no":1}"##;

/// What is counted before the change and behind it.
const BEFORE: &[u8] =
    b"{\"circuits\":0,\"grants\":0,\"identities\":200,\"links\":0,\"policies\":0,\"routers\":0,\"services\":50,\"terminators\":0}\n";

const BEHIND: &[u8] =
    b"{\"circuits\":0,\"grants\":10000,\"identities\":200,\"links\":0,\"policies\":1,\"routers\":0,\"services\":50,\"terminators\":0}\n";

/// What the stop before left, and whether that had all the rows.
#[derive(Drop)]
struct Found {
    images: Images,
    all: bool,
}

// Whether two folders have the same bytes.
fn are_same(images: &Images, others: &Images) -> bool {
    images.zero.as_slice() == others.zero.as_slice()
        && images.one.as_slice() == others.one.as_slice()
        && images.mark.as_slice() == others.mark.as_slice()
}

// Whether a folder has all rows of the change, or none. The bytes that the stop before left are looked at once.
fn has_all(
    rt: &impl Abort,
    alloc: Global,
    images: &Images,
    last: &Found,
) -> Result<bool, AllocError> {
    if are_same(images, &last.images) {
        return Ok(last.all);
    }
    let place = says_one_of(
        rt,
        alloc,
        &["audit"],
        b"",
        parts_in(images),
        &[BEFORE, BEHIND],
    )?;
    Ok(place == 1)
}

// The folder that a stop leaves has all the rows or none, and all where the reply was taken.
fn finds(
    rt: &impl Abort,
    alloc: Global,
    desk: &MemDesk,
    moment: u64,
    choice: u64,
    last: &mut Found,
) -> Result<(), AllocError> {
    let left = left_at(rt, alloc, desk, moment, choice)?;
    let all = has_all(rt, alloc, &left.images, last)?;
    holds(rt, "answered", all || left.taken < desk.said().len());
    holds(rt, "at first", moment > 0 || !all);
    last.images = left.images;
    last.all = all;
    Ok(())
}

// At first there are none, and at the end all.
fn stops_by(rt: &impl Abort, alloc: Global, desk: &MemDesk, choice: u64) -> Result<(), AllocError> {
    let mut last = Found {
        images: Images::empty(alloc),
        all: false,
    };
    for moment in 0u64..desk.moments().saturating_add(1) {
        finds(rt, alloc, desk, moment, choice, &mut last)?;
    }
    holds(rt, "at the end", last.all);
    Ok(())
}

// Stops the change at each moment, by each choice.
fn stops(rt: &impl Abort, alloc: Global, desk: &MemDesk) -> Result<(), AllocError> {
    for choice in CHOICES {
        stops_by(rt, alloc, desk, choice)?;
    }
    Ok(())
}

// Makes the change on a folder, and stops it.
fn changes(rt: &impl Abort, alloc: Global, parts: [&[u8]; 3]) -> Result<(), AllocError> {
    let talk = Talk::of(alloc, GRANT)?;
    let how = How::AMPLE.by("slot=262144 mark=1");
    let desk = ran(rt, alloc, &replay_of("grant", how, &talk), parts)?;
    stops(rt, alloc, &desk)
}

#[test]
fn finds_all_or_none_whatever_is_kept_of_what_is_pending(rt: HostRuntime) -> Result<(), Fail> {
    let images = wide_folder(rt.alloc())?;
    changes(&rt, rt.alloc(), parts_in(&images))?;
    Ok(())
}
