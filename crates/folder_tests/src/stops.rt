//! Calls on a desk over memory, in turn, and stops of it: what they leave of writes, cuts and replies at each moment, by what they keep.

use crate::checks::are_bytes;
use std::alloc::{AllocError, Global};
use std::process::Abort;
use std::test::Fail;
use ziti_desk::{Images, MemDesk, Room};
use ziti_outside::{Desk, Part};

/// Room for some calls.
const ROOM: Room = Room {
    file_bytes: 8,
    said_bytes: 16,
    noted_bytes: 16,
    log_bytes: 1_024,
};

/// A call on a desk, or a look at it.
#[derive(Clone, Copy)]
pub(crate) enum Call {
    /// Bytes are written at a place of a part.
    Write(Part, u64, &'static [u8]),
    /// A part is cut to a length.
    Cut(Part, u64),
    Sync(Part),
    Say(&'static [u8]),
    Note(&'static [u8]),
    /// A part has so many bytes.
    Len(Part, u64),
    /// A part reads so.
    Reads(Part, &'static [u8]),
    /// So was said.
    Said(&'static [u8]),
    /// So was noted.
    Noted(&'static [u8]),
    /// So many calls were made that matter to a stop.
    Moments(u64),
}

/// A call, and whether it is made; or a look, and whether it finds that.
pub(crate) type Step = (Call, bool);

/// What a stop leaves: the first slot, the second one, and the replies.
type Left<'b> = [&'b [u8]; 3];

/// A moment, and what a stop leaves at it by choice 0, which keeps nothing of what is pending, and by choice 1, which keeps all of it.
type Stop = (u64, Left<'static>, Left<'static>);

/// Calls that fail, counted from 0, the steps in two parts, and stops behind them. The first slot reads `abc` before.
#[derive(Clone, Copy)]
struct Trial {
    failing: &'static [u32],
    steps: [&'static [Step]; 2],
    stops: &'static [Stop],
}

// Parts of which the first slot has the bytes `abc`.
fn letters(alloc: Global) -> Result<Images, AllocError> {
    let mut images = Images::empty(alloc);
    images.zero.extend_from_slice(b"abc")?;
    Ok(images)
}

fn desk(alloc: Global, failing: &[u32]) -> Result<MemDesk, AllocError> {
    let failing = Vec::from_slice(alloc, failing)?;
    let images = letters(alloc)?;
    MemDesk::new(alloc, images, ROOM, failing)
}

fn is_made(rt: &impl Abort, desk: &mut MemDesk, call: Call) -> bool {
    match call {
        Call::Write(part, at, bytes) => {
            assert!(rt; at <= desk.part(part).len() as u64);
            desk.write_at(part, at, bytes).is_ok()
        }
        Call::Cut(part, len) => {
            assert!(rt; len <= desk.part(part).len() as u64);
            desk.cut(part, len).is_ok()
        }
        Call::Sync(part) => desk.sync(part).is_ok(),
        Call::Say(bytes) => desk.say(bytes).is_ok(),
        Call::Note(bytes) => desk.note(bytes).is_ok(),
        Call::Len(part, len) => desk.len(part) == Ok(len),
        Call::Reads(part, bytes) => desk.part(part) == bytes,
        Call::Said(bytes) => desk.said() == bytes,
        Call::Noted(bytes) => desk.noted() == bytes,
        Call::Moments(count) => desk.moments() == count,
    }
}

/// Each step is made as it has to be.
pub(crate) fn does(rt: &impl Abort, desk: &mut MemDesk, steps: &[Step]) {
    for (at, (call, made)) in steps.iter().enumerate() {
        assert_eq!(rt; is_made(rt, desk, *call), *made, "step {at}");
    }
}

fn leaves(
    rt: &impl Abort,
    alloc: Global,
    desk: &MemDesk,
    moment: u64,
    choice: u64,
    left: Left<'_>,
) -> Result<(), AllocError> {
    let [zero, one, said] = left;
    assert!(rt; moment <= desk.moments());
    let (images, taken) = desk.stopped(alloc, moment, choice)?;
    are_bytes(rt, images.zero.as_slice(), zero);
    are_bytes(rt, images.one.as_slice(), one);
    are_bytes(rt, taken.as_slice(), said);
    Ok(())
}

fn check_trial(rt: &impl Abort, alloc: Global, trial: &Trial) -> Result<(), Fail> {
    let mut desk = desk(alloc, trial.failing)?;
    does(rt, &mut desk, trial.steps[0]);
    does(rt, &mut desk, trial.steps[1]);
    for (moment, nothing, all) in trial.stops {
        leaves(rt, alloc, &desk, *moment, 0, *nothing)?;
        leaves(rt, alloc, &desk, *moment, 1, *all)?;
    }
    Ok(())
}

/// Writes, cuts and syncs the first slot, and says and notes.
const PENDING: Trial = Trial {
    failing: &[],
    steps: [
        &[
            (Call::Write(Part::Zero, 1, b"XYZ"), true),
            (Call::Cut(Part::Zero, 2), true),
            (Call::Sync(Part::Zero), true),
            (Call::Say(b"done"), true),
            (Call::Note(b"a note"), true),
            (Call::Len(Part::Zero, 2), true),
            (Call::Moments(4), true),
        ],
        &[],
    ],
    stops: &[
        (0, [b"abc", b"", b""], [b"abc", b"", b""]),
        (1, [b"abc", b"", b""], [b"aXYZ", b"", b""]),
        (2, [b"abc", b"", b""], [b"aX", b"", b""]),
        (3, [b"aX", b"", b""], [b"aX", b"", b"done"]),
        (4, [b"aX", b"", b"done"], [b"aX", b"", b"done"]),
    ],
};

#[test]
fn keeps_nothing_or_all_of_what_is_pending(rt: HostRuntime) -> Result<(), Fail> {
    check_trial(&rt, rt.alloc(), &PENDING)
}

/// A write and a cut that fail are pending, and change nothing that is read; a sync is made behind them.
const FAILED: Trial = Trial {
    failing: &[0, 1, 2, 3],
    steps: [
        &[
            (Call::Write(Part::Zero, 0, b"XY"), false),
            (Call::Cut(Part::Zero, 1), false),
            (Call::Sync(Part::Zero), false),
            (Call::Say(b"lost"), false),
            (Call::Reads(Part::Zero, b"abc"), true),
            (Call::Said(b""), true),
            (Call::Moments(2), true),
            (Call::Sync(Part::Zero), true),
        ],
        &[],
    ],
    stops: &[
        (1, [b"abc", b"", b""], [b"XYc", b"", b""]),
        (2, [b"abc", b"", b""], [b"X", b"", b""]),
        (3, [b"abc", b"", b""], [b"abc", b"", b""]),
    ],
};

#[test]
fn keeps_a_failed_write_pending(rt: HostRuntime) -> Result<(), Fail> {
    check_trial(&rt, rt.alloc(), &FAILED)
}

/// What has room, and what has not.
const FULL: Trial = Trial {
    failing: &[],
    steps: [
        &[
            (Call::Write(Part::Zero, 3, b"defgh"), true),
            (Call::Write(Part::Zero, 0, b"ABCDEFGH"), true),
            (Call::Write(Part::Zero, 8, b"i"), false),
            (Call::Reads(Part::Zero, b"ABCDEFGH"), true),
            (Call::Say(b"sixteen bytes ok"), true),
            (Call::Say(b"x"), false),
            (Call::Note(b"seventeen bytes x"), false),
            (Call::Moments(3), true),
        ],
        &[],
    ],
    stops: &[],
};

#[test]
fn counts_what_the_room_cannot_hold(rt: HostRuntime) -> Result<(), Fail> {
    check_trial(&rt, rt.alloc(), &FULL)
}

/// The calls 1 and 3, counted from 0, fail.
const LISTED: Trial = Trial {
    failing: &[1, 3],
    steps: [
        &[
            (Call::Len(Part::Mark, 0), true),
            (Call::Sync(Part::Mark), false),
            (Call::Sync(Part::Mark), true),
            (Call::Say(b"a"), false),
            (Call::Say(b"b"), true),
            (Call::Said(b"b"), true),
        ],
        &[],
    ],
    stops: &[],
};

#[test]
fn fails_at_the_listed_calls(rt: HostRuntime) -> Result<(), Fail> {
    check_trial(&rt, rt.alloc(), &LISTED)
}

/// Writes to both slots, a sync of the second one, and two says.
const WORK: &[Step] = &[
    (Call::Write(Part::Zero, 0, b"XY"), true),
    (Call::Write(Part::One, 0, b"one"), true),
    (Call::Sync(Part::One), true),
    (Call::Say(b"first"), true),
    (Call::Say(b"then"), true),
    (Call::Moments(5), true),
];

/// A note, a length and a say without room matter to no stop: no moment comes behind the last one.
const WORKED: Trial = Trial {
    failing: &[],
    steps: [
        WORK,
        &[
            (Call::Note(b"a note"), true),
            (Call::Len(Part::One, 3), true),
            (Call::Say(b"eight by"), false),
            (Call::Moments(5), true),
        ],
    ],
    stops: &[
        (0, [b"abc", b"", b""], [b"abc", b"", b""]),
        (1, [b"abc", b"", b""], [b"XYc", b"", b""]),
        (2, [b"abc", b"", b""], [b"XYc", b"one", b""]),
        (3, [b"abc", b"one", b""], [b"XYc", b"one", b"first"]),
        (
            4,
            [b"abc", b"one", b"first"],
            [b"XYc", b"one", b"firstthen"],
        ),
        (
            5,
            [b"abc", b"one", b"firstthen"],
            [b"XYc", b"one", b"firstthen"],
        ),
    ],
};

#[test]
fn keeps_what_was_synced_or_what_is_pending_too(rt: HostRuntime) -> Result<(), Fail> {
    check_trial(&rt, rt.alloc(), &WORKED)
}

// Behind the last call, and a sync of all that was written, each choice keeps the same.
fn keeps_the_same(rt: &impl Abort, alloc: Global) -> Result<(), Fail> {
    let mut desk = desk(alloc, &[])?;
    does(rt, &mut desk, WORK);
    does(rt, &mut desk, &[(Call::Sync(Part::Zero), true)]);
    for choice in 0u64..3 {
        leaves(rt, alloc, &desk, 6, choice, [b"XYc", b"one", b"firstthen"])?;
    }
    Ok(())
}

#[test]
fn keeps_the_same_at_the_end(rt: HostRuntime) -> Result<(), Fail> {
    keeps_the_same(&rt, rt.alloc())
}

// Whether a part of `WXYZ`, written behind the first byte of `abc`, is there.
fn is_torn(rt: &impl Abort, zero: &[u8]) -> bool {
    assert!(rt; zero.len() >= 3 && zero.len() <= 5);
    assert_eq!(rt; zero.first(), Some(&b'a'));
    zero != b"abc".as_slice() && zero != b"aWXYZ".as_slice()
}

// Whether a part of `first` was said.
fn is_parted(rt: &impl Abort, said: &[u8]) -> bool {
    assert!(rt; b"first".as_slice().starts_with(said));
    !said.is_empty() && said.len() < 5
}

// Whether a stop keeps a drawn part, of the first slot or of the say at its moment. The same is drawn again.
fn draws(
    rt: &impl Abort,
    alloc: Global,
    desk: &MemDesk,
    moment: u64,
    choice: u64,
    says: bool,
) -> Result<bool, AllocError> {
    assert!(rt; moment <= desk.moments());
    let (images, taken) = desk.stopped(alloc, moment, choice)?;
    let (zero, one, said) = (
        images.zero.as_slice(),
        images.one.as_slice(),
        taken.as_slice(),
    );
    leaves(rt, alloc, desk, moment, choice, [zero, one, said])?;
    Ok(if says {
        is_parted(rt, said)
    } else {
        is_torn(rt, zero)
    })
}

// Some of these choices keep a part.
fn draws_some(
    rt: &impl Abort,
    alloc: Global,
    steps: &[Step],
    moment: u64,
    says: bool,
) -> Result<(), Fail> {
    let mut desk = desk(alloc, &[])?;
    does(rt, &mut desk, steps);
    let mut parts = 0u32;
    'choices: for choice in 2u64..34 {
        if draws(rt, alloc, &desk, moment, choice, says)? {
            parts = parts.saturating_add(1);
        }
    }
    assert!(rt; parts > 0);
    Ok(())
}

#[test]
fn draws_what_is_kept(rt: HostRuntime) -> Result<(), Fail> {
    let steps: &[Step] = &[(Call::Write(Part::Zero, 1, b"WXYZ"), true)];
    draws_some(&rt, rt.alloc(), steps, 1, false)
}

#[test]
fn draws_a_front_of_the_say(rt: HostRuntime) -> Result<(), Fail> {
    draws_some(&rt, rt.alloc(), WORK, 3, true)
}
