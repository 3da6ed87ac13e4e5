//! Runs over the adapters: full, partial and failing readers and writers.

use crate::checks::{are_bytes, holds, is_status};
use ctrl_serve::{Status, run};
use sample_runs::{ANN, Calls, MADE, NONE_FAILS, Spoken, bytes_of, words_of};
use std::alloc::{AllocError, Global};
use std::io::{self, ErrorKind, Read, Write};
use std::process::Abort;
use std::rt::Files;
use std::test::Fail;
use ziti_desk::{FileDesk, FileSource, Folder, Paths, Writes};

/// A writer that takes at most so many bytes a write, and fails at one of its writes, counted from 0.
#[derive(Drop)]
struct Narrow {
    bytes: Vec<u8>,
    most: usize,
    writes: u64,
    failing: u64,
}

impl Narrow {
    fn new(alloc: Global, most: usize, failing: u64) -> Narrow {
        Narrow {
            bytes: Vec::new(alloc),
            most,
            writes: 0,
            failing,
        }
    }
}

impl Write for Narrow {
    fn write(&mut self, buf: &[u8]) -> io::Result<usize> {
        let place = self.writes;
        self.writes = place.saturating_add(1);
        if place == self.failing {
            return Err(io::Error::from(ErrorKind::BrokenPipe));
        }
        let count = buf.len().min(self.most);
        let (front, _) = buf.split_at(count);
        self.bytes.extend_from_slice(front)?;
        Ok(count)
    }

    fn flush(&mut self) -> io::Result<()> {
        Ok(())
    }
}

/// A reader that gives some bytes and fails where it would give more.
#[derive(Drop)]
struct Broken {
    bytes: &'static [u8],
}

impl Read for Broken {
    fn read(&mut self, buf: &mut [u8]) -> io::Result<usize> {
        if self.bytes.is_empty() {
            return Err(io::Error::from(ErrorKind::BrokenPipe));
        }
        self.bytes.read(buf)
    }
}

/// A write that no writer fails at.
const NEVER: u64 = u64::MAX;

/// Runs a reader's bytes into a writer and a writer of notes, in the working folder, which `dry` leaves alone.
fn ends_with<F: Files, R: Read + Drop, W: Write, N: Write>(
    alloc: Global,
    files: &F,
    reader: R,
    writer: &mut W,
    noted: &mut N,
) -> Result<Status, AllocError> {
    let mut source = FileSource::new(reader);
    let folder = Folder::new(files, Paths::WORKING_FOLDER);
    let mut desk = FileDesk::new(folder, Writes::new(writer), Writes::new(noted));
    let words = words_of(alloc, &["dry"])?;
    Ok(run(alloc, &words, &mut source, &mut desk))
}

// A reader's bytes end so, with that note.
fn ends_so<R: Read + Drop, W: Write>(
    rt: &impl Abort,
    host: &HostRuntime,
    reader: R,
    writer: &mut W,
    wanted: Status,
    note: &[u8],
) -> Result<(), AllocError> {
    let mut noted = Vec::new(host.alloc());
    let status = ends_with(host.alloc(), host, reader, writer, &mut noted)?;
    is_status(rt, "adapters", status, wanted);
    are_bytes(rt, "adapters", noted.as_slice(), note);
    Ok(())
}

/// How many bytes a writer takes at a time, and the write at which it fails; the input and all replies, as their parts; how many bytes of these the
/// writer has taken in the end, and by how many writes; the status, and the note. A reply has 49 bytes, and the last writer fails behind ten bytes
/// of the second one.
type Trial = (
    usize,
    u64,
    [&'static str; 2],
    [u64; 2],
    Status,
    &'static [u8],
);

const FAULT: &[u8] = b"zitictl: write fault\n";

const TWICE: [&str; 2] = ["ANN ANN", "MADE EXISTS"];

const TRIALS: &[Trial] = &[
    (1, NEVER, TWICE, [117, 117], Status::Done, b""),
    (7, NEVER, TWICE, [117, 17], Status::Done, b""),
    (4_096, NEVER, TWICE, [117, 2], Status::Done, b""),
    (
        4_096,
        NEVER,
        ["ANN \\x03\\x06\\x09", "MADE"],
        [49, 1],
        Status::Truncated,
        b"zitictl: session 0: 3 bytes left\n",
    ),
    (0, NEVER, TWICE, [0, 1], Status::WriteFault, FAULT),
    (10, 6, TWICE, [59, 7], Status::WriteFault, FAULT),
];

// The writer of a trial has taken as much of the replies by as many writes.
fn has_taken(rt: &impl Abort, writer: &Narrow, said: &[u8], counts: [u64; 2]) {
    let [len, writes] = counts;
    let taken = said.get(..writer.bytes.len()).unwrap_or(b"");
    are_bytes(rt, "taken", writer.bytes.as_slice(), taken);
    holds(rt, "bytes", writer.bytes.len() as u64 == len);
    holds(rt, "writes", writer.writes == writes);
}

fn makes(
    rt: &impl Abort,
    host: &HostRuntime,
    trial: &Trial,
    input: &[u8],
    said: &[u8],
) -> Result<(), AllocError> {
    let (most, failing, _, counts, status, note) = *trial;
    let mut writer = Narrow::new(host.alloc(), most, failing);
    ends_so(rt, host, input, &mut writer, status, note)?;
    has_taken(rt, &writer, said, counts);
    Ok(())
}

fn check_trial(rt: &impl Abort, host: &HostRuntime, trial: &Trial) -> Result<(), AllocError> {
    let (_, _, [input, said], _, _, _) = *trial;
    let input = bytes_of(host.alloc(), input)?;
    let said = bytes_of(host.alloc(), said)?;
    makes(rt, host, trial, input.as_slice(), said.as_slice())
}

#[test]
fn says_all_to_full_and_partial_writers(rt: HostRuntime) -> Result<(), Fail> {
    for trial in TRIALS {
        check_trial(&rt, &rt, trial)?;
    }
    Ok(())
}

#[test]
fn ends_at_a_failing_reader(rt: HostRuntime) -> Result<(), Fail> {
    let broken = Broken { bytes: ANN };
    let mut said = Vec::new(rt.alloc());
    let note = b"zitictl: read fault\n".as_slice();
    ends_so(&rt, &rt, broken, &mut said, Status::ReadFault, note)?;
    are_bytes(&rt, "said", said.as_slice(), MADE);
    Ok(())
}

/// A reader that gives the same bytes twice, and fails at its second read where nothing was said before.
#[derive(Drop)]
struct Patient<'c> {
    bytes: &'static [u8],
    reads: u64,
    calls: &'c Calls,
}

impl Read for Patient<'_> {
    fn read(&mut self, buf: &mut [u8]) -> io::Result<usize> {
        let place = self.reads;
        self.reads = place.saturating_add(1);
        if place == 1 && self.calls.count() == 0 {
            return Err(io::Error::from(ErrorKind::TimedOut));
        }
        let mut bytes = if place < 2 {
            self.bytes
        } else {
            b"".as_slice()
        };
        bytes.read(buf)
    }
}

fn answers_patient(
    rt: &impl Abort,
    host: &HostRuntime,
    calls: &Calls,
    wanted: &[u8],
) -> Result<(), AllocError> {
    let patient = Patient {
        bytes: ANN,
        reads: 0,
        calls,
    };
    let mut spoken = Spoken {
        bytes: Vec::new(host.alloc()),
        calls,
    };
    ends_so(rt, host, patient, &mut spoken, Status::Done, b"")?;
    are_bytes(rt, "spoken", spoken.bytes.as_slice(), wanted);
    Ok(())
}

// The sender of a frame has its reply before more is read of it.
#[test]
fn answers_before_it_reads_on(rt: HostRuntime) -> Result<(), Fail> {
    let calls = Calls::new(rt.alloc(), NONE_FAILS);
    let wanted = bytes_of(rt.alloc(), "MADE EXISTS")?;
    answers_patient(&rt, &rt, &calls, wanted.as_slice())?;
    Ok(())
}
