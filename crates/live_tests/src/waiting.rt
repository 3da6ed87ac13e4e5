//! A reader that gives a piece only once the lines of the pieces before it were said.

use live_lines::{Exchange, Kind, tell_live};
use sample_runs::{Calls, NONE_FAILS, Spoken, desk_of};
use std::alloc::{AllocError, Global};
use std::io::{self, ErrorKind, Read};
use std::process::Abort;
use std::test::Fail;
use ziti_desk::{FileDesk, FileSource, MemDesk, Room, Writes};

/// The reply to a frame with the sequence number 7, tagged with session 3.
const REPLY: &[u8] =
    b"\x04\x03\x03\x06\t\x0c\x02\0\0\0\0\0\0\0\x15\0\0\0\x08\0\0\0\x01\0\0\0\x04\0\0\0\x07\0\0\0\x02\0\0\0\x01\0\0\0\x01{\"no\":1}";

/// Room for a folder in which nothing is put.
const ROOM: Room = Room {
    file_bytes: 64,
    said_bytes: 64,
    noted_bytes: 64,
    log_bytes: 64,
};

/// A reader that gives a frame in two pieces and then the same frame whole, and fails where not as many lines were said as there must be
/// by then.
#[derive(Drop)]
struct Waiting<'c> {
    frame: &'c [u8],
    reads: u64,
    calls: &'c Calls,
}

// What a read gives of a frame, and how many lines must have been said before it.
fn wanted(frame: &[u8], read: u64) -> (&[u8], usize) {
    match read {
        0 => (frame.get(..20).unwrap_or(b""), 0),
        1 => (frame.get(20..).unwrap_or(b""), 0),
        2 => (frame, 1),
        _ => (b"", 2),
    }
}

impl Read for Waiting<'_> {
    fn read(&mut self, buf: &mut [u8]) -> io::Result<usize> {
        let (piece, lines) = wanted(self.frame, self.reads);
        self.reads = self.reads.saturating_add(1);
        if self.calls.count() != lines {
            return Err(io::Error::from(ErrorKind::TimedOut));
        }
        let mut bytes = piece;
        bytes.read(buf)
    }
}

type Spoke<'c> = Writes<Spoken<'c>>;

type Watched<'c> = Exchange<FileSource<Waiting<'c>>, FileDesk<MemDesk, Spoke<'c>, Spoke<'c>>>;

fn spoken_at(alloc: Global, calls: &Calls) -> Spoke<'_> {
    Writes::new(Spoken {
        bytes: Vec::new(alloc),
        calls,
    })
}

fn watched<'c>(
    alloc: Global,
    frame: &'c [u8],
    calls: &'c Calls,
) -> Result<Watched<'c>, AllocError> {
    let folder = desk_of(alloc, ROOM, [b"", b"", b""], &[])?;
    let desk = FileDesk::new(folder, spoken_at(alloc, calls), spoken_at(alloc, calls));
    let source = FileSource::new(Waiting {
        frame,
        reads: 0,
        calls,
    });
    Ok(Exchange::new(source, desk))
}

// Each line is said before the next piece is given, and nothing else is said.
fn says_in_time(
    rt: &impl Abort,
    alloc: Global,
    kind: Kind,
    frame: &[u8],
    text: &str,
) -> Result<(), Fail> {
    let calls = Calls::new(alloc, NONE_FAILS);
    let mut exchange = watched(alloc, frame, &calls)?;
    let told = tell_live(alloc, kind, &mut exchange);
    assert!(rt; matches!(told, Ok(None)), "{text}");
    assert_eq!(rt;
        exchange.desk.replies().writer().bytes.as_slice(),
        text.as_bytes()
    );
    Ok(())
}

#[test]
fn the_reader_waits_for_lines(rt: HostRuntime) -> Result<(), Fail> {
    let frame = REPLY.get(2..).unwrap_or(b"");
    let frames = "7 ok {\"no\":1}\n7 ok {\"no\":1}\n";
    says_in_time(&rt, rt.alloc(), Kind::Frames, frame, frames)?;
    let replies = "3 7 ok {\"no\":1}\n3 7 ok {\"no\":1}\n";
    says_in_time(&rt, rt.alloc(), Kind::Replies, REPLY, replies)?;
    Ok(())
}
