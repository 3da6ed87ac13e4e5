ghost use Rattle.std.specs.Prelude.{◌≡◌, ◌+◌, ◌-◌, ◌*◌, ◌≤◌, ◌<◌, ◌++◌, ◌∷◌, [], false, length, nat_lt, vec_len, is_err, IfOk, IfSome, IfNone, OnOk, OnErr};
ghost use Rattle.std.specs.Vec.{vec_capacity};

use std::alloc::{AllocError, Global};
use ziti_outside::{Failed, Part};

/// A call as the log keeps it; the bytes of the writes stand apart, one after the other, and those of the replies in what was
/// said. A write and a cut that failed are pending and never done.
#[derive(Clone, Copy)]
pub enum Call {
    Said {
        count: usize,
    },
    Wrote {
        part: Part,
        at: u64,
        count: usize,
        done: bool,
    },
    Cut {
        part: Part,
        len: u64,
        done: bool,
    },
    Synced {
        part: Part,
    },
}

// How many bytes of its room a call takes in the log.
const ENTRY: u64 = 32;

/// The calls that were made and may matter to a stop. All its memory is taken when it is made.
#[derive(Drop)]
pub struct Log {
    pub calls: Vec<Call>,
    pub written: Vec<u8>,
    /// How many bytes of its room no call has taken.
    pub room: u64,
    ghost calls_fit: { room + 32 * vec_len calls < 32 * vec_capacity calls + 32 },
    ghost bytes_fit: { vec_len written + room ≤ vec_capacity written },
}

/// Whether so many bytes more do not fit behind so many, where there may be so many at most.
pub fn is_over(len: usize, more: usize, most: u64) -> bool
    ensures over { result ≡ nat_lt (most - len) more }
    ensures fits { result ≡ false → more ≤ most - len }
{
    most.saturating_sub(len as u64) < more as u64
}

/// Adds bytes that fit.
pub fn append(bytes: &mut Vec<u8>, more: &[u8])
    requires { vec_len bytes.old + length more.now ≤ vec_capacity bytes.old }
    ensures items { bytes.new.items ≡ bytes.old.items ++ more.now }
    ensures len { vec_len bytes.new ≡ vec_len bytes.old + length more.now }
    ensures capacity { vec_capacity bytes.old ≤ vec_capacity bytes.new }
{
    let _ = bytes.extend_from_slice(more);
}

// The room that a call with so many bytes leaves, where it fits.
fn room_behind(room: u64, count: usize) -> Option<u64>
    ensures fits { IfSome result (λ left. left + (32 + count) ≡ room) }
    ensures full { IfNone result (room < 32 + count) }
{
    room.checked_sub(ENTRY)?.checked_sub(count as u64)
}

impl Log {
    /// A log of so many bytes.
    pub fn new(alloc: Global, bytes: u64) -> Result<Log, AllocError>
        ensures calls { IfOk result (λ log. log.calls.items ≡ []) }
        ensures written { IfOk result (λ log. log.written.items ≡ []) }
        ensures room { IfOk result (λ log. log.room ≡ bytes) }
    {
        Ok(Log {
            calls: Vec::with_capacity(alloc, (bytes / ENTRY) as usize)?,
            written: Vec::with_capacity(alloc, bytes as usize)?,
            room: bytes,
        })
    }

    /// Adds a call with the bytes that it wrote, where they fit.
    pub fn add(&mut self, call: Call, bytes: &[u8]) -> Result<(), Failed>
        ensures calls { OnOk result (self.new.calls.items ≡ self.old.calls.items ++ call ∷ []) }
        ensures written { OnOk result (self.new.written.items ≡ self.old.written.items ++ bytes.now) }
        ensures full { OnErr result (self.new ≡ self.old) }
        ensures fails { is_err result ≡ nat_lt self.old.room (32 + length bytes.now) }
        ensures room { OnOk result (self.new.room ≡ self.old.room - (32 + length bytes.now)) }
    {
        let Some(room) = room_behind(self.room, bytes.len()) else {
            return Err(Failed);
        };
        append(&mut self.written, bytes);
        let _ = self.calls.push(call);
        self.room = room;
        Ok(())
    }
}
