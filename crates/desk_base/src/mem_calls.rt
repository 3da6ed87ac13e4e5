//! The calls of a desk over memory: each fails where it is to fail or where there is no room, and is logged where it was done or is pending.

ghost use Rattle.std.specs.Prelude.{◌≡◌, ◌⊎◌, ℕ, ◌≤◌, ◌+◌, ◌-◌, ◌++◌, ◌||◌, [], true, false, IfOk, OnOk, OnErr, is_err, length, max, nat_lt, take, vec_capacity};
ghost use Rattle.ziti_outside.specs.Images.{Holds, StandAt};
ghost use Rattle.desk_base.specs.MemEvents.{Writing, Cutting, LogsCall, IsDone, IsPending, Pends, image_of};
ghost use Rattle.desk_base.specs.MemRoom.{PartsFit};

use crate::mem_log::{Call, Log, append, is_over};
use crate::mem_parts::{Images, overwrite};
use ziti_outside::{Failed, Part};

/// Says bytes: those that do not fit, or that are to fail, change nothing.
pub fn say_bytes(
    said: &mut Vec<u8>,
    log: &mut Log,
    bytes: &[u8],
    most: u64,
    fails: bool,
) -> Result<(), Failed>
    requires { most ≤ vec_capacity said.old }
    ensures ok { OnOk result (LogsCall (Call.Said (length bytes.now)) [] log.old log.new × (said.new.items ≡ said.old.items ++ bytes.now)) }
    ensures err { OnErr result ((said.new.items ≡ said.old.items) × (log.new ≡ log.old)) }
    ensures fails { is_err result ≡ (fails || (nat_lt (most - length said.old.items) (length bytes.now) || nat_lt log.old.room 32)) }
    ensures room { OnOk result (log.new.room ≡ log.old.room - 32) }
    ensures capacity { most ≤ vec_capacity said.new }
{
    if fails || is_over(said.len(), bytes.len(), most) {
        return Err(Failed);
    }
    let count = bytes.len();
    log.add(Call::Said { count }, b"")?;
    append(said, bytes);
    Ok(())
}

/// Notes bytes: those that do not fit, or that are to fail, change nothing.
pub fn note_bytes(noted: &mut Vec<u8>, bytes: &[u8], most: u64, fails: bool) -> Result<(), Failed>
    requires { most ≤ vec_capacity noted.old }
    ensures ok { OnOk result (noted.new.items ≡ noted.old.items ++ bytes.now) }
    ensures err { OnErr result (noted.new ≡ noted.old) }
    ensures fails { is_err result ≡ (fails || nat_lt (most - length noted.old.items) (length bytes.now)) }
    ensures capacity { most ≤ vec_capacity noted.new }
{
    if fails || is_over(noted.len(), bytes.len(), most) {
        return Err(Failed);
    }
    append(noted, bytes);
    Ok(())
}

/// How many bytes a part has, where that is not to fail.
pub fn len_of(held: &Images, part: Part, fails: bool) -> Result<u64, Failed>
    ensures len { IfOk result (λ len. len ≡ length (image_of held.now part)) }
    ensures fails { is_err result ≡ fails }
{
    if fails {
        return Err(Failed);
    }
    Ok(held.part(part).len() as u64)
}

/// Reads the whole buffer from a place of a part on, where that is not to fail and the part is long enough.
pub fn read_part(
    held: &Images,
    part: Part,
    at: u64,
    buf: &mut [u8],
    fails: bool,
) -> Result<(), Failed>
    ensures read { OnOk result (StandAt at buf.new (image_of held.now part)) }
    ensures fails { is_err result ≡ (fails || nat_lt (length (image_of held.now part)) (at + length buf.old)) }
{
    let bytes = held.part(part).as_slice();
    if fails || at > bytes.len() as u64 {
        return Err(Failed);
    }
    let (_, rest) = bytes.split_at(at as usize);
    if rest.len() < buf.len() {
        return Err(Failed);
    }
    let (front, _) = rest.split_at(buf.len());
    buf.copy_from_slice(front);
    Ok(())
}

// Writes bytes at a place of the file of a part, over what is there and past the end.
fn write_file(
    file: &mut Vec<u8>,
    log: &mut Log,
    part: Part,
    at: u64,
    bytes: &[u8],
    most: u64,
    fails: bool,
) -> Result<(), Failed>
    requires within { at ≤ length file.old.items }
    requires room { most ≤ vec_capacity file.old }
    ensures ok { OnOk result (LogsCall (Call.Wrote part at (length bytes.now) true) bytes.now log.old log.new
        × Holds at bytes.now file.old.items file.new.items) }
    ensures err { OnErr result ((file.new ≡ file.old)
        × ((log.new ≡ log.old) ⊎ LogsCall (Call.Wrote part at (length bytes.now) false) bytes.now log.old log.new)) }
    ensures logs { Pends fails (nat_lt (max most (length file.old.items)) (at + length bytes.now) || nat_lt log.old.room (32 + length bytes.now))
        (λ done. Call.Wrote part at (length bytes.now) done) bytes.now log.old log.new result }
    ensures capacity { most ≤ vec_capacity file.new }
{
    let count = bytes.len();
    if most.max(file.len() as u64) < at + count as u64 {
        return Err(Failed);
    }
    let done = !fails;
    log.add(
        Call::Wrote {
            part,
            at,
            count,
            done,
        },
        bytes,
    )?;
    if fails {
        return Err(Failed);
    }
    overwrite(file, at as usize, bytes);
    Ok(())
}

/// Writes bytes at a place of a part, over what is there and past the end. Where they do not fit nothing is changed; where the write is to
/// fail it is pending, and the parts read as before.
pub fn write_part(
    held: &mut Images,
    log: &mut Log,
    part: Part,
    at: u64,
    bytes: &[u8],
    most: u64,
    fails: bool,
) -> Result<(), Failed>
    requires within { at ≤ length (image_of held.old part) }
    requires room { PartsFit most held.old }
    ensures ok { OnOk result (IsDone (Writing part at bytes.now true) (Call.Wrote part at (length bytes.now) true) bytes.now held.old held.new log.old log.new) }
    ensures err { OnErr result (IsPending (Call.Wrote part at (length bytes.now) false) bytes.now held.old held.new log.old log.new) }
    ensures logs { Pends fails (nat_lt (max most (length (image_of held.old part))) (at + length bytes.now) || nat_lt log.old.room (32 + length bytes.now))
        (λ done. Call.Wrote part at (length bytes.now) done) bytes.now log.old log.new result }
    ensures room { PartsFit most held.new }
{
    match part {
        Part::Zero => write_file(&mut held.zero, log, part, at, bytes, most, fails),
        Part::One => write_file(&mut held.one, log, part, at, bytes, most, fails),
        Part::Mark => write_file(&mut held.mark, log, part, at, bytes, most, fails),
    }
}

// Cuts the file of a part to a length.
fn cut_file(
    file: &mut Vec<u8>,
    log: &mut Log,
    part: Part,
    len: u64,
    fails: bool,
) -> Result<(), Failed>
    requires { len ≤ length file.old.items }
    ensures ok { OnOk result (LogsCall (Call.Cut part len true) [] log.old log.new × (file.new.items ≡ take len file.old.items)) }
    ensures err { OnErr result ((file.new ≡ file.old)
        × ((log.new ≡ log.old) ⊎ LogsCall (Call.Cut part len false) [] log.old log.new)) }
    ensures logs { Pends fails (nat_lt log.old.room 32) (λ done. Call.Cut part len done) [] log.old log.new result }
    ensures capacity { vec_capacity file.new ≡ vec_capacity file.old }
{
    let done = !fails;
    log.add(Call::Cut { part, len, done }, b"")?;
    if fails {
        return Err(Failed);
    }
    file.truncate(len as usize);
    Ok(())
}

/// Cuts a part to a length of at most its own. Where the log has no room nothing is changed; where the cut is to fail it is pending, and the
/// parts read as before.
pub fn cut_part(
    held: &mut Images,
    log: &mut Log,
    part: Part,
    len: u64,
    fails: bool,
) -> Result<(), Failed>
    requires { len ≤ length (image_of held.old part) }
    ensures ok { OnOk result (IsDone (Cutting part len true) (Call.Cut part len true) [] held.old held.new log.old log.new) }
    ensures err { OnErr result (IsPending (Call.Cut part len false) [] held.old held.new log.old log.new) }
    ensures logs { Pends fails (nat_lt log.old.room 32) (λ done. Call.Cut part len done) [] log.old log.new result }
    ensures room { (most : ℕ) → PartsFit most held.old → PartsFit most held.new }
{
    match part {
        Part::Zero => cut_file(&mut held.zero, log, part, len, fails),
        Part::One => cut_file(&mut held.one, log, part, len, fails),
        Part::Mark => cut_file(&mut held.mark, log, part, len, fails),
    }
}

/// Logs the sync of a part, where it is not to fail and the log has room.
pub fn sync_part(log: &mut Log, part: Part, fails: bool) -> Result<(), Failed>
    ensures ok { OnOk result (LogsCall (Call.Synced part) [] log.old log.new) }
    ensures err { OnErr result (log.new ≡ log.old) }
    ensures fails { is_err result ≡ (fails || nat_lt log.old.room 32) }
    ensures room { OnOk result (log.new.room ≡ log.old.room - 32) }
{
    if fails {
        return Err(Failed);
    }
    log.add(Call::Synced { part }, b"")
}
