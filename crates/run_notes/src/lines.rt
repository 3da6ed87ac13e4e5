ghost use Rattle.std.specs.Prelude.{◌≡◌, ◌++◌, [], IfOk, length, codes, decimal};
ghost use Rattle.std.specs.String.{string_bytes};
ghost use Rattle.run_notes.specs.Notes.{damaged_note, fault_word as word_of_fault, file_number, full_note, session_note, session_rest_lines, status_lines, trace_note, trace_rest_lines};

use crate::ends::Full;
use crate::status::Status;
use arrayvec::ArrayString;
use itoa::Buffer;
use std::alloc::{AllocError, Global};
use ziti_outside::Part;

/// The line of a status that is told by no session, with its newline, or nothing.
pub fn status_line(status: Status) -> &'static [u8]
    ensures { result.now ≡ status_lines [] status }
{
    match status {
        Status::Usage => {
            b"zitictl: usage: zitictl dry | replay [--sessions] | audit | compact | load N | advise I S | ship N | follow\n"
        }
        Status::ReadFault => b"zitictl: read fault\n",
        Status::WriteFault => b"zitictl: write fault\n",
        Status::DiskFault => b"zitictl: disk fault\n",
        Status::NoMemory => b"zitictl: no memory\n",
        Status::InputTooLong => b"zitictl: input too long\n",
        _ => b"",
    }
}

/// The word of a fault, by its number.
pub fn fault_word(fault: u8) -> &'static str
    ensures { result.now ≡ word_of_fault fault }
{
    match fault {
        1 => "BadMarker",
        2 => "TooLong",
        3 => "BadHeaders",
        _ => "",
    }
}

/// The line of the fault that ended the reading of a session at a place.
pub fn fault_line(alloc: Global, session: u8, word: &str, at: u64) -> Result<String, AllocError>
    ensures { IfOk result (λ line. string_bytes line ≡ session_note session (word.now ++ (codes " at " ++ decimal at))) }
{
    format!(in alloc; "zitictl: session {session}: {word} at {at}\n")
}

/// The line of a bad record.
pub fn bad_line(alloc: Global, at: u64) -> Result<String, AllocError>
    ensures { IfOk result (λ line. string_bytes line ≡ trace_note (codes "BadRecord at " ++ decimal at)) }
{
    format!(in alloc; "zitictl: trace: BadRecord at {at}\n")
}

/// The line of what is left of a session's last frame, or nothing.
pub fn session_rest_line(alloc: Global, session: u8, left: u64) -> Result<String, AllocError>
    ensures { IfOk result (λ line. string_bytes line ≡ session_rest_lines session left) }
{
    if left == 0 {
        return Ok(String::new(alloc));
    }
    format!(in alloc; "zitictl: session {session}: {left} bytes left\n")
}

/// The line of what is left of a trace's last record, or nothing.
pub fn trace_rest_line(alloc: Global, left: usize) -> Result<String, AllocError>
    ensures { IfOk result (λ line. string_bytes line ≡ trace_rest_lines left) }
{
    if left == 0 {
        return Ok(String::new(alloc));
    }
    format!(in alloc; "zitictl: trace: {left} bytes left\n")
}

// The number by which a note names a part of the folder, as text.
fn file_text(part: Part) -> &'static str
    ensures text { result.now ≡ decimal (file_number part) }
    ensures short { length result.now ≡ 1 }
{
    match part {
        Part::Zero => "0",
        Part::One => "1",
        Part::Mark => "2",
    }
}

/// The line of a folder that opens to no state: at most 49 bytes, made without memory.
pub fn damaged_line(part: Part, at: u64) -> ArrayString<64>
    ensures { result.bytes ≡ damaged_note part at }
{
    let mut place = Buffer::new();
    let mut line = ArrayString::new();
    line.push_str("zitictl: damaged: file ");
    line.push_str(file_text(part));
    line.push_str(" at ");
    line.push_str(place.format(at));
    line.push_str("\n");
    line
}

/// The line of a folder without room for a compaction.
pub fn full_line(full: Full) -> &'static [u8]
    ensures { result.now ≡ full_note full }
{
    match full {
        Full::Journal => b"zitictl: journal full\n",
        Full::Mark => b"zitictl: mark full\n",
    }
}
