ghost use Rattle.std.specs.Prelude.{◌≡◌, IfOk, decimal, length};
ghost use Rattle.std.specs.String.{string_bytes};
ghost use Rattle.run_notes.specs.Notes.{file_number};
ghost use Rattle.zitilook.specs.Notes.{absent_note, damaged_note, line_note, misnamed_note, notes_of, other_damaged_note, other_fault_note, unknown_note};

use crate::status::Status;
use arrayvec::ArrayString;
use frame_lines::LineFault;
use itoa::Buffer;
use std::alloc::{AllocError, Global};
use ziti_outside::Part;

/// The note of a status that tells nothing else, or nothing.
pub fn status_note(status: Status) -> &'static [u8]
    ensures { result.now ≡ notes_of status }
{
    match status {
        Status::Usage =>
            b"zitilook: usage: zitilook list KIND | show KIND NAME | why IDENTITY SERVICE | who SERVICE | dump | picture [CIRCUIT] | doctor | diff OTHER | plan | help | version\n",
        Status::Found => b"zitilook: something is wrong with the folder\n",
        Status::ReadFault => b"zitilook: read fault\n",
        Status::WriteFault => b"zitilook: write fault\n",
        Status::DiskFault => b"zitilook: disk fault\n",
        Status::NoMemory => b"zitilook: no memory\n",
        _ => b"",
    }
}

/// The note of a word that names no kind.
pub fn unknown_note(alloc: Global, word: &str) -> Result<String, AllocError>
    ensures { IfOk result (λ note. string_bytes note ≡ unknown_note word.now) }
{
    format!(in alloc; "zitilook: unknown kind: {word}\n")
}

/// The note of a line of the input that says no frame.
pub fn line_note(alloc: Global, fault: &LineFault) -> Result<String, AllocError>
    ensures { IfOk result (λ note. string_bytes note ≡ line_note fault.now) }
{
    let text = fault.text(alloc)?;
    format!(in alloc; "zitilook: {text}\n")
}

/// The note of a name that none of what is listed has.
pub fn absent_note(alloc: Global, name: &str) -> Result<String, AllocError>
    ensures { IfOk result (λ note. string_bytes note ≡ absent_note name.now) }
{
    format!(in alloc; "zitilook: no record: {name}\n")
}

/// The note of a word that is to name a record and is no name.
pub fn misnamed_note(alloc: Global, word: &str) -> Result<String, AllocError>
    ensures { IfOk result (λ note. string_bytes note ≡ misnamed_note word.now) }
{
    format!(in alloc; "zitilook: no name: {word}\n")
}

// The number by which a note names a part of the folder, as text.
fn file_text(part: Part) -> &'static str
    ensures text { result.now ≡ decimal (file_number part) }
    ensures short { length result.now ≡ 1 }
{
    match part {
        Part::Zero => "0",
        Part::One => "1",
        Part::Mark => "2",
    }
}

/// The note of a folder that opens to no state: at most 50 bytes, made without memory.
pub fn damaged_note(part: Part, at: u64) -> ArrayString<64>
    ensures { result.bytes ≡ damaged_note part at }
{
    let mut place = Buffer::new();
    let mut line = ArrayString::new();
    line.push_str("zitilook: damaged: file ");
    line.push_str(file_text(part));
    line.push_str(" at ");
    line.push_str(place.format(at));
    line.push_str("\n");
    line
}

/// The note of another folder on which a call failed.
pub fn other_fault_note() -> &'static [u8]
    ensures { result.now ≡ other_fault_note }
{
    b"zitilook: other folder: disk fault\n"
}

/// The note of another folder that opens to no state: at most 64 bytes, made without memory.
pub fn other_damaged_note(part: Part, at: u64) -> ArrayString<80>
    ensures { result.bytes ≡ other_damaged_note part at }
{
    let mut place = Buffer::new();
    let mut line = ArrayString::new();
    line.push_str("zitilook: other folder: damaged: file ");
    line.push_str(file_text(part));
    line.push_str(" at ");
    line.push_str(place.format(at));
    line.push_str("\n");
    line
}
