ghost use Rattle.std.specs.Prelude.{◌≡◌, IfOk};
ghost use Rattle.std.specs.String.{string_bytes};
ghost use Rattle.ziti_outside.specs.Untouched.{OnlyNotes};
ghost use Rattle.zitiline.specs.Notes.{note_of, notes_of, NotesLines};

use crate::status::Status;
use std::alloc::{AllocError, Global};
use ziti_outside::Desk;

/// The note of a status that no input decides, or nothing.
pub fn status_note(status: Status) -> &'static [u8]
    ensures { result.now ≡ notes_of None status }
{
    match status {
        Status::Usage =>
            b"zitiline: usage: zitiline encode | decode | trace | replies | check | answers | help | version\n",
        Status::ReadFault => b"zitiline: read fault\n",
        Status::WriteFault => b"zitiline: write fault\n",
        Status::NoMemory => b"zitiline: no memory\n",
        _ => b"",
    }
}

/// The note of a fault in words.
pub fn fault_note(alloc: Global, text: &str) -> Result<String, AllocError>
    ensures { IfOk result (λ note. string_bytes note ≡ note_of text.now) }
{
    format!(in alloc; "zitiline: {text}\n")
}

/// Notes the lines, if there are any.
pub fn note_lines<D: Desk>(lines: &[u8], desk: &mut D)
    ensures noted { NotesLines lines.now (D.seen desk.old) (D.seen desk.new) }
    ensures others { OnlyNotes D.seen D.stopped desk.old desk.new }
{
    if !lines.is_empty() {
        let _ = desk.note(lines);
    }
}
