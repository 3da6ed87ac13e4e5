ghost use Rattle.std.specs.Prelude.{◌≡◌, length, IsTrue, IfOk};
ghost use Rattle.ziti_outside.specs.Causes.{HasCause};
ghost use Rattle.ziti_outside.specs.Untouched.{OnlyReads};
ghost use Rattle.folder_findings.specs.FoundFiles.{format_of, found_files, found_slot, header_format};
ghost use Rattle.std.specs.Str.{bytes_eq};
ghost use Rattle.journal_core.specs.Slots.{header as header_of};

use crate::spans::{Span, hidden_by, span_of};
use ctrl_model::Format;
use journal_core::{HEADER_LEN, header};
use ziti_outside::{Desk, Failed, Part};

/// What is found in the bytes of a slot.
#[derive(Clone, Copy, PartialEq, Eq)]
pub enum FoundSlot {
    /// They begin with the header of neither format.
    Headless {
        /// How many there are.
        len: u64,
    },
    /// They begin with the header of a format.
    Journal {
        format: Format,
        /// How many there are.
        len: u64,
        /// The records from the first gate on.
        span: Span,
        /// How many records more there were, if the closed gate were open.
        hidden: u64,
    },
}

/// What is found in the files of a folder.
#[derive(Clone, Copy, PartialEq, Eq)]
pub struct FoundFiles {
    /// How many bytes the mark has.
    pub mark: u64,
    /// The first slot.
    pub first: FoundSlot,
    /// The second slot.
    pub second: FoundSlot,
}

// Whether some bytes are the header of a format.
fn is_header(bytes: &[u8; 8], format: Format) -> bool
    ensures { result ≡ bytes_eq bytes.now (header_of format) }
{
    *bytes == header(format)
}

// The format whose header some bytes are, if they are that of one.
fn header_format(bytes: &[u8; 8]) -> Option<Format>
    ensures { result ≡ header_format bytes.now }
{
    if is_header(bytes, Format::Two) {
        return Some(Format::Two);
    }
    if is_header(bytes, Format::One) {
        return Some(Format::One);
    }
    None
}

// The format with whose header a part of so many bytes begins, if it begins with one.
fn format_of<D: Desk>(desk: &mut D, part: Part, len: u64) -> Result<Option<Format>, Failed>
    requires len { IsTrue D.tells → len ≡ length ((D.seen desk.old).reads part) }
    ensures format { IfOk result (λ found. IsTrue D.tells → found ≡ format_of ((D.seen desk.old).reads part)) }
    ensures cause { HasCause (D.seen desk.old).disk_faults (D.seen desk.new).disk_faults result }
    ensures reads { OnlyReads D.seen D.stopped desk.old desk.new }
{
    if len < HEADER_LEN {
        return Ok(None);
    }
    let mut bytes = [0u8; 8];
    desk.read_at(part, 0, &mut bytes)?;
    Ok(header_format(&bytes))
}

/// What is found in a slot, by reading alone. No payload is read, and no memory is wanted.
pub fn find_slot<D: Desk>(desk: &mut D, part: Part) -> Result<FoundSlot, Failed>
    ensures found { IfOk result (λ found. IsTrue D.tells → found ≡ found_slot ((D.seen desk.old).reads part)) }
    ensures cause { HasCause (D.seen desk.old).disk_faults (D.seen desk.new).disk_faults result }
    ensures reads { OnlyReads D.seen D.stopped desk.old desk.new }
{
    let len = desk.len(part)?;
    let Some(format) = format_of(desk, part, len)? else {
        return Ok(FoundSlot::Headless { len });
    };
    let span = span_of(desk, part, len)?;
    let hidden = hidden_by(desk, part, span, len)?;
    Ok(FoundSlot::Journal {
        format,
        len,
        span,
        hidden,
    })
}

/// What is found in the files of a folder, by reading alone. No payload is read, and no memory is wanted.
pub fn find_files<D: Desk>(desk: &mut D) -> Result<FoundFiles, Failed>
    ensures found { IfOk result (λ found. IsTrue D.tells → found ≡ found_files (D.seen desk.old).reads) }
    ensures cause { HasCause (D.seen desk.old).disk_faults (D.seen desk.new).disk_faults result }
    ensures reads { OnlyReads D.seen D.stopped desk.old desk.new }
{
    let mark = desk.len(Part::Mark)?;
    let first = find_slot(desk, Part::Zero)?;
    let second = find_slot(desk, Part::One)?;
    Ok(FoundFiles {
        mark,
        first,
        second,
    })
}
