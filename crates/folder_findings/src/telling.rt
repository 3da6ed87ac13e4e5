ghost use Rattle.std.specs.Prelude.{◌≡◌, ◌&&◌, ◌++◌, cond, codes, decimal, IfOk, OnOk};
ghost use Rattle.folder_findings.specs.FindingLines.{byte_back, cause_back, cause_text, cause_word, copy_back, empty_line, file_name, format_word, gate_back, gate_word, head_text, is_wrong, lines_of, mark_back, mark_line, named_line, place_text, record_back, slot_back, slot_line, slot_text, span_text, stands_text, state_line, verdict_word};

use crate::causes::{Cause, Verdict};
use crate::finding::{FoundFiles, FoundSlot};
use crate::judging::{has_records, is_first, is_second, is_wrong, named_by};
use crate::spans::{Gate, Span};
use ctrl_model::{Bytes, Format};
use itoa::Buffer;
use std::alloc::{AllocError, Global};
use ziti_outside::Part;

fn file_name(part: Part) -> &'static [u8]
    ensures { result.now ≡ file_name part }
{
    match part {
        Part::Zero => b"ziti.0",
        Part::One => b"ziti.1",
        Part::Mark => b"ziti.mark",
    }
}

fn verdict_word(wrong: bool) -> &'static [u8]
    ensures { result.now ≡ verdict_word wrong }
{
    if wrong {
        return b"found ";
    }
    b"ok "
}

fn gate_word(gate: Gate) -> &'static [u8]
    ensures { result.now ≡ gate_word gate }
{
    match gate {
        Gate::Closed => b"closed",
        Gate::Missing => b"missing",
        Gate::Cut => b"cut",
    }
}

fn cause_word(cause: Cause) -> &'static [u8]
    ensures { result.now ≡ cause_word cause }
{
    match cause {
        Cause::NoHeader => b"no-header",
        Cause::NoGate => b"no-gate",
        Cause::NoBatch => b"no-batch",
        Cause::NoNext => b"no-next",
        Cause::NoState => b"no-state",
    }
}

fn format_word(format: Format) -> &'static [u8]
    ensures { result.now ≡ format_word format }
{
    match format {
        Format::One => b"1",
        Format::Two => b"2",
    }
}

// Puts a number down behind some text.
fn put_number(out: &mut Vec<u8>, text: &[u8], number: u64) -> Result<(), AllocError>
    ensures { OnOk result (out.new.items ≡ out.old.items ++ (text.now ++ decimal number)) }
{
    let mut digits = Buffer::new();
    out.extend_from_slice(text)?;
    out.extend_from_slice(digits.format(number).as_bytes())
}

// Puts a word down behind some text.
fn put_word(out: &mut Vec<u8>, text: &[u8], word: &[u8]) -> Result<(), AllocError>
    ensures { OnOk result (out.new.items ≡ out.old.items ++ (text.now ++ word.now)) }
{
    out.extend_from_slice(text)?;
    out.extend_from_slice(word)
}

fn put_copy_back(out: &mut Vec<u8>) -> Result<(), AllocError>
    ensures { OnOk result (out.new.items ≡ out.old.items ++ copy_back) }
{
    out.extend_from_slice(b": put a copy of the files in their place\n")
}

fn put_byte_back(out: &mut Vec<u8>, byte: &[u8], at: u64) -> Result<(), AllocError>
    ensures { OnOk result (out.new.items ≡ out.old.items ++ byte_back byte.now at) }
{
    put_word(out, b": copy the files, and write a byte ", byte)?;
    put_number(out, b" at ", at)?;
    out.extend_from_slice(b"\n")
}

// The way back where the record at a place is given up.
fn put_record_back(out: &mut Vec<u8>, at: u64) -> Result<(), AllocError>
    ensures { OnOk result (out.new.items ≡ out.old.items ++ record_back at) }
{
    put_number(out, b": copy the files, write a byte 0 at ", at)?;
    out.extend_from_slice(b", and run zitictl compact\n")
}

fn put_gate_back(out: &mut Vec<u8>, gate: Gate, at: u64) -> Result<(), AllocError>
    ensures { OnOk result (out.new.items ≡ out.old.items ++ gate_back gate at) }
{
    match gate {
        Gate::Closed => put_byte_back(out, b"1", at),
        Gate::Missing | Gate::Cut => put_byte_back(out, b"0", at),
    }
}

fn put_cause_back(out: &mut Vec<u8>, cause: Cause, at: u64) -> Result<(), AllocError>
    ensures { OnOk result (out.new.items ≡ out.old.items ++ cause_back cause at) }
{
    match cause {
        Cause::NoHeader | Cause::NoState => put_copy_back(out),
        Cause::NoGate => put_byte_back(out, b"0", at),
        Cause::NoBatch | Cause::NoNext => put_record_back(out, at),
    }
}

fn mark_back(first: bool, second: bool) -> &'static [u8]
    ensures { result.now ≡ mark_back first second }
{
    match (first, second) {
        (true, false) => b": run nothing here, copy the files, and write 1 byte to ziti.mark\n",
        (false, _) => b": run nothing here, copy the files, and write 2 bytes to ziti.mark\n",
        (true, true) =>
            b": run nothing here, copy the files, and write 1 byte to ziti.mark for ziti.0, or 2 for ziti.1\n",
    }
}

// The line of an empty mark, by which slots have records.
fn put_empty(out: &mut Vec<u8>, first: bool, second: bool) -> Result<(), AllocError>
    ensures { OnOk result (out.new.items ≡ out.old.items ++ empty_line first second) }
{
    match (first, second) {
        (false, false) => out.extend_from_slice(b"ok ziti.mark bytes=0\n"),
        (false, true) => put_word(out, b"found ziti.mark bytes=0", mark_back(false, true)),
        (true, _) => put_word(out, b"found ziti.mark bytes=0", mark_back(true, second)),
    }
}

// The end of the line of a mark that names a slot.
fn put_stands(out: &mut Vec<u8>, part: Part) -> Result<(), AllocError>
    ensures { OnOk result (out.new.items ≡ out.old.items ++ stands_text part) }
{
    put_word(out, b" stands=", file_name(part))?;
    out.extend_from_slice(b"\n")
}

// The line of a mark of so many bytes that names a slot.
fn put_standing(out: &mut Vec<u8>, part: Part, mark: u64) -> Result<(), AllocError>
    ensures { OnOk result (out.new.items ≡ out.old.items ++ ((codes "ok ziti.mark bytes=" ++ decimal mark) ++ stands_text part)) }
{
    put_number(out, b"ok ziti.mark bytes=", mark)?;
    put_stands(out, part)
}

fn put_mark(out: &mut Vec<u8>, files: FoundFiles) -> Result<(), AllocError>
    ensures { OnOk result (out.new.items ≡ out.old.items ++ mark_line files) }
{
    match named_by(files.mark) {
        None => put_empty(out, has_records(files.first), has_records(files.second)),
        Some(part) => put_standing(out, part, files.mark),
    }
}

// What a slot of a format has in front.
fn put_head(out: &mut Vec<u8>, format: Format, len: u64) -> Result<(), AllocError>
    ensures { OnOk result (out.new.items ≡ out.old.items ++ head_text format len) }
{
    put_number(out, b" bytes=", len)?;
    put_word(out, b" format=", format_word(format))
}

// Its records and the gate at which they end.
fn put_span(out: &mut Vec<u8>, span: Span) -> Result<(), AllocError>
    ensures { OnOk result (out.new.items ≡ out.old.items ++ span_text span) }
{
    put_number(out, b" records=", span.records)?;
    put_word(out, b" gate=", gate_word(span.gate))?;
    put_number(out, b" at=", span.at)
}

// What a slot of a format has, by key.
fn put_journal(
    out: &mut Vec<u8>,
    format: Format,
    len: u64,
    span: Span,
    hidden: u64,
) -> Result<(), AllocError>
    ensures { OnOk result (out.new.items ≡ out.old.items ++ slot_text (FoundSlot.Journal format len span hidden)) }
{
    put_head(out, format, len)?;
    put_span(out, span)?;
    put_number(out, b" hidden=", hidden)
}

// What a slot has that begins with no header.
fn put_headless(out: &mut Vec<u8>, len: u64) -> Result<(), AllocError>
    ensures { OnOk result (out.new.items ≡ out.old.items ++ slot_text (FoundSlot.Headless len)) }
{
    put_number(out, b" bytes=", len)?;
    out.extend_from_slice(b" format=none")
}

// What a slot has, by key.
fn put_slot_text(out: &mut Vec<u8>, slot: FoundSlot) -> Result<(), AllocError>
    ensures { OnOk result (out.new.items ≡ out.old.items ++ slot_text slot) }
{
    match slot {
        FoundSlot::Headless { len } => put_headless(out, len),
        FoundSlot::Journal {
            format,
            len,
            span,
            hidden,
        } => put_journal(out, format, len, span, hidden),
    }
}

fn put_slot_back(out: &mut Vec<u8>, slot: FoundSlot) -> Result<(), AllocError>
    ensures { OnOk result (out.new.items ≡ out.old.items ++ slot_back slot) }
{
    match slot {
        FoundSlot::Headless { .. } => put_copy_back(out),
        FoundSlot::Journal { span, .. } => put_gate_back(out, span.gate, span.at),
    }
}

// The end of a slot's line: the way back where it is wrong.
fn put_slot_end(out: &mut Vec<u8>, wrong: bool, slot: FoundSlot) -> Result<(), AllocError>
    ensures { OnOk result (out.new.items ≡ out.old.items ++ cond wrong (slot_back slot) (codes "\n")) }
{
    if wrong {
        return put_slot_back(out, slot);
    }
    out.extend_from_slice(b"\n")
}

fn put_slot(out: &mut Vec<u8>, part: Part, stands: bool, slot: FoundSlot) -> Result<(), AllocError>
    ensures { OnOk result (out.new.items ≡ out.old.items ++ slot_line part stands slot) }
{
    let wrong = stands && is_wrong(slot);
    put_word(out, verdict_word(wrong), file_name(part))?;
    put_slot_text(out, slot)?;
    put_slot_end(out, wrong, slot)
}

// The front of the line of damage.
fn put_place(out: &mut Vec<u8>, part: Part, at: u64) -> Result<(), AllocError>
    ensures { OnOk result (out.new.items ≡ out.old.items ++ place_text part at) }
{
    put_word(out, b"found state file=", file_name(part))?;
    put_number(out, b" at=", at)
}

// The end of the line of damage.
fn put_cause(out: &mut Vec<u8>, cause: Cause, at: u64) -> Result<(), AllocError>
    ensures { OnOk result (out.new.items ≡ out.old.items ++ cause_text cause at) }
{
    put_word(out, b" cause=", cause_word(cause))?;
    put_cause_back(out, cause, at)
}

// The line of damage.
fn put_damage(out: &mut Vec<u8>, part: Part, at: u64, cause: Cause) -> Result<(), AllocError>
    ensures { OnOk result (out.new.items ≡ out.old.items ++ state_line (Verdict.Damaged part at cause)) }
{
    put_place(out, part, at)?;
    put_cause(out, cause, at)
}

fn put_state(out: &mut Vec<u8>, verdict: Verdict) -> Result<(), AllocError>
    ensures { OnOk result (out.new.items ≡ out.old.items ++ state_line verdict) }
{
    match verdict {
        Verdict::Opens => out.extend_from_slice(b"ok state\n"),
        Verdict::Damaged { part, at, cause } => put_damage(out, part, at, cause),
    }
}

fn put_lines(out: &mut Vec<u8>, files: FoundFiles, verdict: Verdict) -> Result<(), AllocError>
    ensures { OnOk result (out.new.items ≡ out.old.items ++ lines_of files verdict) }
{
    let named = named_by(files.mark);
    put_mark(out, files)?;
    put_slot(out, Part::Zero, is_first(named), files.first)?;
    put_slot(out, Part::One, is_second(named), files.second)?;
    put_state(out, verdict)
}

/// The lines of what is found in a folder: of the mark, of each slot, and of the state, each with the way back where something is wrong. An
/// `Err` is want of memory.
pub fn lines(alloc: Global, files: FoundFiles, verdict: Verdict) -> Result<Bytes, AllocError>
    ensures { IfOk result (λ text. text ≡ lines_of files verdict) }
{
    let mut out = Vec::new(alloc);
    put_lines(&mut out, files, verdict)?;
    Ok(Bytes::of(out))
}
