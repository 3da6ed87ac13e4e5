ghost use Rattle.std.specs.Prelude.{◌≡◌, ℕ, ◌+◌, ◌<◌, ◌≤◌, ◌==◌, ◌∷◌, drop, length, IsTrue, IfOk, IfSome};
ghost use Rattle.ziti_outside.specs.Causes.{HasCause};
ghost use Rattle.ziti_outside.specs.Untouched.{OnlyReads};
ghost use Rattle.folder_findings.specs.Spans.{closed_by, hidden_by, record_len, span_from, span_if_open, span_past};

use journal_core::HEADER_LEN;
use ziti_outside::{Desk, Failed, Part};

/// A gate that is open.
const OPEN: u8 = 1;

/// How many bytes the length of a record has.
const LENGTH: u64 = 4;

/// What stands at a gate behind whole records.
#[derive(Clone, Copy, PartialEq, Eq)]
pub enum Gate {
    /// A byte that is not 1.
    Closed,
    /// No byte: the part ends there.
    Missing,
    /// A byte 1, and the record behind it passes the end of the part.
    Cut,
}

/// Whole records of a slot, one behind another, and the gate at which they end.
#[derive(Clone, Copy, PartialEq, Eq)]
pub struct Span {
    /// How many there are.
    pub records: u64,
    /// The place of the gate.
    pub at: u64,
    /// What stands there.
    pub gate: Gate,
}

// Whether the gate at a place of a part, where a byte stands, is open.
fn is_open<D: Desk>(desk: &mut D, part: Part, at: u64) -> Result<bool, Failed>
    ensures gate { IfOk result (λ is. IsTrue D.tells → (byte : ℕ) × (is ≡ (byte == 1)) × (drop at ((D.seen desk.old).reads part) ≡ byte ∷ drop (at + 1) ((D.seen desk.old).reads part))) }
    ensures cause { HasCause (D.seen desk.old).disk_faults (D.seen desk.new).disk_faults result }
    ensures reads { OnlyReads D.seen D.stopped desk.old desk.new }
{
    let mut bytes = [0u8; 1];
    desk.read_at(part, at, &mut bytes)?;
    Ok(bytes[0] == OPEN)
}

// How many bytes the payload has of the record that begins at a place of a part of so many bytes, if that is whole.
fn record_len<D: Desk>(desk: &mut D, part: Part, at: u64, end: u64) -> Result<Option<u64>, Failed>
    requires end { IsTrue D.tells → end ≡ length ((D.seen desk.old).reads part) }
    ensures len { IfOk result (λ len. IsTrue D.tells → len ≡ record_len (drop at ((D.seen desk.old).reads part))) }
    ensures within { IfOk result (λ len. IfSome len (λ n. at + 4 + n ≤ end)) }
    ensures cause { HasCause (D.seen desk.old).disk_faults (D.seen desk.new).disk_faults result }
    ensures reads { OnlyReads D.seen D.stopped desk.old desk.new }
{
    if end < at || end - at < LENGTH {
        return Ok(None);
    }
    let mut bytes = [0u8; 4];
    desk.read_at(part, at, &mut bytes)?;
    let len = u64::from(u32::from_le_bytes(bytes));
    if end - at - LENGTH < len {
        return Ok(None);
    }
    Ok(Some(len))
}

// The records from a gate of a part of so many bytes on, behind so many records before.
fn span_on<D: Desk>(
    desk: &mut D,
    part: Part,
    from: u64,
    before: u64,
    end: u64,
) -> Result<Span, Failed>
    requires end { IsTrue D.tells → end ≡ length ((D.seen desk.old).reads part) }
    requires few { before ≤ from }
    ensures span { IfOk result (λ span. IsTrue D.tells → span ≡ span_past (drop from ((D.seen desk.old).reads part)) 0 from before) }
    ensures cause { HasCause (D.seen desk.old).disk_faults (D.seen desk.new).disk_faults result }
    ensures reads { OnlyReads D.seen D.stopped desk.old desk.new }
{
    let mut at = from;
    let mut records = before;
    'records: while at < end {
        if !is_open(desk, part, at)? {
            return Ok(Span {
                records,
                at,
                gate: Gate::Closed,
            });
        }
        let Some(len) = record_len(desk, part, at + 1, end)? else {
            return Ok(Span {
                records,
                at,
                gate: Gate::Cut,
            });
        };
        at += 1 + LENGTH + len;
        records += 1;
    }
    Ok(Span {
        records,
        at,
        gate: Gate::Missing,
    })
}

// The records from a gate of a part of so many bytes on, if it were open.
fn span_if_open<D: Desk>(desk: &mut D, part: Part, at: u64, end: u64) -> Result<Span, Failed>
    requires end { IsTrue D.tells → end ≡ length ((D.seen desk.old).reads part) }
    requires within { at < end }
    ensures span { IfOk result (λ span. IsTrue D.tells → span ≡ span_if_open at ((D.seen desk.old).reads part)) }
    ensures cause { HasCause (D.seen desk.old).disk_faults (D.seen desk.new).disk_faults result }
    ensures reads { OnlyReads D.seen D.stopped desk.old desk.new }
{
    match record_len(desk, part, at + 1, end)? {
        None => Ok(Span {
            records: 0,
            at,
            gate: Gate::Cut,
        }),
        Some(len) => span_on(desk, part, at + (1 + LENGTH + len), 1, end),
    }
}

// How many records stand before a gate, where it is closed.
fn closed_by(gate: Gate, records: u64) -> u64
    ensures { result ≡ closed_by gate records }
{
    match gate {
        Gate::Closed => records,
        Gate::Missing | Gate::Cut => 0,
    }
}

/// The records of a slot from the gate behind its header on. It changes nothing.
pub(crate) fn span_of<D: Desk>(desk: &mut D, part: Part, end: u64) -> Result<Span, Failed>
    requires end { IsTrue D.tells → end ≡ length ((D.seen desk.old).reads part) }
    ensures span { IfOk result (λ span. IsTrue D.tells → span ≡ span_from 8 ((D.seen desk.old).reads part)) }
    ensures cause { HasCause (D.seen desk.old).disk_faults (D.seen desk.new).disk_faults result }
    ensures reads { OnlyReads D.seen D.stopped desk.old desk.new }
{
    span_on(desk, part, HEADER_LEN, 0, end)
}

/// How many records the gate hides at which the records of a slot end, where it is closed. It changes nothing.
pub(crate) fn hidden_by<D: Desk>(
    desk: &mut D,
    part: Part,
    span: Span,
    end: u64,
) -> Result<u64, Failed>
    requires end { IsTrue D.tells → end ≡ length ((D.seen desk.old).reads part) }
    ensures hidden { IfOk result (λ n. IsTrue D.tells → n ≡ hidden_by span ((D.seen desk.old).reads part)) }
    ensures cause { HasCause (D.seen desk.old).disk_faults (D.seen desk.new).disk_faults result }
    ensures reads { OnlyReads D.seen D.stopped desk.old desk.new }
{
    if span.gate != Gate::Closed || end <= span.at {
        return Ok(0);
    }
    let behind = span_if_open(desk, part, span.at, end)?;
    Ok(closed_by(behind.gate, behind.records))
}
