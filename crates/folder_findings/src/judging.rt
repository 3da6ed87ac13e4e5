ghost use Rattle.std.specs.Prelude.{◌≡◌, ◌&&◌};
ghost use Rattle.folder_findings.specs.FindingLines.{does_open, has_records, is_first, is_lost, is_second, is_well, is_wrong, is_wrong_gate, named_by};

use crate::causes::Verdict;
use crate::finding::{FoundFiles, FoundSlot};
use crate::spans::Gate;
use ziti_outside::Part;

/// Whether a slot has records, behind open gates or behind a closed one.
pub(crate) fn has_records(slot: FoundSlot) -> bool
    ensures { result ≡ has_records slot }
{
    match slot {
        FoundSlot::Headless { .. } => false,
        FoundSlot::Journal { span, hidden, .. } => 0 < span.records || 0 < hidden,
    }
}

// Whether the mark is empty though a slot has records.
fn is_lost(files: FoundFiles) -> bool
    ensures { result ≡ is_lost files }
{
    files.mark == 0 && (has_records(files.first) || has_records(files.second))
}

/// The slot that a mark of so many bytes names, if it has any.
pub(crate) fn named_by(mark: u64) -> Option<Part>
    ensures { result ≡ named_by mark }
{
    if mark == 0 {
        return None;
    }
    if (mark - 1) % 2 == 0 {
        return Some(Part::Zero);
    }
    Some(Part::One)
}

/// Whether the first slot is named.
pub(crate) fn is_first(named: Option<Part>) -> bool
    ensures { result ≡ is_first named }
{
    match named {
        Some(Part::Zero) => true,
        Some(Part::One) => false,
        Some(Part::Mark) => false,
        None => false,
    }
}

/// Whether the second slot is named.
pub(crate) fn is_second(named: Option<Part>) -> bool
    ensures { result ≡ is_second named }
{
    match named {
        Some(Part::Zero) => false,
        Some(Part::One) => true,
        Some(Part::Mark) => false,
        None => false,
    }
}

// Whether a gate is none at which a run leaves a slot.
fn is_wrong_gate(gate: Gate, hidden: u64) -> bool
    ensures { result ≡ is_wrong_gate gate hidden }
{
    match gate {
        Gate::Closed => 0 < hidden,
        Gate::Missing | Gate::Cut => true,
    }
}

/// Whether the slot that stands has no header, or ends at no gate at which a run leaves it.
pub(crate) fn is_wrong(slot: FoundSlot) -> bool
    ensures { result ≡ is_wrong slot }
{
    match slot {
        FoundSlot::Headless { .. } => true,
        FoundSlot::Journal { span, hidden, .. } => is_wrong_gate(span.gate, hidden),
    }
}

// Whether a folder opens to a state.
fn does_open(verdict: Verdict) -> bool
    ensures { result ≡ does_open verdict }
{
    match verdict {
        Verdict::Opens => true,
        Verdict::Damaged { .. } => false,
    }
}

// Whether a slot is wrong where it stands.
fn is_wrong_where_named(slot: FoundSlot, stands: bool) -> bool
    ensures { result ≡ (stands && is_wrong slot) }
{
    stands && is_wrong(slot)
}

/// Whether nothing is wrong with a folder.
pub fn is_well(files: FoundFiles, verdict: Verdict) -> bool
    ensures { result ≡ is_well files verdict }
{
    let named = named_by(files.mark);
    let first = is_wrong_where_named(files.first, is_first(named));
    let second = is_wrong_where_named(files.second, is_second(named));
    !is_lost(files) && (!first && (!second && does_open(verdict)))
}
