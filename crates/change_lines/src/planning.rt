ghost use Rattle.std.specs.Prelude.{◌≡◌, None, Some, IfErr, IfOk, OnOk, true};
ghost use Rattle.ctrl_model.specs.declared.formats.Format.{Format as Formats};
ghost use Rattle.ctrl_model.specs.State.{State};
ghost use Rattle.slot_reading.specs.BatchRows.{rows_in};
ghost use Rattle.frame_lines.specs.TextLines.{lines_of};
ghost use Rattle.frame_lines.specs.TextReading.{fault_said};
ghost use Rattle.change_plans.specs.PlannedLines.{planned};
ghost use Rattle.change_lines.specs.ChangeLines.{change_lines};
ghost use Rattle.change_lines.specs.KeptRows.{AreKeptOf};
ghost use Rattle.change_lines.specs.PlanParts.{Joins};
ghost use Rattle.change_lines.specs.PlanTexts.{IsPlan};
ghost use Rattle.change_lines.specs.RowChanges.{AreRowsOf};

use crate::comparing::changes;
use crate::keeping::{kept_rows, rows_kept};
use change_plans::plan_lines;
use ctrl_core::Core;
use ctrl_model::Bytes;
use frame_lines::LineFault;
use row_codec::Row;
use slot_reading::Rows;
use std::alloc::{AllocError, Global};

/// What the commands of a text would do to a state.
#[derive(Drop)]
pub struct Plan {
    /// The lines of the changes, and behind them a line for each command that is refused.
    pub text: Bytes,
    /// Whether a command is refused.
    pub refuses: bool,
}

// A plan of the lines of changes and those of refusals.
fn joined(alloc: Global, lines: &[u8], refused: &[u8]) -> Result<Plan, AllocError>
    ensures { IfOk result (λ p. Joins lines.now refused.now p) }
{
    let mut text = Vec::from_slice(alloc, lines)?;
    text.extend_from_slice(refused)?;
    Ok(Plan {
        text: Bytes::of(text),
        refuses: !refused.is_empty(),
    })
}

// The plan of the changes that lead from rows that are given to rows that are kept, and of lines of refusals.
fn plan_of(alloc: Global, rows: &[Row], kept: &Rows, refused: &[u8]) -> Result<Plan, AllocError>
    requires rows { (f : Formats) × (s : State) × AreRowsOf f s rows.now }
    requires kept { (t : State) × AreKeptOf t (rows_in kept.now.entries) }
    ensures { (f : Formats) (s t : State) → AreRowsOf f s rows.now → AreKeptOf t (rows_in kept.now.entries)
        → IfOk result (λ p. Joins (change_lines s t) refused.now p) }
{
    let then = rows_kept(alloc, kept)?;
    let lines = changes(alloc, rows, then.as_slice());
    drop(then);
    joined(alloc, lines?.as_slice(), refused)
}

// Carries the commands of a text out on rows that are kept, and tells what that changes of rows that are given.
fn plan_kept(
    alloc: Global,
    core: &mut Core,
    rows: &[Row],
    kept: &mut Rows,
    text: &[u8],
) -> Result<Result<Plan, LineFault>, AllocError>
    requires live { core.old.live ≡ true }
    requires rows { (f : Formats) × AreRowsOf f core.old.state rows.now }
    requires kept { AreKeptOf core.old.state (rows_in kept.old.entries) }
    ensures fault { IfOk result (λ ended. IfErr ended (λ fault. fault_said text.now ≡ Some fault)) }
    ensures faultless { IfOk result (λ ended. OnOk ended (fault_said text.now ≡ None)) }
    ensures plan { IfOk result (λ ended. IfOk ended (λ p. IsPlan core.old.state text.now p)) }
    ensures core { IfOk result (λ ended. OnOk ended (core.new ≡ record { state = (planned (lines_of text.now) core.old.state).0; live = true })) }
{
    match plan_lines(alloc, core, kept, text)? {
        Ok(refused) => Ok(Ok(plan_of(alloc, rows, kept, refused.as_slice())?)),
        Err(fault) => Ok(Err(fault)),
    }
}

/// What the commands of a text would do to the state of a core, of which all rows are given, as they were read of a
/// format. The lines tell the changes between the state and the one behind the commands, and which commands are
/// refused (docs/FORMATS.md, "Plans"). The commands are an administrator's, and have room in a folder unless the
/// serial is the last one. No folder is touched; the core moves on.
///
/// A text with a line that says no frame has the fault that `zitiline encode` tells of it, and nothing is planned;
/// the core is of no use then. An `Err` is want of memory.
pub fn plan_commands(
    alloc: Global,
    core: &mut Core,
    rows: &[Row],
    text: &[u8],
) -> Result<Result<Plan, LineFault>, AllocError>
    requires live { core.old.live ≡ true }
    requires rows { (f : Formats) × AreRowsOf f core.old.state rows.now }
    ensures fault { IfOk result (λ ended. IfErr ended (λ fault. fault_said text.now ≡ Some fault)) }
    ensures faultless { IfOk result (λ ended. OnOk ended (fault_said text.now ≡ None)) }
    ensures plan { IfOk result (λ ended. IfOk ended (λ p. IsPlan core.old.state text.now p)) }
    ensures core { IfOk result (λ ended. OnOk ended (core.new ≡ record { state = (planned (lines_of text.now) core.old.state).0; live = true })) }
{
    let mut kept = kept_rows(alloc, rows)?;
    let planned = plan_kept(alloc, core, rows, &mut kept, text);
    drop(kept);
    planned
}
