ghost use Rattle.std.specs.Prelude.{◌≡◌, None, Some, IfErr, IfOk, OnOk, true};
ghost use Rattle.ctrl_model.specs.declared.formats.Format.TheVariants.{Two};
ghost use Rattle.ctrl_model.specs.ValidState.{ValidState};
ghost use Rattle.row_codec.specs.Batches.{spelled_rows};
ghost use Rattle.row_codec.specs.StateRows.{rows_of};
ghost use Rattle.slot_reading.specs.BatchRows.{rows_in};
ghost use Rattle.frame_lines.specs.TextLines.{lines_of};
ghost use Rattle.frame_lines.specs.TextReading.{fault_said};
ghost use Rattle.change_plans.specs.PlannedLines.{planned, refused_lines};
ghost use Rattle.change_plans.specs.PlanTurns.{GoesWith, PlansLine, TakesLine};

use crate::carrying::answer_line;
use crate::refusing::tell_refusal;
use ctrl_core::Core;
use frame_lines::{Line, LineCause, LineFault, cut_line, passes, read_line};
use slot_reading::Rows;
use std::alloc::{AllocError, Global};

// Answers a line that says this, and puts the line of its refusal down, if it is refused.
fn plan_line(
    alloc: Global,
    core: &mut Core,
    rows: &mut Rows,
    out: &mut Vec<u8>,
    number: u64,
    line: &Line,
) -> Result<(), AllocError>
    requires goes { GoesWith core.old (rows_in rows.old.entries) }
    ensures answered { OnOk result (PlansLine number line.now core.old.state core.new.state out.old.items out.new.items) }
    ensures goes { OnOk result (GoesWith core.new (rows_in rows.new.entries)) }
{
    let reply = answer_line(alloc, core, rows, line)?;
    let told = tell_refusal(alloc, out, number, &reply);
    drop(reply);
    told
}

// Answers a line of this number, unless it passes.
fn take_line(
    alloc: Global,
    core: &mut Core,
    rows: &mut Rows,
    out: &mut Vec<u8>,
    number: u64,
    line: &[u8],
) -> Result<Result<(), LineCause>, AllocError>
    requires goes { GoesWith core.old (rows_in rows.old.entries) }
    ensures turn { IfOk result (λ turn. TakesLine number line.now core.old.state core.new.state out.old.items out.new.items turn) }
    ensures goes { OnOk result (GoesWith core.new (rows_in rows.new.entries)) }
{
    if passes(line) {
        return Ok(Ok(()));
    }
    match read_line(alloc, line)? {
        Ok(said) => {
            let planned = plan_line(alloc, core, rows, out, number, &said);
            drop(said);
            Ok(Ok(planned?))
        }
        Err(cause) => Ok(Err(cause)),
    }
}

/// Carries the commands of a text out, line by line and as an administrator's, on a core and on the rows of its state
/// in the second format, and gives the lines of those that are refused. Each change is counted as a folder counts it,
/// and there is room for it but at the last serial.
///
/// A text with a line that says no frame has the fault that `encode` tells of it; then the core may have moved and is
/// of no use. An `Err` is want of memory.
pub fn plan_lines(
    alloc: Global,
    core: &mut Core,
    rows: &mut Rows,
    text: &[u8],
) -> Result<Result<Vec<u8>, LineFault>, AllocError>
    requires live { core.old.live ≡ true }
    requires valid { ValidState core.old.state }
    requires rows { rows_in rows.old.entries ≡ spelled_rows (rows_of Two core.old.state) }
    ensures fault { IfOk result (λ ended. IfErr ended (λ fault. fault_said text.now ≡ Some fault)) }
    ensures faultless { IfOk result (λ ended. OnOk ended (fault_said text.now ≡ None)) }
    ensures state { IfOk result (λ ended. OnOk ended (core.new ≡ record { state = (planned (lines_of text.now) core.old.state).0; live = true })) }
    ensures valid { IfOk result (λ ended. OnOk ended (ValidState (planned (lines_of text.now) core.old.state).0)) }
    ensures rows { IfOk result (λ ended. OnOk ended (rows_in rows.new.entries ≡ spelled_rows (rows_of Two (planned (lines_of text.now) core.old.state).0))) }
    ensures refused { IfOk result (λ ended. IfOk ended (λ out. out.items ≡ refused_lines (planned (lines_of text.now) core.old.state).1)) }
{
    let mut out = Vec::new(alloc);
    let mut number = 1u64;
    let mut rest = text;
    'lines: while !rest.is_empty() {
        let (line, after) = cut_line(rest);
        if let Err(cause) = take_line(alloc, core, rows, &mut out, number, line)? {
            return Ok(Err(LineFault {
                line: number,
                cause,
            }));
        }
        number += 1;
        rest = after;
    }
    Ok(Ok(out))
}
