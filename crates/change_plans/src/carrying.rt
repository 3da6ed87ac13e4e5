ghost use Rattle.std.specs.Prelude.{◌≡◌, OnOk, IfOk, true};
ghost use Rattle.ctrl_model.specs.SpelledCommands.{is_spelled};
ghost use Rattle.ctrl_model.specs.Controller.{answer, counted, numbered};
ghost use Rattle.ctrl_model.specs.declared.kinds.Who.TheVariants.{Admin};
ghost use Rattle.command_codec.specs.BodyMeaning.{meaning};
ghost use Rattle.slot_reading.specs.BatchRows.{rows_in};
ghost use Rattle.ctrl_core.specs.Changes.{CanLead, led};
ghost use Rattle.change_plans.specs.PlannedLines.{line_answer, within_serials};
ghost use Rattle.change_plans.specs.PlanTurns.{GoesWith};

use command_codec::read;
use ctrl_core::{Core, Planned};
use ctrl_model::{Command, LAST_SERIAL, Refusal, Reply};
use frame_lines::Line;
use slot_reading::{Rows, change_all};
use std::alloc::{AllocError, Global};

// Moves a core and the rows of its state to where a plan leads, unless the state has the last serial, and answers the
// reply.
fn advance(
    alloc: Global,
    core: &mut Core,
    rows: &mut Rows,
    planned: Planned,
) -> Result<Reply, AllocError>
    requires goes { GoesWith core.old (rows_in rows.old.entries) }
    requires can { CanLead planned core.old.state }
    ensures answered { IfOk result (λ r. (r, core.new.state) ≡ within_serials core.old.state (planned.reply, counted core.old.state (led planned core.old.state))) }
    ensures goes { OnOk result (GoesWith core.new (rows_in rows.new.entries)) }
{
    if planned.batch.is_empty() {
        return Ok(planned.reply);
    }
    if core.serial() == LAST_SERIAL {
        drop(planned);
        return Ok(Reply::Refused(Refusal::JournalFull));
    }
    match change_all(alloc, rows, planned.batch.as_slice()) {
        Ok(()) => core.apply(planned),
        Err(error) => {
            drop(planned);
            Err(error)
        }
    }
}

// Carries a command out.
fn carry(
    alloc: Global,
    core: &mut Core,
    rows: &mut Rows,
    command: &Command,
) -> Result<Reply, AllocError>
    requires goes { GoesWith core.old (rows_in rows.old.entries) }
    requires spelled { is_spelled command.now ≡ true }
    ensures answered { IfOk result (λ r. (r, core.new.state) ≡ within_serials core.old.state (numbered core.old.state (answer Admin command.now core.old.state))) }
    ensures goes { OnOk result (GoesWith core.new (rows_in rows.new.entries)) }
{
    let planned = core.plan(command)?;
    advance(alloc, core, rows, planned)
}

/// Answers what a line spells: a command is carried out, and what spells none is refused.
pub(crate) fn answer_line(
    alloc: Global,
    core: &mut Core,
    rows: &mut Rows,
    line: &Line,
) -> Result<Reply, AllocError>
    requires goes { GoesWith core.old (rows_in rows.old.entries) }
    ensures answered { IfOk result (λ r. (r, core.new.state) ≡ line_answer (meaning line.now.content line.now.body) core.old.state) }
    ensures goes { OnOk result (GoesWith core.new (rows_in rows.new.entries)) }
{
    match read(alloc, line.content, line.body.as_slice()) {
        Ok(command) => {
            let answered = carry(alloc, core, rows, &command);
            drop(command);
            answered
        }
        Err(fault) => Ok(Reply::Refused(fault.refusal()?)),
    }
}
