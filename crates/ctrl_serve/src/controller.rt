ghost use Rattle.std.specs.Prelude.{◌≡◌, ◌⊎◌, ◌≢◌, true, false, IsTrue, IsErrOf, OnOk, IfOk, IfErr};
ghost use Rattle.row_store.specs.OpenedStates.{OpensToState};
ghost use Rattle.row_store.specs.StoredRows.{ReadsAs};
ghost use Rattle.ctrl_keep.specs.KeptBatches.{Follows};
ghost use Rattle.ctrl_keep.specs.KeptController.{HoldsRows, machine_of};
ghost use Rattle.ctrl_keep.specs.KeptMachine.{step};
ghost use Rattle.ctrl_model.specs.SpelledCommands.{is_spelled};
ghost use Rattle.ctrl_model.specs.Controller.{answer, carry};
ghost use Rattle.journal_core.specs.Room.{HoldsRoom};
ghost use Rattle.ctrl_serve.specs.FrameAnswer.{alone, frame_answer, no_bounds};
ghost use Rattle.reply_codec.specs.ReplyLimits.{keeps_limits};
ghost use Rattle.serve_loop.specs.Turns.{unkept};
ghost use Rattle.ziti_outside.specs.Causes.{HasCause};
ghost use Rattle.ziti_outside.specs.Moments.{Leaves, Remembers};
ghost use Rattle.ziti_outside.specs.Untouched.{OnlyDisk};

use access_rules::permitted;
use channel_frame::Frame;
use command_codec::read;
use ctrl_core::Core;
use ctrl_keep::{KeepFault, Kept};
use ctrl_model::{Command, Refusal, Reply, Who};
use reply_codec::write_behind;
use run_notes::Cut;
use serve_loop::AnswersFrames;
use std::alloc::{AllocError, Global};
use ziti_outside::Desk;

/// The core, which answers without a folder.
#[derive(Drop)]
pub struct AloneController {
    pub core: Core,
}

/// A controller whose state a folder keeps.
#[derive(Drop)]
pub struct KeptController {
    pub kept: Kept,
}

// Carries a command out without a folder.
fn carry_permitted(core: &mut Core, command: &Command) -> Result<Reply, AllocError>
    requires live { core.old.live ≡ true }
    requires spelled { is_spelled command.now ≡ true }
    ensures ok { IfOk result (λ r. (r, core.new.state) ≡ carry command.now core.old.state) }
    ensures live { OnOk result (core.new.live ≡ true) }
    ensures limits { IfOk result (λ r. keeps_limits r ≡ true) }
{
    core.answer(command)
}

/// Carries a command of a sender out without a folder, unless the sender may not send it.
pub(crate) fn carry_alone(
    core: &mut Core,
    who: &Who,
    command: &Command,
) -> Result<Reply, AllocError>
    requires live { core.old.live ≡ true }
    requires spelled { is_spelled command.now ≡ true }
    ensures ok { IfOk result (λ r. (r, core.new.state) ≡ answer who.now command.now core.old.state) }
    ensures live { OnOk result (core.new.live ≡ true) }
    ensures limits { IfOk result (λ r. keeps_limits r ≡ true) }
{
    if permitted(who, command) {
        carry_permitted(core, command)
    } else {
        Ok(Reply::Refused(Refusal::NotPermitted))
    }
}

/// Answers a frame of a sender without a folder: the command that it spells is carried out, and what spells none is refused.
pub(crate) fn answer_alone(
    alloc: Global,
    core: &mut Core,
    who: &Who,
    frame: &Frame,
) -> Result<Reply, AllocError>
    requires { core.old.live ≡ true }
    ensures ok { IfOk result (λ r. (r, alone core.new.state) ≡ frame_answer no_bounds who.now frame.now (alone core.old.state)) }
    ensures live { OnOk result (core.new.live ≡ true) }
    ensures limits { IfOk result (λ r. keeps_limits r ≡ true) }
{
    match read(alloc, frame.content, frame.body.as_slice()) {
        Ok(command) => {
            let answered = carry_alone(core, who, &command);
            drop(command);
            answered
        }
        Err(fault) => Ok(Reply::Refused(fault.refusal()?)),
    }
}

/// What cut a command short that a kept controller did not answer. It was not spent, and no folder was opened.
pub(crate) fn cut_of(fault: KeepFault) -> Cut
    ensures disk { fault ≡ KeepFault.Disk → result ≡ Cut.Disk }
    ensures others { fault ≢ KeepFault.Disk → result ≡ Cut.NoMemory }
{
    match fault {
        KeepFault::Disk => Cut::Disk,
        _ => Cut::NoMemory,
    }
}

// Carries a command of a sender out, which a frame spells. Its change is kept before the reply is given.
fn carry_kept<D: Desk>(
    kept: &mut Kept,
    desk: &mut D,
    who: &Who,
    command: &Command,
) -> Result<Reply, Cut>
    requires able { kept.old.spent ≡ false }
    requires holds { HoldsRows kept.old }
    requires stands { IsTrue D.tells → ReadsAs kept.old.stored (D.seen desk.old).reads (D.stopped desk.old).images }
    requires spelled { is_spelled command.now ≡ true }
    ensures ok { IfOk result (λ r. (r, machine_of kept.new) ≡ step kept.old.stored.bounds who.now command.now (machine_of kept.old)) }
    ensures on { OnOk result ((kept.new.spent ≡ false) × (kept.new.stored.bounds ≡ kept.old.stored.bounds)) }
    ensures holds { OnOk result (HoldsRows kept.new) }
    ensures stands { OnOk result (IsTrue D.tells → ReadsAs kept.new.stored (D.seen desk.new).reads (D.stopped desk.new).images) }
    ensures follows { OnOk result (IsTrue D.tells → Follows (machine_of kept.old) (machine_of kept.new) (D.seen desk.old).reads (D.seen desk.new).reads) }
    ensures limits { IfOk result (λ r. keeps_limits r ≡ true) }
    ensures cut { IfErr result (λ c. c ≢ Cut.Unsaid) }
    ensures cause { HasCause (D.seen desk.old).disk_faults (D.seen desk.new).disk_faults (unkept result) }
    ensures room { HoldsRoom D.tells kept.old.stored.bounds.slot D.seen D.stopped desk.old desk.new }
    ensures others { OnlyDisk D.seen desk.old desk.new }
    ensures stops { IsTrue D.tells → Leaves D.seen D.stopped desk.old desk.new
        (λ image. OpensToState image kept.old.state ⊎ OpensToState image (step kept.old.stored.bounds who.now command.now (machine_of kept.old)).1.state) }
    ensures remembers { Remembers (D.stopped desk.old) (D.stopped desk.new) }
{
    match kept.submit(desk, who, command) {
        Ok(reply) => Ok(reply),
        Err(fault) => Err(cut_of(fault)),
    }
}

// Answers a frame of a sender with a folder: the command that it spells is carried out, and what spells none is refused.
fn answer_kept<D: Desk>(
    alloc: Global,
    kept: &mut Kept,
    desk: &mut D,
    who: &Who,
    frame: &Frame,
) -> Result<Reply, Cut>
    requires able { kept.old.spent ≡ false }
    requires holds { HoldsRows kept.old }
    requires stands { IsTrue D.tells → ReadsAs kept.old.stored (D.seen desk.old).reads (D.stopped desk.old).images }
    ensures ok { IfOk result (λ r. (r, machine_of kept.new) ≡ frame_answer kept.old.stored.bounds who.now frame.now (machine_of kept.old)) }
    ensures on { OnOk result ((kept.new.spent ≡ false) × (kept.new.stored.bounds ≡ kept.old.stored.bounds)) }
    ensures holds { OnOk result (HoldsRows kept.new) }
    ensures stands { OnOk result (IsTrue D.tells → ReadsAs kept.new.stored (D.seen desk.new).reads (D.stopped desk.new).images) }
    ensures follows { OnOk result (IsTrue D.tells → Follows (machine_of kept.old) (machine_of kept.new) (D.seen desk.old).reads (D.seen desk.new).reads) }
    ensures limits { IfOk result (λ r. keeps_limits r ≡ true) }
    ensures cut { IfErr result (λ c. c ≢ Cut.Unsaid) }
    ensures cause { HasCause (D.seen desk.old).disk_faults (D.seen desk.new).disk_faults (unkept result) }
    ensures room { HoldsRoom D.tells kept.old.stored.bounds.slot D.seen D.stopped desk.old desk.new }
    ensures others { OnlyDisk D.seen desk.old desk.new }
    ensures stops { IsTrue D.tells → Leaves D.seen D.stopped desk.old desk.new
        (λ image. OpensToState image kept.old.state ⊎ OpensToState image (frame_answer kept.old.stored.bounds who.now frame.now (machine_of kept.old)).1.state) }
    ensures remembers { Remembers (D.stopped desk.old) (D.stopped desk.new) }
{
    match read(alloc, frame.content, frame.body.as_slice()) {
        Ok(command) => {
            let answered = carry_kept(kept, desk, who, &command);
            drop(command);
            answered
        }
        Err(fault) => Ok(Reply::Refused(fault.refusal()?)),
    }
}

impl AnswersFrames for AloneController {
    ghost use Rattle.std.specs.Prelude.{false};
    ghost use Rattle.row_store.specs.declared.bounds.StoreBounds.{StoreBounds};
    ghost use Rattle.ctrl_keep.specs.KeptMachine.{Machine as ControllerMachine};
    ghost use Rattle.ctrl_serve.specs.ControllerViews.{alone_serving, no_needs};
    ghost use Rattle.ctrl_serve.specs.FrameAnswer.{alone, controller};

    ghost Machine = { ControllerMachine };

    ghost Bounds = { StoreBounds };

    ghost answers = { controller };

    ghost by_folder = { false };

    ghost serving = { λ c. alone_serving c.core };

    ghost machine = { λ tells reads c. alone c.core.state };

    ghost needs = { λ c. no_needs };

    fn answer<D: Desk>(
        &mut self,
        desk: &mut D,
        who: &Who,
        frame: &Frame,
        sequence: u32,
        reply: &mut Vec<u8>,
    ) -> Result<(), Cut> {
        let _ = desk;
        let answered = answer_alone(*reply.allocator(), &mut self.core, who, frame)?;
        let written = write_behind(reply, &answered, sequence, frame.sequence);
        drop(answered);
        written?;
        Ok(())
    }
}

impl AnswersFrames for KeptController {
    ghost use Rattle.std.specs.Prelude.{false};
    ghost use Rattle.row_store.specs.declared.bounds.StoreBounds.{StoreBounds};
    ghost use Rattle.ctrl_keep.specs.KeptController.{machine_of};
    ghost use Rattle.ctrl_keep.specs.KeptMachine.{Machine as ControllerMachine};
    ghost use Rattle.ctrl_serve.specs.ControllerViews.{kept_needs, kept_serving};
    ghost use Rattle.ctrl_serve.specs.FrameAnswer.{controller};

    ghost Machine = { ControllerMachine };

    ghost Bounds = { StoreBounds };

    ghost answers = { controller };

    ghost by_folder = { false };

    ghost serving = { λ c. kept_serving c.kept };

    ghost machine = { λ tells reads c. machine_of c.kept };

    ghost needs = { λ c. kept_needs c.kept };

    fn answer<D: Desk>(
        &mut self,
        desk: &mut D,
        who: &Who,
        frame: &Frame,
        sequence: u32,
        reply: &mut Vec<u8>,
    ) -> Result<(), Cut> {
        let answered = answer_kept(*reply.allocator(), &mut self.kept, desk, who, frame)?;
        let written = write_behind(reply, &answered, sequence, frame.sequence);
        drop(answered);
        written?;
        Ok(())
    }
}
