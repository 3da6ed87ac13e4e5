ghost use Rattle.std.specs.Prelude.{◌≡◌, ◌++◌, ℕ, List, true, IfOk, OnOk, codes};
ghost use Rattle.ctrl_model.specs.declared.kinds.Who.TheVariants.{Admin};
ghost use Rattle.ctrl_model.specs.State.{start};
ghost use Rattle.reply_codec.specs.ReplyBody.{reply_body};
ghost use Rattle.reply_codec.specs.ReplyLimits.{keeps_limits};
ghost use Rattle.run_notes.specs.NotedLines.{RisesOnce};
ghost use Rattle.ctrl_serve.specs.FrameAnswer.{no_bounds, alone, frame_answer, machine_behind_alone};
ghost use Rattle.ctrl_serve.specs.Headline.{OnlySaysAndNotes};
ghost use Rattle.ctrl_serve.specs.Loads.{counts_line, state_of_load, SaysOneLine};
ghost use Rattle.ctrl_serve.specs.Runs.{IsWriteCaused};

use crate::controller::{answer_alone, carry_alone};
use channel_frame::Frame;
use ctrl_core::Core;
use ctrl_model::{Command, Reply, Who};
use load_gen::make;
use reply_codec::write;
use run_notes::{Cut, Status, tell_cut};
use std::alloc::{AllocError, Global};
use ziti_outside::{Desk, Failed};

// Answers a frame of an administrator without a folder, and says no reply.
fn answer_unsaid(alloc: Global, core: &mut Core, frame: &Frame) -> Result<(), AllocError>
    requires { core.old.live ≡ true }
    ensures { OnOk result (core.new ≡ record { state = (frame_answer no_bounds Admin frame.now (alone core.old.state)).1.state; live = true }) }
{
    let reply = answer_alone(alloc, core, &Who::Admin, frame)?;
    drop(reply);
    Ok(())
}

// Answers the frames in order, and says no reply.
fn answer_all(alloc: Global, core: &mut Core, frames: &[Frame]) -> Result<(), AllocError>
    requires { core.old.live ≡ true }
    ensures { OnOk result (core.new ≡ record { state = (machine_behind_alone no_bounds Admin (alone core.old.state) frames.now).state; live = true }) }
{
    'frames: for frame in frames {
        answer_unsaid(alloc, core, frame)?;
    }
    Ok(())
}

// A text with a newline behind it.
fn line_of(alloc: Global, text: &[u8]) -> Result<Vec<u8>, AllocError>
    ensures { IfOk result (λ line. line.items ≡ text.now ++ codes "\n") }
{
    let mut line = Vec::from_slice(alloc, text)?;
    line.push(b'\n')?;
    Ok(line)
}

// The body of a reply as a line.
fn body_line(alloc: Global, reply: &Reply) -> Result<Vec<u8>, AllocError>
    requires { keeps_limits reply.now ≡ true }
    ensures { IfOk result (λ line. line.items ≡ reply_body reply.now ++ codes "\n") }
{
    let frame = write(alloc, reply, 0, 0)?;
    line_of(alloc, frame.body.as_slice())
}

/// The counts line of the state of a core.
pub(crate) fn counts_line(alloc: Global, core: &mut Core) -> Result<Vec<u8>, AllocError>
    requires { core.old.live ≡ true }
    ensures { IfOk result (λ line. line.items ≡ counts_line core.old.state) }
{
    let reply = carry_alone(core, &Who::Admin, &Command::ShowCounts)?;
    body_line(alloc, &reply)
}

// The counts line behind some frames that a core answers.
fn line_behind(alloc: Global, core: &mut Core, frames: &[Frame]) -> Result<Vec<u8>, AllocError>
    requires { core.old.live ≡ true }
    ensures { IfOk result (λ line. line.items ≡ counts_line (machine_behind_alone no_bounds Admin (alone core.old.state) frames.now).state) }
{
    answer_all(alloc, core, frames)?;
    counts_line(alloc, core)
}

// The counts line behind some frames that are answered from the start.
fn line_from_start(alloc: Global, frames: &[Frame]) -> Result<Vec<u8>, AllocError>
    ensures { IfOk result (λ line. line.items ≡ counts_line (machine_behind_alone no_bounds Admin (alone start) frames.now).state) }
{
    let mut core = Core::empty(alloc)?;
    let line = line_behind(alloc, &mut core, frames);
    drop(core);
    line
}

// The counts line of the state behind the load of a number.
fn line_of_load(alloc: Global, number: u32) -> Result<Vec<u8>, AllocError>
    ensures { IfOk result (λ line. line.items ≡ counts_line (state_of_load number)) }
{
    let frames = make(alloc, number)?;
    line_from_start(alloc, frames.as_slice())
}

// Says a line as the last that is done, and answers how the run ended.
fn say_made<D: Desk>(line: &[u8], desk: &mut D) -> Status
    ensures says { SaysOneLine line.now (D.seen desk.old) (D.seen desk.new) result }
    ensures write_cause { IsWriteCaused (D.seen desk.old).say_faults (D.seen desk.new).say_faults result }
    ensures counted { RisesOnce (D.seen desk.old).note_faults (D.seen desk.new).note_faults }
    ensures others { OnlySaysAndNotes D.seen D.stopped desk.old desk.new }
{
    match desk.say(line) {
        Ok(()) => Status::Done,
        Err(Failed) => tell_cut(Cut::Unsaid, desk),
    }
}

/// Says a line as the last that is done, unless there was no memory to make it, and answers how the run ended.
pub(crate) fn say_line<D: Desk>(line: Result<Vec<u8>, AllocError>, desk: &mut D) -> Status
    ensures says { (wanted : List ℕ) → IfOk line (λ v. v.items ≡ wanted)
        → SaysOneLine wanted (D.seen desk.old) (D.seen desk.new) result }
    ensures write_cause { IsWriteCaused (D.seen desk.old).say_faults (D.seen desk.new).say_faults result }
    ensures counted { RisesOnce (D.seen desk.old).note_faults (D.seen desk.new).note_faults }
    ensures others { OnlySaysAndNotes D.seen D.stopped desk.old desk.new }
{
    match line {
        Ok(line) => say_made(line.as_slice(), desk),
        Err(_) => tell_cut(Cut::NoMemory, desk),
    }
}

/// Answers the frames of the load of a number from the start, without a folder and without saying a reply, and then says the counts
/// line of the state behind them, in one call.
pub fn run_load<D: Desk>(alloc: Global, number: u32, desk: &mut D) -> Status
    ensures says { SaysOneLine (counts_line (state_of_load number)) (D.seen desk.old) (D.seen desk.new) result }
    ensures write_cause { IsWriteCaused (D.seen desk.old).say_faults (D.seen desk.new).say_faults result }
    ensures counted { RisesOnce (D.seen desk.old).note_faults (D.seen desk.new).note_faults }
    ensures others { OnlySaysAndNotes D.seen D.stopped desk.old desk.new }
{
    say_line(line_of_load(alloc, number), desk)
}
