ghost use Rattle.std.specs.Prelude.{◌≡◌, ◌≢◌, ◌≤◌, ◌⊎◌, ℕ, List, [], true, false, length, take, Some, IfOk, OnErr};
ghost use Rattle.ziti_outside.specs.declared.desk.Part.{Part};
ghost use Rattle.ziti_outside.specs.Told.{IsFront};
ghost use Rattle.slot_files.specs.FolderImage.{Stands};
ghost use Rattle.row_store.specs.OpenedStates.{IsStateless, OpensToState};
ghost use Rattle.ctrl_keep.specs.KeptMachine.{Machine};
ghost use Rattle.session_mux.specs.Completion.{completed};
ghost use Rattle.run_notes.specs.declared.ends.Full.{Full};
ghost use Rattle.run_notes.specs.Endings.{ending, is_cut};
ghost use Rattle.run_notes.specs.Inputs.{events_in};
ghost use Rattle.ctrl_serve.specs.declared.command_line.Form.TheVariants.{Replay};
ghost use Rattle.ctrl_serve.specs.CommandLine.{form_of, texts};
ghost use Rattle.ctrl_serve.specs.FrameAnswer.{each_reply, last_batches, last_machine, replies};
ghost use Rattle.ctrl_serve.specs.OpenedFolders.{Keeps, OpensTo};
ghost use Rattle.ctrl_serve.specs.MigratedRuns.{HasRoomToOpen, LacksRoom};
ghost use Rattle.ctrl_serve.specs.RunStops.{HoldsFirst, StopFinds};
ghost use Rattle.ctrl_serve.specs.SaidReplies.{joined};
ghost use Rattle.ziti_desk.specs.MemEvents.{image_of};
ghost use Rattle.memory_runs.specs.WholeReplays.{bounds, is_longer, new_machine, used, IsFull, IsNew, IsWhole, IsSafe, IsRefused, NotesInput};
ghost use Rattle.memory_runs.specs.Replays.{seen_of, IsAsSeen};
ghost use Rattle.ctrl_core.specs.KeptFormat.{kept_format};

use crate::desks::{MemoryDesk, new_desk, program_desk};
use crate::given::Given;
use ctrl_serve::{Status, run};
use session_mux::Form;
use std::alloc::{AllocError, Global};
use ziti_desk::{Images, Room};
use ziti_outside::{Desk, Part};

/// How a replay ended, what was said and noted, and the folder behind it.
#[derive(Drop)]
pub struct Replayed {
    /// Its status.
    pub status: Status,
    /// All reply bytes.
    pub said: Vec<u8>,
    /// All notes.
    pub noted: Vec<u8>,
    /// The parts of its folder.
    pub folder: Images,
}

// The words that ask for a replay.
fn words_of(alloc: Global, form: Form) -> Result<Vec<String>, AllocError>
    ensures { IfOk result (λ words. form_of (texts words.items) ≡ Some (Replay form)) }
{
    let mut words = Vec::new(alloc);
    words.push(String::from_str(alloc, "replay")?)?;
    match form {
        Form::Plain => {}
        Form::Trace => words.push(String::from_str(alloc, "--sessions")?)?,
    }
    Ok(words)
}

/// Replays an input on a desk of which no call was made and that tells all: by the call that the program makes, on the words `replay` or
/// `replay --sessions`.
///
/// No take fails. Where no say failed, no call on the folder, and memory sufficed, the replay is whole from the machine to which the folder opens;
/// or the folder is one of the first format, and has no room to be migrated, which is told. A stop at any moment of either is safe. Or the folder
/// opens to no state, and its first damage is told.
pub fn replay_on<D: Desk>(
    alloc: Global,
    form: Form,
    input: &[u8],
    desk: &mut D,
) -> Result<Status, AllocError>
    requires { IsNew D.tells (D.seen desk.old) (D.stopped desk.old) }
    ensures whole { (machine : Machine) → OpensTo (D.seen desk.old).reads machine → HasRoomToOpen bounds (D.seen desk.old).reads
        → IfOk result (λ status. is_cut status ≡ false → IsWhole form machine input.now (D.seen desk.old).reads (D.seen desk.new) status) }
    ensures safe { (machine : Machine) → OpensTo (D.seen desk.old).reads machine
        → IfOk result (λ status. is_cut status ≡ false → IsSafe form machine input.now (D.stopped desk.new)) }
    ensures full { (part : Full) → LacksRoom part bounds (D.seen desk.old).reads
        → IfOk result (λ status. is_cut status ≡ false → IsFull part (D.seen desk.old).reads (D.seen desk.new) status) }
    ensures refused { (part : Part) (at : ℕ) → IsStateless (D.seen desk.old).reads part at
        → IfOk result (λ status. is_cut status ≡ false → IsRefused part at (D.seen desk.old).reads (D.seen desk.new) status) }
    ensures decided { IfOk result (λ status. is_cut status ≡ false
        → ((machine : Machine) × OpensTo (D.seen desk.old).reads machine × HasRoomToOpen bounds (D.seen desk.old).reads)
        ⊎ ((part : Full) × LacksRoom part bounds (D.seen desk.old).reads) ⊎ ((part : Part) × (at : ℕ) × IsStateless (D.seen desk.old).reads part at)) }
    ensures no_take_fails { IfOk result (λ status. status ≢ Status.ReadFault) }
{
    let words = words_of(alloc, form)?;
    let mut source = Given::new(input);
    Ok(run(alloc, &words, &mut source, desk))
}

// The status of a run that was not cut short. Over memory one is cut short for want of memory or of room alone.
fn uncut(status: Status) -> Result<Status, AllocError>
    ensures same { IfOk result (λ kept. kept ≡ status) }
    ensures on { IfOk result (λ kept. is_cut kept ≡ false) }
    ensures cut { OnErr result (is_cut status ≡ true) }
{
    match status {
        Status::ReadFault | Status::WriteFault | Status::DiskFault | Status::NoMemory => {
            Err(AllocError)
        }
        _ => Ok(status),
    }
}

// The folder of a desk.
fn folder_of(alloc: Global, desk: &MemoryDesk) -> Result<Images, AllocError>
    ensures { IfOk result (λ folder. image_of folder ≡ (⟦<MemoryDesk as Desk>⟧.seen desk.now).reads) }
{
    let drive = desk.folder();
    Ok(Images {
        zero: Vec::from_slice(alloc, drive.part(Part::Zero))?,
        one: Vec::from_slice(alloc, drive.part(Part::One))?,
        mark: Vec::from_slice(alloc, drive.part(Part::Mark))?,
    })
}

// What a desk took, and its folder, where no note failed.
fn taken_from(alloc: Global, status: Status, desk: &MemoryDesk) -> Result<Replayed, AllocError>
    ensures status { IfOk result (λ r. r.status ≡ status) }
    ensures seen { IfOk result (λ r. IsAsSeen (⟦<MemoryDesk as Desk>⟧.seen desk.now) (seen_of r)) }
{
    if desk.notes().failures() > 0 {
        return Err(AllocError);
    }
    Ok(Replayed {
        status,
        said: Vec::from_slice(alloc, desk.replies().writer().as_slice())?,
        noted: Vec::from_slice(alloc, desk.notes().writer().as_slice())?,
        folder: folder_of(alloc, desk)?,
    })
}

/// Replays an input over a folder in memory: by the call that the program makes, and on the program's desk, whose folder is in memory here.
///
/// The one answer that hangs on more than the input and the folder is want of memory, or of the room that the folder and the log of its calls
/// were given; then nothing is told. Otherwise the folder opens to a machine, and the replay from there is whole; or it is one of the first format
/// and has no room to be migrated, which is told; or it opens to no state, and its first damage is told. The notes are all there.
pub fn replay_in_memory(
    alloc: Global,
    form: Form,
    input: &[u8],
    folder: Images,
    room: Room,
) -> Result<Replayed, AllocError>
    ensures whole { (machine : Machine) → OpensTo (image_of folder) machine → HasRoomToOpen bounds (image_of folder)
        → IfOk result (λ r. IsWhole form machine input.now (image_of folder) (seen_of r) r.status) }
    ensures full { (part : Full) → LacksRoom part bounds (image_of folder)
        → IfOk result (λ r. IsFull part (image_of folder) (seen_of r) r.status) }
    ensures refused { (part : Part) (at : ℕ) → IsStateless (image_of folder) part at
        → IfOk result (λ r. IsRefused part at (image_of folder) (seen_of r) r.status) }
    ensures decided { IfOk result (λ r. ((machine : Machine) × OpensTo (image_of folder) machine × HasRoomToOpen bounds (image_of folder))
        ⊎ ((part : Full) × LacksRoom part bounds (image_of folder)) ⊎ ((part : Part) × (at : ℕ) × IsStateless (image_of folder) part at)) }
{
    let mut desk = program_desk(alloc, folder, room)?;
    let status = uncut(replay_on(alloc, form, input, &mut desk)?)?;
    taken_from(alloc, status, &desk)
}

/// Replays an input in memory over a folder without a byte, from the state at the start.
///
/// Its answer hangs on nothing but the input, unless memory or room was wanting: it ends as the used bytes decide; exactly the replies of the machine
/// from the start are said; and the folder keeps the machine behind all frames, opens to its state, and stands for the batches of its steps.
pub fn replay_from_nothing(
    alloc: Global,
    form: Form,
    input: &[u8],
    room: Room,
) -> Result<Replayed, AllocError>
    ensures ends { IfOk result (λ r. r.status ≡ ending form (used input.now) (is_longer input.now)) }
    ensures said { IfOk result (λ r. r.said.items ≡ replies form bounds new_machine (used input.now)) }
    ensures notes { IfOk result (λ r. NotesInput form input.now r.status (seen_of r)) }
    ensures opens { IfOk result (λ r. OpensToState (image_of r.folder) (last_machine form bounds new_machine (used input.now)).state) }
    ensures keeps { IfOk result (λ r. Keeps (image_of r.folder) (last_machine form bounds new_machine (used input.now))) }
    ensures stands { IfOk result (λ r. Stands kept_format (image_of r.folder) (last_batches form bounds new_machine (used input.now) [])) }
{
    replay_in_memory(alloc, form, input, Images::empty(alloc), room)
}

/// What a stop leaves of a replay in memory: the folder, and the reply bytes that were taken by then. The stop falls at a moment of the desk, or at
/// its last one, and keeps of what is pending what the choice says (`MemDesk::stopped`).
///
/// Whatever moment it is, and whatever is kept: the folder opens to the state behind the first frames of the input, and holds each frame whose
/// reply was taken whole.
pub fn stop_in_memory(
    alloc: Global,
    form: Form,
    input: &[u8],
    folder: Images,
    room: Room,
    moment: u64,
    choice: u64,
) -> Result<(Images, Vec<u8>), AllocError>
    ensures finds { (machine : Machine) → OpensTo (image_of folder) machine
        → IfOk result (λ stop. StopFinds form bounds machine (events_in form (used input.now)) (Some []) (image_of stop.0) stop.1.items) }
    ensures holds { (machine : Machine) (count : ℕ) → OpensTo (image_of folder) machine → count ≤ length (completed form (used input.now))
        → IfOk result (λ stop. IsFront (joined (take count (each_reply form bounds machine (used input.now)))) stop.1.items
        → HoldsFirst form bounds machine (used input.now) count (image_of stop.0) stop.1.items) }
{
    let mut desk = new_desk(alloc, folder, room)?;
    let _whole = uncut(replay_on(alloc, form, input, &mut desk)?)?;
    let last = desk.moments();
    desk.stopped(alloc, moment.min(last), choice)
}
