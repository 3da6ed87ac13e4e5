ghost use Rattle.std.specs.Prelude.{◌≡◌, ◌⊎◌, ℕ, List, IsTrue, IfOk, IfErr};
ghost use Rattle.ziti_outside.specs.Causes.{HasCause};
ghost use Rattle.ziti_outside.specs.Untouched.{OnlyReads};
ghost use Rattle.ctrl_keep.specs.Faults.{disk_failure};
ghost use Rattle.folder_findings.specs.Causes.{IsCauseAt};
ghost use Rattle.folder_findings.specs.declared.causes.Cause.{Cause};
ghost use Rattle.folder_findings.specs.FoundFiles.{found_files};
ghost use Rattle.zitilook.specs.Findings.{Examines, IsVerdict, SaysFindings, found_status};
ghost use Rattle.zitilook.specs.Steps.{EndsSo};

use crate::running::{end_with, tell_closed};
use crate::status::Status;
use ctrl_keep::{KeepFault, peek};
use ctrl_model::Bytes;
use folder_findings::{FoundFiles, Verdict, cause_at, find_files, is_well, lines};
use journal_core::JournalFault;
use std::alloc::{AllocError, Global};
use ziti_outside::{Desk, Failed, Part};

// The status of a run that said all its findings.
fn found_status(well: bool) -> Status
    ensures { result ≡ found_status well }
{
    if well {
        return Status::Done;
    }
    Status::Found
}

// Says findings, and answers how the run ended.
fn say_findings<D: Desk>(well: bool, text: &[u8], desk: &mut D) -> Status
    ensures says { SaysFindings well text.now (D.seen desk.old) (D.seen desk.new) result }
    ensures ends { EndsSo D.seen D.stopped desk.old desk.new result }
{
    match desk.say(text) {
        Ok(()) => end_with(found_status(well), desk),
        Err(Failed) => end_with(Status::WriteFault, desk),
    }
}

// Says findings, unless there was no memory for their lines.
fn say_lines<D: Desk>(well: bool, made: Result<Bytes, AllocError>, desk: &mut D) -> Status
    ensures says { (wanted : List ℕ) → IfOk made (λ t. t ≡ wanted) → SaysFindings well wanted (D.seen desk.old) (D.seen desk.new) result }
    ensures ends { EndsSo D.seen D.stopped desk.old desk.new result }
{
    match made {
        Ok(text) => say_findings(well, text.as_slice(), desk),
        Err(_) => end_with(Status::NoMemory, desk),
    }
}

// That a folder is damaged at a place, and why.
fn damage_at<D: Desk>(
    alloc: Global,
    desk: &mut D,
    part: Part,
    at: u64,
) -> Result<Verdict, KeepFault>
    ensures found { IfOk result (λ v. (cause : Cause) × (v ≡ Verdict.Damaged part at cause) × (IsTrue D.tells → IsCauseAt at ((D.seen desk.old).reads part) cause)) }
    ensures fault { IfErr result (λ fault. (fault ≡ KeepFault.Disk) ⊎ (fault ≡ KeepFault.NoMemory)) }
    ensures cause { HasCause (D.seen desk.old).disk_faults (D.seen desk.new).disk_faults (disk_failure result) }
    ensures reads { OnlyReads D.seen D.stopped desk.old desk.new }
{
    match cause_at(alloc, desk, part, at) {
        Ok(cause) => Ok(Verdict::Damaged { part, at, cause }),
        Err(JournalFault::Disk) => Err(KeepFault::Disk),
        Err(JournalFault::NoMemory) => Err(KeepFault::NoMemory),
        Err(JournalFault::Damaged { .. } | JournalFault::Full) => unreachable!(),
    }
}

// Whether the folder opens to a state, and where it is damaged and why if it opens to none.
fn judge<D: Desk>(alloc: Global, desk: &mut D) -> Result<Verdict, KeepFault>
    ensures verdict { IfOk result (λ v. IsTrue D.tells → IsVerdict (D.seen desk.old).reads v) }
    ensures fault { IfErr result (λ fault. (fault ≡ KeepFault.Disk) ⊎ (fault ≡ KeepFault.NoMemory)) }
    ensures cause { HasCause (D.seen desk.old).disk_faults (D.seen desk.new).disk_faults (disk_failure result) }
    ensures reads { OnlyReads D.seen D.stopped desk.old desk.new }
{
    match peek(alloc, desk) {
        Ok(core) => {
            drop(core);
            Ok(Verdict::Opens)
        }
        Err(KeepFault::Damaged { part, at }) => damage_at(alloc, desk, part, at),
        Err(KeepFault::Disk) => Err(KeepFault::Disk),
        Err(KeepFault::NoMemory) => Err(KeepFault::NoMemory),
        Err(KeepFault::Full | KeepFault::MarkFull | KeepFault::Spent) => unreachable!(),
    }
}

// Judges the folder, and says what is found with what its files have.
fn run_judged<D: Desk>(alloc: Global, files: FoundFiles, desk: &mut D) -> Status
    requires { IsTrue D.tells → files ≡ found_files (D.seen desk.old).reads }
    ensures examines { Examines D.tells (D.seen desk.old) (D.seen desk.new) result }
    ensures ends { EndsSo D.seen D.stopped desk.old desk.new result }
{
    match judge(alloc, desk) {
        Ok(verdict) => {
            let text = lines(alloc, files, verdict);
            say_lines(is_well(files, verdict), text, desk)
        }
        Err(fault) => tell_closed(fault, desk),
    }
}

/// Says what is wrong with the folder, and the way back, by reading it alone, whether it opens to a state or not.
pub(crate) fn run_doctor<D: Desk>(alloc: Global, desk: &mut D) -> Status
    ensures examines { Examines D.tells (D.seen desk.old) (D.seen desk.new) result }
    ensures ends { EndsSo D.seen D.stopped desk.old desk.new result }
{
    match find_files(desk) {
        Ok(files) => run_judged(alloc, files, desk),
        Err(Failed) => end_with(Status::DiskFault, desk),
    }
}
