//! The program zitilook: the records of a controller's folder as lines, the commands that make the like of it, a picture of its network,
//! why an identity can or cannot reach a service, what is wrong with the folder's files, and what another folder has otherwise, by reading
//! the folders alone.
#![tactic(auto)]

mod comparing;
mod examining;
mod intake;
mod notes;
mod opening;
mod pages;
mod paths;
mod planning;
mod running;
mod status;
mod telling;
mod words;
mod worked;

ghost use Rattle.std.specs.Prelude.{◌≡◌, ◌≢◌, [], IfOk, IfErr, map, drop};
ghost use Rattle.std.specs.Process.{exit_status};
ghost use Rattle.std.specs.IoError.{error_kind};
ghost use Rattle.std.specs.String.{string_bytes};
ghost use Rattle.zitilook.specs.Headline.{RunsOver};
ghost use Rattle.zitilook.specs.Statuses.{number_of};

use crate::paths::FolderPaths;
use crate::planning::run_over;
use crate::status::Status;
use crate::words::other_place;
use program_words::asked_words;
use std::alloc::{AllocError, Global};
use std::io::ErrorKind;
use std::process::ExitCode;
use std::{env, io};
use ziti_desk::{FileDesk, FileSource, Folder, Paths, Writes};
use ziti_outside::{Desk, Source};

// The words that the system gives: the program's name, and those behind it.
fn given_words(rt: &HostRuntime) -> io::Result<Vec<String>> {
    let words = env::args(rt)?.collect(rt.alloc())?;
    Ok(words)
}

// Runs on the words that the system gave. Words that are not text are words of no table. Where memory was wanting for the words,
// nothing is done.
fn run_given<S: Source, D: Desk, E: Desk>(
    alloc: Global,
    given: io::Result<Vec<String>>,
    source: &mut S,
    desk: &mut D,
    other: &mut E,
) -> Status
    ensures words { IfOk given (λ words. RunsOver (record { left = S.left; faults = S.faults; tells = D.tells; seen = D.seen; stopped = D.stopped }) E.tells E.seen E.stopped
        (map string_bytes (drop 1 words.items)) source.old source.new other.old other.new desk.old desk.new result) }
    ensures no_text { IfErr given (λ error. error_kind error ≢ ErrorKind.OutOfMemory
        → RunsOver (record { left = S.left; faults = S.faults; tells = D.tells; seen = D.seen; stopped = D.stopped }) E.tells E.seen E.stopped [] source.old source.new other.old other.new desk.old desk.new result) }
    ensures no_memory { IfErr given (λ error. error_kind error ≡ ErrorKind.OutOfMemory
        → (result ≡ Status.NoMemory) × (source.new ≡ source.old) × (desk.new ≡ desk.old) × (other.new ≡ other.old)) }
{
    match asked_words(alloc, given) {
        Ok(words) => run_over(alloc, words.as_slice(), source, desk, other),
        Err(AllocError) => Status::NoMemory,
    }
}

// How the program ends at a status.
fn exit_code(status: Status) -> ExitCode
    ensures { exit_status result ≡ number_of status }
{
    ExitCode::from(status.number())
}

// Runs on the words that the system gave, and ends the program as the status of the run says.
fn ends<S: Source, D: Desk, E: Desk>(
    alloc: Global,
    given: io::Result<Vec<String>>,
    source: &mut S,
    desk: &mut D,
    other: &mut E,
) -> ExitCode
    ensures words { IfOk given (λ words. (status : Status) × RunsOver (record { left = S.left; faults = S.faults; tells = D.tells; seen = D.seen; stopped = D.stopped }) E.tells E.seen E.stopped
        (map string_bytes (drop 1 words.items)) source.old source.new other.old other.new desk.old desk.new status × (exit_status result ≡ number_of status)) }
    ensures no_text { IfErr given (λ error. error_kind error ≢ ErrorKind.OutOfMemory
        → (status : Status) × RunsOver (record { left = S.left; faults = S.faults; tells = D.tells; seen = D.seen; stopped = D.stopped }) E.tells E.seen E.stopped [] source.old source.new other.old other.new desk.old desk.new status × (exit_status result ≡ number_of status)) }
    ensures no_memory { IfErr given (λ error. error_kind error ≡ ErrorKind.OutOfMemory
        → (exit_status result ≡ number_of Status.NoMemory) × (source.new ≡ source.old) × (desk.new ≡ desk.old) × (other.new ≡ other.old)) }
{
    exit_code(run_given(alloc, given, source, desk, other))
}

// Runs on the words that the system gave, over the files of the working folder and of another one at these paths, and ends the program as
// the status of the run says.
fn ends_beside(
    rt: &HostRuntime,
    given: io::Result<Vec<String>>,
    folder: &str,
    zero: &str,
    one: &str,
    mark: &str,
) -> ExitCode {
    let errors = rt.stderr();
    let paths = Paths {
        folder,
        zero,
        one,
        mark,
    };
    let mut desk = FileDesk::new(
        Folder::new(rt, Paths::WORKING_FOLDER),
        Writes::new(io::writer(rt)),
        Writes::new(io::writer(&errors)),
    );
    let mut other = FileDesk::new(
        Folder::new(rt, paths),
        Writes::new(io::writer(&errors)),
        Writes::new(io::writer(&errors)),
    );
    let mut source = FileSource::new(rt.reader());
    ends(rt.alloc(), given, &mut source, &mut desk, &mut other)
}

fn main(rt: HostRuntime) -> ExitCode {
    let given = given_words(&rt);
    let place = match &given {
        Ok(words) => other_place(words.as_slice()),
        Err(_) => ".",
    };
    if place.as_bytes() == b".".as_slice() {
        let own = Paths::WORKING_FOLDER;
        return ends_beside(&rt, given, own.folder, own.zero, own.one, own.mark);
    }
    let Ok(paths) = FolderPaths::at(rt.alloc(), place) else {
        return exit_code(Status::NoMemory);
    };
    ends_beside(
        &rt,
        given,
        paths.folder.as_str(),
        paths.zero.as_str(),
        paths.one.as_str(),
        paths.mark.as_str(),
    )
}
