//! The program zitiline: lines of text to frames and traces, frames and tagged replies to lines, over standard input, output and error.
#![tactic(auto)]

mod answers;
mod intake;
mod laws;
mod notes;
mod pages;
mod running;
mod status;
mod words;
mod worked;

ghost use Rattle.std.specs.Prelude.{◌≡◌, ◌≢◌, None, IfOk, IfErr, map, drop};
ghost use Rattle.std.specs.Process.{exit_status};
ghost use Rattle.std.specs.IoError.{error_kind};
ghost use Rattle.std.specs.String.{string_bytes};
ghost use Rattle.zitiline.specs.Words.{asked_of};
ghost use Rattle.zitiline.specs.Headline.{Runs};
ghost use Rattle.zitiline.specs.Statuses.{number_of};

use crate::running::run;
use crate::status::Status;
use live_lines::Exchange;
use program_words::asked_words;
use std::alloc::{AllocError, Global};
use std::io::ErrorKind;
use std::process::ExitCode;
use std::{env, io};
use ziti_desk::{FileDesk, FileSource, Folder, Paths, Writes};
use ziti_outside::{Desk, Source};

// The words that the system gives: the program's name, and those behind it.
fn given_words(rt: &HostRuntime) -> io::Result<Vec<String>> {
    let words = env::args(rt)?.collect(rt.alloc())?;
    Ok(words)
}

// Runs on the words that the system gave. Words that are not text are words of no table. Where memory was wanting for the words,
// nothing is done.
fn run_given<S: Source, D: Desk>(
    alloc: Global,
    given: io::Result<Vec<String>>,
    exchange: &mut Exchange<S, D>,
) -> Status
    ensures words { IfOk given (λ words. Runs (record { left = S.left; faults = S.faults; tells = D.tells; seen = D.seen; stopped = D.stopped })
        (asked_of (map string_bytes (drop 1 words.items))) exchange.old exchange.new result) }
    ensures no_text { IfErr given (λ error. error_kind error ≢ ErrorKind.OutOfMemory
        → Runs (record { left = S.left; faults = S.faults; tells = D.tells; seen = D.seen; stopped = D.stopped })
        None exchange.old exchange.new result) }
    ensures no_memory { IfErr given (λ error. error_kind error ≡ ErrorKind.OutOfMemory
        → (result ≡ Status.NoMemory) × (exchange.new ≡ exchange.old)) }
{
    match asked_words(alloc, given) {
        Ok(words) => run(alloc, words.as_slice(), exchange),
        Err(AllocError) => Status::NoMemory,
    }
}

// How the program ends at a status.
fn exit_code(status: Status) -> ExitCode
    ensures { exit_status result ≡ number_of status }
{
    ExitCode::from(status.number())
}

// Runs on the words that the system gave, and ends the program as the status of the run says.
fn ends<S: Source, D: Desk>(
    alloc: Global,
    given: io::Result<Vec<String>>,
    exchange: &mut Exchange<S, D>,
) -> ExitCode
    ensures words { IfOk given (λ words. (status : Status) × Runs (record { left = S.left; faults = S.faults; tells = D.tells; seen = D.seen; stopped = D.stopped })
        (asked_of (map string_bytes (drop 1 words.items))) exchange.old exchange.new status × (exit_status result ≡ number_of status)) }
    ensures no_text { IfErr given (λ error. error_kind error ≢ ErrorKind.OutOfMemory
        → (status : Status) × Runs (record { left = S.left; faults = S.faults; tells = D.tells; seen = D.seen; stopped = D.stopped })
        None exchange.old exchange.new status × (exit_status result ≡ number_of status)) }
    ensures no_memory { IfErr given (λ error. error_kind error ≡ ErrorKind.OutOfMemory
        → (exit_status result ≡ number_of Status.NoMemory) × (exchange.new ≡ exchange.old)) }
{
    exit_code(run_given(alloc, given, exchange))
}

fn main(rt: HostRuntime) -> ExitCode {
    let errors = rt.stderr();
    let said = Writes::new(io::writer(&rt));
    let notes = Writes::new(io::writer(&errors));
    let source = FileSource::new(rt.reader());
    let folder = Folder::new(&rt, Paths::WORKING_FOLDER);
    let desk = FileDesk::new(folder, said, notes);
    let mut exchange = Exchange::new(source, desk);
    ends(rt.alloc(), given_words(&rt), &mut exchange)
}
