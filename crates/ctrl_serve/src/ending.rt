ghost use Rattle.std.specs.Prelude.{◌≡◌, ◌≢◌, [], None, IfOk, IfErr, drop};
ghost use Rattle.std.specs.Process.{exit_status};
ghost use Rattle.std.specs.IoError.{error_kind};
ghost use Rattle.ctrl_serve.specs.CommandLine.{form_of, texts};
ghost use Rattle.ctrl_serve.specs.Headline.{Runs, program_bounds};
ghost use Rattle.run_notes.specs.Statuses.{number_of};

use crate::top::run;
use program_words::asked_words;
use run_notes::Status;
use std::alloc::{AllocError, Global};
use std::io;
use std::io::ErrorKind;
use std::process::ExitCode;
use ziti_outside::{Desk, Source};

// Runs the controller on the words that the system gave. Words that are not text are a faulty command line, so none are asked for.
// Where memory was wanting for the words, nothing is done.
fn run_given<S: Source, D: Desk>(
    alloc: Global,
    given: io::Result<Vec<String>>,
    source: &mut S,
    desk: &mut D,
) -> Status
    ensures words { IfOk given (λ words. Runs (record { left = S.left; faults = S.faults; tells = D.tells; seen = D.seen; stopped = D.stopped })
        program_bounds (texts (drop 1 words.items)) (form_of (texts (drop 1 words.items))) source.old source.new desk.old desk.new result) }
    ensures no_text { IfErr given (λ error. error_kind error ≢ ErrorKind.OutOfMemory
        → Runs (record { left = S.left; faults = S.faults; tells = D.tells; seen = D.seen; stopped = D.stopped })
        program_bounds [] None source.old source.new desk.old desk.new result) }
    ensures no_memory { IfErr given (λ error. error_kind error ≡ ErrorKind.OutOfMemory
        → (result ≡ Status.NoMemory) × (source.new ≡ source.old) × (desk.new ≡ desk.old)) }
{
    match asked_words(alloc, given) {
        Ok(words) => run(alloc, &words, source, desk),
        Err(AllocError) => Status::NoMemory,
    }
}

// How the program ends at a status.
fn exit_code(status: Status) -> ExitCode
    ensures { exit_status result ≡ number_of status }
{
    ExitCode::from(status.number())
}

/// Runs the controller on the words that the system gave, the program's name first, and ends the program as the status of the run says.
///
/// Words that are not text are a faulty command line, as no words are: the run ends with `Usage`. Where memory was wanting for the words,
/// nothing is done, and the program ends as at `NoMemory`. docs/FORMATS.md, "Statuses", has the numbers.
pub fn ends<S: Source, D: Desk>(
    alloc: Global,
    given: io::Result<Vec<String>>,
    source: &mut S,
    desk: &mut D,
) -> ExitCode
    ensures words { IfOk given (λ words. (status : Status) × Runs (record { left = S.left; faults = S.faults; tells = D.tells; seen = D.seen; stopped = D.stopped })
        program_bounds (texts (drop 1 words.items)) (form_of (texts (drop 1 words.items))) source.old source.new desk.old desk.new status × (exit_status result ≡ number_of status)) }
    ensures no_text { IfErr given (λ error. error_kind error ≢ ErrorKind.OutOfMemory
        → (status : Status) × Runs (record { left = S.left; faults = S.faults; tells = D.tells; seen = D.seen; stopped = D.stopped })
        program_bounds [] None source.old source.new desk.old desk.new status × (exit_status result ≡ number_of status)) }
    ensures no_memory { IfErr given (λ error. error_kind error ≡ ErrorKind.OutOfMemory
        → (exit_status result ≡ number_of Status.NoMemory) × (source.new ≡ source.old) × (desk.new ≡ desk.old)) }
{
    exit_code(run_given(alloc, given, source, desk))
}
