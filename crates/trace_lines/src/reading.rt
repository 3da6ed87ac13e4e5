ghost use Rattle.std.specs.Prelude.{◌≡◌, IfOk, OnErr, IsOk};
ghost use Rattle.frame_lines.specs.LineReading.{said_by};
ghost use Rattle.session_mux.specs.Arrivals.{role_at};
ghost use Rattle.trace_lines.specs.TraceWords.{session_in, role_named, role_in, opens, sends, said_of, of_session, traced_by};

use crate::said::{Said, TraceCause, TraceLine};
use ctrl_model::{Name, NameFault, Who};
use frame_lines::{cut_word, number_in, read_line};
use std::alloc::{AllocError, Global};

// The session number that a word writes, if it writes one.
fn session_in(word: &[u8]) -> Option<u8>
    ensures { result ≡ session_in word.now }
{
    match number_in(word) {
        Some(number) if number < 256 => Some(number as u8),
        _ => None,
    }
}

fn role_named(word: &[u8]) -> u8
    ensures { result ≡ role_named word.now }
{
    if word == b"admin".as_slice() {
        0
    } else if word == b"router".as_slice() {
        1
    } else if word == b"identity".as_slice() {
        2
    } else {
        3
    }
}

// The role that a role byte and a name say, if they say one.
fn role_with(alloc: Global, role: u8, name: &[u8]) -> Result<Option<Who>, AllocError>
    ensures who { IfOk result (λ who. who ≡ role_at role name.now) }
    ensures memory { OnErr result (IsOk (opens (role_at role name.now))) }
{
    if role == 0 {
        return Ok(if name.is_empty() {
            Some(Who::Admin)
        } else {
            None
        });
    }
    if role > 2 {
        return Ok(None);
    }
    match Name::of(alloc, name) {
        Ok(name) if role == 1 => Ok(Some(Who::Router(name))),
        Ok(name) => Ok(Some(Who::Identity(name))),
        Err(NameFault::BadName) => Ok(None),
        Err(NameFault::NoMemory) => Err(AllocError),
    }
}

// An open by the role that words say.
fn opens(alloc: Global, words: &[u8]) -> Result<Result<Said, TraceCause>, AllocError>
    ensures said { IfOk result (λ said. said ≡ opens (role_in words.now)) }
    ensures memory { OnErr result (IsOk (opens (role_in words.now))) }
{
    let (word, name) = cut_word(words);
    match role_with(alloc, role_named(word), name)? {
        Some(who) => Ok(Ok(Said::Opens(who))),
        None => Ok(Err(TraceCause::BadRole)),
    }
}

// The frame that a line says.
#[tactic(auto, using(crate::proofs::TurnLaws::sends_ok))]
fn sends(alloc: Global, words: &[u8]) -> Result<Result<Said, TraceCause>, AllocError>
    ensures said { IfOk result (λ said. said ≡ sends (said_by words.now)) }
    ensures memory { OnErr result (IsOk (sends (said_by words.now))) }
{
    match read_line(alloc, words)? {
        Ok(line) => Ok(Ok(Said::Sends(line))),
        Err(cause) => Ok(Err(TraceCause::NoFrame(cause))),
    }
}

// What the words behind a session number say.
fn said_of(alloc: Global, words: &[u8]) -> Result<Result<Said, TraceCause>, AllocError>
    ensures said { IfOk result (λ said. said ≡ said_of words.now) }
    ensures memory { OnErr result (IsOk (said_of words.now)) }
{
    let (word, behind) = cut_word(words);
    if word == b"open".as_slice() {
        return opens(alloc, behind);
    }
    if words == b"close".as_slice() {
        return Ok(Ok(Said::Closes));
    }
    sends(alloc, words)
}

// What the words behind a session number say of it.
#[tactic(auto, using(crate::proofs::TurnLaws::of_session_ok))]
fn said_of_session(
    alloc: Global,
    session: u8,
    words: &[u8],
) -> Result<Result<TraceLine, TraceCause>, AllocError>
    ensures said { IfOk result (λ said. said ≡ of_session session (said_of words.now)) }
    ensures memory { OnErr result (IsOk (of_session session (said_of words.now))) }
{
    match said_of(alloc, words)? {
        Ok(said) => Ok(Ok(TraceLine { session, said })),
        Err(cause) => Ok(Err(cause)),
    }
}

/// What a line of a trace says, or why it says nothing, which the stages of sessions do not decide.
///
/// Memory can be wanting for a line alone that says something.
pub fn read_trace_line(
    alloc: Global,
    line: &[u8],
) -> Result<Result<TraceLine, TraceCause>, AllocError>
    ensures said { IfOk result (λ said. said ≡ traced_by line.now) }
    ensures memory { OnErr result (IsOk (traced_by line.now)) }
{
    let (word, words) = cut_word(line);
    let Some(session) = session_in(word) else {
        return Ok(Err(TraceCause::BadSession));
    };
    said_of_session(alloc, session, words)
}
