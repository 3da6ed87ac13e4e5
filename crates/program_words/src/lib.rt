//! The words with which a program is asked, of those that the system gives.
#![tactic(auto)]

ghost use Rattle.std.specs.Prelude.{◌≡◌, ◌≢◌, [], IfOk, IfErr, drop};
ghost use Rattle.std.specs.Result.{IsOkAnd, IsErr};
ghost use Rattle.std.specs.IoError.{error_kind};

use std::alloc::{AllocError, Global};
use std::io;
use std::io::ErrorKind;

// The words behind the program's name.
fn behind_name(given: Vec<String>) -> Vec<String>
    ensures { result.items ≡ drop 1 given.items }
{
    let mut words = given;
    if !words.is_empty() {
        let _name = words.remove(0);
    }
    words
}

/// The words with which a program is asked: of those that the system gave, all behind the program's name.
///
/// Words that are not text are a faulty command line: then there are none, which no program has as a line. An error says that memory
/// was wanting for what the system gave, and comes in no other case.
pub fn asked_words(alloc: Global, given: io::Result<Vec<String>>) -> Result<Vec<String>, AllocError>
    ensures words { IfOk given (λ words. IsOkAnd result (λ asked. asked.items ≡ drop 1 words.items)) }
    ensures no_text { IfErr given (λ error. error_kind error ≢ ErrorKind.OutOfMemory → IsOkAnd result (λ asked. asked.items ≡ [])) }
    ensures no_memory { IfErr given (λ error. error_kind error ≡ ErrorKind.OutOfMemory → IsErr result) }
{
    match given {
        Ok(words) => Ok(behind_name(words)),
        Err(error) => {
            if error.kind() == ErrorKind::OutOfMemory {
                Err(AllocError)
            } else {
                Ok(Vec::new(alloc))
            }
        }
    }
}
