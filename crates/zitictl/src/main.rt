//! The program zitictl: the controller over standard input, standard output, standard error and the files of its folder.
#![tactic(auto)]

use ctrl_serve::ends;
use std::process::ExitCode;
use std::{env, io};
use ziti_desk::{FileDesk, FileSource, Folder, Paths, Writes};

// The words that the system gives: the program's name, and those behind it.
fn given_words(rt: &HostRuntime) -> io::Result<Vec<String>> {
    let words = env::args(rt)?.collect(rt.alloc())?;
    Ok(words)
}

fn main(rt: HostRuntime) -> ExitCode {
    let errors = rt.stderr();
    let replies = Writes::new(io::writer(&rt));
    let notes = Writes::new(io::writer(&errors));
    let mut source = FileSource::new(rt.reader());
    let folder = Folder::new(&rt, Paths::WORKING_FOLDER);
    let mut desk = FileDesk::new(folder, replies, notes);
    ends(rt.alloc(), given_words(&rt), &mut source, &mut desk)
}
