ghost use Rattle.std.specs.Prelude.{◌≡◌};

use crate::answers::{counted, given};
use crate::drive::Drive;
use std::fs::{OpenFile, OpenOptions};
use std::io::{self, ErrorKind, Read, Seek, SeekFrom, Write};
use std::rt::Files;
use ziti_outside::{Failed, Part};

/// The paths of a folder and of its three files.
#[derive(Clone, Copy)]
pub struct Paths<'p> {
    /// Of the folder.
    pub folder: &'p str,
    /// Of the first slot.
    pub zero: &'p str,
    /// Of the second slot.
    pub one: &'p str,
    /// Of the mark.
    pub mark: &'p str,
}

impl Paths<'static> {
    /// The files `ziti.0`, `ziti.1` and `ziti.mark` of the working folder.
    pub const WORKING_FOLDER: Paths<'static> = Paths {
        folder: ".",
        zero: "ziti.0",
        one: "ziti.1",
        mark: "ziti.mark",
    };
}

// A file as it was opened: for reading alone, or for writing too.
#[derive(Drop)]
struct Opened<F> {
    file: F,
    writes: bool,
}

// The three files of a folder, each opened or not.
#[derive(Drop)]
struct Handles<'r, R: Files> {
    rt: &'r R,
    paths: Paths<'r>,
    zero: Option<Opened<R::File>>,
    one: Option<Opened<R::File>>,
    mark: Option<Opened<R::File>>,
}

// Makes the names of the files in a folder stable.
fn keep_names<R: Files>(rt: &R, folder: &str) -> Result<(), Failed> {
    let folder = given(OpenOptions::new().read(true).open(rt, folder))?;
    given(folder.sync_all())
}

// The file that was opened, or none where it is absent.
fn present<F>(opened: io::Result<F>) -> Result<Option<F>, Failed> {
    match opened {
        Ok(file) => Ok(Some(file)),
        Err(error) if error.kind() == ErrorKind::NotFound => Ok(None),
        Err(_) => Err(Failed),
    }
}

// The file at a path for reading alone, or none where it is absent.
fn look<R: Files>(rt: &R, path: &str) -> Result<Option<Opened<R::File>>, Failed> {
    let file = present(OpenOptions::new().read(true).open(rt, path))?;
    Ok(file.map(|file| Opened {
        file,
        writes: false,
    }))
}

// The file at a path for writing too, or none where it is absent. Its name is made stable: an earlier run may have stopped before
// it was.
fn open<R: Files>(rt: &R, folder: &str, path: &str) -> Result<Option<Opened<R::File>>, Failed> {
    let Some(file) = present(OpenOptions::new().read(true).write(true).open(rt, path))? else {
        return Ok(None);
    };
    keep_names(rt, folder)?;
    Ok(Some(Opened { file, writes: true }))
}

// Makes the file at a path, and makes its name stable in the folder.
fn make<R: Files>(rt: &R, folder: &str, path: &str) -> Result<Opened<R::File>, Failed> {
    let file = given(
        OpenOptions::new()
            .read(true)
            .write(true)
            .create(true)
            .open(rt, path),
    )?;
    keep_names(rt, folder)?;
    Ok(Opened { file, writes: true })
}

// How many bytes a file has. A folder in its place is a fault.
fn file_len<F: OpenFile>(file: &F) -> Result<u64, Failed> {
    let found = given(file.metadata())?;
    if found.is_dir() {
        return Err(Failed);
    }
    Ok(found.len())
}

// Reads the bytes of a file from a place on.
fn read_file<F: Read + Seek>(file: &mut F, at: u64, buf: &mut [u8]) -> Result<(), Failed> {
    given(file.seek(SeekFrom::Start(at)))?;
    given(file.read_exact(buf))
}

// Writes bytes to a file from a place on.
fn write_file<F: Write + Seek>(file: &mut F, at: u64, bytes: &[u8]) -> Result<(), Failed> {
    given(file.seek(SeekFrom::Start(at)))?;
    given(file.write_all(bytes))
}

impl<'r, R: Files> Handles<'r, R> {
    fn path(&self, part: Part) -> &'r str {
        match part {
            Part::Zero => self.paths.zero,
            Part::One => self.paths.one,
            Part::Mark => self.paths.mark,
        }
    }

    fn slot(&mut self, part: Part) -> &mut Option<Opened<R::File>> {
        match part {
            Part::Zero => &mut self.zero,
            Part::One => &mut self.one,
            Part::Mark => &mut self.mark,
        }
    }

    // Opens the file of a part for reading, unless it is opened or absent.
    fn look(&mut self, part: Part) -> Result<(), Failed> {
        let rt = self.rt;
        let path = self.path(part);
        let slot = self.slot(part);
        if slot.is_none() {
            *slot = look(rt, path)?;
        }
        Ok(())
    }

    // Opens the file of a part for writing, unless it is so opened or absent.
    fn open(&mut self, part: Part) -> Result<(), Failed> {
        let rt = self.rt;
        let folder = self.paths.folder;
        let path = self.path(part);
        let slot = self.slot(part);
        if !slot.as_ref().is_some_and(|opened| opened.writes) {
            *slot = open(rt, folder, path)?;
        }
        Ok(())
    }

    // Makes the file of a part where it is absent, else opens it for writing.
    fn make(&mut self, part: Part) -> Result<(), Failed> {
        self.open(part)?;
        let rt = self.rt;
        let folder = self.paths.folder;
        let path = self.path(part);
        let slot = self.slot(part);
        if slot.is_none() {
            *slot = Some(make(rt, folder, path)?);
        }
        Ok(())
    }

    fn len(&mut self, part: Part) -> Result<u64, Failed> {
        self.look(part)?;
        match self.slot(part) {
            Some(opened) => file_len(&opened.file),
            None => Ok(0),
        }
    }

    fn read_at(&mut self, part: Part, at: u64, buf: &mut [u8]) -> Result<(), Failed> {
        self.look(part)?;
        match self.slot(part) {
            Some(opened) => read_file(&mut opened.file, at, buf),
            None if buf.is_empty() => Ok(()),
            None => Err(Failed),
        }
    }

    fn write_at(&mut self, part: Part, at: u64, bytes: &[u8]) -> Result<(), Failed> {
        self.make(part)?;
        match self.slot(part) {
            Some(opened) => write_file(&mut opened.file, at, bytes),
            None => Err(Failed),
        }
    }

    fn cut(&mut self, part: Part, len: u64) -> Result<(), Failed> {
        self.open(part)?;
        match self.slot(part) {
            Some(opened) => given(opened.file.set_len(len)),
            None if len == 0 => Ok(()),
            None => Err(Failed),
        }
    }

    fn sync(&mut self, part: Part) -> Result<(), Failed> {
        self.open(part)?;
        match self.slot(part) {
            Some(opened) => given(opened.file.sync_all()),
            None => Ok(()),
        }
    }
}

/// The three files of a folder as a drive, of which it tells nothing: that what is written is read, and what a stop leaves, is the
/// system's.
///
/// A file is opened for reading at its first use, for writing too at its first write, cut or sync, and an absent one is made at its
/// first write alone; until then it has no bytes, and a sync of it, or a cut to no bytes, does nothing. Where a file is opened for
/// writing its name is made stable. Whatever the system refuses is a counted fault: a folder that is absent or may not be written, or
/// a folder in the place of a file.
#[derive(Drop)]
pub struct Folder<'r, R: Files> {
    handles: Handles<'r, R>,
    faults: u64,
}

impl<'r, R: Files> Folder<'r, R> {
    /// The files at these paths, none of them opened, of which no call has failed.
    pub fn new(rt: &'r R, paths: Paths<'r>) -> Folder<'r, R>
        ensures { result.faults ≡ 0 }
    {
        let handles = Handles {
            rt,
            paths,
            zero: None,
            one: None,
            mark: None,
        };
        Folder { handles, faults: 0 }
    }
}

impl<'r, R: Files> Drive for Folder<'r, R> {
    ghost use Rattle.std.specs.Prelude.{false, []};
    ghost use Rattle.desk_base.specs.Untold.{untold};

    ghost tells = { false };

    ghost reads = { λ d part. [] };

    ghost may_leave = { λ d image. ⊥ };

    ghost moment = { λ d. 0 };

    ghost since = { λ d time image. ⊥ };

    ghost faults = { λ d. d.faults };

    ghost counts_now = { λ d time image early leaves. leaves };

    ghost only_now = { λ d image since. since };

    ghost is_own = { λ d tells. untold tells };

    fn len(&mut self, part: Part) -> Result<u64, Failed> {
        let answer = self.handles.len(part);
        counted(&mut self.faults, answer)
    }

    fn read_at(&mut self, part: Part, at: u64, buf: &mut [u8]) -> Result<(), Failed> {
        let answer = self.handles.read_at(part, at, buf);
        counted(&mut self.faults, answer)
    }

    fn write_at(&mut self, part: Part, at: u64, bytes: &[u8]) -> Result<(), Failed> {
        let answer = self.handles.write_at(part, at, bytes);
        counted(&mut self.faults, answer)
    }

    fn cut(&mut self, part: Part, len: u64) -> Result<(), Failed> {
        let answer = self.handles.cut(part, len);
        counted(&mut self.faults, answer)
    }

    fn sync(&mut self, part: Part) -> Result<(), Failed> {
        let answer = self.handles.sync(part);
        counted(&mut self.faults, answer)
    }
}
