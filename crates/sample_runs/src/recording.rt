//! Files of the system that record what is asked of them, and fail where they are told to.

use std::alloc::{AllocError, Allocator, Global};
use std::cell::RefCell;
use std::fs::{Metadata, OpenFile, OpenOptions, Permissions};
use std::io::{self, ErrorKind, PipeReader, PipeWriter, Read, Seek, SeekFrom, Write};
use std::os::fd::BorrowedFd;
use std::os::unix::net::SocketAddr;
use std::path::PathBuf;
use std::rt::Files;

/// What a path names: the folder or one of its files.
#[derive(Clone, Copy, Debug, PartialEq, Eq)]
pub enum Name {
    Folder,
    Zero,
    One,
    Mark,
}

/// What was asked: to open a file for reading alone, for writing too, and to make it besides; its length; a place; bytes read, written
/// and cut; a sync; and a piece of replies that was said meanwhile.
#[derive(Clone, Copy, Debug, PartialEq, Eq)]
pub enum Asked {
    Look(Name),
    Open(Name),
    Make(Name),
    Len(Name),
    Seek(Name, u64),
    Read(Name),
    Write(Name, usize),
    Cut(Name, u64),
    Sync(Name),
    Say(usize),
}

/// All that was asked, and the place of the call that fails, counted from 0.
#[derive(Drop)]
pub struct Calls {
    asked: RefCell<Vec<Asked>>,
    failing: usize,
}

/// The place of no call.
pub const NONE_FAILS: usize = usize::MAX;

impl Calls {
    /// No call yet, and the place of the one that will fail.
    pub fn new(alloc: Global, failing: usize) -> Calls {
        Calls {
            asked: RefCell::new(Vec::new(alloc)),
            failing,
        }
    }

    // Records a call, which may be the one that fails.
    fn record(&self, call: Asked) -> io::Result<()> {
        let Ok(mut asked) = self.asked.try_borrow_mut() else {
            return Err(io::Error::from(ErrorKind::Other));
        };
        let place = asked.len();
        asked.push(call)?;
        if place == self.failing {
            return Err(io::Error::from(ErrorKind::PermissionDenied));
        }
        Ok(())
    }

    /// How many calls there were.
    pub fn count(&self) -> usize {
        match self.asked.try_borrow() {
            Ok(asked) => asked.len(),
            Err(_) => 0,
        }
    }

    /// All that was asked.
    pub fn all(&self, alloc: Global) -> Result<Vec<Asked>, AllocError> {
        match self.asked.try_borrow() {
            Ok(asked) => Vec::from_slice(alloc, asked.as_slice()),
            Err(_) => Ok(Vec::new(alloc)),
        }
    }
}

// What a path names.
fn name_of(path: &str) -> Name {
    if path.ends_with("ziti.0") {
        return Name::Zero;
    }
    if path.ends_with("ziti.1") {
        return Name::One;
    }
    if path.ends_with("ziti.mark") {
        return Name::Mark;
    }
    Name::Folder
}

/// The files of the system, recorded.
#[derive(Drop)]
pub struct Recorded<'c, R: Files> {
    pub host: &'c R,
    pub calls: &'c Calls,
}

/// One of them.
#[derive(Drop)]
pub struct RecordedFile<'c, F> {
    file: F,
    name: Name,
    calls: &'c Calls,
}

// Nothing but opening is asked of the files.
fn unsupported<T>() -> io::Result<T> {
    Err(io::Error::from(ErrorKind::Unsupported))
}

impl<'c, R: Files> Files for Recorded<'c, R> {
    type File = RecordedFile<'c, R::File>;

    type Dir = R::Dir;

    fn open_file(&self, how: &OpenOptions, path: &str) -> io::Result<RecordedFile<'c, R::File>> {
        let name = name_of(path);
        self.calls.record(if how.asks_create() {
            Asked::Make(name)
        } else if how.asks_write() {
            Asked::Open(name)
        } else {
            Asked::Look(name)
        })?;
        Ok(RecordedFile {
            file: self.host.open_file(how, path)?,
            name,
            calls: self.calls,
        })
    }

    fn open_dir(&self, _path: &str) -> io::Result<R::Dir> {
        unsupported()
    }

    fn metadata(&self, _path: &str) -> io::Result<Metadata> {
        unsupported()
    }

    fn symlink_metadata(&self, _path: &str) -> io::Result<Metadata> {
        unsupported()
    }

    fn copy(&self, _from: &str, _to: &str) -> io::Result<u64> {
        unsupported()
    }

    fn rename(&self, _from: &str, _to: &str) -> io::Result<()> {
        unsupported()
    }

    fn remove_file(&self, _path: &str) -> io::Result<()> {
        unsupported()
    }

    fn create_dir(&self, _path: &str) -> io::Result<()> {
        unsupported()
    }

    fn remove_dir(&self, _path: &str) -> io::Result<()> {
        unsupported()
    }

    fn remove_dir_all<B: Allocator>(&self, _alloc: B, _path: &str) -> io::Result<()> {
        unsupported()
    }

    fn canonicalize<B: Allocator>(&self, _alloc: B, _path: &str) -> io::Result<PathBuf<B>> {
        unsupported()
    }

    fn read_link<B: Allocator>(&self, _alloc: B, _path: &str) -> io::Result<PathBuf<B>> {
        unsupported()
    }

    fn hard_link(&self, _original: &str, _link: &str) -> io::Result<()> {
        unsupported()
    }

    fn set_permissions(&self, _path: &str, _perm: Permissions) -> io::Result<()> {
        unsupported()
    }

    fn symlink(&self, _original: &str, _link: &str) -> io::Result<()> {
        unsupported()
    }

    fn pipe(&self) -> io::Result<(PipeReader, PipeWriter)> {
        unsupported()
    }

    fn chown(&self, _path: &str, _uid: Option<u32>, _gid: Option<u32>) -> io::Result<()> {
        unsupported()
    }

    fn lchown(&self, _path: &str, _uid: Option<u32>, _gid: Option<u32>) -> io::Result<()> {
        unsupported()
    }

    fn create_dir_with_mode(&self, _path: &str, _mode: u32) -> io::Result<()> {
        unsupported()
    }

    fn bind_unix(&self, _socket: BorrowedFd<'_>, _addr: &SocketAddr) -> io::Result<()> {
        unsupported()
    }
}

impl<F: Read> Read for RecordedFile<'_, F> {
    fn read(&mut self, buf: &mut [u8]) -> io::Result<usize> {
        self.calls.record(Asked::Read(self.name))?;
        self.file.read(buf)
    }
}

impl<F: Write> Write for RecordedFile<'_, F> {
    fn write(&mut self, buf: &[u8]) -> io::Result<usize> {
        self.calls.record(Asked::Write(self.name, buf.len()))?;
        self.file.write(buf)
    }

    fn flush(&mut self) -> io::Result<()> {
        self.file.flush()
    }
}

impl<F: Seek> Seek for RecordedFile<'_, F> {
    fn seek(&mut self, to: SeekFrom) -> io::Result<u64> {
        if let SeekFrom::Start(at) = to {
            self.calls.record(Asked::Seek(self.name, at))?;
        }
        self.file.seek(to)
    }
}

impl<F: OpenFile> OpenFile for RecordedFile<'_, F> {
    fn metadata(&self) -> io::Result<Metadata> {
        self.calls.record(Asked::Len(self.name))?;
        self.file.metadata()
    }

    fn set_len(&self, size: u64) -> io::Result<()> {
        self.calls.record(Asked::Cut(self.name, size))?;
        self.file.set_len(size)
    }

    fn sync_all(&self) -> io::Result<()> {
        self.calls.record(Asked::Sync(self.name))?;
        self.file.sync_all()
    }

    fn sync_data(&self) -> io::Result<()> {
        unsupported()
    }
}

/// A writer of replies, which records each piece among the calls.
#[derive(Drop)]
pub struct Spoken<'c> {
    pub bytes: Vec<u8>,
    pub calls: &'c Calls,
}

impl Write for Spoken<'_> {
    fn write(&mut self, buf: &[u8]) -> io::Result<usize> {
        self.calls.record(Asked::Say(buf.len()))?;
        self.bytes.extend_from_slice(buf)?;
        Ok(buf.len())
    }

    fn flush(&mut self) -> io::Result<()> {
        Ok(())
    }
}
