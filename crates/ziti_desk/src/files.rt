ghost use Rattle.std.specs.Prelude.{◌≡◌};

use desk_base::{Drive, Outlet, counted, given, write_whole};
use http_server::Log;
use std::io::Read;
use ziti_outside::{Desk, Failed, Part, Source};

/// A reader as a source. It tells what the reader tells, and counts each read that fails.
#[derive(Drop)]
pub struct FileSource<R> {
    reader: R,
    faults: u64,
}

impl<R> FileSource<R> {
    /// The source over a reader, of which no read has failed.
    pub fn new(reader: R) -> FileSource<R>
        ensures reader { result.reader ≡ reader }
        ensures faults { result.faults ≡ 0 }
    {
        FileSource { reader, faults: 0 }
    }
}

impl<R: Read> Source for FileSource<R> {
    ghost left = { λ s. R.remaining s.reader };

    ghost faults = { λ s. s.faults };

    fn take(&mut self, buf: &mut [u8]) -> Result<usize, Failed> {
        let answer = self.reader.read(buf);
        counted(&mut self.faults, given(answer))
    }
}

/// A folder on a drive, an outlet for replies and one for notes as a desk: the one of the program.
///
/// It tells of the folder what its drive tells, and of the replies and the notes what its outlets tell. Its clock counts the says and
/// the calls on the folder, and what it knows of them is a history of which a program keeps nothing: the drive and the replies at
/// the start of each (`PairsFrom`).
#[derive(Drop)]
pub struct FileDesk<F, O, E> {
    folder: F,
    replies: O,
    notes: E,
    history: Log<F, O>,
}

impl<F: Drive, O: Outlet, E: Outlet> FileDesk<F, O, E> {
    ghost use Rattle.std.specs.Prelude.{◌≡◌, ◌↔◌, ℕ, List};
    ghost use Rattle.ziti_outside.specs.Images.{Image};
    ghost use Rattle.ziti_outside.specs.Moments.{Now};

    /// The desk over a drive and two outlets, of which no call has been made: what is seen of it and what a stop may leave of it are what
    /// they are of these.
    pub fn new(folder: F, replies: O, notes: E) -> FileDesk<F, O, E>
        ensures seen { ⟦<FileDesk<F, O, E> as Desk>⟧.seen result ≡ record {
          said = O.contents replies;
          noted = E.contents notes;
          say_faults = O.failures replies;
          note_faults = E.failures notes;
          disk_faults = F.faults folder;
          reads = F.reads folder;
        } }
        ensures moment { (⟦<FileDesk<F, O, E> as Desk>⟧.stopped result).moment ≡ 0 }
        ensures images { (image : Image) → (⟦<FileDesk<F, O, E> as Desk>⟧.stopped result).images image ↔ F.may_leave folder image }
        ensures since { (time : ℕ) (image : Image) (taken : List ℕ) → (⟦<FileDesk<F, O, E> as Desk>⟧.stopped result).since time image taken
            ↔ Now (F.may_leave folder) (O.contents replies) image taken }
    {
        FileDesk {
            folder,
            replies,
            notes,
            history: Log::new(),
        }
    }
}

impl<F, O, E> FileDesk<F, O, E> {
    /// The drive of its folder.
    pub fn folder(&self) -> &F
        ensures { result.now ≡ self.now.folder }
    {
        &self.folder
    }

    /// The outlet of its replies.
    pub fn replies(&self) -> &O
        ensures { result.now ≡ self.now.replies }
    {
        &self.replies
    }

    /// The outlet of its notes.
    pub fn notes(&self) -> &E
        ensures { result.now ≡ self.now.notes }
    {
        &self.notes
    }
}

impl<F: Drive, O: Outlet, E: Outlet> Desk for FileDesk<F, O, E> {
    ghost use Rattle.ziti_outside.specs.Moments.{Now};
    ghost use Rattle.ziti_desk.specs.Stages.{StopsWithin, staged};
    ghost use Rattle.ziti_desk.specs.StageLaws.{counts_last, only_last};

    ghost tells = { F.tells };

    ghost seen = { λ d. record {
      said = O.contents d.replies;
      noted = E.contents d.notes;
      say_faults = O.failures d.replies;
      note_faults = E.failures d.notes;
      disk_faults = F.faults d.folder;
      reads = F.reads d.folder;
    } };

    ghost stopped = { λ d. staged (StopsWithin F.moment F.since O.contents) (λ stage. Now (F.may_leave stage.0) (O.contents stage.1)) (λ stage. F.may_leave stage.0)
        d.history.items (d.folder, d.replies) };

    ghost counts_now = { λ d time image taken early leaves replies.
        counts_last (StopsWithin F.moment F.since O.contents) (λ stage. Now (F.may_leave stage.0) (O.contents stage.1))
        d.history.items (d.folder, d.replies) time image taken (record { found = leaves; replies = replies }) };

    ghost only_now = { λ d image taken since.
        only_last (StopsWithin F.moment F.since O.contents) (λ stage. Now (F.may_leave stage.0) (O.contents stage.1))
        d.history.items (d.folder, d.replies) image taken since };

    ghost is_own = { λ d tells. F.is_own d.folder tells };

    fn say(&mut self, bytes: &[u8]) -> Result<(), Failed> {
        self.history = self.history.and(&self.folder, &self.replies);
        write_whole(&mut self.replies, bytes)
    }

    fn note(&mut self, bytes: &[u8]) -> Result<(), Failed> {
        write_whole(&mut self.notes, bytes)
    }

    fn len(&mut self, part: Part) -> Result<u64, Failed> {
        self.history = self.history.and(&self.folder, &self.replies);
        self.folder.len(part)
    }

    fn read_at(&mut self, part: Part, at: u64, buf: &mut [u8]) -> Result<(), Failed> {
        self.history = self.history.and(&self.folder, &self.replies);
        self.folder.read_at(part, at, buf)
    }

    fn write_at(&mut self, part: Part, at: u64, bytes: &[u8]) -> Result<(), Failed> {
        self.history = self.history.and(&self.folder, &self.replies);
        self.folder.write_at(part, at, bytes)
    }

    fn cut(&mut self, part: Part, len: u64) -> Result<(), Failed> {
        self.history = self.history.and(&self.folder, &self.replies);
        self.folder.cut(part, len)
    }

    fn sync(&mut self, part: Part) -> Result<(), Failed> {
        self.history = self.history.and(&self.folder, &self.replies);
        self.folder.sync(part)
    }
}
