ghost use Rattle.std.specs.Prelude.{◌≤◌, ◌-◌, [], vec_capacity};
ghost use Rattle.desk_base.specs.MemEvents.{Replayed, image_of};
ghost use Rattle.desk_base.specs.MemRoom.{PartsFit};

use desk_base::{
    Images, Log, chosen, counted, cut_part, is_next_listed, len_of, note_bytes, read_part,
    say_bytes, stop_at, sync_part, write_part,
};
use std::alloc::{AllocError, Global};
use ziti_outside::{Desk, Failed, Part};

/// How much a desk over memory holds, in bytes.
#[derive(Clone, Copy, PartialEq, Eq)]
pub struct Room {
    /// Of each part.
    pub file_bytes: u64,
    /// Of the replies.
    pub said_bytes: u64,
    /// Of the notes.
    pub noted_bytes: u64,
    /// Of the log of the calls: each takes 32 bytes, and a write its bytes besides.
    pub log_bytes: u64,
}

/// Replies, notes and a folder of three parts in memory.
///
/// All its memory is taken when it is made. A call that its room cannot hold is a counted fault and changes nothing. So is one
/// whose place is listed, counted from 0 over all calls; but a write or a cut that fails so is pending from then on. Its moments
/// are the says, writes, cuts and syncs that were made and have room in the log; no other call changes what a stop may leave.
#[derive(Drop)]
pub struct MemDesk {
    first: Images,
    held: Images,
    said: Vec<u8>,
    noted: Vec<u8>,
    log: Log,
    room: Room,
    calls: u64,
    failing: Vec<u32>,
    say_faults: u64,
    note_faults: u64,
    disk_faults: u64,
    ghost replayed: { Replayed (image_of first) (image_of held) log.calls.items said.items log.written.items },
    ghost parts_fit: { PartsFit room.file_bytes held },
    ghost said_fit: { room.said_bytes ≤ vec_capacity said },
    ghost noted_fit: { room.noted_bytes ≤ vec_capacity noted },
}

impl MemDesk {
    ghost use Rattle.std.specs.Prelude.{◌≡◌, [], IfOk, Some};
    ghost use Rattle.ziti_outside.specs.Images.{Image};
    ghost use Rattle.desk_base.specs.MemEvents.{image_of};
    ghost use Rattle.ziti_desk.specs.DeskStops.{calls_of, first_of, limits_of};

    /// A desk whose parts have these bytes, of which no call has been made.
    pub fn new(
        alloc: Global,
        images: Images,
        room: Room,
        failing: Vec<u32>,
    ) -> Result<MemDesk, AllocError>
        ensures said { IfOk result (λ d. (⟦<MemDesk as Desk>⟧.seen d).said ≡ Some []) }
        ensures noted { IfOk result (λ d. (⟦<MemDesk as Desk>⟧.seen d).noted ≡ Some []) }
        ensures say_faults { IfOk result (λ d. (⟦<MemDesk as Desk>⟧.seen d).say_faults ≡ 0) }
        ensures note_faults { IfOk result (λ d. (⟦<MemDesk as Desk>⟧.seen d).note_faults ≡ 0) }
        ensures disk_faults { IfOk result (λ d. (⟦<MemDesk as Desk>⟧.seen d).disk_faults ≡ 0) }
        ensures reads { IfOk result (λ d. (⟦<MemDesk as Desk>⟧.seen d).reads ≡ image_of images) }
        ensures moment { IfOk result (λ d. (⟦<MemDesk as Desk>⟧.stopped d).moment ≡ 0) }
        ensures first { IfOk result (λ d. first_of d ≡ image_of images) }
        ensures calls { IfOk result (λ d. calls_of d ≡ []) }
        ensures limits { IfOk result (λ d. limits_of d ≡ record {
          failing = failing.items;
          calls = 0;
          part = room.file_bytes;
          said = room.said_bytes;
          noted = room.noted_bytes;
          log = room.log_bytes;
        }) }
        ensures nothing_pending { IfOk result (λ d. (image : Image) → (⟦<MemDesk as Desk>⟧.stopped d).images image → image ≡ image_of images) }
    {
        let first = images.copy(alloc)?;
        let mut held = images;
        held.grow(room.file_bytes)?;
        Ok(MemDesk {
            first,
            held,
            said: Vec::with_capacity(alloc, room.said_bytes as usize)?,
            noted: Vec::with_capacity(alloc, room.noted_bytes as usize)?,
            log: Log::new(alloc, room.log_bytes)?,
            room,
            calls: 0,
            failing,
            say_faults: 0,
            note_faults: 0,
            disk_faults: 0,
        })
    }

    /// How many calls were made that matter to a stop: the clock of the desk.
    pub fn moments(&self) -> u64
        ensures { result ≡ (⟦<MemDesk as Desk>⟧.stopped self.now).moment }
    {
        self.log.calls.len() as u64
    }

    /// The reply bytes that were taken.
    pub fn said(&self) -> &[u8]
        ensures { (⟦<MemDesk as Desk>⟧.seen self.now).said ≡ Some result.now }
    {
        self.said.as_slice()
    }

    /// The notes that were taken.
    pub fn noted(&self) -> &[u8]
        ensures { (⟦<MemDesk as Desk>⟧.seen self.now).noted ≡ Some result.now }
    {
        self.noted.as_slice()
    }

    /// What a part reads.
    pub fn part(&self, part: Part) -> &[u8]
        ensures { result.now ≡ (⟦<MemDesk as Desk>⟧.seen self.now).reads part }
    {
        self.held.part(part).as_slice()
    }
}

impl MemDesk {
    ghost use Rattle.std.specs.Prelude.{◌≡◌, ◌≤◌, ℕ, IfOk};
    ghost use Rattle.desk_base.specs.MemEvents.{image_of};
    ghost use Rattle.ziti_desk.specs.DeskStops.{StopsAt, KeepsNothingAt, KeepsAllAt};

    /// The parts and the replies that a stop at a moment leaves, behind so many of the calls that matter to it or within the next.
    ///
    /// The choice 0 keeps nothing that is pending, 1 keeps all of it, and any other draws the bytes and lengths that are kept from
    /// the generator of that number. Of a say at that moment a front of its bytes is kept likewise.
    ///
    /// Where nothing is kept, each part has what it read at its last sync before that moment, or at first. Where all is, it has
    /// what it would read if none of its writes and cuts since then had failed, and a say at that moment was taken whole.
    pub fn stopped(
        &self,
        alloc: Global,
        moment: u64,
        choice: u64,
    ) -> Result<(Images, Vec<u8>), AllocError>
        requires { moment ≤ (⟦<MemDesk as Desk>⟧.stopped self.now).moment }
        ensures found { IfOk result (λ stop. StopsAt self.now moment (image_of stop.0) stop.1.items) }
        ensures since { IfOk result (λ stop. (early : ℕ) → early ≤ moment → (⟦<MemDesk as Desk>⟧.stopped self.now).since early (image_of stop.0) stop.1.items) }
        ensures nothing { choice ≡ 0 → IfOk result (λ stop. KeepsNothingAt self.now moment (image_of stop.0) stop.1.items) }
        ensures all { choice ≡ 1 → IfOk result (λ stop. KeepsAllAt self.now moment (image_of stop.0) stop.1.items) }
    {
        let mut keeping = chosen(choice);
        let said = self.said.as_slice();
        let stop = stop_at(
            alloc,
            &mut keeping,
            &self.first,
            &self.log,
            said,
            moment as usize,
        )?;
        Ok((stop.image, stop.taken))
    }
}

impl Desk for MemDesk {
    ghost use Rattle.std.specs.Prelude.{◌≡◌, ◌≤◌, ◌+◌, ◌++◌, ◌∷◌, ◌||◌, not, true, Some, [], is_err, if◌then◌else◌, IsTrue, IfOk, OnOk, OnErr, length, nat_lt, take};
    ghost use Rattle.std.proofs.Common.{◌∙◌};
    ghost use Rattle.ziti_outside.specs.Causes.{HasCause};
    ghost use Rattle.ziti_outside.specs.Images.{Holds, StandAt, Torn, CutShort, Else, OnPart, After, IsStable};
    ghost use Rattle.ziti_outside.specs.Moments.{Elapses, Remembers, Leaves};
    ghost use Rattle.ziti_outside.specs.Moments as moments;
    ghost use Rattle.ziti_outside.specs.Told.{Hands};
    ghost use Rattle.ziti_outside.specs.Untouched.{OnlySays, OnlyNotes, OnlyDisk};
    ghost use Rattle.desk_base.specs.MemEvents.{Saying, Writing, Cutting, Syncing, image_of, logged};
    ghost use Rattle.desk_base.specs.MemRoom.{is_named, is_over_said, is_over_noted, is_over_part, is_logged_out, less};
    ghost use Rattle.desk_base.specs.MemStops.{counts, now_only, own_image};
    ghost use Rattle.ziti_desk.specs.DeskStops.{Logs, calls_of, limits_of, seen_of, stopped_of};

    ghost tells = { true };

    ghost seen = { seen_of };

    ghost stopped = { stopped_of };

    ghost counts_now = { λ d time image taken early leaves replies.
        counts (image_of d.first) (λ i. i ≡ image_of d.first) [] (logged d.log d.said.items) time image taken leaves (replies ∙ d.replayed.taken) };

    ghost only_now = { λ d image taken since.
        now_only (image_of d.first) (logged d.log d.said.items) d.said.items image taken d.replayed.taken since };

    ghost is_own = { λ d told. own_image (image_of d.first) (image_of d.held) (logged d.log d.said.items) d.replayed.reads };

    fn say(&mut self, bytes: &[u8]) -> Result<(), Failed>
        ensures taken { Hands (seen_of self.old).said (seen_of self.new).said result bytes.now }
        ensures cause { HasCause (seen_of self.old).say_faults (seen_of self.new).say_faults result }
        ensures others { OnlySays seen_of stopped_of self.old self.new }
        ensures stops { Elapses (stopped_of self.old) (stopped_of self.new) (moments.Saying (stopped_of self.old).images (seen_of self.old).said bytes.now) }
        ensures remembers { Remembers (stopped_of self.old) (stopped_of self.new) }
        ensures fails { is_err result ≡ (is_named (limits_of self.old) || is_over_said (limits_of self.old) (length bytes.now)) }
        ensures logs { Logs self.old self.new (if is_err result then [] else Saying bytes.now ∷ []) }
        ensures limits { limits_of self.new ≡ (if is_err result then less 0 0 0 (limits_of self.old) else less (length bytes.now) 0 32 (limits_of self.old)) }
    {
        let fails = is_next_listed(&mut self.calls, &self.failing);
        let answer = say_bytes(
            &mut self.said,
            &mut self.log,
            bytes,
            self.room.said_bytes,
            fails,
        );
        counted(&mut self.say_faults, answer)
    }

    fn note(&mut self, bytes: &[u8]) -> Result<(), Failed>
        ensures taken { Hands (seen_of self.old).noted (seen_of self.new).noted result bytes.now }
        ensures cause { HasCause (seen_of self.old).note_faults (seen_of self.new).note_faults result }
        ensures others { OnlyNotes seen_of stopped_of self.old self.new }
        ensures stops { Leaves seen_of stopped_of self.old self.new (stopped_of self.old).images }
        ensures remembers { Remembers (stopped_of self.old) (stopped_of self.new) }
        ensures fails { is_err result ≡ (is_named (limits_of self.old) || is_over_noted (limits_of self.old) (length bytes.now)) }
        ensures logs { Logs self.old self.new [] }
        ensures limits { limits_of self.new ≡ (if is_err result then less 0 0 0 (limits_of self.old) else less 0 (length bytes.now) 0 (limits_of self.old)) }
    {
        let fails = is_next_listed(&mut self.calls, &self.failing);
        let answer = note_bytes(&mut self.noted, bytes, self.room.noted_bytes, fails);
        counted(&mut self.note_faults, answer)
    }

    fn len(&mut self, part: Part) -> Result<u64, Failed>
        ensures length { IfOk result (λ n. IsTrue true → n ≡ length ((seen_of self.old).reads part)) }
        ensures parts { (seen_of self.new).reads ≡ (seen_of self.old).reads }
        ensures cause { HasCause (seen_of self.old).disk_faults (seen_of self.new).disk_faults result }
        ensures others { OnlyDisk seen_of self.old self.new }
        ensures stops { Leaves seen_of stopped_of self.old self.new (stopped_of self.old).images }
        ensures remembers { Remembers (stopped_of self.old) (stopped_of self.new) }
        ensures fails { is_err result ≡ is_named (limits_of self.old) }
        ensures logs { Logs self.old self.new [] }
        ensures limits { limits_of self.new ≡ less 0 0 0 (limits_of self.old) }
    {
        let fails = is_next_listed(&mut self.calls, &self.failing);
        let answer = len_of(&self.held, part, fails);
        counted(&mut self.disk_faults, answer)
    }

    fn read_at(&mut self, part: Part, at: u64, buf: &mut [u8]) -> Result<(), Failed>
        ensures read { OnOk result (IsTrue true → StandAt at buf.new ((seen_of self.old).reads part)) }
        ensures parts { (seen_of self.new).reads ≡ (seen_of self.old).reads }
        ensures cause { HasCause (seen_of self.old).disk_faults (seen_of self.new).disk_faults result }
        ensures others { OnlyDisk seen_of self.old self.new }
        ensures stops { Leaves seen_of stopped_of self.old self.new (stopped_of self.old).images }
        ensures remembers { Remembers (stopped_of self.old) (stopped_of self.new) }
        ensures fails { is_err result ≡ (is_named (limits_of self.old) || nat_lt (length ((seen_of self.old).reads part)) (at + length buf.old)) }
        ensures logs { Logs self.old self.new [] }
        ensures limits { limits_of self.new ≡ less 0 0 0 (limits_of self.old) }
    {
        let fails = is_next_listed(&mut self.calls, &self.failing);
        let answer = read_part(&self.held, part, at, buf, fails);
        counted(&mut self.disk_faults, answer)
    }

    fn write_at(&mut self, part: Part, at: u64, bytes: &[u8]) -> Result<(), Failed>
        requires within { IsTrue true → at ≤ length ((seen_of self.old).reads part) }
        ensures written { OnOk result (IsTrue true → Holds at bytes.now ((seen_of self.old).reads part) ((seen_of self.new).reads part)) }
        ensures torn { OnErr result (IsTrue true → Torn at (length bytes.now) ((seen_of self.old).reads part) ((seen_of self.new).reads part)) }
        ensures elsewhere { Else part (seen_of self.old).reads (seen_of self.new).reads }
        ensures cause { HasCause (seen_of self.old).disk_faults (seen_of self.new).disk_faults result }
        ensures others { OnlyDisk seen_of self.old self.new }
        ensures stops { Leaves seen_of stopped_of self.old self.new
            (After (OnPart part (Torn at (length bytes.now))) (stopped_of self.old).images) }
        ensures remembers { Remembers (stopped_of self.old) (stopped_of self.new) }
        ensures fails { is_err result ≡ (is_named (limits_of self.old)
            || is_over_part (limits_of self.old) (length ((seen_of self.old).reads part)) at (length bytes.now)) }
        ensures logs { Logs self.old self.new
            (if is_over_part (limits_of self.old) (length ((seen_of self.old).reads part)) at (length bytes.now) then []
            else Writing part at bytes.now (not (is_named (limits_of self.old))) ∷ []) }
        ensures limits { limits_of self.new ≡
            (if is_over_part (limits_of self.old) (length ((seen_of self.old).reads part)) at (length bytes.now) then less 0 0 0 (limits_of self.old)
            else less 0 0 (32 + length bytes.now) (limits_of self.old)) }
    {
        let fails = is_next_listed(&mut self.calls, &self.failing);
        let answer = write_part(
            &mut self.held,
            &mut self.log,
            part,
            at,
            bytes,
            self.room.file_bytes,
            fails,
        );
        counted(&mut self.disk_faults, answer)
    }

    fn cut(&mut self, part: Part, len: u64) -> Result<(), Failed>
        requires within { IsTrue true → len ≤ length ((seen_of self.old).reads part) }
        ensures cut { OnOk result (IsTrue true → (seen_of self.new).reads part ≡ take len ((seen_of self.old).reads part)) }
        ensures cut_short { OnErr result (IsTrue true → CutShort len ((seen_of self.old).reads part) ((seen_of self.new).reads part)) }
        ensures elsewhere { Else part (seen_of self.old).reads (seen_of self.new).reads }
        ensures cause { HasCause (seen_of self.old).disk_faults (seen_of self.new).disk_faults result }
        ensures others { OnlyDisk seen_of self.old self.new }
        ensures stops { Leaves seen_of stopped_of self.old self.new (After (OnPart part (CutShort len)) (stopped_of self.old).images) }
        ensures remembers { Remembers (stopped_of self.old) (stopped_of self.new) }
        ensures fails { is_err result ≡ (is_named (limits_of self.old) || is_logged_out (limits_of self.old) 0) }
        ensures logs { Logs self.old self.new
            (if is_logged_out (limits_of self.old) 0 then [] else Cutting part len (not (is_named (limits_of self.old))) ∷ []) }
        ensures limits { limits_of self.new ≡
            (if is_logged_out (limits_of self.old) 0 then less 0 0 0 (limits_of self.old) else less 0 0 32 (limits_of self.old)) }
    {
        let fails = is_next_listed(&mut self.calls, &self.failing);
        let answer = cut_part(&mut self.held, &mut self.log, part, len, fails);
        counted(&mut self.disk_faults, answer)
    }

    fn sync(&mut self, part: Part) -> Result<(), Failed>
        ensures stable { OnOk result (IsStable part (seen_of self.new).reads (stopped_of self.new).images) }
        ensures parts { (seen_of self.new).reads ≡ (seen_of self.old).reads }
        ensures cause { HasCause (seen_of self.old).disk_faults (seen_of self.new).disk_faults result }
        ensures others { OnlyDisk seen_of self.old self.new }
        ensures stops { Leaves seen_of stopped_of self.old self.new (stopped_of self.old).images }
        ensures remembers { Remembers (stopped_of self.old) (stopped_of self.new) }
        ensures fails { is_err result ≡ (is_named (limits_of self.old) || is_logged_out (limits_of self.old) 0) }
        ensures logs { Logs self.old self.new (if is_err result then [] else Syncing part ∷ []) }
        ensures limits { limits_of self.new ≡ (if is_err result then less 0 0 0 (limits_of self.old) else less 0 0 32 (limits_of self.old)) }
    {
        let fails = is_next_listed(&mut self.calls, &self.failing);
        let answer = sync_part(&mut self.log, part, fails);
        counted(&mut self.disk_faults, answer)
    }
}
