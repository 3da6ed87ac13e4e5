ghost use Rattle.std.specs.Prelude.{◌≡◌, ◌≤◌, List, ℕ, Bool, IsTrue, length, take, OnOk, OnErr, IfOk};
ghost use Rattle.std.specs.declared.option.Option.{Option};
ghost use Rattle.ziti_outside.specs.declared.desk.Part.{Part};
ghost use Rattle.ziti_outside.specs.Told.{AreTaken, Hands};
ghost use Rattle.ziti_outside.specs.Causes.{HasCause};
ghost use Rattle.ziti_outside.specs.Images.{Image, Holds, StandAt, Torn, CutShort, Else, OnPart, After, IsStable};
ghost use Rattle.ziti_outside.specs.Moments.{Now, Saying, Elapses, Remembers, Leaves};
ghost use Rattle.ziti_outside.specs.Views.{Seen, Stopped};
ghost use Rattle.ziti_outside.specs.Untouched.{OnlySays, OnlyNotes, OnlyDisk};

use crate::failed::Failed;

/// A part of the folder in which the controller keeps its state.
#[derive(Clone, Copy, Debug, PartialEq, Eq)]
pub enum Part {
    /// The first slot of the journal.
    Zero,
    /// The second slot of the journal.
    One,
    /// The mark, whose length says which slot stands.
    Mark,
}

/// What a run hands out, and where it keeps its state: replies, notes, and a folder of three parts.
///
/// Replies and folder are one object, since a reply acknowledges what the folder keeps. Contracts see of a desk two records. What is
/// `seen` are the reply bytes (`said`) and the notes (`noted`) that were taken so far, where the desk tells them; the bytes that each
/// part `reads`, where `tells` is true; and for each of the three kinds of call the number of its faults, which never falls.
///
/// What is left where it is `stopped`: `images` are those of the folder that a stop at this moment finds, and `since` the pairs of
/// such an image and of the reply bytes taken by then, over all moments from an earlier one on. `moment` is a clock that does not
/// fall. A desk that does not tell has no images and no pairs.
pub trait Desk {
    ghost tells: { Bool };

    ghost seen: { Self → Seen };

    ghost stopped: { Self → Stopped };

    /// Hands out reply bytes, all of them. Of a failed call some front of them was taken, and `say_faults` has risen.
    ///
    /// A stop within the call finds an image of its start, and some front of the bytes taken.
    fn say(&mut self, bytes: &[u8]) -> Result<(), Failed>
        ensures taken { Hands (seen self.old).said (seen self.new).said result bytes.now }
        ensures cause { HasCause (seen self.old).say_faults (seen self.new).say_faults result }
        ensures others { OnlySays seen stopped self.old self.new }
        ensures stops { Elapses (stopped self.old) (stopped self.new) (Saying (stopped self.old).images (seen self.old).said bytes.now) }
        ensures remembers { Remembers (stopped self.old) (stopped self.new) };

    /// Writes a note, all of it. Of a failed call some front of it was taken, and `note_faults` has risen.
    ///
    /// A stop within the call finds an image of its start.
    fn note(&mut self, bytes: &[u8]) -> Result<(), Failed>
        ensures taken { Hands (seen self.old).noted (seen self.new).noted result bytes.now }
        ensures cause { HasCause (seen self.old).note_faults (seen self.new).note_faults result }
        ensures others { OnlyNotes seen stopped self.old self.new }
        ensures stops { Leaves seen stopped self.old self.new (stopped self.old).images }
        ensures remembers { Remembers (stopped self.old) (stopped self.new) };

    /// How many bytes the part has. An absent file has none.
    fn len(&mut self, part: Part) -> Result<u64, Failed>
        ensures length { IfOk result (λ n. IsTrue tells → n ≡ length ((seen self.old).reads part)) }
        ensures parts { (seen self.new).reads ≡ (seen self.old).reads }
        ensures cause { HasCause (seen self.old).disk_faults (seen self.new).disk_faults result }
        ensures others { OnlyDisk seen self.old self.new }
        ensures stops { Leaves seen stopped self.old self.new (stopped self.old).images }
        ensures remembers { Remembers (stopped self.old) (stopped self.new) };

    /// Fills the whole buffer with the part's bytes from the place `at` on. That the part is too short for it is a fault.
    fn read_at(&mut self, part: Part, at: u64, buf: &mut [u8]) -> Result<(), Failed>
        ensures read { OnOk result (IsTrue tells → StandAt at buf.new ((seen self.old).reads part)) }
        ensures parts { (seen self.new).reads ≡ (seen self.old).reads }
        ensures cause { HasCause (seen self.old).disk_faults (seen self.new).disk_faults result }
        ensures others { OnlyDisk seen self.old self.new }
        ensures stops { Leaves seen stopped self.old self.new (stopped self.old).images }
        ensures remembers { Remembers (stopped self.old) (stopped self.new) };

    /// Writes the bytes at the place `at` of the part, over what is there and past its end, behind which `at` does not lie.
    ///
    /// Until the part is synced the write is pending, and after a failed call too: a stop may find any bytes in the range, and so
    /// may a read behind a failed call.
    fn write_at(&mut self, part: Part, at: u64, bytes: &[u8]) -> Result<(), Failed>
        requires within { IsTrue tells → at ≤ length ((seen self.old).reads part) }
        ensures written { OnOk result (IsTrue tells → Holds at bytes.now ((seen self.old).reads part) ((seen self.new).reads part)) }
        ensures torn { OnErr result (IsTrue tells → Torn at (length bytes.now) ((seen self.old).reads part) ((seen self.new).reads part)) }
        ensures elsewhere { Else part (seen self.old).reads (seen self.new).reads }
        ensures cause { HasCause (seen self.old).disk_faults (seen self.new).disk_faults result }
        ensures others { OnlyDisk seen self.old self.new }
        ensures stops { Leaves seen stopped self.old self.new
            (After (OnPart part (Torn at (length bytes.now))) (stopped self.old).images) }
        ensures remembers { Remembers (stopped self.old) (stopped self.new) };

    /// Cuts the part to a length of at most its own.
    ///
    /// Until the part is synced the cut is pending, and after a failed call too: a stop may find any length between, and so may
    /// a read behind a failed call.
    fn cut(&mut self, part: Part, len: u64) -> Result<(), Failed>
        requires within { IsTrue tells → len ≤ length ((seen self.old).reads part) }
        ensures cut { OnOk result (IsTrue tells → (seen self.new).reads part ≡ take len ((seen self.old).reads part)) }
        ensures cut_short { OnErr result (IsTrue tells → CutShort len ((seen self.old).reads part) ((seen self.new).reads part)) }
        ensures elsewhere { Else part (seen self.old).reads (seen self.new).reads }
        ensures cause { HasCause (seen self.old).disk_faults (seen self.new).disk_faults result }
        ensures others { OnlyDisk seen self.old self.new }
        ensures stops { Leaves seen stopped self.old self.new (After (OnPart part (CutShort len)) (stopped self.old).images) }
        ensures remembers { Remembers (stopped self.old) (stopped self.new) };

    /// Makes the part stable: from then on, until its next write or cut, a stop finds in it the bytes that it reads.
    fn sync(&mut self, part: Part) -> Result<(), Failed>
        ensures stable { OnOk result (IsStable part (seen self.new).reads (stopped self.new).images) }
        ensures parts { (seen self.new).reads ≡ (seen self.old).reads }
        ensures cause { HasCause (seen self.old).disk_faults (seen self.new).disk_faults result }
        ensures others { OnlyDisk seen self.old self.new }
        ensures stops { Leaves seen stopped self.old self.new (stopped self.old).images }
        ensures remembers { Remembers (stopped self.old) (stopped self.new) };

    /// This moment is one of those since an earlier one.
    ghost counts_now: { (desk : Self) (time : ℕ) (image : Image) (taken : List ℕ) → time ≤ (stopped desk).moment
        → (stopped desk).images image → AreTaken (seen desk).said taken → (stopped desk).since time image taken };

    /// Since this moment there is no other.
    ghost only_now: { (desk : Self) (image : Image) (taken : List ℕ) → (stopped desk).since (stopped desk).moment image taken
        → Now (stopped desk).images (seen desk).said image taken };

    /// The folder as it reads is one of its own images.
    ghost is_own: { (desk : Self) → IsTrue tells → (stopped desk).images (seen desk).reads };
}
