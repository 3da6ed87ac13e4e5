ghost use Rattle.std.specs.Prelude.{◌≡◌, ◌≤◌, ℕ, Bool, IsTrue, length, take, OnOk, OnErr, IfOk};
ghost use Rattle.ziti_outside.specs.Causes.{HasCause};
ghost use Rattle.ziti_outside.specs.Images.{Image, Holds, StandAt, Torn, CutShort, Else, OnPart, After, IsStable};
ghost use Rattle.desk_base.specs.DriveStops.{Finds};

use ziti_outside::{Failed, Part};

/// Where a desk keeps its folder of three parts.
///
/// Contracts see of it what they see of the folder of a desk: the bytes that each part reads, where `tells` is true; the images that
/// a stop at this moment finds (`may_leave`), and those of all moments from an earlier one on (`since`); a clock that does not fall
/// (`moment`); and the number of the calls that failed, which never falls. A drive that does not tell has no images.
pub trait Drive {
    ghost tells: { Bool };

    ghost reads: { Self → Image };

    ghost may_leave: { Self → Image → Type 0 };

    ghost moment: { Self → ℕ };

    ghost since: { Self → ℕ → Image → Type 0 };

    ghost faults: { Self → ℕ };

    /// How many bytes the part has. An absent file has none.
    fn len(&mut self, part: Part) -> Result<u64, Failed>
        ensures length { IfOk result (λ n. IsTrue tells → n ≡ length (reads self.old part)) }
        ensures parts { reads self.new ≡ reads self.old }
        ensures cause { HasCause (faults self.old) (faults self.new) result }
        ensures stops { Finds moment since may_leave self.old self.new (may_leave self.old) };

    /// Fills the whole buffer with the part's bytes from the place `at` on. That the part is too short for it is a fault.
    fn read_at(&mut self, part: Part, at: u64, buf: &mut [u8]) -> Result<(), Failed>
        ensures read { OnOk result (IsTrue tells → StandAt at buf.new (reads self.old part)) }
        ensures parts { reads self.new ≡ reads self.old }
        ensures cause { HasCause (faults self.old) (faults self.new) result }
        ensures stops { Finds moment since may_leave self.old self.new (may_leave self.old) };

    /// Writes the bytes at the place `at` of the part, over what is there and past its end, behind which `at` does not lie.
    ///
    /// Until the part is synced the write is pending, and after a failed call too: a stop may find any bytes in the range, and so
    /// may a read behind a failed call.
    fn write_at(&mut self, part: Part, at: u64, bytes: &[u8]) -> Result<(), Failed>
        requires within { IsTrue tells → at ≤ length (reads self.old part) }
        ensures written { OnOk result (IsTrue tells → Holds at bytes.now (reads self.old part) (reads self.new part)) }
        ensures torn { OnErr result (IsTrue tells → Torn at (length bytes.now) (reads self.old part) (reads self.new part)) }
        ensures elsewhere { Else part (reads self.old) (reads self.new) }
        ensures cause { HasCause (faults self.old) (faults self.new) result }
        ensures stops { Finds moment since may_leave self.old self.new (After (OnPart part (Torn at (length bytes.now))) (may_leave self.old)) };

    /// Cuts the part to a length of at most its own.
    ///
    /// Until the part is synced the cut is pending, and after a failed call too: a stop may find any length between, and so may
    /// a read behind a failed call.
    fn cut(&mut self, part: Part, len: u64) -> Result<(), Failed>
        requires within { IsTrue tells → len ≤ length (reads self.old part) }
        ensures cut { OnOk result (IsTrue tells → reads self.new part ≡ take len (reads self.old part)) }
        ensures cut_short { OnErr result (IsTrue tells → CutShort len (reads self.old part) (reads self.new part)) }
        ensures elsewhere { Else part (reads self.old) (reads self.new) }
        ensures cause { HasCause (faults self.old) (faults self.new) result }
        ensures stops { Finds moment since may_leave self.old self.new (After (OnPart part (CutShort len)) (may_leave self.old)) };

    /// Makes the part stable: from then on, until its next write or cut, a stop finds in it the bytes that it reads.
    fn sync(&mut self, part: Part) -> Result<(), Failed>
        ensures stable { OnOk result (IsStable part (reads self.new) (may_leave self.new)) }
        ensures parts { reads self.new ≡ reads self.old }
        ensures cause { HasCause (faults self.old) (faults self.new) result }
        ensures stops { Finds moment since may_leave self.old self.new (may_leave self.old) };

    /// This moment is one of those since an earlier one.
    ghost counts_now: { (drive : Self) (time : ℕ) (image : Image) → time ≤ moment drive → may_leave drive image → since drive time image };

    /// Since this moment there is no other.
    ghost only_now: { (drive : Self) (image : Image) → since drive (moment drive) image → may_leave drive image };

    /// The folder as it reads is one of its own images.
    ghost is_own: { (drive : Self) → IsTrue tells → may_leave drive (reads drive) };
}
