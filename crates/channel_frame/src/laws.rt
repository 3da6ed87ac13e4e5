ghost use Rattle.std.specs.Prelude.{◌≡◌, ◌↔◌, ℕ, ◌≤◌, List, [], ◌++◌, length, take};
ghost use Rattle.channel_frame.specs.declared.frames.Frame.{Frame};
ghost use Rattle.channel_frame.specs.declared.frames.FrameFault.{FrameFault};
ghost use Rattle.channel_frame.specs.declared.frames.FrameFault.TheVariants.{BadHeaders, BadMarker, NoMemory, TooLong};
ghost use Rattle.channel_frame.specs.declared.frames.Front.TheVariants.{Short, Bad, Whole};
ghost use Rattle.channel_frame.specs.FrameSpelling.{IsFrame, spelling};
ghost use Rattle.channel_frame.specs.StreamReading.{AreBytes, Reads, IsTail, front, frames_of, rest_of};
ghost use Rattle.channel_frame.specs.TailKinds.{IsUnfinished, IsUnmarked, IsTooLong, HasBadHeaders};

/// No spelling of a frame begins another, so a frame's bytes are told apart from what follows them.
pub fn one_spelling()
    ensures apart { (f g : Frame) (more others : List ℕ) → IsFrame f → IsFrame g → spelling f ++ more ≡ spelling g ++ others → (f ≡ g) × (more ≡ others) }
{}

/// What stands whole at the front of some bytes is a frame spelled there, and it stands there whatever follows; so does a
/// fault. A tail is what has no frame at its front.
pub fn what_stands()
    ensures again { (f : Frame) (more : List ℕ) → IsFrame f → front (spelling f ++ more) ≡ Whole f (length (spelling f)) }
    ensures whole { (bytes : List ℕ) (f : Frame) (n : ℕ) → AreBytes bytes → front bytes ≡ Whole f n
        → IsFrame f × (20 ≤ n) × (n ≤ length bytes) × (spelling f ≡ take n bytes) }
    ensures stays { (bytes more : List ℕ) → (front bytes ≡ Short → ⊥) → front (bytes ++ more) ≡ front bytes }
    ensures tail { (bytes : List ℕ) → AreBytes bytes → (IsTail bytes ↔ ((f : Frame) (n : ℕ) → front bytes ≡ Whole f n → ⊥)) }
    ensures faults { (bytes : List ℕ) → front bytes ≡ Bad NoMemory → ⊥ }
{}

/// A tail is of one of four kinds, told by what is spelled at its front: it is unfinished, or it has no marker, a head of which a
/// length is too long, or a good head whose headers part spells no headers.
pub fn kinds_of_tails()
    ensures unfinished { (bytes : List ℕ) → AreBytes bytes → ((front bytes ≡ Short) ↔ IsUnfinished bytes) }
    ensures unmarked { (bytes : List ℕ) → AreBytes bytes → ((front bytes ≡ Bad BadMarker) ↔ IsUnmarked bytes) }
    ensures too_long { (bytes : List ℕ) → AreBytes bytes → ((front bytes ≡ Bad TooLong) ↔ IsTooLong bytes) }
    ensures bad_headers { (bytes : List ℕ) → AreBytes bytes → ((front bytes ≡ Bad BadHeaders) ↔ HasBadHeaders bytes) }
{}

/// Every list of bytes has exactly one reading as frames and a tail.
///
/// Any reading whose tail is made of bytes is this one. Numbers above 255 may be read as a head that no frame spells, so of
/// them a tail would not be told from a frame.
pub fn one_reading()
    ensures reads { (bytes : List ℕ) → AreBytes bytes → Reads bytes (frames_of bytes) (rest_of bytes) }
    ensures only { (bytes : List ℕ) (frames : List Frame) (rest : List ℕ) → AreBytes rest → Reads bytes frames rest
        → (frames_of bytes ≡ frames) × (rest_of bytes ≡ rest) }
{}
