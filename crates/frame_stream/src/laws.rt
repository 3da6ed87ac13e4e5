ghost use Rattle.std.specs.Prelude.{◌≡◌, ℕ, ◌≤◌, ◌⊎◌, List, length, None, Some, Ok, Err};
ghost use Rattle.channel_frame.specs.declared.frames.FrameFault.{FrameFault};
ghost use Rattle.channel_frame.specs.SessionBytes.{SessionBytes, no_bytes};
ghost use Rattle.frame_stream.specs.declared.faults.StreamFault.TheVariants.{Bad};
ghost use Rattle.frame_stream.specs.StreamSteps.{NextGives};
ghost use Rattle.frame_stream.specs.Calls.{Call, Leads, bytes_in, frames_in, ReadsAlike, IsAskedOut, HasRead};

/// Whatever the calls are, the frames that they give are those of all bytes that came, in order, and what is left is left of all.
pub fn any_calls()
    ensures { (calls : List Call) (b : SessionBytes) → Leads no_bytes calls b → ReadsAlike calls b }
{}

/// Whatever the cut: where it was asked until nothing more came, the frames and the fault are those of all bytes, joined. So two cuts
/// of the same bytes give the same frames and the same fault, and leave the same.
pub fn any_cut()
    ensures read { (calls : List Call) (b : SessionBytes) → Leads no_bytes calls b → IsAskedOut b → HasRead calls b }
    ensures alike { (calls others : List Call) (b c : SessionBytes) → Leads no_bytes calls b → Leads no_bytes others c → IsAskedOut b → IsAskedOut c
        → bytes_in calls ≡ bytes_in others → (frames_in calls ≡ frames_in others) × (b ≡ c) }
{}

/// Nothing whole is left behind an answer without a frame, and behind a fault.
pub fn what_is_left()
    ensures none { (old new : SessionBytes) → NextGives old new (Ok None) → IsAskedOut new }
    ensures met { (old new : SessionBytes) (n at : ℕ) → NextGives old new (Err (Bad n at)) → IsAskedOut new }
{}
