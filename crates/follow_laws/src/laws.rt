ghost use Rattle.std.specs.Prelude.{◌≡◌, ◌<◌, ◌+◌, ℕ, List, [], length, None};
ghost use Rattle.std.specs.declared.option.Option.{Option};
ghost use Rattle.std.specs.List.{AllByRecursion};
ghost use Rattle.ctrl_model.specs.State.{State};
ghost use Rattle.channel_frame.specs.declared.frames.Frame.{Frame};
ghost use Rattle.ship_frames.specs.Pieces.{frames_of_all};
ghost use Rattle.ship_frames.specs.GatheredPieces.{IsFrontOf};
ghost use Rattle.row_store.specs.declared.bounds.StoreBounds.{StoreBounds};
ghost use Rattle.ctrl_keep.specs.KeptController.{Controlled, HoldsRows};
ghost use Rattle.follow_core.specs.FollowedCopies.{AreSoughtIn, Followed, HoldsState, serial_in_store};
ghost use Rattle.follow_core.specs.Following.{Copy, taken_all, copy_after};
ghost use Rattle.follow_laws.specs.Histories.{IsHistory, rows_at, history_of, IsFrameOf, IsAt, StandsFrom, IsOfHistory, IsWithinLimits, shipped_from};

/// Of one history, whatever of its frames is lost, repeated or reordered: a copy that has no record, or stands at a serial with records of the
/// history, stands behind these frames at no earlier serial. No frame is answered as one of no history, and what is in parts stays one of it.
pub fn any_frames_lead_to_some_state_of_the_leader()
    ensures answers { (states : List State) (at : Option ℕ) (bounds : StoreBounds) (frames : List Frame) (c : Copy) → IsHistory states
        → IsAt states at c → IsFrontOf (history_of states) c.parts → AllByRecursion (IsFrameOf states) frames → AllByRecursion IsOfHistory (taken_all bounds frames c) }
    ensures stands { (states : List State) (at : Option ℕ) (bounds : StoreBounds) (frames : List Frame) (c : Copy) → IsHistory states
        → IsAt states at c → IsFrontOf (history_of states) c.parts → AllByRecursion (IsFrameOf states) frames → StandsFrom states at (copy_after bounds frames c) }
    ensures parts { (states : List State) (at : Option ℕ) (bounds : StoreBounds) (frames : List Frame) (c : Copy) → IsHistory states
        → IsAt states at c → IsFrontOf (history_of states) c.parts → AllByRecursion (IsFrameOf states) frames → IsFrontOf (history_of states) (copy_after bounds frames c).parts }
{}

/// A copy without a record that takes all frames of the Whole of a serial with rows, and of the Nexts behind it up to another serial, in order and with
/// no refusal by a limit, has the rows of this serial.
pub fn frames_in_order_lead_to_the_leader()
    ensures { (states : List State) (bounds : StoreBounds) (place serial count : ℕ) (c : Copy) → IsHistory states → serial + count < length states
        → (rows_at states serial ≡ [] → ⊥) → IsAt states None c → AllByRecursion IsWithinLimits (taken_all bounds (frames_of_all place (shipped_from states serial count)) c)
        → (copy_after bounds (frames_of_all place (shipped_from states serial count)) c).rows ≡ rows_at states (serial + count) }
{}

/// A controller that was opened has a store that a follower can be made of, and of a follower that has sought no kept record each is found where it is
/// sought, so that it stands as the folder reads where its store does.
pub fn opened_folders_can_be_followed()
    ensures holds { (k : Controlled) → HoldsRows k → HoldsState k.stored }
    ensures sought { (f : Followed) (records : List (List ℕ)) → f.sought ≡ None → AreSoughtIn records (serial_in_store f.stored) f.sought }
{}
