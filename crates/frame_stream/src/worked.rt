ghost use Rattle.std.specs.Prelude.{◌≡◌, [], ◌∷◌, ◌++◌, take, drop, None, Some, Ok};
ghost use Rattle.channel_frame.specs.declared.frames.FrameFault.TheVariants.{BadMarker, TooLong, BadHeaders};
ghost use Rattle.channel_frame.specs.SessionBytes.{frames_held, settled, fault_held};
ghost use Rattle.channel_frame.specs.WorkedFrames.{ann_frame, ann_bytes};
ghost use Rattle.frame_stream.specs.StreamSteps.{fault_number};
ghost use Rattle.frame_stream.specs.Calls.{Came, Answered, bytes_in, frames_in};
ghost use Rattle.frame_stream.specs.WorkedPieces.{head_came, frame_came, fault_came, more_came};

/// A frame of 34 bytes that comes in two pieces: the first gives none, the second gives it.
pub fn worked_pieces()
    ensures head { frames_held head_came ≡ [] }
    ensures head_given { head_came.given ≡ 0 }
    ensures head_held { head_came.held ≡ take 20 ann_bytes }
    ensures frame { frames_held frame_came ≡ ann_frame ∷ [] }
    ensures frame_given { (settled frame_came).given ≡ 34 }
    ensures frame_held { (settled frame_came).held ≡ [] }
    ensures bytes { bytes_in (Came (take 20 ann_bytes) ∷ Answered (Ok None) ∷ Came (drop 20 ann_bytes) ∷ Answered (Ok (Some ann_frame)) ∷ []) ≡ ann_bytes }
    ensures frames { frames_in (Came (take 20 ann_bytes) ∷ Answered (Ok None) ∷ Came (drop 20 ann_bytes) ∷ Answered (Ok (Some ann_frame)) ∷ []) ≡ ann_frame ∷ [] }
{}

/// A fault behind the frame, at 34, and a whole frame behind the fault, which is not given.
pub fn worked_fault()
    ensures fault { fault_held fault_came ≡ Some (BadMarker, 34) }
    ensures no_frame { frames_held fault_came ≡ [] }
    ensures met { (settled fault_came).fault ≡ Some BadMarker }
    ensures none_held { (settled fault_came).held ≡ [] }
    ensures passed_over { more_came.held ≡ [] }
    ensures no_more { frames_held more_came ≡ [] }
    ensures told_once { fault_held more_came ≡ None }
{}

/// The number of each fault.
pub fn worked_numbers()
    ensures marker { fault_number BadMarker ≡ 1 }
    ensures length { fault_number TooLong ≡ 2 }
    ensures headers { fault_number BadHeaders ≡ 3 }
{}
