ghost use Rattle.std.specs.Prelude.{◌≡◌, [], ◌∷◌, ◌++◌, codes, take, None, Some};
ghost use Rattle.channel_frame.specs.WorkedFrames.{reply_bytes};
ghost use Rattle.frame_lines.specs.declared.told.DecodeCause.TheVariants.{Unfinished, NoTag};
ghost use Rattle.frame_lines.specs.TextTelling.{text_of, fault_of};
ghost use Rattle.trace_lines.specs.WorkedTexts.{reply_of_3};
ghost use Rattle.live_lines.specs.declared.kinds.Kind.TheVariants.{Frames, Replies};
ghost use Rattle.live_lines.specs.LiveLines.{reading_of};

/// The lines of what came of frames and of tagged replies, worked by hand: a frame of which a byte lacks has none as yet, and nothing behind
/// a fault has one.
pub fn worked_pieces()
    ensures a_byte_lacks { text_of (reading_of Frames) (take 48 reply_bytes) ≡ [] }
    ensures whole { text_of (reading_of Frames) reply_bytes ≡ codes "7 ok {\"no\":1}\n" }
    ensures whole_and_cut { text_of (reading_of Frames) (reply_bytes ++ take 20 reply_bytes) ≡ codes "7 ok {\"no\":1}\n" }
    ensures cut { fault_of (reading_of Frames) (reply_bytes ++ take 20 reply_bytes) ≡ Some (record { frame = 2; cause = Unfinished 49 }) }
    ensures tag_alone { text_of (reading_of Replies) (reply_of_3 ++ 4 ∷ []) ≡ codes "3 7 ok {\"no\":1}\n" }
    ensures behind_a_fault { text_of (reading_of Replies) (reply_of_3 ++ 5 ∷ reply_of_3) ≡ codes "3 7 ok {\"no\":1}\n" }
    ensures no_tag { fault_of (reading_of Replies) (reply_of_3 ++ 5 ∷ reply_of_3) ≡ Some (record { frame = 2; cause = NoTag 51 }) }
    ensures nothing { fault_of (reading_of Frames) [] ≡ None }
{}
