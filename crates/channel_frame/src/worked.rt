ghost use Rattle.std.specs.Prelude.{◌≡◌, [], ◌∷◌, ◌++◌, length, take, None, Some, Ok, Err};
ghost use Rattle.channel_frame.specs.declared.frames.FrameFault.TheVariants.{BadMarker, TooLong, BadHeaders};
ghost use Rattle.channel_frame.specs.AnnouncedFrames.{first_head};
ghost use Rattle.channel_frame.specs.FrameSpelling.{spelling};
ghost use Rattle.channel_frame.specs.HeaderValues.{last_value, IsWithout};
ghost use Rattle.channel_frame.specs.StreamReading.{frames_of, rest_of, fault_of};
ghost use Rattle.channel_frame.specs.TailKinds.{IsUnfinished, IsUnmarked, IsTooLong, HasBadHeaders};
ghost use Rattle.channel_frame.specs.WorkedFrames.{ann_frame, ann_head, ann_bytes, reply_frame, reply_bytes, cut_bytes, unmarked_bytes, longest_body, longer_body, negative_body, longest_headers, longer_headers, short_header, repeated_headers};

/// A frame and its reply, spelled.
pub fn worked_spellings()
    ensures frame { spelling ann_frame ≡ ann_bytes }
    ensures reply { spelling reply_frame ≡ reply_bytes }
{}

/// The same bytes read: once, twice in a row, and the reply.
pub fn worked_readings()
    ensures one { frames_of ann_bytes ≡ ann_frame ∷ [] }
    ensures one_rest { rest_of ann_bytes ≡ [] }
    ensures one_fault { fault_of ann_bytes ≡ None }
    ensures two { frames_of (ann_bytes ++ ann_bytes) ≡ ann_frame ∷ ann_frame ∷ [] }
    ensures two_count { length (frames_of (ann_bytes ++ ann_bytes)) ≡ 2 }
    ensures two_rest { rest_of (ann_bytes ++ ann_bytes) ≡ [] }
    ensures reply { frames_of reply_bytes ≡ reply_frame ∷ [] }
{}

/// Each fault, with its place.
pub fn worked_faults()
    ensures marker_frames { frames_of (ann_bytes ++ unmarked_bytes) ≡ ann_frame ∷ [] }
    ensures marker { fault_of (ann_bytes ++ unmarked_bytes) ≡ Some (BadMarker, 34) }
    ensures body { fault_of longer_body ≡ Some (TooLong, 0) }
    ensures unsigned_body { fault_of negative_body ≡ Some (TooLong, 0) }
    ensures headers { fault_of longer_headers ≡ Some (TooLong, 0) }
    ensures cut_header { fault_of short_header ≡ Some (BadHeaders, 0) }
    ensures cut_header_frames { frames_of short_header ≡ [] }
{}

/// Bytes that are unfinished: no frame and no fault.
pub fn worked_unfinished()
    ensures cut { frames_of cut_bytes ≡ [] }
    ensures cut_rest { rest_of cut_bytes ≡ cut_bytes }
    ensures cut_fault { fault_of cut_bytes ≡ None }
    ensures behind { frames_of (ann_bytes ++ cut_bytes) ≡ ann_frame ∷ [] }
    ensures behind_rest { rest_of (ann_bytes ++ cut_bytes) ≡ cut_bytes }
    ensures body { frames_of longest_body ≡ [] }
    ensures body_fault { fault_of longest_body ≡ None }
    ensures headers { frames_of longest_headers ≡ [] }
    ensures headers_fault { fault_of longest_headers ≡ None }
    ensures few { frames_of (take 19 unmarked_bytes) ≡ [] }
    ensures few_fault { fault_of (take 19 unmarked_bytes) ≡ None }
{}

/// Each kind of tail by what is spelled there, at the limits too.
pub fn worked_kinds()
    ensures cut { IsUnfinished cut_bytes }
    ensures announced { IsUnfinished longest_body }
    ensures marker { IsUnmarked unmarked_bytes }
    ensures body { IsTooLong longer_body }
    ensures unsigned_body { IsTooLong negative_body }
    ensures headers { IsTooLong longer_headers }
    ensures cut_header { HasBadHeaders short_header }
    ensures at_the_limit { IsTooLong longest_body → ⊥ }
    ensures whole { HasBadHeaders ann_bytes → ⊥ }
{}

/// The head at the front: of a frame, of fewer bytes than a head has, and of bytes with a fault.
pub fn worked_heads()
    ensures there { first_head ann_bytes ≡ Ok (Some ann_head) }
    ensures few { first_head cut_bytes ≡ Ok None }
    ensures marker { first_head unmarked_bytes ≡ Err BadMarker }
    ensures body { first_head longer_body ≡ Err TooLong }
{}

/// What is found under a key: of two values the last, an empty value, and none where no header has the key.
pub fn worked_lookups()
    ensures last { last_value 5 repeated_headers ≡ Some (3 ∷ []) }
    ensures empty { last_value 6 repeated_headers ≡ Some [] }
    ensures absent { last_value 7 repeated_headers ≡ None }
    ensures without { IsWithout 7 repeated_headers }
    ensures with { IsWithout 6 repeated_headers → ⊥ }
    ensures nothing { last_value 5 [] ≡ None }
{}
