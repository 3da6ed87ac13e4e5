ghost use Rattle.std.specs.Prelude.{◌≡◌, ◌^◌, [], ◌∷◌, ◌++◌, true, false, codes, take, None, Some};
ghost use Rattle.ziti_outside.specs.Images.{Image};
ghost use Rattle.channel_frame.specs.FrameSpelling.{spelling};
ghost use Rattle.command_codec.specs.BodyMeaning.{meaning};
ghost use Rattle.channel_frame.specs.WorkedFrames.{ann_bytes, ann_frame, reply_bytes, cut_bytes, unmarked_bytes};
ghost use Rattle.ctrl_model.specs.declared.kinds.Who.TheVariants.{Admin};
ghost use Rattle.ctrl_model.specs.declared.refusals.Denial.TheVariants as denial;
ghost use Rattle.ctrl_model.specs.declared.refusals.Field.TheVariants as field;
ghost use Rattle.ctrl_model.specs.declared.refusals.Reason.TheVariants as reason;
ghost use Rattle.ctrl_model.specs.declared.refusals.Refusal.TheVariants as refusal;
ghost use Rattle.ctrl_model.specs.declared.replies.Reply.TheVariants as reply;
ghost use Rattle.ctrl_model.specs.State.{start};
ghost use Rattle.row_store.specs.OpenedStates.{OpensToState};
ghost use Rattle.row_store.specs.WorkedStores.{three_parts};
ghost use Rattle.ctrl_keep.specs.WorkedMachines.{at_most, machine_at, marked};
ghost use Rattle.ctrl_serve.specs.CommandLine.{form_of, number_below};
ghost use Rattle.ctrl_serve.specs.CopyViews.{payloads_in};
ghost use Rattle.ctrl_serve.specs.FollowWords.{follower};
ghost use Rattle.ctrl_serve.specs.declared.command_line.Form.TheVariants.{Dry, Replay, Audit, Compact, Load, Advise, Ship, Follow};
ghost use Rattle.session_mux.specs.declared.sessions.Form.TheVariants.{Plain, Trace};
ghost use Rattle.session_mux.specs.WorkedTraces.{one_session, two_sessions, kind_five, one_faulty};
ghost use Rattle.ctrl_serve.specs.FrameAnswer.{no_bounds, alone, replies};
ghost use Rattle.ctrl_serve.specs.Reading.{is_decided};
ghost use Rattle.ctrl_serve.specs.Loads.{counts_line};
ghost use Rattle.run_notes.specs.Inputs.{events_in};
ghost use Rattle.ctrl_serve.specs.RunStops.{HoldsFirst, StopFinds};
ghost use Rattle.ctrl_serve.specs.UncompactedFolders.{ask_for_compact, spells_compact, CompactsNothing, LeavesOtherSlot};
ghost use Rattle.run_examples.specs.WorkedCopies.{bare_copy};
ghost use Rattle.run_examples.specs.WorkedStops.{only_ann, ann_and_bob, bob_bytes, bob_reply_bytes, no_room_bytes};
ghost use Rattle.run_examples.specs.WorkedAnswers.{frame_of, reply_at_start, reply_behind, state_after, ann_may_dial, all_may_dial, first_goes, ann_comes_again, two_routers, router_goes, line, ann_asks, middle_closes};
ghost use Rattle.reply_codec.specs.ReplyFrame.{reply_frame};

/// Words of the command line.
pub fn worked_words()
    ensures dry { form_of (codes "dry" ∷ []) ≡ Some Dry }
    ensures replay { form_of (codes "replay" ∷ []) ≡ Some (Replay Plain) }
    ensures sessions { form_of (codes "replay" ∷ codes "--sessions" ∷ []) ≡ Some (Replay Trace) }
    ensures dry_sessions { form_of (codes "dry" ∷ codes "--sessions" ∷ []) ≡ None }
    ensures sessions_first { form_of (codes "--sessions" ∷ codes "replay" ∷ []) ≡ None }
    ensures audit { form_of (codes "audit" ∷ []) ≡ Some Audit }
    ensures compact { form_of (codes "compact" ∷ []) ≡ Some Compact }
    ensures audit_sessions { form_of (codes "audit" ∷ codes "--sessions" ∷ []) ≡ None }
    ensures compact_twice { form_of (codes "compact" ∷ codes "compact" ∷ []) ≡ None }
    ensures follow { form_of (codes "follow" ∷ []) ≡ Some Follow }
    ensures follow_more { form_of (codes "follow" ∷ codes "1" ∷ []) ≡ None }
    ensures none { form_of [] ≡ None }
    ensures other { form_of (codes "Dry" ∷ []) ≡ None }
    ensures more { form_of (codes "dry" ∷ codes "dry" ∷ []) ≡ None }
    ensures load { form_of (codes "load" ∷ codes "7" ∷ []) ≡ Some (Load 7) }
    ensures bare { form_of (codes "load" ∷ []) ≡ None }
    ensures padded { form_of (codes "load" ∷ codes "01" ∷ []) ≡ None }
    ensures twice { form_of (codes "load" ∷ codes "7" ∷ codes "7" ∷ []) ≡ None }
    ensures ship { form_of (codes "ship" ∷ codes "7" ∷ []) ≡ Some (Ship 7) }
    ensures ship_all { form_of (codes "ship" ∷ codes "18446744073709551615" ∷ []) ≡ Some (Ship 18_446_744_073_709_551_615) }
    ensures ship_past_all { form_of (codes "ship" ∷ codes "18446744073709551616" ∷ []) ≡ None }
    ensures ship_bare { form_of (codes "ship" ∷ []) ≡ None }
    ensures ship_padded { form_of (codes "ship" ∷ codes "01" ∷ []) ≡ None }
    ensures ship_twice { form_of (codes "ship" ∷ codes "7" ∷ codes "7" ∷ []) ≡ None }
    ensures advise { form_of (codes "advise" ∷ codes "ann" ∷ codes "web" ∷ []) ≡ Some Advise }
    ensures one_name { form_of (codes "advise" ∷ codes "ann" ∷ []) ≡ None }
    ensures three_names { form_of (codes "advise" ∷ codes "ann" ∷ codes "web" ∷ codes "api" ∷ []) ≡ None }
    ensures no_identity { form_of (codes "advise" ∷ [] ∷ codes "web" ∷ []) ≡ None }
    ensures no_service { form_of (codes "advise" ∷ codes "ann" ∷ codes "#web" ∷ []) ≡ None }
{}

/// Words as numbers: decimal, below 2^32 or below 2^64, without a sign and without a zero before another digit.
pub fn worked_numbers()
    ensures zero { number_below (2 ^ 32) (codes "0") ≡ Some 0 }
    ensures seven { number_below (2 ^ 32) (codes "7") ≡ Some 7 }
    ensures greatest { number_below (2 ^ 32) (codes "4294967295") ≡ Some 4_294_967_295 }
    ensures greater { number_below (2 ^ 32) (codes "4294967296") ≡ None }
    ensures greater_below_more { number_below (2 ^ 64) (codes "4294967296") ≡ Some 4_294_967_296 }
    ensures greatest_of_all { number_below (2 ^ 64) (codes "18446744073709551615") ≡ Some 18_446_744_073_709_551_615 }
    ensures past_all { number_below (2 ^ 64) (codes "18446744073709551616") ≡ None }
    ensures padded { number_below (2 ^ 32) (codes "01") ≡ None }
    ensures two_zeros { number_below (2 ^ 64) (codes "00") ≡ None }
    ensures signed { number_below (2 ^ 32) (codes "+7") ≡ None }
    ensures letter { number_below (2 ^ 32) (codes "x") ≡ None }
    ensures empty { number_below (2 ^ 32) [] ≡ None }
{}

/// The counts lines of the start, and of the state behind an identity, a service and a policy by which the one may dial the other.
pub fn worked_counts()
    ensures start { counts_line start
        ≡ codes "{\"circuits\":0,\"grants\":0,\"identities\":0,\"links\":0,\"policies\":0,\"routers\":0,\"services\":0,\"terminators\":0}\n" }
    ensures dial { counts_line (state_after ann_may_dial start)
        ≡ codes "{\"circuits\":0,\"grants\":1,\"identities\":1,\"links\":0,\"policies\":1,\"routers\":0,\"services\":1,\"terminators\":0}\n" }
{}

/// Answers to single frames at the start.
pub fn worked_answers()
    ensures hello { reply_at_start 0 (codes "abc") ≡ reply.Empty }
    ensures identity { reply_at_start 1000 (codes "{\"name\":\"ann\"}") ≡ reply.Made 1 }
    ensures router { reply_at_start 1020 (codes "{\"attributes\":[\"a\"],\"cost\":5,\"name\":\"r1\"}") ≡ reply.Made 1 }
    ensures absent { reply_at_start 1012 (codes "{\"name\":\"web\"}") ≡ reply.Refused (refusal.Unknown field.Name) }
    ensures missing { reply_at_start 1000 (codes "{}") ≡ reply.Refused (refusal.BadBody field.Name reason.Missing) }
    ensures no_name { reply_at_start 1000 (codes "{\"name\":\"a b\"}") ≡ reply.Refused (refusal.BadBody field.Name reason.WrongKind) }
    ensures two_keys { reply_at_start 1000 (codes "{\"name\":\"a\",\"x\":1}") ≡ reply.Refused (refusal.BadBody field.Nothing reason.Unknown) }
    ensures list { reply_at_start 1000 (codes "[1]") ≡ reply.Refused (refusal.BadBody field.Nothing reason.NotObject) }
    ensures unsupported { reply_at_start 2 [] ≡ reply.Refused refusal.UnsupportedType }
    ensures compact { reply_at_start 1510 (codes "{}") ≡ reply.Done }
    ensures compact_key { reply_at_start 1510 (codes "{\"x\":1}") ≡ reply.Refused (refusal.BadBody field.Nothing reason.Unknown) }
{}

/// Answers behind policies: their grants are counted, a policy by names means the entities that were present, and role lists are
/// refused where they spell no side or name what is absent.
pub fn worked_policies()
    ensures once { reply_behind ann_may_dial 1500 (codes "{\"identity\":\"ann\"}")
        ≡ reply.Grants [] (record { name = codes "web"; count = 1 } ∷ []) [] }
    ensures twice { reply_behind all_may_dial 1500 (codes "{\"identity\":\"ann\"}")
        ≡ reply.Grants [] (record { name = codes "web"; count = 2 } ∷ []) [] }
    ensures once_again { reply_behind (all_may_dial ++ first_goes) 1500 (codes "{\"identity\":\"ann\"}")
        ≡ reply.Grants [] (record { name = codes "web"; count = 1 } ∷ []) [] }
    ensures listed { reply_behind (all_may_dial ++ first_goes) 1501 (codes "{\"identity\":\"ann\"}") ≡ reply.Services (codes "web" ∷ []) }
    ensures none { reply_behind (ann_may_dial ++ first_goes) 1500 (codes "{\"identity\":\"ann\"}") ≡ reply.Grants [] [] [] }
    ensures another { reply_behind (ann_may_dial ++ ann_comes_again) 1500 (codes "{\"identity\":\"ann\"}") ≡ reply.Grants [] [] [] }
    ensures counted { reply_behind ann_may_dial 1502 (codes "{}") ≡ reply.Counts 0 1 1 0 1 0 1 0 }
    ensures beside { reply_at_start 1100 (codes "{\"name\":\"p\",\"type\":\"Dial\",\"semantic\":\"AnyOf\",\"identity_roles\":[\"#all\",\"#a\"],\"service_roles\":[]}")
        ≡ reply.Refused (refusal.BadBody field.IdentityRoles reason.WrongKind) }
    ensures absent { reply_at_start 1100 (codes "{\"name\":\"p\",\"type\":\"Dial\",\"semantic\":\"AnyOf\",\"identity_roles\":[\"@q\"],\"service_roles\":[]}")
        ≡ reply.Refused (refusal.UnknownRef field.IdentityRoles (codes "q")) }
{}

/// Answers behind routers: a link has two of them, and what stood on a router goes with it.
pub fn worked_networks()
    ensures standing { reply_behind two_routers 1502 (codes "{}") ≡ reply.Counts 0 0 0 1 0 2 1 1 }
    ensures gone { reply_behind (two_routers ++ router_goes) 1502 (codes "{}") ≡ reply.Counts 0 0 0 0 0 1 1 0 }
    ensures same { reply_behind two_routers 1200 (codes "{\"name\":\"l2\",\"a\":\"r1\",\"b\":\"r1\"}") ≡ reply.Refused refusal.SameRouter }
    ensures taken { reply_behind two_routers 1200 (codes "{\"name\":\"l1\",\"a\":\"q\",\"b\":\"r1\"}") ≡ reply.Refused refusal.Exists }
    ensures absent { reply_behind (two_routers ++ router_goes) 1200 (codes "{\"name\":\"l1\",\"a\":\"r1\",\"b\":\"r2\"}") ≡ reply.Refused (refusal.Unknown field.A) }
    ensures next { reply_behind two_routers 1300 (codes "{\"service\":\"web\",\"router\":\"r2\"}") ≡ reply.Made 2 }
{}

/// Answers to a circuit request: the least route is granted, a circuit ends where no path is left, and then there is no route.
pub fn worked_circuits()
    ensures granted { reply_behind line 1400 ann_asks ≡ reply.Circuit (record { 0 = 1 }) (codes "r1") (1 ∷ 2 ∷ []) (record { 0 = 1 }) 42 }
    ensures ended { reply_behind (line ++ ((1400, ann_asks) ∷ middle_closes)) 1503 (codes "{\"no\":1}") ≡ reply.Refused (refusal.Unknown field.No) }
    ensures denied { reply_behind (line ++ middle_closes) 1402 ann_asks ≡ reply.Refused (refusal.Denied denial.NoPath) }
{}

/// The replies to one frame that creates ann, to the same frame twice, and to a frame before a cut one.
pub fn worked_runs()
    ensures once { replies Plain no_bounds (alone start) ann_bytes ≡ reply_bytes }
    ensures twice { replies Plain no_bounds (alone start) (ann_bytes ++ ann_bytes) ≡ reply_bytes ++ spelling (reply_frame 1 7 (reply.Refused refusal.Exists)) }
    ensures nothing { replies Plain no_bounds (alone start) [] ≡ [] }
    ensures before_a_tail { replies Plain no_bounds (alone start) (ann_bytes ++ cut_bytes) ≡ reply_bytes }
{}

/// The replies to traces: each follows a byte 4 and its session, each session counts its own, and they come in the order of the last bytes of
/// the frames. Session 1 is the identity ann's, who may not create an identity; its frame stands between the parts of session 0's.
pub fn worked_sessions()
    ensures one { replies Trace no_bounds (alone start) one_session ≡ 4 ∷ 0 ∷ reply_bytes }
    ensures two { replies Trace no_bounds (alone start) two_sessions ≡ (4 ∷ 1 ∷ spelling (reply_frame 0 7 (reply.Refused refusal.NotPermitted))) ++ (4 ∷ 0 ∷ reply_bytes) }
    ensures other_goes_on { replies Trace no_bounds (alone start) one_faulty ≡ 4 ∷ 1 ∷ spelling (reply_frame 0 7 (reply.Refused refusal.NotPermitted)) }
    ensures before_a_bad_record { replies Trace no_bounds (alone start) kind_five ≡ [] }
{}

/// What stops leave, worked by hand: of an input of no frames, and of one frame that creates ann in a new folder, whose slot has 57 bytes with
/// it. A stop may find ann before a byte of the reply was taken, or the start; once the reply of 49 bytes was taken the start does not hold her. Where the
/// slot may have 56 bytes the frame is refused and changes nothing.
///
/// A second frame creates bob. Once the reply to the first was taken a stop may find both, one frame ahead; with no byte of it taken it does
/// not. And of the parts of a turn: the start is found between two frames, and once one byte of the reply was taken, ann is found and the start is not.
pub fn worked_stops()
    ensures no_frame { (image : Image) → OpensToState image start → HoldsFirst Plain (at_most 57) (machine_at start 8) [] 0 image [] }
    ensures before { (image : Image) → OpensToState image start → HoldsFirst Plain (at_most 57) (machine_at start 8) ann_bytes 0 image [] }
    ensures ahead { (image : Image) → OpensToState image only_ann → HoldsFirst Plain (at_most 57) (machine_at start 8) ann_bytes 0 image [] }
    ensures acknowledged { (image : Image) → OpensToState image only_ann → HoldsFirst Plain (at_most 57) (machine_at start 8) ann_bytes 1 image reply_bytes }
    ensures lost { (image : Image) → OpensToState image start → HoldsFirst Plain (at_most 57) (machine_at start 8) ann_bytes 1 image reply_bytes → ⊥ }
    ensures refused { (image : Image) → OpensToState image start → HoldsFirst Plain (at_most 56) (machine_at start 8) ann_bytes 1 image no_room_bytes }
    ensures refusal { replies Plain (at_most 56) (machine_at start 8) ann_bytes ≡ no_room_bytes }
    ensures replied { replies Plain (at_most 200) (machine_at start 8) (ann_bytes ++ bob_bytes) ≡ reply_bytes ++ bob_reply_bytes }
    ensures one_ahead { (image : Image) → OpensToState image ann_and_bob
        → HoldsFirst Plain (at_most 200) (machine_at start 8) (ann_bytes ++ bob_bytes) 1 image reply_bytes }
    ensures two_ahead { (image : Image) → OpensToState image ann_and_bob
        → HoldsFirst Plain (at_most 200) (machine_at start 8) (ann_bytes ++ bob_bytes) 0 image [] → ⊥ }
    ensures between { (image : Image) → OpensToState image start
        → StopFinds Plain (at_most 57) (machine_at start 8) (events_in Plain ann_bytes) (Some []) image [] }
    ensures torn_reply { (image : Image) → OpensToState image only_ann
        → StopFinds Plain (at_most 57) (machine_at start 8) (events_in Plain ann_bytes) (Some []) image (take 1 reply_bytes) }
    ensures torn_unkept { (image : Image) → OpensToState image start
        → StopFinds Plain (at_most 57) (machine_at start 8) (events_in Plain ann_bytes) (Some []) image (take 1 reply_bytes) → ⊥ }
{}

/// Frames that ask for Compact: one of its content type whose body it is, and not one with a key more, nor one that creates. Machines: the one
/// that was compacted has a byte more in its mark. And folders: beside the slot that stands nothing may change, neither the other slot nor the
/// mark; where the mark was empty, it and the first slot may.
pub fn worked_uncompacted()
    ensures asks { spells_compact (meaning 1510 (codes "{}")) ≡ true }
    ensures asks_wrongly { spells_compact (meaning 1510 (codes "{\"x\":1}")) ≡ false }
    ensures creates { spells_compact (meaning 1000 (codes "{\"name\":\"ann\"}")) ≡ false }
    ensures one_asks { ask_for_compact ((0, (Admin, frame_of 1000 (codes "{\"name\":\"ann\"}"))) ∷ (0, (Admin, frame_of 1510 (codes "{}"))) ∷ []) ≡ true }
    ensures none_asks { ask_for_compact [] ≡ false }
    ensures went_on { CompactsNothing (machine_at start 8) (machine_at only_ann 56) }
    ensures compacted { CompactsNothing (machine_at only_ann 56) (marked only_ann 56 2) → ⊥ }
    ensures grew { LeavesOtherSlot (three_parts (1 ∷ []) (2 ∷ []) (0 ∷ [])) (three_parts (1 ∷ 5 ∷ []) (2 ∷ []) (0 ∷ [])) }
    ensures other_grew { LeavesOtherSlot (three_parts (1 ∷ []) (2 ∷ []) (0 ∷ [])) (three_parts (1 ∷ []) (2 ∷ 5 ∷ []) (0 ∷ [])) → ⊥ }
    ensures second_stands { LeavesOtherSlot (three_parts (1 ∷ []) (2 ∷ []) (0 ∷ 0 ∷ [])) (three_parts (1 ∷ 5 ∷ []) (2 ∷ []) (0 ∷ 0 ∷ [])) → ⊥ }
    ensures mark_grew { LeavesOtherSlot (three_parts (1 ∷ []) (2 ∷ []) (0 ∷ [])) (three_parts (1 ∷ []) (2 ∷ []) (0 ∷ 0 ∷ [])) → ⊥ }
    ensures created { LeavesOtherSlot (three_parts [] (2 ∷ []) []) (three_parts (1 ∷ []) (2 ∷ []) (0 ∷ [])) }
{}

/// Where inputs are decided: plain input at a head with a wrong marker, and not by a whole or a cut frame or half a head; a trace at a bad record,
/// and not by the fault of a session.
pub fn worked_readings()
    ensures nothing { is_decided Plain [] ≡ false }
    ensures whole { is_decided Plain ann_bytes ≡ false }
    ensures cut { is_decided Plain cut_bytes ≡ false }
    ensures marker { is_decided Plain (ann_bytes ++ unmarked_bytes) ≡ true }
    ensures half_a_head { is_decided Plain (3 ∷ 6 ∷ 9 ∷ 13 ∷ []) ≡ false }
    ensures session { is_decided Trace one_faulty ≡ false }
    ensures record { is_decided Trace kind_five ≡ true }
{}

/// The records of a slot of one, of two and of none, and what a follower makes of a frame that ships nothing.
pub fn worked_following()
    ensures one { payloads_in (90 ∷ 67 ∷ 84 ∷ 76 ∷ 2 ∷ 0 ∷ 0 ∷ 0 ∷ 1 ∷ 2 ∷ 0 ∷ 0 ∷ 0 ∷ 7 ∷ 8 ∷ 0 ∷ []) ≡ (7 ∷ 8 ∷ []) ∷ [] }
    ensures two { payloads_in (90 ∷ 67 ∷ 84 ∷ 76 ∷ 2 ∷ 0 ∷ 0 ∷ 0 ∷ 1 ∷ 1 ∷ 0 ∷ 0 ∷ 0 ∷ 7 ∷ 1 ∷ 1 ∷ 0 ∷ 0 ∷ 0 ∷ 8 ∷ 0 ∷ 9 ∷ []) ≡ (7 ∷ []) ∷ (8 ∷ []) ∷ [] }
    ensures none { payloads_in (90 ∷ 67 ∷ 84 ∷ 76 ∷ 2 ∷ 0 ∷ 0 ∷ 0 ∷ 0 ∷ 1 ∷ 1 ∷ 0 ∷ 0 ∷ 0 ∷ 7 ∷ 0 ∷ []) ≡ [] }
    ensures stays { (follower (record { slot = 64; mark = 1 })).next Admin ann_frame (Some bare_copy) ≡ Some bare_copy }
    ensures untold { (follower (record { slot = 64; mark = 1 })).next Admin ann_frame None ≡ None }
{}
