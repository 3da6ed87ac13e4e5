ghost use Rattle.std.specs.Prelude.{◌≡◌, [], ◌∷◌, codes, true, false, length, replicate};
ghost use Rattle.channel_frame.specs.FrameSpelling.{spelling};
ghost use Rattle.channel_frame.specs.WorkedFrames.{reply_bytes};
ghost use Rattle.ctrl_model.specs.Claims.{no_path};
ghost use Rattle.ctrl_model.specs.declared.kinds.Kind.TheVariants as kind;
ghost use Rattle.ctrl_model.specs.declared.refusals.Denial.TheVariants as denial;
ghost use Rattle.ctrl_model.specs.declared.refusals.Field.TheVariants as field;
ghost use Rattle.ctrl_model.specs.declared.refusals.Reason.TheVariants as reason;
ghost use Rattle.ctrl_model.specs.declared.refusals.Refusal.TheVariants as refusal;
ghost use Rattle.ctrl_model.specs.declared.replies.Reply.TheVariants as reply;
ghost use Rattle.reply_codec.specs.ReplyBody.{reply_body};
ghost use Rattle.reply_codec.specs.ReplyFrame.{reply_frame, success_flag};
ghost use Rattle.reply_codec.specs.ReplyLimits.{keeps_limits};
ghost use Rattle.reply_codec.specs.WorkedReplies.{a_circuit, a_shown_circuit, circuit_over, claim_with, entry_with, explained_with, one_identity, picked_by, some_grants};

/// Bodies of plain replies and of a granted circuit; the reply to Hello has no bytes.
pub fn worked_bodies()
    ensures empty { reply_body reply.Empty ≡ [] }
    ensures done { reply_body reply.Done ≡ codes "{}" }
    ensures made { reply_body (reply.Made 1) ≡ codes "{\"no\":1}" }
    ensures circuit { reply_body a_circuit ≡ codes "{\"circuit\":1,\"ingress\":\"r1\",\"links\":[1,2],\"terminator\":1,\"total\":42}" }
{}

/// Bodies of an explanation, of one with a value that is no path, and of a checked claim.
pub fn worked_explanations()
    ensures explained { reply_body (explained_with (42 ∷ 21 ∷ 0 ∷ [])) ≡ codes "{\"ingress\":\"r1\",\"links\":[1,2],\"potentials\":[{\"router\":3,\"values\":[42,21,0]}],\"routers\":[1,2,3],\"terminator\":1,\"total\":42}" }
    ensures no_path { reply_body (explained_with (no_path ∷ 21 ∷ 0 ∷ [])) ≡ codes "{\"ingress\":\"r1\",\"links\":[1,2],\"potentials\":[{\"router\":3,\"values\":[null,21,0]}],\"routers\":[1,2,3],\"terminator\":1,\"total\":42}" }
    ensures verified { reply_body (reply.Verified true) ≡ codes "{\"certified\":true}" }
    ensures not_verified { reply_body (reply.Verified false) ≡ codes "{\"certified\":false}" }
{}

/// Bodies of what is shown.
pub fn worked_lists()
    ensures services { reply_body (reply.Services (codes "web" ∷ [])) ≡ codes "{\"services\":[\"web\"]}" }
    ensures grants { reply_body some_grants ≡ codes "{\"bind\":[],\"dial\":[[\"web\",2]],\"routers\":[[\"r1\",1]]}" }
    ensures shown { reply_body a_shown_circuit ≡ codes "{\"identity\":\"ann\",\"ingress\":\"r1\",\"links\":[1,2],\"service\":\"web\",\"terminator\":1}" }
    ensures picked { reply_body (picked_by (codes "api.example.org")) ≡ codes "{\"address\":\"api.example.org\",\"high\":65535,\"low\":1,\"service\":\"web\"}" }
    ensures clashes { reply_body (reply.Clashes (codes "api" ∷ [])) ≡ codes "{\"clashes\":[\"api\"]}" }
    ensures counts { reply_body one_identity ≡ codes "{\"circuits\":0,\"grants\":0,\"identities\":1,\"links\":0,\"policies\":0,\"routers\":0,\"services\":0,\"terminators\":0}" }
{}

/// Bodies of the refusals that have a number and a name alone.
pub fn worked_plain_refusals()
    ensures unsupported { reply_body (reply.Refused refusal.UnsupportedType) ≡ codes "{\"code\":10,\"name\":\"UnsupportedType\"}" }
    ensures not_permitted { reply_body (reply.Refused refusal.NotPermitted) ≡ codes "{\"code\":12,\"name\":\"NotPermitted\"}" }
    ensures exists { reply_body (reply.Refused refusal.Exists) ≡ codes "{\"code\":20,\"name\":\"Exists\"}" }
    ensures same_router { reply_body (reply.Refused refusal.SameRouter) ≡ codes "{\"code\":25,\"name\":\"SameRouter\"}" }
    ensures not_bindable { reply_body (reply.Refused refusal.NotBindable) ≡ codes "{\"code\":26,\"name\":\"NotBindable\"}" }
    ensures journal_full { reply_body (reply.Refused refusal.JournalFull) ≡ codes "{\"code\":40,\"name\":\"JournalFull\"}" }
    ensures no_intercept { reply_body (reply.Refused refusal.NoIntercept) ≡ codes "{\"code\":50,\"name\":\"NoIntercept\"}" }
    ensures mark_full { reply_body (reply.Refused refusal.MarkFull) ≡ codes "{\"code\":41,\"name\":\"MarkFull\"}" }
{}

/// Bodies of the denials of a circuit.
pub fn worked_denials()
    ensures unknown_identity { reply_body (reply.Refused (refusal.Denied denial.UnknownIdentity)) ≡ codes "{\"code\":30,\"name\":\"UnknownIdentity\"}" }
    ensures unknown_service { reply_body (reply.Refused (refusal.Denied denial.UnknownService)) ≡ codes "{\"code\":31,\"name\":\"UnknownService\"}" }
    ensures unknown_router { reply_body (reply.Refused (refusal.Denied denial.UnknownRouter)) ≡ codes "{\"code\":32,\"name\":\"UnknownRouter\"}" }
    ensures no_dial { reply_body (reply.Refused (refusal.Denied denial.NoDial)) ≡ codes "{\"code\":33,\"name\":\"NoDial\"}" }
    ensures no_shared_router { reply_body (reply.Refused (refusal.Denied denial.NoSharedRouter)) ≡ codes "{\"code\":34,\"name\":\"NoSharedRouter\"}" }
    ensures offline { reply_body (reply.Refused (refusal.Denied denial.SharedRoutersOffline)) ≡ codes "{\"code\":35,\"name\":\"SharedRoutersOffline\"}" }
    ensures no_terminators { reply_body (reply.Refused (refusal.Denied denial.NoTerminators)) ≡ codes "{\"code\":36,\"name\":\"NoTerminators\"}" }
    ensures no_admissible { reply_body (reply.Refused (refusal.Denied denial.NoAdmissibleTerminator)) ≡ codes "{\"code\":37,\"name\":\"NoAdmissibleTerminator\"}" }
    ensures no_path { reply_body (reply.Refused (refusal.Denied denial.NoPath)) ≡ codes "{\"code\":38,\"name\":\"NoPath\"}" }
    ensures circuits_full { reply_body (reply.Refused (refusal.Denied denial.CircuitsFull)) ≡ codes "{\"code\":39,\"name\":\"CircuitsFull\"}" }
{}

/// Bodies of the refusals that tell more.
pub fn worked_refusals()
    ensures missing_name { reply_body (reply.Refused (refusal.BadBody field.Name reason.Missing)) ≡ codes "{\"code\":11,\"field\":\"name\",\"name\":\"BadBody\",\"reason\":\"Missing\"}" }
    ensures no_object { reply_body (reply.Refused (refusal.BadBody field.Nothing reason.NotObject)) ≡ codes "{\"code\":11,\"field\":\"\",\"name\":\"BadBody\",\"reason\":\"NotObject\"}" }
    ensures unknown { reply_body (reply.Refused (refusal.Unknown field.Router)) ≡ codes "{\"code\":21,\"field\":\"router\",\"name\":\"Unknown\"}" }
    ensures unknown_ref { reply_body (reply.Refused (refusal.UnknownRef field.IdentityRoles (codes "q"))) ≡ codes "{\"code\":23,\"field\":\"identity_roles\",\"name\":\"UnknownRef\",\"ref\":\"q\"}" }
    ensures full { reply_body (reply.Refused (refusal.Full kind.Identity)) ≡ codes "{\"code\":24,\"kind\":\"identity\",\"name\":\"Full\"}" }
{}

/// The frame of the first reply, which makes record 1 at request 7; one whose two sequence numbers are the greatest; and the flags
/// of success.
pub fn worked_frame()
    ensures bytes { spelling (reply_frame 0 7 (reply.Made 1)) ≡ reply_bytes }
    ensures count { length (spelling (reply_frame 0 7 (reply.Made 1))) ≡ 49 }
    ensures greatest { spelling (reply_frame 4_294_967_295 4_294_967_295 reply.Empty)
        ≡ 3 ∷ 6 ∷ 9 ∷ 12 ∷ 2 ∷ 0 ∷ 0 ∷ 0 ∷ 255 ∷ 255 ∷ 255 ∷ 255 ∷ 21 ∷ 0 ∷ 0 ∷ 0 ∷ 0 ∷ 0 ∷ 0 ∷ 0
        ∷ 1 ∷ 0 ∷ 0 ∷ 0 ∷ 4 ∷ 0 ∷ 0 ∷ 0 ∷ 255 ∷ 255 ∷ 255 ∷ 255
        ∷ 2 ∷ 0 ∷ 0 ∷ 0 ∷ 1 ∷ 0 ∷ 0 ∷ 0 ∷ 1 ∷ [] }
    ensures success { success_flag reply.Empty ≡ 1 }
    ensures refused { success_flag (reply.Refused refusal.Exists) ≡ 0 }
{}

/// How long the lists of a reply may be.
pub fn worked_limits()
    ensures links { keeps_limits (circuit_over (replicate 255 1)) ≡ true }
    ensures more_links { keeps_limits (circuit_over (replicate 256 1)) ≡ false }
    ensures services { keeps_limits (reply.Services (replicate 512 [])) ≡ true }
    ensures more_services { keeps_limits (reply.Services (replicate 513 [])) ≡ false }
    ensures grants { keeps_limits some_grants ≡ true }
    ensures more_routers { keeps_limits (reply.Grants [] [] (replicate 257 (record { name = []; count = 1 }))) ≡ false }
    ensures picked { keeps_limits (picked_by (codes "10.1.0.0/16")) ≡ true }
    ensures capitals { keeps_limits (picked_by (codes "Example.org")) ≡ false }
    ensures clashes { keeps_limits (reply.Clashes (replicate 512 [])) ≡ true }
    ensures more_clashes { keeps_limits (reply.Clashes (replicate 513 [])) ≡ false }
    ensures refused { keeps_limits (reply.Refused refusal.Exists) ≡ true }
{}

/// How long an explanation may be.
pub fn worked_limits_of_explanations()
    ensures values { keeps_limits (explained_with (replicate 256 1)) ≡ true }
    ensures more_values { keeps_limits (explained_with (replicate 257 1)) ≡ false }
    ensures no_path { keeps_limits (explained_with (no_path ∷ [])) ≡ true }
    ensures greatest { keeps_limits (explained_with (4_294_967_295 ∷ [])) ≡ true }
    ensures greater { keeps_limits (explained_with (4_294_967_296 ∷ [])) ≡ false }
    ensures more_entries { keeps_limits (reply.Explained [] (claim_with (replicate 257 (entry_with [])))) ≡ false }
{}
