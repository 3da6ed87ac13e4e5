ghost use Rattle.std.specs.Prelude.{◌≡◌, [], codes, Ok, Err};
ghost use Rattle.ctrl_model.specs.declared.commands.Command.TheVariants.{CreateIdentity, Hello, SetLeastRouterCost};
ghost use Rattle.ctrl_model.specs.declared.refusals.Refusal.TheVariants.{JournalFull, UnsupportedType};
ghost use Rattle.ctrl_model.specs.declared.replies.Reply.TheVariants as reply;
ghost use Rattle.ctrl_model.specs.State.{start};
ghost use Rattle.command_codec.specs.declared.reading.CodecFault.TheVariants as cause;
ghost use Rattle.frame_lines.specs.TextLines.{lines_of};
ghost use Rattle.change_plans.specs.PlannedLines.{line_answer, planned, refused_lines};
ghost use Rattle.change_plans.specs.WorkedPlans.{last_start, seven_answered, seven_lines, three_refused};

/// The answers to lines: a change is counted, and at the last serial it is refused; what changes nothing is answered
/// there as well.
pub fn worked_answers()
    ensures counted { line_answer (Ok (SetLeastRouterCost 20)) start ≡ (reply.Done, record start { least_router_cost = 20; serial = 1 }) }
    ensures same { line_answer (Ok (SetLeastRouterCost 10)) start ≡ (reply.Done, start) }
    ensures none { line_answer (Err cause.UnsupportedType) start ≡ (reply.Refused UnsupportedType, start) }
    ensures last { line_answer (Ok (CreateIdentity (codes "ann") [])) last_start ≡ (reply.Refused JournalFull, last_start) }
    ensures last_same { line_answer (Ok (SetLeastRouterCost 10)) last_start ≡ (reply.Done, last_start) }
    ensures last_asked { line_answer (Ok Hello) last_start ≡ (reply.Empty, last_start) }
{}

/// Texts: seven lines of which three are refused, no lines, and lines up to one that says no frame.
pub fn worked_plans()
    ensures seven { planned (lines_of seven_lines) start ≡ seven_answered }
    ensures told { refused_lines seven_answered.1 ≡ three_refused }
    ensures empty { planned (lines_of []) start ≡ (start, []) }
    ensures cut { planned (lines_of (codes "SetLeastRouterCost {\"cost\":20}\nHelo\nSetLeastRouterCost {\"cost\":30}")) start ≡ (record start { least_router_cost = 20; serial = 1 }, []) }
{}
