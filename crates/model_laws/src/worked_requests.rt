ghost use Rattle.std.specs.Prelude.{◌≡◌, codes, true, false, [], ◌∷◌, None, Some};
ghost use Rattle.ctrl_model.specs.declared.commands.Command.TheVariants.{CreateCircuit, CreateService, CreateTerminator, DeleteService, DeleteServicePolicy, Explain, ListServices, UpdateRouter};
ghost use Rattle.ctrl_model.specs.declared.kinds.Precedence.TheVariants.{Normal};
ghost use Rattle.ctrl_model.specs.declared.kinds.Relation.TheVariants.{Dial};
ghost use Rattle.ctrl_model.specs.declared.refusals.Denial.TheVariants as denial;
ghost use Rattle.ctrl_model.specs.declared.refusals.Refusal.TheVariants as refusal;
ghost use Rattle.ctrl_model.specs.declared.replies.Reply.TheVariants as reply;
ghost use Rattle.ctrl_model.specs.Networks.{network_of, is_path};
ghost use Rattle.ctrl_model.specs.Choices.{Any, One, IsIngress, IsAdmissible, IsCandidate, IsBest, IsGranted};
ghost use Rattle.model_laws.specs.Denials.{IsDenied};
ghost use Rattle.ctrl_model.specs.WorkedStates.{reply_to, after, everyone, service_policy, line, line_from_two, line_stopped_at_r2, ann_to_web, explain_ann_to_web};

/// A request that names an instance ends at a terminator of exactly that instance, and one that names its ingress enters there,
/// though another way be cheaper.
pub fn named_instances_and_ingresses()
    ensures instance { reply_to (CreateCircuit (codes "ann") (codes "web") None (codes "blue")) (after (CreateTerminator (codes "web") (codes "r3") (codes "blue") None 5 Normal ∷ []) line) ≡ reply.Circuit (record { 0 = 1 }) (codes "r1") (1 ∷ 2 ∷ []) (record { 0 = 2 }) 47 }
    ensures no_instance { reply_to ann_to_web (after (CreateTerminator (codes "web") (codes "r1") (codes "blue") None 0 Normal ∷ []) line) ≡ reply.Circuit (record { 0 = 1 }) (codes "r1") (1 ∷ 2 ∷ []) (record { 0 = 1 }) 42 }
    ensures nearer { reply_to ann_to_web line_from_two ≡ reply.Circuit (record { 0 = 1 }) (codes "r2") (2 ∷ []) (record { 0 = 1 }) 21 }
    ensures named { reply_to (CreateCircuit (codes "ann") (codes "web") (Some (codes "r1")) []) line_from_two ≡ reply.Circuit (record { 0 = 1 }) (codes "r1") (1 ∷ 2 ∷ []) (record { 0 = 1 }) 42 }
    ensures other_named { reply_to (CreateCircuit (codes "ann") (codes "web") (Some (codes "r2")) []) line_from_two ≡ reply.Circuit (record { 0 = 1 }) (codes "r2") (2 ∷ []) (record { 0 = 1 }) 21 }
{}

/// A router without traversal may be an end of a path: only what lies strictly between the ends must be passed through.
pub fn ends_without_traversal()
    ensures ingress { reply_to ann_to_web (after (UpdateRouter (codes "r1") [] 0 true ∷ []) line) ≡ reply.Circuit (record { 0 = 1 }) (codes "r1") (1 ∷ 2 ∷ []) (record { 0 = 1 }) 42 }
    ensures last { reply_to ann_to_web (after (UpdateRouter (codes "r3") [] 0 true ∷ []) line) ≡ reply.Circuit (record { 0 = 1 }) (codes "r1") (1 ∷ 2 ∷ []) (record { 0 = 1 }) 42 }
    ensures from_between { is_path (network_of line_stopped_at_r2) 2 (2 ∷ []) 3 ≡ true }
    ensures to_between { is_path (network_of line_stopped_at_r2) 1 (1 ∷ []) 2 ≡ true }
    ensures through { is_path (network_of line_stopped_at_r2) 1 (1 ∷ 2 ∷ []) 3 ≡ false }
{}

/// Services are listed in the order of their numbers, whatever their names; and a refused explanation tells the rule.
pub fn listed_services_and_refused_explanations()
    ensures in_order { reply_to (ListServices (codes "ann")) (after (CreateService (codes "app") [] ∷ service_policy (codes "p") Dial everyone everyone ∷ []) line) ≡ reply.Services (codes "web" ∷ codes "app" ∷ []) }
    ensures made_again { reply_to (ListServices (codes "ann")) (after (CreateService (codes "app") [] ∷ service_policy (codes "p") Dial everyone everyone ∷ DeleteService (codes "web") ∷ CreateService (codes "web") [] ∷ []) line) ≡ reply.Services (codes "app" ∷ codes "web" ∷ []) }
    ensures not_explained { reply_to explain_ann_to_web (after (DeleteServicePolicy (codes "dial") ∷ []) line) ≡ reply.Refused (refusal.Denied denial.NoDial) }
    ensures no_path { reply_to explain_ann_to_web line_stopped_at_r2 ≡ reply.Refused (refusal.Denied denial.NoPath) }
    ensures unknown { reply_to (Explain (codes "bob") (codes "web") None []) line ≡ reply.Refused (refusal.Denied denial.UnknownIdentity) }
{}

/// On the line r1 is the one possible ingress, terminator 1 is admissible, and the way over both links is the one candidate, so the
/// best, and granted.
pub fn candidates_of_a_line()
    ensures ingress { IsIngress (network_of line) Any 1 1 (record { no = record { 0 = 1 }; cost = 0; through = true; connected = true }) }
    ensures not_shared { IsIngress (network_of line) Any 1 1 (record { no = record { 0 = 2 }; cost = 0; through = true; connected = true }) → ⊥ }
    ensures not_named { IsIngress (network_of line) (One 2) 1 1 (record { no = record { 0 = 1 }; cost = 0; through = true; connected = true }) → ⊥ }
    ensures admissible { IsAdmissible (network_of line) 1 [] (1, record { service = 1; router = 3; instance = []; host = None; cost = 0; precedence = Normal }) }
    ensures other_instance { IsAdmissible (network_of line) 1 (codes "blue") (1, record { service = 1; router = 3; instance = []; host = None; cost = 0; precedence = Normal }) → ⊥ }
    ensures candidate { IsCandidate (network_of line) (record { identity = Some 1; service = Some 1; ingress = Any; instance = [] }) (record { precedence = 2; total = 42; terminator = 1; ingress = 1; links = 1 ∷ 2 ∷ [] }) }
    ensures lower_total { IsCandidate (network_of line) (record { identity = Some 1; service = Some 1; ingress = Any; instance = [] }) (record { precedence = 2; total = 41; terminator = 1; ingress = 1; links = 1 ∷ 2 ∷ [] }) → ⊥ }
    ensures best { IsBest (network_of line) (record { identity = Some 1; service = Some 1; ingress = Any; instance = [] }) (record { precedence = 2; total = 42; terminator = 1; ingress = 1; links = 1 ∷ 2 ∷ [] }) }
    ensures not_best { IsBest (network_of line_from_two) (record { identity = Some 1; service = Some 1; ingress = Any; instance = [] }) (record { precedence = 2; total = 42; terminator = 1; ingress = 1; links = 1 ∷ 2 ∷ [] }) → ⊥ }
    ensures granted { IsGranted (network_of line) (record { identity = Some 1; service = Some 1; ingress = Any; instance = [] }) }
    ensures not_granted { IsGranted (network_of line_stopped_at_r2) (record { identity = Some 1; service = Some 1; ingress = Any; instance = [] }) → ⊥ }
    ensures denied { IsDenied (network_of line_stopped_at_r2) (record { identity = Some 1; service = Some 1; ingress = Any; instance = [] }) denial.NoPath }
    ensures not_denied { IsDenied (network_of line) (record { identity = Some 1; service = Some 1; ingress = Any; instance = [] }) denial.NoPath → ⊥ }
{}
