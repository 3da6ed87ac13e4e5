ghost use Rattle.std.specs.Prelude.{◌≡◌, [], ◌∷◌, codes, true, false, None, Some};
ghost use Rattle.ctrl_model.specs.Numbered.{numbers};
ghost use Rattle.ctrl_model.specs.WorkedStates.{after};
ghost use Rattle.ctrl_model.specs.declared.addresses.Address.TheVariants.{Under};
ghost use Rattle.ctrl_model.specs.declared.commands.Command.TheVariants.{ClearIntercept};
ghost use Rattle.ctrl_model.specs.declared.refusals.Field.TheVariants as field;
ghost use Rattle.ctrl_model.specs.declared.refusals.Refusal.TheVariants as refusal;
ghost use Rattle.ctrl_model.specs.declared.replies.Reply.TheVariants as reply;
ghost use Rattle.model_laws.specs.Plans.{led_by};
ghost use Rattle.model_laws.specs.WorkedIntercepts.{ports, over_tcp, web_and_api, both_under, with_hosts};
ghost use Rattle.intercepts.specs.InterceptChanges.{intercepts_after, claimed_by};
ghost use Rattle.row_codec.specs.Batches.{batch_of};
ghost use Rattle.row_codec.specs.declared.changes.Op.TheVariants.{Delete};
ghost use Rattle.intercept_commands.specs.InterceptPlans.{is_unknown};
ghost use Rattle.intercept_commands.specs.InterceptRows.{claim_change};
ghost use Rattle.intercepts.specs.declared.changes.InterceptChange.TheVariants as change;

/// What changes make of the intercepts, where they lead a state, and which row they touch.
pub fn changed_intercepts()
    ensures set { intercepts_after (Some (change.Set (record { 0 = 2 }) (over_tcp (Under (codes "example.org") ∷ []) (ports 443 443 ∷ [])))) web_and_api ≡ both_under }
    ensures removed { numbers (intercepts_after (Some (change.Remove (record { 0 = 1 }))) web_and_api) ≡ 2 ∷ [] }
    ensures removed_of_none { intercepts_after (Some (change.Remove (record { 0 = 3 }))) web_and_api ≡ web_and_api }
    ensures none { intercepts_after None web_and_api ≡ web_and_api }
    ensures leads { (led_by claimed_by (Some (change.Remove (record { 0 = 1 }))) with_hosts).intercepts ≡ (after (ClearIntercept (codes "web") ∷ []) with_hosts).intercepts }
    ensures key { (claim_change 258 None None).key ≡ 16 ∷ 0 ∷ 0 ∷ 1 ∷ 2 ∷ [] }
    ensures row { (claim_change 1 None (Some (over_tcp (Under (codes "a") ∷ []) (ports 443 443 ∷ [])))).after ≡ Some (1 ∷ 1 ∷ 3 ∷ 42 ∷ 46 ∷ 97 ∷ 1 ∷ 187 ∷ 1 ∷ 187 ∷ 1 ∷ []) }
    ensures gone { batch_of (claim_change 1 (Some (over_tcp (Under (codes "a") ∷ []) (ports 443 443 ∷ []))) None ∷ []) ≡ Delete (16 ∷ 0 ∷ 0 ∷ 0 ∷ 1 ∷ []) ∷ [] }
    ensures no_row { batch_of (claim_change 1 None None ∷ []) ≡ [] }
    ensures same { batch_of (claim_change 1 (Some (over_tcp (Under (codes "a") ∷ []) (ports 443 443 ∷ []))) (Some (over_tcp (Under (codes "a") ∷ []) (ports 443 443 ∷ []))) ∷ []) ≡ [] }
    ensures unknown { is_unknown (reply.Refused (refusal.Unknown field.Service)) ≡ true }
    ensures known { is_unknown (reply.Refused refusal.NoIntercept) ≡ false }
{}
