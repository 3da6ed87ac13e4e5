ghost use Rattle.std.specs.Prelude.{◌≡◌, [], ◌∷◌, codes, map, None, Some};
ghost use Rattle.ctrl_model.specs.Controller.{counted};
ghost use Rattle.ctrl_model.specs.WorkedStates.{after, line_without_terminator, offered};
ghost use Rattle.ctrl_model.specs.declared.commands.Command.TheVariants.{ClearIntercept, DeleteService, SetIntercept};
ghost use Rattle.ctrl_model.specs.declared.kinds.Precedence.TheVariants.{Failed, Normal, Required};
ghost use Rattle.ctrl_model.specs.declared.kinds.Kind.TheVariants as kind;
ghost use Rattle.entity_store.specs.declared.changes.EntityChange.TheVariants.{Remove};
ghost use Rattle.fabric_graph.specs.declared.changes.LinkChange.TheVariants.{SetLeast};
ghost use Rattle.intercepts.specs.declared.changes.InterceptChange.TheVariants as claim;
ghost use Rattle.intercepts.specs.InterceptChanges.{intercepts_after};
ghost use Rattle.row_codec.specs.declared.changes.Op.TheVariants.{Put, Delete};
ghost use Rattle.row_codec.specs.Batches.{batch_between, batch_bytes};
ghost use Rattle.row_codec.specs.RowValues.{precedence_byte, terminator_value};
ghost use Rattle.ctrl_core.specs.KeptFormat.{kept_format};
ghost use Rattle.core_stores.specs.declared.changes.Change.TheVariants.{Entity, Intercept, Link};
ghost use Rattle.core_stores.specs.Claims.{claim_gone, claim_part};
ghost use Rattle.core_stores.specs.Serials.{with_serial};
ghost use Rattle.core_laws.specs.WorkedRows.{any_claim, offer_of, two_claims, web_claimed, with_web};

/// The byte of each precedence, alone and at the end of a terminator's row: service 2 on router 3, without a host and an instance, at
/// cost 0.
pub fn precedences_in_rows()
    ensures bytes { map precedence_byte (Required ∷ Normal ∷ Failed ∷ []) ≡ 1 ∷ 2 ∷ 3 ∷ [] }
    ensures required { terminator_value (offer_of Required) ≡ 2 ∷ 0 ∷ 0 ∷ 0 ∷ 3 ∷ 0 ∷ 0 ∷ 0 ∷ 0 ∷ 0 ∷ 0 ∷ 0 ∷ 0 ∷ 0 ∷ 0 ∷ 1 ∷ [] }
    ensures normal { terminator_value (offer_of Normal) ≡ 2 ∷ 0 ∷ 0 ∷ 0 ∷ 3 ∷ 0 ∷ 0 ∷ 0 ∷ 0 ∷ 0 ∷ 0 ∷ 0 ∷ 0 ∷ 0 ∷ 0 ∷ 2 ∷ [] }
    ensures failed { terminator_value (offer_of Failed) ≡ 2 ∷ 0 ∷ 0 ∷ 0 ∷ 3 ∷ 0 ∷ 0 ∷ 0 ∷ 0 ∷ 0 ∷ 0 ∷ 0 ∷ 0 ∷ 0 ∷ 0 ∷ 3 ∷ [] }
{}

/// The batch by which a folder keeps that a required terminator of web on r3 is made, the first one: the next number of terminators, the
/// row, and the serial 1.
pub fn precedence_in_a_folder()
    ensures required { batch_bytes (batch_between kept_format line_without_terminator (counted line_without_terminator (after (offered (codes "web") (codes "r3") 0 Required ∷ []) line_without_terminator)))
        ≡ 1 ∷ 2 ∷ 1 ∷ 8 ∷ 4 ∷ 0 ∷ 0 ∷ 0 ∷ 2 ∷ 0 ∷ 0 ∷ 0
        ∷ 1 ∷ 5 ∷ 10 ∷ 0 ∷ 0 ∷ 0 ∷ 1 ∷ 16 ∷ 0 ∷ 0 ∷ 0
        ∷ 1 ∷ 0 ∷ 0 ∷ 0 ∷ 3 ∷ 0 ∷ 0 ∷ 0 ∷ 0 ∷ 0 ∷ 0 ∷ 0 ∷ 0 ∷ 0 ∷ 0 ∷ 1
        ∷ 1 ∷ 1 ∷ 17 ∷ 8 ∷ 0 ∷ 0 ∷ 0 ∷ 1 ∷ 0 ∷ 0 ∷ 0 ∷ 0 ∷ 0 ∷ 0 ∷ 0 ∷ [] }
{}

/// The batch of a change puts the next serial behind what it changes. One that changes nothing stays.
pub fn serials_in_batches()
    ensures nothing { with_serial 7 [] ≡ [] }
    ensures first { with_serial 0 (Delete (2 ∷ []) ∷ []) ≡ Delete (2 ∷ []) ∷ Put (17 ∷ []) (1 ∷ 0 ∷ 0 ∷ 0 ∷ 0 ∷ 0 ∷ 0 ∷ 0 ∷ []) ∷ [] }
    ensures later { with_serial 255 (Delete (2 ∷ []) ∷ []) ≡ Delete (2 ∷ []) ∷ Put (17 ∷ []) (0 ∷ 1 ∷ 0 ∷ 0 ∷ 0 ∷ 0 ∷ 0 ∷ 0 ∷ []) ∷ [] }
{}

/// Of the intercepts of services 1 and 2 that of service 1 goes with the service. An identity, and a service that has none, take none
/// along. A change of the intercepts is their own, and one of the links is none of theirs.
pub fn claims_that_go()
    ensures goes { intercepts_after (claim_gone (Some (Remove kind.Service 1 (codes "web")))) two_claims ≡ (2, any_claim) ∷ [] }
    ensures identity { intercepts_after (claim_gone (Some (Remove kind.Identity 1 (codes "ann")))) two_claims ≡ two_claims }
    ensures without_claim { intercepts_after (claim_gone (Some (Remove kind.Service 3 (codes "mail")))) two_claims ≡ two_claims }
    ensures along { claim_part (Entity (Remove kind.Service 1 (codes "web"))) ≡ Some (claim.Remove (record { 0 = 1 })) }
    ensures own { intercepts_after (claim_part (Intercept (claim.Remove (record { 0 = 2 })))) two_claims ≡ (1, any_claim) ∷ [] }
    ensures another { claim_part (Link (SetLeast 20)) ≡ None }
{}

/// The batch by which a folder keeps the intercept of web, `*.example.org` over tcp at port 443, the first one: its row, and the serial 1.
/// The same intercept again keeps nothing. Where it is cleared its row goes, and so it does with its service.
pub fn claims_in_a_folder()
    ensures set { batch_bytes (batch_between kept_format with_web (counted with_web web_claimed))
        ≡ 1 ∷ 5 ∷ 16 ∷ 0 ∷ 0 ∷ 0 ∷ 1 ∷ 21 ∷ 0 ∷ 0 ∷ 0
        ∷ 1 ∷ 1 ∷ 13 ∷ 42 ∷ 46 ∷ 101 ∷ 120 ∷ 97 ∷ 109 ∷ 112 ∷ 108 ∷ 101 ∷ 46 ∷ 111 ∷ 114 ∷ 103 ∷ 1 ∷ 187 ∷ 1 ∷ 187 ∷ 1
        ∷ 1 ∷ 1 ∷ 17 ∷ 8 ∷ 0 ∷ 0 ∷ 0 ∷ 1 ∷ 0 ∷ 0 ∷ 0 ∷ 0 ∷ 0 ∷ 0 ∷ 0 ∷ [] }
    ensures again { batch_between kept_format web_claimed (counted web_claimed (after (SetIntercept (codes "web") any_claim ∷ []) web_claimed)) ≡ [] }
    ensures cleared { batch_between kept_format web_claimed (counted web_claimed (after (ClearIntercept (codes "web") ∷ []) web_claimed))
        ≡ Delete (16 ∷ 0 ∷ 0 ∷ 0 ∷ 1 ∷ []) ∷ Put (17 ∷ []) (1 ∷ 0 ∷ 0 ∷ 0 ∷ 0 ∷ 0 ∷ 0 ∷ 0 ∷ []) ∷ [] }
    ensures deleted { batch_between kept_format web_claimed (counted web_claimed (after (DeleteService (codes "web") ∷ []) web_claimed))
        ≡ Delete (4 ∷ 0 ∷ 0 ∷ 0 ∷ 1 ∷ []) ∷ Delete (16 ∷ 0 ∷ 0 ∷ 0 ∷ 1 ∷ []) ∷ Put (17 ∷ []) (1 ∷ 0 ∷ 0 ∷ 0 ∷ 0 ∷ 0 ∷ 0 ∷ 0 ∷ []) ∷ [] }
{}
