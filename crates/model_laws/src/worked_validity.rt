ghost use Rattle.std.specs.Prelude.{◌≡◌, codes, true, false, replicate, [], ◌∷◌};
ghost use Rattle.ctrl_model.specs.declared.kinds.Relation.TheVariants.{Dial, IdentityRouter, ServiceRouter};
ghost use Rattle.ctrl_model.specs.declared.kinds.Semantic.TheVariants.{AnyOf, AllOf};
ghost use Rattle.ctrl_model.specs.Rules.{attributes_in_use};
ghost use Rattle.ctrl_model.specs.State.{start};
ghost use Rattle.ctrl_model.specs.declared.addresses.Address.TheVariants.{Host};
ghost use Rattle.ctrl_model.specs.ValidState.{ValidState, is_valid_intercept};
ghost use Rattle.model_laws.specs.WorkedIntercepts.{ports, over_tcp, two_dialled};
ghost use Rattle.ctrl_model.specs.WorkedStates.{carrying};

/// States that are not valid, each for one more clause: a next number past its end, more records than a kind may have, a name twice,
/// a link without its routers, which repairing removes, intercepts out of order, of an absent service and of no form, and a serial past
/// the last.
pub fn states_that_are_not_valid()
    ensures number_past_its_end { ValidState (record start { services = record start.services { next = 4294967296 } }) → ⊥ }
    ensures too_many { ValidState (record start { routers = record { rows = replicate 257 (1, record { name = codes "r1"; attributes = []; cost = 0; through = true; connected = true }); next = 2 } }) → ⊥ }
    ensures name_twice { ValidState (record start { identities = record { rows = (1, record { name = codes "ann"; attributes = [] }) ∷ (2, record { name = codes "ann"; attributes = [] }) ∷ []; next = 3 } }) → ⊥ }
    ensures bad_record { ValidState (record start { services = record { rows = (1, record { name = []; attributes = [] }) ∷ []; next = 2 } }) → ⊥ }
    ensures not_repaired { ValidState (record start { links = record { rows = (1, record { name = codes "l1"; a = 1; b = 2; cost = 1; latency_a = 0; latency_b = 0; up = true }) ∷ []; next = 2 } }) → ⊥ }
    ensures out_of_order { ValidState (record start { services = record start.services { next = 3 }; intercepts = (2, over_tcp [] []) ∷ (1, over_tcp [] []) ∷ [] }) → ⊥ }
    ensures of_no_service { ValidState (record start { services = record start.services { next = 2 }; intercepts = (1, over_tcp [] []) ∷ [] }) → ⊥ }
    ensures past_the_last { ValidState (record start { serial = 9223372036854775809 }) → ⊥ }
    ensures no_protocol { is_valid_intercept two_dialled (1, record { tcp = false; udp = false; addresses = Host (codes "a") ∷ []; ports = ports 1 1 ∷ [] }) ≡ false }
    ensures present { is_valid_intercept two_dialled (2, over_tcp (Host (codes "a") ∷ []) (ports 1 1 ∷ [])) ≡ true }
    ensures absent { is_valid_intercept two_dialled (3, over_tcp (Host (codes "a") ∷ []) (ports 1 1 ∷ [])) ≡ false }
{}

/// The attributes in use are those of identities, services and routers, and of both sides of the policies of all three kinds, with
/// repeats.
pub fn attributes_of_all_kinds()
    ensures each { attributes_in_use (record start {
      identities = record { rows = (1, record { name = codes "ann"; attributes = codes "a" ∷ [] }) ∷ []; next = 2 };
      services = record { rows = (1, record { name = codes "web"; attributes = codes "b" ∷ [] }) ∷ []; next = 2 };
      routers = record { rows = (1, record { name = codes "r1"; attributes = codes "c" ∷ []; cost = 0; through = true; connected = false }) ∷ []; next = 2 };
      service_policies = record { rows = (1, record { name = codes "p"; relation = Dial; semantic = AnyOf; left = carrying (codes "d" ∷ []); right = carrying (codes "e" ∷ []) }) ∷ []; next = 2 };
      edge_router_policies = record { rows = (1, record { name = codes "p"; relation = IdentityRouter; semantic = AllOf; left = carrying (codes "f" ∷ []); right = carrying (codes "g" ∷ codes "a" ∷ []) }) ∷ []; next = 2 };
      service_edge_router_policies = record { rows = (1, record { name = codes "p"; relation = ServiceRouter; semantic = AnyOf; left = carrying (codes "h" ∷ []); right = carrying (codes "i" ∷ []) }) ∷ []; next = 2 };
    }) ≡ codes "a" ∷ codes "b" ∷ codes "c" ∷ codes "d" ∷ codes "e" ∷ codes "f" ∷ codes "g" ∷ codes "a" ∷ codes "h" ∷ codes "i" ∷ [] }
{}
