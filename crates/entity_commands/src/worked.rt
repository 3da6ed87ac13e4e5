ghost use Rattle.std.specs.Prelude.{◌≡◌, codes, true, false, [], ◌∷◌};
ghost use Rattle.ctrl_model.specs.declared.commands.Command.TheVariants.{ConnectRouter, DeleteIdentity, DeleteLink};
ghost use Rattle.ctrl_model.specs.declared.kinds.Kind.TheVariants as kind;
ghost use Rattle.ctrl_model.specs.State.{start};
ghost use Rattle.entity_store.specs.EntityTables.{no_entities};
ghost use Rattle.entity_commands.specs.EntityChanges.{after_entity_change, entered};
ghost use Rattle.entity_commands.specs.EntityPlans.{is_entity_command};
ghost use Rattle.entity_commands.specs.WorkedEntities.{holding, of_ann, of_router, r1};
ghost use Rattle.entity_store.specs.declared.changes.EntityChange.TheVariants.{Add, AddRouter, Describe, DescribeRouter, Mark, Remove};

/// Changes of identities in a small state, and which commands are on entities.
pub fn changes_of_entities()
    ensures router { is_entity_command (ConnectRouter (codes "r1")) ≡ true }
    ensures identity { is_entity_command (DeleteIdentity (codes "ann")) ≡ true }
    ensures link { is_entity_command (DeleteLink (codes "l1")) ≡ false }
    ensures add { entered (Add kind.Identity (codes "ann") []) start ≡ of_ann [] }
    ensures describe { entered (Describe kind.Identity 1 (codes "a" ∷ [])) (of_ann []) ≡ of_ann (codes "a" ∷ []) }
    ensures remove { entered (Remove kind.Identity 1 (codes "ann")) (of_ann []) ≡ record start { identities = record { rows = []; next = 2 } } }
{}

/// Changes of a router in a small state, and in the tables alone: it is made of no connection, and keeps its number.
pub fn changes_of_routers()
    ensures add { entered (AddRouter (codes "r1") [] 5 false) start ≡ of_router (r1 [] 5 false false) }
    ensures describe { entered (DescribeRouter 1 (codes "a" ∷ []) 7 true true) (of_router (r1 [] 5 false false)) ≡ of_router (r1 (codes "a" ∷ []) 7 true true) }
    ensures mark { entered (Mark 1 5 false true) (of_router (r1 [] 5 false false)) ≡ of_router (r1 [] 5 false true) }
    ensures add_alone { after_entity_change (AddRouter (codes "r1") [] 5 false) no_entities ≡ holding (r1 [] 5 false false) }
    ensures describe_alone { after_entity_change (DescribeRouter 1 (codes "a" ∷ []) 7 true true) (holding (r1 [] 5 false false)) ≡ holding (r1 (codes "a" ∷ []) 7 true true) }
    ensures remove_alone { after_entity_change (Remove kind.Router 1 (codes "r1")) (holding (r1 [] 5 false true)) ≡ record no_entities { routers = record { rows = []; next = 2 } } }
{}
