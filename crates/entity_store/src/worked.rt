ghost use Rattle.std.specs.Prelude.{◌≡◌, codes, true, [], ◌∷◌, Ok, Err};
ghost use Rattle.ctrl_model.specs.declared.kinds.Kind.TheVariants as kind;
ghost use Rattle.entity_store.specs.declared.entities.EntityFault.TheVariants.{Exists, Unknown};
ghost use Rattle.entity_store.specs.EntityTables.{no_entities, next_of, with_attributes, without_entity};
ghost use Rattle.entity_store.specs.AttributeUses.{has_attribute_room, uses};
ghost use Rattle.entity_store.specs.TableRules.{may_add, found, attributes_at};
ghost use Rattle.entity_store.specs.WorkedTables.{ann, ann_and_bob, in_use};

/// Ann and bob are the identities 1 and 2. A name is taken in its own kind alone, and a removed number is not given again.
pub fn names_and_numbers()
    ensures first { next_of kind.Identity no_entities ≡ 1 }
    ensures third { next_of kind.Identity ann_and_bob ≡ 3 }
    ensures found { found kind.Identity (codes "bob") ann_and_bob ≡ Ok 2 }
    ensures unknown { found kind.Service (codes "bob") ann_and_bob ≡ Err Unknown }
    ensures taken { may_add kind.Identity (codes "ann") ann_and_bob ≡ Err Exists }
    ensures other_kind { may_add kind.Router (codes "ann") ann_and_bob ≡ Ok tt }
    ensures removed { found kind.Identity (codes "bob") (without_entity kind.Identity 2 ann_and_bob) ≡ Err Unknown }
    ensures not_again { next_of kind.Identity (without_entity kind.Identity 2 ann_and_bob) ≡ 3 }
{}

/// Ann has red, and bob has red and blue: an attribute with two uses is in use until both have gone, and counts once.
pub fn attributes_in_use()
    ensures two { uses (codes "red") ann_and_bob ≡ 2 }
    ensures one { uses (codes "blue") ann_and_bob ≡ 1 }
    ensures held { uses (codes "red") (record ann_and_bob { held = (codes "red", 3) ∷ [] }) ≡ 5 }
    ensures both { in_use ann_and_bob [] [] ≡ 2 }
    ensures red_stays { in_use ann_and_bob (codes "red" ∷ codes "blue" ∷ []) [] ≡ 1 }
    ensures green_comes { in_use ann_and_bob [] (codes "green" ∷ codes "red" ∷ []) ≡ 3 }
    ensures room { has_attribute_room ann_and_bob [] (codes "green" ∷ []) ≡ true }
    ensures changed { attributes_at kind.Identity 2 (with_attributes kind.Identity 2 (codes "green" ∷ []) ann_and_bob) ≡ codes "green" ∷ [] }
{}
