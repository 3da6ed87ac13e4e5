ghost use Rattle.std.specs.Prelude.{◌≡◌, [], ◌∷◌, codes, replicate, true, false, None, Some, Ok, Err, option_map, is_some};
ghost use Rattle.serde_json.specs.Data.{null, array, object, member, no_members};
ghost use Rattle.serde_json.specs.Find.{as_bool, as_str};
ghost use Rattle.serde_json.specs.Read.{read};
ghost use Rattle.serde_json.specs.View.{items_of};
ghost use Rattle.ctrl_model.specs.declared.refusals.Field.TheVariants as field;
ghost use Rattle.json_body.specs.declared.fields.FieldFault.TheVariants as fault;
ghost use Rattle.json_body.specs.FieldKinds.{is_object, member_of, as_name, as_number_in, as_list_of, required, optional, finished};

/// Fields that say something of their kind: a name, a text, numbers at the ends of their range, a truth value, a list that is
/// as long as it may be, and one that is left out where it may be.
pub fn worked_kinds()
    ensures name { option_map (required as_name field.Name) (read (codes "{\"name\":\"ann\"}")) ≡ Some (Ok (codes "ann")) }
    ensures text { option_map (required as_str field.Name) (read (codes "{\"name\":\"a b\"}")) ≡ Some (Ok (codes "a b")) }
    ensures high { option_map (required (as_number_in 0 65535) field.Cost) (read (codes "{\"cost\":65535}")) ≡ Some (Ok 65535) }
    ensures low { option_map (required (as_number_in 1 65535) field.Cost) (read (codes "{\"cost\":1}")) ≡ Some (Ok 1) }
    ensures flag { option_map (required as_bool field.NoTraversal) (read (codes "{\"no_traversal\":true}")) ≡ Some (Ok true) }
    ensures list { required (as_list_of 64) field.Attributes (object (member (codes "attributes") (array (items_of (replicate 64 null))) no_members)) ≡ Ok (items_of (replicate 64 null)) }
    ensures left_out { option_map (optional (as_number_in 0 65535) 7 field.Cost) (read (codes "{\"name\":\"ann\"}")) ≡ Some (Ok 7) }
    ensures given { option_map (optional (as_number_in 0 65535) 7 field.Cost) (read (codes "{\"cost\":8}")) ≡ Some (Ok 8) }
    ensures there { option_map (λ o. is_some (member_of field.Name o)) (read (codes "{\"name\":null}")) ≡ Some true }
    ensures only { option_map (finished (field.Name ∷ field.Attributes ∷ [])) (read (codes "{\"name\":\"ann\"}")) ≡ Some (Ok tt) }
{}

/// Fields that are absent or say nothing of their kind, a value that is no object, and a key that is no field.
pub fn worked_faults()
    ensures no_object { option_map is_object (read (codes "[1]")) ≡ Some false }
    ensures missing { option_map (required as_name field.Name) (read (codes "{}")) ≡ Some (Err (fault.Missing field.Name)) }
    ensures nothing { option_map (required as_name field.Name) (read (codes "{\"name\":null}")) ≡ Some (Err (fault.WrongKind field.Name)) }
    ensures nothing_given { option_map (optional (as_number_in 0 65535) 7 field.Cost) (read (codes "{\"cost\":null}")) ≡ Some (Err (fault.WrongKind field.Cost)) }
    ensures no_name { option_map (required as_name field.Name) (read (codes "{\"name\":\"a b\"}")) ≡ Some (Err (fault.WrongKind field.Name)) }
    ensures empty { option_map (required as_name field.Name) (read (codes "{\"name\":\"\"}")) ≡ Some (Err (fault.WrongKind field.Name)) }
    ensures above { option_map (required (as_number_in 0 65535) field.Cost) (read (codes "{\"cost\":65536}")) ≡ Some (Err (fault.WrongKind field.Cost)) }
    ensures below { option_map (required (as_number_in 1 65535) field.Cost) (read (codes "{\"cost\":0}")) ≡ Some (Err (fault.WrongKind field.Cost)) }
    ensures point { option_map (required (as_number_in 0 65535) field.Cost) (read (codes "{\"cost\":1.0}")) ≡ Some (Err (fault.WrongKind field.Cost)) }
    ensures exponent { option_map (required (as_number_in 0 65535) field.Cost) (read (codes "{\"cost\":1e3}")) ≡ Some (Err (fault.WrongKind field.Cost)) }
    ensures sign { option_map (required (as_number_in 0 65535) field.Cost) (read (codes "{\"cost\":-1}")) ≡ Some (Err (fault.WrongKind field.Cost)) }
    ensures no_flag { option_map (required as_bool field.NoTraversal) (read (codes "{\"no_traversal\":1}")) ≡ Some (Err (fault.WrongKind field.NoTraversal)) }
    ensures longer { required (as_list_of 64) field.Attributes (object (member (codes "attributes") (array (items_of (replicate 65 null))) no_members)) ≡ Err (fault.WrongKind field.Attributes) }
    ensures other { option_map (finished (field.Name ∷ [])) (read (codes "{\"name\":\"ann\",\"x\":1}")) ≡ Some (Err fault.Unknown) }
{}
