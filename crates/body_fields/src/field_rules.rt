ghost use Rattle.std.specs.Prelude.{◌≡◌, OnOk, IfErr, true, false};
ghost use Rattle.serde_json.specs.View.{view};
ghost use Rattle.json_body.specs.declared.fields.FieldFault.{FieldFault};
ghost use Rattle.json_body.specs.FieldKinds.{object_of};
ghost use Rattle.body_fields.specs.FieldRules.{Breaks, IsFirstAmong, Keeps, rule_of, rules_of};

use ctrl_model::Field;
use json_body::{FieldFault, Fields};
use serde_json::Value;

/// A kind of the values of a field.
pub trait FieldKind {
    ghost use Rattle.std.specs.Prelude.{◌≡◌, Bool};
    ghost use Rattle.serde_json.specs.Data.{Data};
    ghost use Rattle.serde_json.specs.View.{view};

    ghost is_of: { Self → Data → Bool };

    /// Whether a value is of the kind. No memory is taken.
    fn is_of(&self, value: &Value) -> bool
        ensures { result ≡ is_of self.now (view value.now) };
}

/// What a command asks of one field.
#[derive(Clone, Copy)]
pub enum AskedField<K> {
    /// It has to be there, with a value of the kind.
    Needed(Field, K),
    /// It may be left out; where it is there, its value is of the kind.
    Optional(Field, K),
}

// That a value of a field is of a kind.
fn keep_kind<K: FieldKind>(field: Field, kind: &K, value: &Value) -> Result<(), FieldFault>
    ensures kept { OnOk result (K.is_of kind.now (view value.now) ≡ true) }
    ensures other { IfErr result (λ f. (f ≡ FieldFault.WrongKind field) × (K.is_of kind.now (view value.now) ≡ false)) }
{
    if kind.is_of(value) {
        Ok(())
    } else {
        Err(FieldFault::WrongKind(field))
    }
}

// That an object keeps the rule of a field.
fn keep_rule<K: FieldKind>(rule: &AskedField<K>, fields: &Fields) -> Result<(), FieldFault>
    ensures kept { OnOk result (Keeps (object_of fields.now) (rule_of K.is_of rule.now)) }
    ensures broken { IfErr result (λ f. Breaks (rule_of K.is_of rule.now) (object_of fields.now) f) }
{
    match rule {
        AskedField::Needed(field, kind) => match fields.value(*field) {
            Some(value) => keep_kind(*field, kind, value),
            None => Err(FieldFault::Missing(*field)),
        },
        AskedField::Optional(field, kind) => match fields.value(*field) {
            Some(value) => keep_kind(*field, kind, value),
            None => Ok(()),
        },
    }
}

/// That an object keeps the rules of its fields, and has no key but the words of those that are allowed: else its first fault.
/// No memory is taken.
pub fn keep_rules<K: FieldKind>(
    rules: &[AskedField<K>],
    allowed: &[Field],
    fields: &Fields,
) -> Result<(), FieldFault>
    ensures kept { OnOk result ((f : FieldFault) → IsFirstAmong (rules_of K.is_of rules.now) allowed.now (object_of fields.now) f → ⊥) }
    ensures fault { IfErr result (λ f. IsFirstAmong (rules_of K.is_of rules.now) allowed.now (object_of fields.now) f) }
{
    'rules: for rule in rules {
        keep_rule(rule, fields)?;
    }
    fields.finish(allowed)
}
