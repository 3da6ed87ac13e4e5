ghost use Rattle.std.specs.Prelude.{◌≡◌};
ghost use Rattle.serde_json.specs.View.{view};
ghost use Rattle.json_body.specs.FieldKinds.{object_of, required};
ghost use Rattle.body_fields.specs.FieldWords.{relation_of, semantic_of, precedence_of, as_relation, as_semantic, as_precedence};

use ctrl_model::{Field, Precedence, Relation, Semantic};
use json_body::{FieldFault, Fields};
use serde_json::Value;

fn relation_of(word: &str) -> Option<Relation>
    ensures { result ≡ relation_of word.now }
{
    match word {
        "Dial" => Some(Relation::Dial),
        "Bind" => Some(Relation::Bind),
        _ => None,
    }
}

fn semantic_of(word: &str) -> Option<Semantic>
    ensures { result ≡ semantic_of word.now }
{
    match word {
        "AnyOf" => Some(Semantic::AnyOf),
        "AllOf" => Some(Semantic::AllOf),
        _ => None,
    }
}

fn precedence_of(word: &str) -> Option<Precedence>
    ensures { result ≡ precedence_of word.now }
{
    match word {
        "required" => Some(Precedence::Required),
        "default" => Some(Precedence::Normal),
        "failed" => Some(Precedence::Failed),
        _ => None,
    }
}

/// What a service policy grants, where a value says it.
pub fn relation_in(value: &Value) -> Option<Relation>
    ensures { result ≡ as_relation (view value.now) }
{
    relation_of(value.as_str()?)
}

/// What a service policy grants.
pub fn relation(fields: &Fields) -> Result<Relation, FieldFault>
    ensures { result ≡ required as_relation Field.PolicyType (object_of fields.now) }
{
    let word = fields.text(Field::PolicyType)?;
    relation_of(word).ok_or(FieldFault::WrongKind(Field::PolicyType))
}

/// The semantic of a policy that a value says.
pub fn semantic_in(value: &Value) -> Option<Semantic>
    ensures { result ≡ as_semantic (view value.now) }
{
    semantic_of(value.as_str()?)
}

/// The semantic of a policy.
pub fn semantic(fields: &Fields) -> Result<Semantic, FieldFault>
    ensures { result ≡ required as_semantic Field.Semantic (object_of fields.now) }
{
    let word = fields.text(Field::Semantic)?;
    semantic_of(word).ok_or(FieldFault::WrongKind(Field::Semantic))
}

/// The precedence of a terminator that a value says.
pub fn precedence_in(value: &Value) -> Option<Precedence>
    ensures { result ≡ as_precedence (view value.now) }
{
    precedence_of(value.as_str()?)
}

/// The precedence of a terminator.
pub fn precedence(fields: &Fields) -> Result<Precedence, FieldFault>
    ensures { result ≡ required as_precedence Field.Precedence (object_of fields.now) }
{
    let word = fields.text(Field::Precedence)?;
    precedence_of(word).ok_or(FieldFault::WrongKind(Field::Precedence))
}
