ghost use Rattle.std.specs.Prelude.{◌≡◌, string_bytes};
ghost use Rattle.std.specs.List.{list_all};
ghost use Rattle.std.specs.BTreeMap.{keys};
ghost use Rattle.serde_json.specs.View.{view};
ghost use Rattle.json_body.specs.FieldKinds.{is_word_of, has_only};

use ctrl_model::Field;
use serde_json::{Map, Value};

fn is_word_of(fields: &[Field], key: &str) -> bool
    ensures { result ≡ is_word_of fields.now key.now }
{
    fields.iter().any(|field| field.word() == key)
}

fn are_words_of(fields: &[Field], members: &Map<String, Value>) -> bool
    ensures { result ≡ list_all (λ k. is_word_of fields.now (string_bytes k)) (keys members.now) }
{
    members.keys().all(|key| is_word_of(fields, key.as_str()))
}

// Whether each key of a value is the word of one of the fields, where the value is an object.
pub(crate) fn has_only(fields: &[Field], value: &Value) -> bool
    ensures { result ≡ has_only fields.now (view value.now) }
{
    match value.as_object() {
        Some(members) => are_words_of(fields, members),
        None => true,
    }
}
