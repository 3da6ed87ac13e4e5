ghost use Rattle.std.specs.Prelude.{◌≡◌, ◌++◌, [], OnOk, decimal};
ghost use Rattle.std.specs.List.{flat_map};
ghost use Rattle.command_bodies.specs.WrittenWords.{relation_word as word_of_relation, semantic_word as word_of_semantic, precedence_word as word_of_precedence};
ghost use Rattle.record_lines.specs.RecordWords.{attribute_words, flag_word as word_of_flag, head, keyed, side_words, spaced};

use ctrl_model::{Name, Precedence, Relation, Semantic, Side};
use itoa::Buffer;
use std::alloc::AllocError;

/// Puts a number down.
pub(crate) fn put_number(text: &mut Vec<u8>, number: u32) -> Result<(), AllocError>
    ensures { OnOk result (text.new.items ≡ text.old.items ++ decimal number) }
{
    let mut digits = Buffer::new();
    text.extend_from_slice(digits.format(number).as_bytes())
}

/// Puts a word down behind a space.
pub(crate) fn put_spaced(text: &mut Vec<u8>, word: &[u8]) -> Result<(), AllocError>
    ensures { OnOk result (text.new.items ≡ text.old.items ++ spaced word.now) }
{
    text.extend_from_slice(b" ")?;
    text.extend_from_slice(word)
}

/// Puts what a line begins with: the number of the record, and its name.
pub(crate) fn put_head(text: &mut Vec<u8>, no: u32, name: &Name) -> Result<(), AllocError>
    ensures { OnOk result (text.new.items ≡ text.old.items ++ head no name.now) }
{
    put_number(text, no)?;
    put_spaced(text, name.bytes())
}

/// Puts the key of a field down, behind which its value stands.
pub(crate) fn put_key(text: &mut Vec<u8>, key: &[u8]) -> Result<(), AllocError>
    ensures { OnOk result (text.new.items ≡ text.old.items ++ keyed key.now []) }
{
    text.extend_from_slice(b" ")?;
    text.extend_from_slice(key)?;
    text.extend_from_slice(b"=")
}

/// Puts a field down: its key and its value.
pub(crate) fn put_keyed(text: &mut Vec<u8>, key: &[u8], value: &[u8]) -> Result<(), AllocError>
    ensures { OnOk result (text.new.items ≡ text.old.items ++ keyed key.now value.now) }
{
    put_key(text, key)?;
    text.extend_from_slice(value)
}

/// Puts a field whose value is a number.
pub(crate) fn put_count(text: &mut Vec<u8>, key: &[u8], count: u32) -> Result<(), AllocError>
    ensures { OnOk result (text.new.items ≡ text.old.items ++ keyed key.now (decimal count)) }
{
    let mut digits = Buffer::new();
    put_keyed(text, key, digits.format(count).as_bytes())
}

fn flag_word(flag: bool) -> &'static [u8]
    ensures { result.now ≡ word_of_flag flag }
{
    if flag { b"true" } else { b"false" }
}

/// Puts a field whose value is a truth value.
pub(crate) fn put_flag(text: &mut Vec<u8>, key: &[u8], flag: bool) -> Result<(), AllocError>
    ensures { OnOk result (text.new.items ≡ text.old.items ++ keyed key.now (word_of_flag flag)) }
{
    put_keyed(text, key, flag_word(flag))
}

// Puts names, each behind a mark.
fn put_marked(text: &mut Vec<u8>, mark: &[u8], names: &[Name]) -> Result<(), AllocError>
    ensures { OnOk result (text.new.items ≡ text.old.items ++ flat_map (λ name. mark.now ++ name) names.now) }
{
    'names: for name in names {
        text.extend_from_slice(mark)?;
        text.extend_from_slice(name.bytes())?;
    }
    Ok(())
}

/// Puts attributes down.
pub(crate) fn put_attributes(text: &mut Vec<u8>, names: &[Name]) -> Result<(), AllocError>
    ensures { OnOk result (text.new.items ≡ text.old.items ++ attribute_words names.now) }
{
    put_marked(text, b" #", names)
}

/// Puts the entries of a side of a policy.
pub(crate) fn put_side(text: &mut Vec<u8>, side: &Side) -> Result<(), AllocError>
    ensures { OnOk result (text.new.items ≡ text.old.items ++ side_words side.now) }
{
    if side.all {
        return text.extend_from_slice(b" #all");
    }
    put_marked(text, b" @", side.ids.as_slice())?;
    put_attributes(text, side.attributes.as_slice())
}

/// The word of what a service policy grants.
pub(crate) fn relation_word(relation: Relation) -> &'static [u8]
    ensures { result.now ≡ word_of_relation relation }
{
    match relation {
        Relation::Dial => b"Dial",
        Relation::Bind => b"Bind",
        Relation::IdentityRouter | Relation::ServiceRouter => b"",
    }
}

/// The word of a semantic.
pub(crate) fn semantic_word(semantic: Semantic) -> &'static [u8]
    ensures { result.now ≡ word_of_semantic semantic }
{
    match semantic {
        Semantic::AnyOf => b"AnyOf",
        Semantic::AllOf => b"AllOf",
    }
}

/// The word of a precedence.
pub(crate) fn precedence_word(precedence: Precedence) -> &'static [u8]
    ensures { result.now ≡ word_of_precedence precedence }
{
    match precedence {
        Precedence::Required => b"required",
        Precedence::Normal => b"default",
        Precedence::Failed => b"failed",
    }
}
