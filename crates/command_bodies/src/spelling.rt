ghost use Rattle.std.specs.Prelude.{◌≡◌, true};
ghost use Rattle.ctrl_model.specs.AddressForm.{is_spelling};
ghost use Rattle.command_bodies.specs.WrittenWords.{relation_word, semantic_word, precedence_word, protocol_word};

use ctrl_model::{Bytes, Instance, Name, Precedence, Relation, Semantic};
use std::str;

// A name as a text.
pub(crate) fn name_text(name: &Name) -> &str
    ensures { result.now ≡ name.now }
{
    str::from_utf8(name.bytes()).unwrap()
}

// An instance as a text.
pub(crate) fn instance_text(instance: &Instance) -> &str
    ensures { result.now ≡ instance.now }
{
    str::from_utf8(instance.bytes()).unwrap()
}

// The spelling of an address as a text.
pub(crate) fn address_text(spelling: &Bytes) -> &str
    requires { is_spelling spelling.now ≡ true }
    ensures { result.now ≡ spelling.now }
{
    str::from_utf8(spelling.as_slice()).unwrap()
}

// The word of what a service policy grants.
pub(crate) fn relation_word(relation: Relation) -> &'static str
    ensures { result.now ≡ relation_word relation }
{
    match relation {
        Relation::Dial => "Dial",
        Relation::Bind => "Bind",
        Relation::IdentityRouter | Relation::ServiceRouter => "",
    }
}

// The word of a semantic.
pub(crate) fn semantic_word(semantic: Semantic) -> &'static str
    ensures { result.now ≡ semantic_word semantic }
{
    match semantic {
        Semantic::AnyOf => "AnyOf",
        Semantic::AllOf => "AllOf",
    }
}

// The word of a precedence.
pub(crate) fn precedence_word(precedence: Precedence) -> &'static str
    ensures { result.now ≡ precedence_word precedence }
{
    match precedence {
        Precedence::Required => "required",
        Precedence::Normal => "default",
        Precedence::Failed => "failed",
    }
}

// The word of udp, or else of tcp.
pub(crate) fn protocol_word(udp: bool) -> &'static str
    ensures { result.now ≡ protocol_word udp }
{
    if udp { "udp" } else { "tcp" }
}
