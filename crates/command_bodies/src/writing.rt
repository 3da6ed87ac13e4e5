ghost use Rattle.std.specs.Prelude.{◌≡◌, true, IfOk, Some, Ok};
ghost use Rattle.serde_json.specs.View.{view};
ghost use Rattle.serde_json.specs.Written.{compact_text};
ghost use Rattle.ctrl_model.specs.SpelledCommands.{is_spelled};
ghost use Rattle.command_codec.specs.BodyMeaning.{meaning};
ghost use Rattle.command_codec.specs.BodyObjects.{object_of_body};
ghost use Rattle.ctrl_model.specs.ContentTypes.{content_of};
ghost use Rattle.command_bodies.specs.BodyTexts.{body_object, body_text};

use crate::content_types::content_of;
use crate::families::put_fields;
use crate::field_values::BodyMembers;
use command_codec::fields_of;
use ctrl_model::{Bytes, Command};
use serde_json::{Map, Value};
use std::alloc::{AllocError, Global};

fn object_value(alloc: Global, command: &Command) -> Result<Value, AllocError>
    requires { is_spelled command.now ≡ true }
    ensures { IfOk result (λ v. view v ≡ body_object command.now) }
{
    let mut body = BodyMembers {
        alloc,
        fields: fields_of(content_of(command)),
        members: Map::new(alloc),
    };
    put_fields(&mut body, command)?;
    Ok(Value::Object(body.members))
}

// The object of a command's fields as compact JSON, which reads as the object.
fn object_bytes(alloc: Global, command: &Command) -> Result<Bytes, AllocError>
    requires { is_spelled command.now ≡ true }
    ensures text { IfOk result (λ b. b ≡ compact_text (body_object command.now)) }
    ensures reads { IfOk result (λ b. object_of_body b ≡ Some (body_object command.now)) }
{
    let value = object_value(alloc, command)?;
    let bytes = value.to_vec(alloc)?;
    Ok(Bytes::of(bytes))
}

/// The body that is written for a command that some body spells: compact JSON with keys in ascending order and every field but a
/// host or an ingress that is none; no bytes for Hello. It is the one body that is written, and it reads as the command
/// (docs/FORMATS.md, "Bodies").
pub fn write(alloc: Global, command: &Command) -> Result<Bytes, AllocError>
    requires { is_spelled command.now ≡ true }
    ensures body { IfOk result (λ b. b ≡ body_text command.now) }
    ensures reads_back { IfOk result (λ b. meaning (content_of command.now) b ≡ Ok command.now) }
{
    if let Command::Hello = command {
        return Ok(Bytes::of(Vec::new(alloc)));
    }
    object_bytes(alloc, command)
}
