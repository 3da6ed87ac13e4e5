ghost use Rattle.std.specs.Prelude.{◌≡◌, ◌≢◌, ◌↔◌, ◌<◌, IfOk, IfErr, IsOk, IsErrOf, OnErr, length, true, false, Some, Ok, Err, option_map};
ghost use Rattle.serde_json.specs.View.{view};
ghost use Rattle.ctrl_model.specs.SpelledCommands.{is_spelled};
ghost use Rattle.json_body.specs.FieldKinds.{object_of};
ghost use Rattle.body_fields.specs.ReadResults.{Gives};
ghost use Rattle.command_codec.specs.BodyMeaning.{meaning, refusal_for, said_under, value_meaning};
ghost use Rattle.ctrl_model.specs.CommandForms.{row_at};
ghost use Rattle.command_codec.specs.FormRules.{form_asks, row_asks};

use crate::body_forms::{BodyForm, form_of};
use crate::command_values::command_of;
use crate::content_types::HELLO;
use body_fields::{keep_rules, value_in};
use ctrl_model::{Command, Field, Reason, Refusal};
use json_body::{FieldFault, Fields};
use serde_json::Value;
use std::alloc::{AllocError, Global};
use thiserror::Error;

/// Why a frame's type and body spell no command.
#[derive(Clone, Copy, Debug, PartialEq, Eq, Error)]
pub enum CodecFault {
    /// No command has the content type.
    #[error("no command has the content type")]
    UnsupportedType,
    /// The body spells no command of its type: the first cause, and the field that it is about.
    #[error("the body spells no command")]
    BadBody { field: Field, reason: Reason },
    /// There is no memory for the command.
    #[error("no memory")]
    NoMemory,
}

impl CodecFault {
    /// The refusal that tells it (docs/FORMATS.md, "Refusals"), unless it is want of memory.
    pub fn refusal(self) -> Result<Refusal, AllocError>
        ensures ok { IfOk result (λ r. (self ≢ CodecFault.NoMemory) × (r ≡ refusal_for self)) }
        ensures err { OnErr result (self ≡ CodecFault.NoMemory) }
    {
        match self {
            CodecFault::UnsupportedType => Ok(Refusal::UnsupportedType),
            CodecFault::BadBody { field, reason } => Ok(Refusal::BadBody { field, reason }),
            CodecFault::NoMemory => Err(AllocError),
        }
    }
}

impl From<FieldFault> for CodecFault {
    ghost use Rattle.std.specs.Prelude.{◌≡◌};
    ghost use Rattle.command_codec.specs.BodyObjects.{cause_of};

    ghost from_gives = { λ fault e. e ≡ cause_of fault };

    fn from(fault: FieldFault) -> CodecFault {
        match fault {
            FieldFault::NotObject => CodecFault::BadBody {
                field: Field::Nothing,
                reason: Reason::NotObject,
            },
            FieldFault::Missing(field) => CodecFault::BadBody {
                field,
                reason: Reason::Missing,
            },
            FieldFault::WrongKind(field) => CodecFault::BadBody {
                field,
                reason: Reason::WrongKind,
            },
            FieldFault::Unknown => CodecFault::BadBody {
                field: Field::Nothing,
                reason: Reason::Unknown,
            },
            FieldFault::NoMemory => CodecFault::NoMemory,
        }
    }
}

// The command that an object spells, judged by the form of its content type before memory is asked.
fn judged_command(
    alloc: Global,
    content: u32,
    form: BodyForm,
    fields: &Fields,
) -> Result<Command, FieldFault>
    requires { Some (form_asks form) ≡ option_map row_asks (row_at content) }
    ensures given { Gives FieldFault.NoMemory (λ c. c) result (said_under (row_at content) (object_of fields.now)) }
    ensures memory { IsErrOf result FieldFault.NoMemory → IsOk (said_under (row_at content) (object_of fields.now)) }
{
    keep_rules(form.rules, form.allowed, fields)?;
    command_of(alloc, content, fields)
}

// The command that the body spells which is a JSON value.
//
// Faults come as those of `read`. Want of memory takes the place of none of them: it comes only where the value spells a command.
fn read_value(alloc: Global, content: u32, value: &Value) -> Result<Command, CodecFault>
    ensures command { IfOk result (λ c. value_meaning content (view value.now) ≡ Ok c) }
    ensures fault { IfErr result (λ e. e ≢ CodecFault.NoMemory → value_meaning content (view value.now) ≡ Err e) }
    // All that the value says is judged before memory is asked.
    ensures memory { IsErrOf result CodecFault.NoMemory → IsOk (value_meaning content (view value.now)) }
{
    if content == HELLO {
        return Ok(Command::Hello);
    }
    let Some(form) = form_of(content) else {
        return Err(CodecFault::UnsupportedType);
    };
    let fields = Fields::of(value)?;
    Ok(judged_command(alloc, content, form, &fields)?)
}

/// The command that a body spells under a content type.
///
/// `UnsupportedType` comes exactly where no command has the type, and `BadBody` with the first cause exactly where the body
/// spells no command of it; else only memory can be wanting (docs/FORMATS.md, "Commands").
pub fn read(alloc: Global, content: u32, body: &[u8]) -> Result<Command, CodecFault>
    ensures command { IfOk result (λ c. meaning content body.now ≡ Ok c) }
    ensures fault { IfErr result (λ e. e ≢ CodecFault.NoMemory → meaning content body.now ≡ Err e) }
    // Memory cannot be wanting for Hello, nor where no command has the type.
    ensures hello { content ≡ 0 → IsOk result }
    ensures unsupported { IsErrOf result CodecFault.UnsupportedType ↔ (meaning content body.now ≡ Err CodecFault.UnsupportedType) }
    // Nor for an empty body; and once a JSON value was made of the body, `read_value` tells whatever cause there is.
    ensures memory { IsErrOf result CodecFault.NoMemory → 0 < length body.now }
    // What is read keeps the kinds, the ranges and the lengths of its fields.
    ensures spelled { IfOk result (λ c. is_spelled c ≡ true) }
{
    if content == HELLO {
        return Ok(Command::Hello);
    }
    if form_of(content).is_none() {
        return Err(CodecFault::UnsupportedType);
    }
    let value = value_in(alloc, body)?;
    let command = read_value(alloc, content, &value);
    drop(value);
    command
}
