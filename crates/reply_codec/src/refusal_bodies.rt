ghost use Rattle.std.specs.Prelude.{◌≡◌, ◌≤◌, ◌++◌, OnOk, length};
ghost use Rattle.serde_json.specs.Written.{compact_text};
ghost use Rattle.ctrl_model.specs.declared.refusals.Refusal.TheVariants as refusal;
ghost use Rattle.reply_codec.specs.ReplyBody.{denial_number, denial_name, plain_refusal, refusal_object};
ghost use Rattle.reply_codec.specs.ReplyTokens.{tokens_of};

use crate::members::MemberValue::{Number, Word};
use crate::members::{Member, MemberValue, put_object};
use ctrl_model::{Denial, Field, Kind, Name, Reason, Refusal};
use json::Writer;
use std::alloc::AllocError;

/// The number of a denial (docs/FORMATS.md, "Refusals").
pub fn denial_number(denial: Denial) -> u32
    ensures { result ≡ denial_number denial }
{
    match denial {
        Denial::UnknownIdentity => 30,
        Denial::UnknownService => 31,
        Denial::UnknownRouter => 32,
        Denial::NoDial => 33,
        Denial::NoSharedRouter => 34,
        Denial::SharedRoutersOffline => 35,
        Denial::NoTerminators => 36,
        Denial::NoAdmissibleTerminator => 37,
        Denial::NoPath => 38,
        Denial::CircuitsFull => 39,
    }
}

fn denial_name(denial: Denial) -> &'static str
    ensures { result.now ≡ denial_name denial }
{
    match denial {
        Denial::UnknownIdentity => "UnknownIdentity",
        Denial::UnknownService => "UnknownService",
        Denial::UnknownRouter => "UnknownRouter",
        Denial::NoDial => "NoDial",
        Denial::NoSharedRouter => "NoSharedRouter",
        Denial::SharedRoutersOffline => "SharedRoutersOffline",
        Denial::NoTerminators => "NoTerminators",
        Denial::NoAdmissibleTerminator => "NoAdmissibleTerminator",
        Denial::NoPath => "NoPath",
        Denial::CircuitsFull => "CircuitsFull",
    }
}

// Writes a refusal that has a number and a name alone.
fn put_plain(writer: &mut Writer, code: u32, name: &'static str) -> Result<(), AllocError>
    requires { length name.now ≤ 64 }
    ensures written { OnOk result (writer.new.tokens ≡ writer.old.tokens ++ tokens_of (plain_refusal code name.now)) }
    ensures before { writer.new.before ≡ writer.old.before }
    ensures few { OnOk result (length (compact_text (plain_refusal code name.now)) ≤ 2_000) }
{
    put_object(
        writer,
        &[Member("code", Number(code)), Member("name", Word(name))],
    )
}

fn put_bad_body(writer: &mut Writer, field: Field, reason: Reason) -> Result<(), AllocError>
    ensures written { OnOk result (writer.new.tokens ≡ writer.old.tokens ++ tokens_of (refusal_object (refusal.BadBody field reason))) }
    ensures before { writer.new.before ≡ writer.old.before }
    ensures few { OnOk result (length (compact_text (refusal_object (refusal.BadBody field reason))) ≤ 2_000) }
{
    put_object(
        writer,
        &[
            Member("code", Number(11)),
            Member("field", MemberValue::Field(field)),
            Member("name", Word("BadBody")),
            Member("reason", MemberValue::Reason(reason)),
        ],
    )
}

fn put_unknown(writer: &mut Writer, field: Field) -> Result<(), AllocError>
    ensures written { OnOk result (writer.new.tokens ≡ writer.old.tokens ++ tokens_of (refusal_object (refusal.Unknown field))) }
    ensures before { writer.new.before ≡ writer.old.before }
    ensures few { OnOk result (length (compact_text (refusal_object (refusal.Unknown field))) ≤ 2_000) }
{
    put_object(
        writer,
        &[
            Member("code", Number(21)),
            Member("field", MemberValue::Field(field)),
            Member("name", Word("Unknown")),
        ],
    )
}

fn put_unknown_ref(writer: &mut Writer, field: Field, name: &Name) -> Result<(), AllocError>
    ensures written { OnOk result (writer.new.tokens ≡ writer.old.tokens ++ tokens_of (refusal_object (refusal.UnknownRef field name.now))) }
    ensures before { writer.new.before ≡ writer.old.before }
    ensures few { OnOk result (length (compact_text (refusal_object (refusal.UnknownRef field name.now))) ≤ 2_000) }
{
    put_object(
        writer,
        &[
            Member("code", Number(23)),
            Member("field", MemberValue::Field(field)),
            Member("name", Word("UnknownRef")),
            Member("ref", MemberValue::Name(name)),
        ],
    )
}

fn put_full(writer: &mut Writer, kind: Kind) -> Result<(), AllocError>
    ensures written { OnOk result (writer.new.tokens ≡ writer.old.tokens ++ tokens_of (refusal_object (refusal.Full kind))) }
    ensures before { writer.new.before ≡ writer.old.before }
    ensures few { OnOk result (length (compact_text (refusal_object (refusal.Full kind))) ≤ 2_000) }
{
    put_object(
        writer,
        &[
            Member("code", Number(24)),
            Member("kind", MemberValue::Kind(kind)),
            Member("name", Word("Full")),
        ],
    )
}

// Writes the object of a refusal: at most 2,000 bytes. An `Err` is want of memory.
pub(crate) fn put_refusal(writer: &mut Writer, refusal: &Refusal) -> Result<(), AllocError>
    ensures written { OnOk result (writer.new.tokens ≡ writer.old.tokens ++ tokens_of (refusal_object refusal.now)) }
    ensures before { writer.new.before ≡ writer.old.before }
    ensures few { OnOk result (length (compact_text (refusal_object refusal.now)) ≤ 2_000) }
{
    match refusal {
        Refusal::UnsupportedType => put_plain(writer, 10, "UnsupportedType"),
        Refusal::BadBody { field, reason } => put_bad_body(writer, *field, *reason),
        Refusal::NotPermitted => put_plain(writer, 12, "NotPermitted"),
        Refusal::Exists => put_plain(writer, 20, "Exists"),
        Refusal::Unknown { field } => put_unknown(writer, *field),
        Refusal::UnknownRef { field, name } => put_unknown_ref(writer, *field, name),
        Refusal::Full { kind } => put_full(writer, *kind),
        Refusal::SameRouter => put_plain(writer, 25, "SameRouter"),
        Refusal::NotBindable => put_plain(writer, 26, "NotBindable"),
        Refusal::Denied(denial) => put_plain(writer, denial_number(*denial), denial_name(*denial)),
        Refusal::JournalFull => put_plain(writer, 40, "JournalFull"),
        Refusal::MarkFull => put_plain(writer, 41, "MarkFull"),
        Refusal::NoIntercept => put_plain(writer, 50, "NoIntercept"),
    }
}
