ghost use Rattle.std.specs.Prelude.{◌≡◌, ◌≤◌, ◌++◌, true, OnOk, length};
ghost use Rattle.std.specs.List.{list_all};
ghost use Rattle.serde_json.specs.Data.{object};
ghost use Rattle.serde_json.specs.Written.{compact_text};
ghost use Rattle.reply_codec.specs.ReplyTokens.{fits, member_fits, member_tokens, members_of, most, most_of, said, tokens_of};

use crate::lists::{address_text, name_text, put_number};
use crate::spelled::put_list;
use crate::words::{kind_word, reason_word};
use ctrl_model::{Bytes, Field, Kind, Name, Names, Numbers, Reaches, Reason, Tallies};
use json::Writer;
use std::alloc::AllocError;

// What stands under a key of a reply's object.
#[derive(Clone, Copy)]
pub(crate) enum MemberValue<'a> {
    Number(u32),
    Count(u64),
    Flag(bool),
    Word(&'static str),
    Kind(Kind),
    Field(Field),
    Reason(Reason),
    Name(&'a Name),
    // The spelling of an address.
    Address(&'a Bytes),
    Numbers(&'a Numbers),
    Names(&'a Names),
    Tallies(&'a Tallies),
    Reaches(&'a Reaches),
}

// A key, and what stands under it.
#[derive(Clone, Copy)]
pub(crate) struct Member<'a>(pub(crate) &'static str, pub(crate) MemberValue<'a>);

// Writes a value. An `Err` is want of memory.
fn put_value(writer: &mut Writer, value: &MemberValue) -> Result<(), AllocError>
    requires { fits value.now ≡ true }
    ensures written { OnOk result (writer.new.tokens ≡ writer.old.tokens ++ tokens_of (said value.now)) }
    ensures before { writer.new.before ≡ writer.old.before }
    ensures few { OnOk result (length (compact_text (said value.now)) ≤ most value.now) }
{
    match *value {
        MemberValue::Number(number) => put_number(writer, number),
        MemberValue::Count(count) => writer.u64(count),
        MemberValue::Flag(flag) => writer.boolean(flag),
        MemberValue::Word(word) => writer.string(word),
        MemberValue::Kind(kind) => writer.string(kind_word(kind)),
        MemberValue::Field(field) => writer.string(field.word()),
        MemberValue::Reason(reason) => writer.string(reason_word(reason)),
        MemberValue::Name(name) => writer.string(name_text(name)),
        MemberValue::Address(address) => writer.string(address_text(address)),
        MemberValue::Numbers(numbers) => put_list(writer, numbers.as_slice()),
        MemberValue::Names(names) => put_list(writer, names.as_slice()),
        MemberValue::Tallies(tallies) => put_list(writer, tallies.as_slice()),
        MemberValue::Reaches(reaches) => put_list(writer, reaches.as_slice()),
    }
}

// Writes a key with what stands under it. An `Err` is want of memory.
fn put_member(writer: &mut Writer, member: &Member) -> Result<(), AllocError>
    requires { member_fits member.now ≡ true }
    ensures written { OnOk result (writer.new.tokens ≡ writer.old.tokens ++ member_tokens member.now) }
    ensures before { writer.new.before ≡ writer.old.before }
    ensures few { OnOk result (length (compact_text (said member.now.1)) ≤ most member.now.1) }
{
    writer.key(member.0)?;
    put_value(writer, &member.1)
}

// Writes an object of some members, whose keys are to ascend. An `Err` is want of memory.
pub(crate) fn put_object(writer: &mut Writer, members: &[Member]) -> Result<(), AllocError>
    requires { list_all member_fits members.now ≡ true }
    ensures written { OnOk result (writer.new.tokens ≡ writer.old.tokens ++ tokens_of (object (members_of members.now))) }
    ensures before { writer.new.before ≡ writer.old.before }
    ensures few { OnOk result (length (compact_text (object (members_of members.now))) ≤ most_of members.now) }
{
    writer.begin_object()?;
    'members: for member in members {
        put_member(writer, member)?;
    }
    writer.end_object()
}
