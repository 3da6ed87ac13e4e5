ghost use Rattle.std.specs.Prelude.{◌≡◌, ◌+◌, ◌*◌, ◌≤◌, ◌++◌, true, IfOk, OnOk, length, map};
ghost use Rattle.std.specs.List.{list_all};
ghost use Rattle.serde_json.specs.Data.{array, string};
ghost use Rattle.serde_json.specs.View.{view, items_of};
ghost use Rattle.serde_json.specs.Written.{compact_text};
ghost use Rattle.ctrl_model.specs.AddressForm.{is_spelling};
ghost use Rattle.ctrl_model.specs.ValueForms.{is_value};
ghost use Rattle.reply_codec.specs.ReplyBody.{natural, naturals, tally_array, cost_or_null, reach_object};
ghost use Rattle.reply_codec.specs.ReplyLimits.{is_short_reach};
ghost use Rattle.reply_codec.specs.ReplyTokens.{tokens_of};

use crate::spelled::{Spelled, put_list};
use ctrl_model::{Bytes, Name, Numbers, Potentials, Reach, Tally};
use json::Writer;
use serde_json::Value;
use std::alloc::{AllocError, Global};
use std::str;

/// A list of numbers: at most 11 bytes each, and 2. An `Err` is want of memory.
pub fn numbers_value(alloc: Global, numbers: &Numbers) -> Result<Value, AllocError>
    ensures value { IfOk result (λ v. view v ≡ naturals numbers.now) }
    ensures few { IfOk result (λ _. length (compact_text (naturals numbers.now)) ≤ 2 + 11 * length numbers.now) }
{
    let mut values = Vec::new(alloc);
    'numbers: for number in numbers.as_slice() {
        values.push(Value::from(*number))?;
    }
    Ok(Value::Array(values))
}

/// A name as a text: at most 386 bytes. An `Err` is want of memory.
pub fn name_value(alloc: Global, name: &Name) -> Result<Value, AllocError>
    ensures value { IfOk result (λ v. view v ≡ string name.now) }
    ensures few { IfOk result (λ _. length (compact_text (string name.now)) ≤ 386) }
{
    Value::try_from_str(alloc, name_text(name))
}

pub(crate) fn name_text(name: &Name) -> &str
    ensures value { result.now ≡ name.now }
    ensures few { length name.now ≤ 64 }
{
    str::from_utf8(name.bytes()).unwrap()
}

pub(crate) fn address_text(address: &Bytes) -> &str
    requires { is_spelling address.now ≡ true }
    ensures value { result.now ≡ address.now }
    ensures few { length address.now ≤ 255 }
{
    str::from_utf8(address.as_slice()).unwrap()
}

impl Spelled for u32 {
    ghost use Rattle.std.specs.Prelude.{true};
    ghost use Rattle.reply_codec.specs.ReplyBody.{natural};

    ghost spelled = { natural };

    ghost fits = { λ _. true };

    ghost most = { 10 };

    fn put(&self, writer: &mut Writer) -> Result<(), AllocError> {
        put_number(writer, *self)
    }
}

// Writes a number: at most 10 bytes.
pub(crate) fn put_number(writer: &mut Writer, number: u32) -> Result<(), AllocError>
    ensures written { OnOk result (writer.new.tokens ≡ writer.old.tokens ++ tokens_of (natural number)) }
    ensures before { writer.new.before ≡ writer.old.before }
    ensures few { OnOk result (length (compact_text (natural number)) ≤ 10) }
{
    writer.u64(u64::from(number))
}

impl Spelled for Name {
    ghost use Rattle.std.specs.Prelude.{true};
    ghost use Rattle.serde_json.specs.Data.{string};

    ghost spelled = { string };

    ghost fits = { λ _. true };

    ghost most = { 386 };

    fn put(&self, writer: &mut Writer) -> Result<(), AllocError> {
        put_name(writer, self)
    }
}

// Writes a name as a text: at most 386 bytes.
pub(crate) fn put_name(writer: &mut Writer, name: &Name) -> Result<(), AllocError>
    ensures written { OnOk result (writer.new.tokens ≡ writer.old.tokens ++ tokens_of (string name.now)) }
    ensures before { writer.new.before ≡ writer.old.before }
    ensures few { OnOk result (length (compact_text (string name.now)) ≤ 386) }
{
    writer.string(name_text(name))
}

impl Spelled for Tally {
    ghost use Rattle.std.specs.Prelude.{true};
    ghost use Rattle.reply_codec.specs.ReplyBody.{tally_array};

    ghost spelled = { tally_array };

    ghost fits = { λ _. true };

    ghost most = { 399 };

    fn put(&self, writer: &mut Writer) -> Result<(), AllocError> {
        put_tally(writer, self)
    }
}

// Writes a name and its count: at most 399 bytes.
fn put_tally(writer: &mut Writer, tally: &Tally) -> Result<(), AllocError>
    ensures written { OnOk result (writer.new.tokens ≡ writer.old.tokens ++ tokens_of (tally_array tally.now)) }
    ensures before { writer.new.before ≡ writer.old.before }
    ensures few { OnOk result (length (compact_text (tally_array tally.now)) ≤ 399) }
{
    writer.begin_array()?;
    put_name(writer, &tally.name)?;
    put_number(writer, tally.count)?;
    writer.end_array()
}

impl Spelled for u64 {
    ghost use Rattle.ctrl_model.specs.ValueForms.{is_value};
    ghost use Rattle.reply_codec.specs.ReplyBody.{cost_or_null};

    ghost spelled = { cost_or_null };

    ghost fits = { is_value };

    ghost most = { 10 };

    fn put(&self, writer: &mut Writer) -> Result<(), AllocError> {
        put_cost(writer, *self)
    }
}

// Writes a cost, or null where there is no path: at most 10 bytes.
fn put_cost(writer: &mut Writer, cost: u64) -> Result<(), AllocError>
    requires { is_value cost ≡ true }
    ensures written { OnOk result (writer.new.tokens ≡ writer.old.tokens ++ tokens_of (cost_or_null cost)) }
    ensures before { writer.new.before ≡ writer.old.before }
    ensures few { OnOk result (length (compact_text (cost_or_null cost)) ≤ 10) }
{
    if cost == u64::MAX {
        writer.null()
    } else {
        writer.u64(cost)
    }
}

impl Spelled for Reach {
    ghost use Rattle.reply_codec.specs.ReplyBody.{reach_object};
    ghost use Rattle.reply_codec.specs.ReplyLimits.{is_short_reach};

    ghost spelled = { reach_object };

    ghost fits = { is_short_reach };

    ghost most = { 2_999 };

    fn put(&self, writer: &mut Writer) -> Result<(), AllocError> {
        put_reach(writer, self)
    }
}

// Writes a list of costs: at most 11 bytes each, and 2.
fn put_costs(writer: &mut Writer, costs: &Potentials) -> Result<(), AllocError>
    requires { list_all is_value costs.now ≡ true }
    ensures written { OnOk result (writer.new.tokens ≡ writer.old.tokens ++ tokens_of (array (items_of (map cost_or_null costs.now)))) }
    ensures before { writer.new.before ≡ writer.old.before }
    ensures few { OnOk result (length (compact_text (array (items_of (map cost_or_null costs.now)))) ≤ 2 + 11 * length costs.now) }
{
    put_list(writer, costs.as_slice())
}

// Writes an entry of at most 256 values: at most 2,999 bytes.
fn put_reach(writer: &mut Writer, reach: &Reach) -> Result<(), AllocError>
    requires { is_short_reach reach.now ≡ true }
    ensures written { OnOk result (writer.new.tokens ≡ writer.old.tokens ++ tokens_of (reach_object reach.now)) }
    ensures before { writer.new.before ≡ writer.old.before }
    ensures few { OnOk result (length (compact_text (reach_object reach.now)) ≤ 2_999) }
{
    writer.begin_object()?;
    writer.key("router")?;
    put_number(writer, reach.router.0)?;
    writer.key("values")?;
    put_costs(writer, &reach.values)?;
    writer.end_object()
}
