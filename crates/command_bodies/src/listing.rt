ghost use Rattle.std.specs.Prelude.{◌≡◌, ◌∷◌, [], ◌++◌, codes, true, if◌then◌else◌, IfOk, OnOk, map};
ghost use Rattle.std.specs.List.{list_all};
ghost use Rattle.serde_json.specs.Data.{array, string};
ghost use Rattle.serde_json.specs.View.{view, items_of};
ghost use Rattle.ctrl_model.specs.AddressForm.{address_text, is_address};
ghost use Rattle.command_bodies.specs.WrittenFields.{natural, list_of, value_or_null, potential, two_ports};
ghost use Rattle.command_bodies.specs.WrittenWords.{protocol_words};
ghost use Rattle.command_bodies.specs.RoleEntries.{role_texts};

use crate::item_values::{ItemValue, list_value};
use crate::spelling::{address_text, name_text};
use ctrl_model::{
    Address, Addresses, Name, Names, Numbers, PortRange, PortRanges, Potentials, Reach, Reaches,
    Side,
};
use serde_json::{Map, Value, put};
use std::alloc::{AllocError, Global};

fn number_value(number: u32) -> Value
    ensures { view result ≡ natural number }
{
    Value::from(number)
}

impl ItemValue for u32 {
    ghost use Rattle.std.specs.Prelude.{true};
    ghost use Rattle.command_bodies.specs.WrittenFields.{natural};

    ghost spelled = { natural };

    ghost fits = { λ _. true };

    fn value(&self, _alloc: Global) -> Result<Value, AllocError> {
        Ok(number_value(*self))
    }
}

// A list of numbers.
pub(crate) fn numbers_value(alloc: Global, numbers: &Numbers) -> Result<Value, AllocError>
    ensures { IfOk result (λ v. view v ≡ list_of natural numbers.now) }
{
    list_value(alloc, numbers.as_slice())
}

fn name_value(alloc: Global, name: &Name) -> Result<Value, AllocError>
    ensures { IfOk result (λ v. view v ≡ string name.now) }
{
    Value::try_from_str(alloc, name_text(name))
}

impl ItemValue for Name {
    ghost use Rattle.std.specs.Prelude.{true};
    ghost use Rattle.serde_json.specs.Data.{string};

    ghost spelled = { string };

    ghost fits = { λ _. true };

    fn value(&self, alloc: Global) -> Result<Value, AllocError> {
        name_value(alloc, self)
    }
}

// A list of names.
pub(crate) fn names_value(alloc: Global, names: &Names) -> Result<Value, AllocError>
    ensures { IfOk result (λ v. view v ≡ list_of (λ t. string t) names.now) }
{
    list_value(alloc, names.as_slice())
}

// A name behind its mark.
fn marked_value(alloc: Global, mark: &str, name: &Name) -> Result<Value, AllocError>
    ensures { IfOk result (λ v. view v ≡ string (mark.now ++ name.now)) }
{
    let mut text = String::from_str(alloc, mark)?;
    text.push_str(name_text(name))?;
    Ok(Value::String(text))
}

// Puts names, each behind the mark, at the end of some values.
fn push_marked(
    alloc: Global,
    values: &mut Vec<Value>,
    mark: &str,
    names: &Names,
) -> Result<(), AllocError>
    ensures { OnOk result (map view values.new.items ≡ map view values.old.items ++ map (λ n. string (mark.now ++ n)) names.now) }
{
    'names: for name in names.as_slice() {
        values.push(marked_value(alloc, mark, name)?)?;
    }
    Ok(())
}

fn all_value(alloc: Global) -> Result<Value, AllocError>
    ensures { IfOk result (λ v. view v ≡ list_of (λ t. string t) (codes "#all" ∷ [])) }
{
    let mut values = Vec::new(alloc);
    values.push(Value::try_from_str(alloc, "#all")?)?;
    Ok(Value::Array(values))
}

fn marked_values(alloc: Global, side: &Side) -> Result<Vec<Value>, AllocError>
    ensures { IfOk result (λ v. map view v.items ≡ map (λ n. string (codes "@" ++ n)) side.now.ids ++ map (λ n. string (codes "#" ++ n)) side.now.attributes) }
{
    let mut values = Vec::new(alloc);
    push_marked(alloc, &mut values, "@", &side.ids)?;
    push_marked(alloc, &mut values, "#", &side.attributes)?;
    Ok(values)
}

// The role list of a side.
pub(crate) fn roles_value(alloc: Global, side: &Side) -> Result<Value, AllocError>
    ensures { IfOk result (λ v. view v ≡ list_of (λ t. string t) (role_texts side.now)) }
{
    if side.all {
        return all_value(alloc);
    }
    let values = marked_values(alloc, side)?;
    Ok(Value::Array(values))
}

fn cost_value(cost: u64) -> Value
    ensures { view result ≡ value_or_null cost }
{
    if cost == u64::MAX {
        Value::Null
    } else {
        Value::from(cost)
    }
}

impl ItemValue for u64 {
    ghost use Rattle.std.specs.Prelude.{true};
    ghost use Rattle.command_bodies.specs.WrittenFields.{value_or_null};

    ghost spelled = { value_or_null };

    ghost fits = { λ _. true };

    fn value(&self, _alloc: Global) -> Result<Value, AllocError> {
        Ok(cost_value(*self))
    }
}

fn costs_value(alloc: Global, costs: &Potentials) -> Result<Value, AllocError>
    ensures { IfOk result (λ v. view v ≡ array (items_of (map value_or_null costs.now))) }
{
    list_value(alloc, costs.as_slice())
}

fn reach_value(alloc: Global, reach: &Reach) -> Result<Value, AllocError>
    ensures { IfOk result (λ v. view v ≡ potential reach.now) }
{
    let mut members = Map::new(alloc);
    put(&mut members, alloc, "router", number_value(reach.router.0))?;
    let values = costs_value(alloc, &reach.values)?;
    put(&mut members, alloc, "values", values)?;
    Ok(Value::Object(members))
}

impl ItemValue for Reach {
    ghost use Rattle.std.specs.Prelude.{true};
    ghost use Rattle.command_bodies.specs.WrittenFields.{potential};

    ghost spelled = { potential };

    ghost fits = { λ _. true };

    fn value(&self, alloc: Global) -> Result<Value, AllocError> {
        reach_value(alloc, self)
    }
}

// A list of potentials.
pub(crate) fn reaches_value(alloc: Global, reaches: &Reaches) -> Result<Value, AllocError>
    ensures { IfOk result (λ v. view v ≡ list_of potential reaches.now) }
{
    list_value(alloc, reaches.as_slice())
}

// Puts a word at the end of some values, if it is said.
fn push_word(
    alloc: Global,
    values: &mut Vec<Value>,
    word: &str,
    is_said: bool,
) -> Result<(), AllocError>
    ensures { OnOk result (map view values.new.items ≡ map view values.old.items ++ (if is_said then string word.now ∷ [] else [])) }
{
    if is_said {
        values.push(Value::try_from_str(alloc, word)?)?;
    }
    Ok(())
}

fn protocol_values(alloc: Global, tcp: bool, udp: bool) -> Result<Vec<Value>, AllocError>
    ensures { IfOk result (λ v. map view v.items ≡ map (λ t. string t) (protocol_words tcp udp)) }
{
    let mut values = Vec::new(alloc);
    push_word(alloc, &mut values, "tcp", tcp)?;
    push_word(alloc, &mut values, "udp", udp)?;
    Ok(values)
}

// The list of the protocols of an intercept.
pub(crate) fn protocols_value(alloc: Global, tcp: bool, udp: bool) -> Result<Value, AllocError>
    ensures { IfOk result (λ v. view v ≡ list_of (λ t. string t) (protocol_words tcp udp)) }
{
    let values = protocol_values(alloc, tcp, udp)?;
    Ok(Value::Array(values))
}

// An address in its one spelling.
pub(crate) fn address_value(alloc: Global, address: &Address) -> Result<Value, AllocError>
    requires { is_address address.now ≡ true }
    ensures { IfOk result (λ v. view v ≡ string (address_text address.now)) }
{
    let spelling = address.text(alloc)?;
    Value::try_from_str(alloc, address_text(&spelling))
}

impl ItemValue for Address {
    ghost use Rattle.serde_json.specs.Data.{string};
    ghost use Rattle.ctrl_model.specs.AddressForm.{address_text, is_address};

    ghost spelled = { λ a. string (address_text a) };

    ghost fits = { is_address };

    fn value(&self, alloc: Global) -> Result<Value, AllocError> {
        address_value(alloc, self)
    }
}

// A list of addresses.
pub(crate) fn addresses_value(alloc: Global, addresses: &Addresses) -> Result<Value, AllocError>
    requires { list_all is_address addresses.now ≡ true }
    ensures { IfOk result (λ v. view v ≡ list_of (λ t. string t) (map address_text addresses.now)) }
{
    list_value(alloc, addresses.as_slice())
}

// A range of ports: the lowest and the highest.
fn range_value(alloc: Global, range: PortRange) -> Result<Value, AllocError>
    ensures { IfOk result (λ v. view v ≡ two_ports range) }
{
    let mut ports = Vec::new(alloc);
    ports.push(number_value(u32::from(range.low)))?;
    ports.push(number_value(u32::from(range.high)))?;
    Ok(Value::Array(ports))
}

impl ItemValue for PortRange {
    ghost use Rattle.std.specs.Prelude.{true};
    ghost use Rattle.command_bodies.specs.WrittenFields.{two_ports};

    ghost spelled = { two_ports };

    ghost fits = { λ _. true };

    fn value(&self, alloc: Global) -> Result<Value, AllocError> {
        range_value(alloc, *self)
    }
}

// A list of ranges of ports.
pub(crate) fn ranges_value(alloc: Global, ranges: &PortRanges) -> Result<Value, AllocError>
    ensures { IfOk result (λ v. view v ≡ list_of two_ports ranges.now) }
{
    list_value(alloc, ranges.as_slice())
}
