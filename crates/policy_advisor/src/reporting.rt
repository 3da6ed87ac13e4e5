ghost use Rattle.std.specs.Prelude.{◌≡◌, map, true, IfOk};
ghost use Rattle.std.specs.List.{list_all};
ghost use Rattle.std.specs.Option.{option_map_or};
ghost use Rattle.serde_json.specs.Data.{string};
ghost use Rattle.serde_json.specs.View.{view};
ghost use Rattle.serde_json.specs.Written.{compact_text};
ghost use Rattle.ctrl_model.specs.Numbered.{is_present};
ghost use Rattle.reply_codec.specs.ReplyBody.{denial_number as number_of_denial};
ghost use Rattle.policy_advisor.specs.AdvisedStates.{HasRouters};
ghost use Rattle.policy_advisor.specs.Reports.{mark_array, mark_arrays, report_line, report_object, router_name, router_names};

use crate::advised::{Advice, Marked, Marks};
use ctrl_model::{Bytes, Denial, Numbers, RouterNo};
use entity_store::Entities;
use reply_codec::{denial_number, name_value, numbers_value};
use serde_json::{Map, Value, json, put};
use std::alloc::{AllocError, Global};

// The name of a present router.
fn router_value(alloc: Global, entities: &Entities, number: u32) -> Result<Value, AllocError>
    requires { is_present entities.now.routers.rows number ≡ true }
    ensures { IfOk result (λ v. view v ≡ string (router_name entities.now.routers.rows number)) }
{
    let Some(router) = entities.router(RouterNo(number)) else {
        unreachable!()
    };
    name_value(alloc, router.name)
}

// The names of some present routers.
fn routers_value(alloc: Global, entities: &Entities, numbers: &Numbers) -> Result<Value, AllocError>
    requires { list_all (is_present entities.now.routers.rows) numbers.now ≡ true }
    ensures { IfOk result (λ v. view v ≡ router_names entities.now.routers.rows numbers.now) }
{
    let mut values = Vec::new(alloc);
    'numbers: for number in numbers.as_slice() {
        values.push(router_value(alloc, entities, *number)?)?;
    }
    Ok(Value::Array(values))
}

// What a policy says.
fn mark_value(alloc: Global, mark: &Marked) -> Result<Value, AllocError>
    ensures { IfOk result (λ v. view v ≡ mark_array mark.now) }
{
    let name = name_value(alloc, &mark.name)?;
    let (left, right) = (mark.left, mark.right);
    json!(in alloc; [name, left, right])
}

// What some policies say.
fn marks_value(alloc: Global, marks: &Marks) -> Result<Value, AllocError>
    ensures { IfOk result (λ v. view v ≡ mark_arrays marks.now) }
{
    let mut values = Vec::new(alloc);
    'marks: for mark in marks.as_slice() {
        values.push(mark_value(alloc, mark)?)?;
    }
    Ok(Value::Array(values))
}

// The number of a rule, 0 where there is none.
fn rule_number(rule: Option<Denial>) -> u32
    ensures { result ≡ option_map_or number_of_denial rule 0 }
{
    match rule {
        Some(denial) => denial_number(denial),
        None => 0,
    }
}

// The object of an advice.
fn report_value(alloc: Global, advice: &Advice, entities: &Entities) -> Result<Value, AllocError>
    requires { HasRouters entities.now.routers.rows advice.now }
    ensures { IfOk result (λ v. view v ≡ report_object entities.now.routers.rows advice.now) }
{
    let mut members = Map::new(alloc);
    let admissible = numbers_value(alloc, &advice.admissible)?;
    put(&mut members, alloc, "admissible", admissible)?;
    put(&mut members, alloc, "bind", Value::from(advice.bind))?;
    let common = routers_value(alloc, entities, &advice.common)?;
    put(&mut members, alloc, "common", common)?;
    put(&mut members, alloc, "dial", Value::from(advice.dial))?;
    let online = routers_value(alloc, entities, &advice.online)?;
    put(&mut members, alloc, "online", online)?;
    let policies = marks_value(alloc, &advice.policies)?;
    put(&mut members, alloc, "policies", policies)?;
    put(
        &mut members,
        alloc,
        "rule",
        Value::from(rule_number(advice.rule)),
    )?;
    let terminators = numbers_value(alloc, &advice.terminators)?;
    put(&mut members, alloc, "terminators", terminators)?;
    put(
        &mut members,
        alloc,
        "yes",
        Value::from(advice.rule.is_none()),
    )?;
    Ok(Value::Object(members))
}

/// The report of an advice whose routers are present: one line of compact JSON, with routers by their names (docs/FORMATS.md,
/// "Reports"). An `Err` is want of memory.
pub fn report(alloc: Global, advice: &Advice, entities: &Entities) -> Result<Bytes, AllocError>
    requires { HasRouters entities.now.routers.rows advice.now }
    ensures { IfOk result (λ line. line ≡ report_line entities.now.routers.rows advice.now) }
{
    let value = report_value(alloc, advice, entities)?;
    let mut line = value.to_vec(alloc)?;
    line.push(b'\n')?;
    Ok(Bytes::of(line))
}
