ghost use Rattle.std.specs.Prelude.{◌≡◌, true, not, filter, is_some, Some, IfOk, OnOk, OnErr};
ghost use Rattle.std.specs.Str.{bytes_eq};
ghost use Rattle.ctrl_model.specs.Numbered.{with_each};
ghost use Rattle.ctrl_model.specs.PolicyCommands.{replaced_by};
ghost use Rattle.ctrl_model.specs.State.{policy_named};
ghost use Rattle.policy_store.specs.Stores.{forget_on, with_same, put_listed, listed_number, can_list};

use ctrl_model::{Name, Names, Relation, Semantic, Side};
use record_tables::{Named, NamedTable};
use std::alloc::AllocError;
use std::marker::Model;

/// A policy: its name, what it grants, how its sides take attributes, and its two sides. Contracts see it as a policy of the
/// controller's state.
#[derive(Drop)]
pub struct Policy {
    pub name: Name,
    pub relation: Relation,
    pub semantic: Semantic,
    pub left: Side,
    pub right: Side,
}

impl Model for Policy {
    ghost use Rattle.ctrl_model.specs.State as state;

    ghost Value = { state.Policy };

    ghost view = { λ p. record { name = p.name; relation = p.relation; semantic = p.semantic; left = p.left; right = p.right } };
}

impl Named for Policy {
    ghost name_of = { λ p. p.name };

    fn name(&self) -> &[u8] {
        self.name.bytes()
    }
}

/// One of the two sides of a policy.
#[derive(Clone, Copy)]
pub enum Hand {
    Left,
    Right,
}

// Takes a name out of some.
fn forget_name(names: &mut Names, name: &Name)
    ensures { names.new ≡ filter (λ n. not (bytes_eq n name.now)) names.old }
{
    names.items.retain(|other| other.bytes() != name.bytes());
}

/// Takes an `@` name out of one side.
pub fn forget_on_side(policy: &mut Policy, hand: Hand, name: &Name)
    ensures { policy.new ≡ forget_on hand name.now policy.old }
{
    match hand {
        Hand::Left => forget_name(&mut policy.left.ids, name),
        Hand::Right => forget_name(&mut policy.right.ids, name),
    }
}

// Puts another policy's parts in place of all but the name.
fn replace_parts(policy: &mut Policy, other: Policy)
    ensures { policy.new ≡ replaced_by other policy.old }
{
    policy.relation = other.relation;
    policy.semantic = other.semantic;
    policy.left = other.left;
    policy.right = other.right;
}

// Puts a policy's parts in place of those of the one that has its name, whose number it answers.
fn replace_in(table: &mut NamedTable<Policy>, policy: Policy) -> u32
    requires { is_some (policy_named table.old.rows policy.name) ≡ true }
    ensures number { policy_named table.old.rows policy.name ≡ Some result }
    ensures ok { table.new ≡ with_same policy table.old }
{
    let number = table.find(policy.name.bytes()).unwrap();
    table.edit(number, move |kept| replace_parts(kept, policy));
    number
}

/// Puts a policy in the table of its kind, and answers its number: a fresh one under the next number, another in place of the one
/// that has its name.
pub fn put_in(
    table: &mut NamedTable<Policy>,
    policy: Policy,
    fresh: bool,
) -> Result<u32, AllocError>
    requires { can_list policy.name fresh table.old ≡ true }
    ensures number { IfOk result (λ n. n ≡ listed_number policy.name fresh table.old) }
    ensures ok { OnOk result (table.new ≡ put_listed policy fresh table.old) }
    ensures err { OnErr result (table.new ≡ table.old) }
{
    if fresh {
        return table.add(policy);
    }
    Ok(replace_in(table, policy))
}

/// Takes an `@` name out of one side of each policy.
pub fn forget_in(table: &mut NamedTable<Policy>, hand: Hand, name: &Name)
    ensures { table.new ≡ with_each (forget_on hand name.now) table.old }
{
    table.edit_each(&|policy| forget_on_side(policy, hand, name));
}
